//! Directives that are done.

use crate::directives::{frame_of, put_directive, put_wait, written_items};
use crate::emitters::Emitter;
use crate::faults::Reason;
use crate::items::Written;
use crate::marks::Marks;
use crate::pointers::{pointer_section, word_at};
use crate::regions::NestedRegion;
use crate::twins::DEVICE;
use crate::waits::{WaitingCopy, common};
use acc_base::{Did, Directive, Section};
use acc_table::Table;

/// Emits a directive that was done on the script's own table.
pub fn emit_directive(emitter: &mut Emitter<'_>, own: &Table, directive: &Directive) {
    let did = match own.trace().last() {
        Some(event) => event.did(),
        None => &[],
    };
    if emit_items(emitter, own, directive, did) {
        return;
    }
    match directive {
        Directive::Exit { .. } => emit_end(emitter, own, did),
        Directive::Wait { queue, .. } => {
            emitter.marks.forget_waits(*queue);
            put_wait(&mut emitter.sheet, *queue);
        }
        _ => emitter
            .sheet
            .remark("a copy of the queue may be made now, or later"),
    }
}

/// Emits a directive with data clauses, of which each item did what is told, or nothing, and opens its region if it starts
/// one. False for another directive.
pub fn emit_items(
    emitter: &mut Emitter<'_>,
    own: &Table,
    directive: &Directive,
    did: &[Did],
) -> bool {
    let Some(frame) = frame_of(directive) else {
        return false;
    };
    let items = written_items(emitter.alloc, &mut emitter.sheet, directive, did);
    note_all(emitter, own, &items);
    put_directive(&mut emitter.sheet, frame, &items);
    if frame.opens {
        let entry = own.trace().len().saturating_sub(1);
        let region = NestedRegion::new(&emitter.sheet, entry, items);
        let is_kept = emitter.regions.push(region).is_ok();
        emitter.sheet.heed(is_kept);
    }
    true
}

fn emit_end(emitter: &mut Emitter<'_>, own: &Table, did: &[Did]) {
    let Some(mut region) = emitter.regions.pop() else {
        return;
    };
    if let Some(entry) = own.trace().get(region.entry) {
        region.undo(entry, did);
    }
    note_all(emitter, own, &region.items);
    region.put_end(&mut emitter.sheet);
}

/// Notes what the items of a directive did, in a queue or at once, and where a program cannot have it.
fn note_all(emitter: &mut Emitter<'_>, own: &Table, items: &[Written]) {
    let mut has_ended = false;
    for (nth, item) in items.iter().enumerate() {
        let before = items.get(..nth).unwrap_or(&[]);
        let (marks, twin) = (&emitter.marks, &emitter.twin.table);
        if item.copied_block().is_some() && has_attached(marks, twin, before, item.section()) {
            emitter.sheet.unfit(Reason::AttachedCopied);
        }
        check_ended(emitter, *item);
        note(emitter, *item);
        check_attached(emitter, own, *item);
        has_ended |= item.ended_block().is_some();
    }
    if has_ended {
        emitter.marks.give_up_lost(own);
    }
}

/// Whether a pointer in a section was attached before the directive, which the twin has yet to do, and not detached by
/// the items before it.
fn has_attached(marks: &Marks, twin: &Table, before: &[Written], section: Section) -> bool {
    for pointer in &marks.pointers {
        let place = pointer.place;
        if common(pointer_section(place), section).len > 0
            && detached(before, place) < twin.attachment(DEVICE, place)
        {
            return true;
        }
    }
    false
}

/// How many items detach the pointer at a place.
fn detached(items: &[Written], place: u64) -> u64 {
    let mut count = 0u64;
    for item in items {
        if item.pointer() == Some(place) {
            count = count.saturating_add(1);
        }
    }
    count
}

/// Checks the pointer that an item attached. Some `point` has to have written it, since only then has it an address in
/// the program too. No copy of it may wait.
fn check_attached(emitter: &mut Emitter<'_>, own: &Table, item: Written) {
    let Some(place) = item.attached() else {
        return;
    };
    if emitter.marks.is_racing(pointer_section(place)) {
        emitter.sheet.unfit(Reason::Unsettled);
    }
    let target = word_at(own, place, false);
    let twin = word_at(&emitter.twin.table, place, false);
    if target != twin || !emitter.marks.has_pointer(place, target) {
        emitter.sheet.unfit(Reason::Unpointed);
    }
}

/// Checks that no copy of a block waits in another queue when its mapping ends. OpenACC does not say whether the block
/// is there until such a copy is made.
fn check_ended(emitter: &mut Emitter<'_>, item: Written) {
    let (ended, queue) = (item.ended_block(), item.task.queue());
    for copy in &emitter.marks.waits {
        if ended == Some(copy.block) && queue != Some(copy.queue) {
            emitter.sheet.unfit(Reason::Unsettled);
        }
    }
}

/// Notes the copy that an item made or put into a queue, and the pointer that it changed on the device.
fn note(emitter: &mut Emitter<'_>, item: Written) {
    let Emitter {
        marks,
        sheet,
        births,
        ..
    } = emitter;
    let (section, queue) = (item.section(), item.task.queue());
    if let Some(place) = item.pointer() {
        marks.touch(pointer_section(place), None);
    }
    if item.is_left_open() {
        sheet.heed(births.push(section).is_ok());
    }
    let Some(block) = item.copied_block() else {
        return;
    };
    marks.copy(section, queue);
    if let Some(queue) = queue {
        let copy = WaitingCopy {
            queue,
            block,
            section,
        };
        sheet.heed(marks.waits.push(copy).is_ok());
    }
}
