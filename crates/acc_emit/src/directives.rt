//! Directives with data clauses.

use crate::items::{Written, fit_one_directive};
use crate::pieces::Piece;
use crate::pointers::pointer_section;
use crate::sheets::Sheet;
use acc_base::{Did, Directive, Section};
use std::alloc::Global;

/// A directive without its items: what stands before them, and behind them.
#[derive(Clone, Copy)]
pub struct DirectiveFrame {
    /// The words before the clauses, as `enter data`.
    pub head: &'static str,
    /// An option behind them, with a blank before it; empty where it has none.
    pub option: &'static str,
    /// The call that detaches its pointers before it. Without one each is attached behind it.
    pub detach: Option<&'static str>,
    /// Whether a block follows.
    pub opens: bool,
}

/// Returns the frame of a directive; `None` where it has no data clause.
pub fn frame_of(directive: &Directive) -> Option<DirectiveFrame> {
    let detach = "acc_detach";
    let detach_finalize = "acc_detach_finalize";
    let (head, option, detach) = match directive {
        Directive::Enter { .. } => ("data", "", None),
        Directive::EnterData { .. } => ("enter data", "", None),
        Directive::ExitData {
            finalize: false,
            ..
        } => ("exit data", "", Some(detach)),
        Directive::ExitData { .. } => ("exit data", " finalize", Some(detach_finalize)),
        Directive::Update {
            if_present: false,
            ..
        } => ("update", "", None),
        Directive::Update { .. } => ("update", " if_present", None),
        _ => return None,
    };
    let opens = matches!(directive, Directive::Enter { .. });
    Some(DirectiveFrame {
        head,
        option,
        detach,
        opens,
    })
}

/// Returns the items of a directive with what each of them did, as far as that is known.
pub fn written_items(
    alloc: Global,
    sheet: &mut Sheet,
    directive: &Directive,
    did: &[Did],
) -> Vec<Written> {
    let mut items = Vec::new(alloc);
    for place in 0..directive.item_count() {
        if let Some(task) = directive.task(place) {
            let did = did.get(place).copied().unwrap_or_default();
            sheet.heed(items.push(Written::new(task, did)).is_ok());
        }
    }
    items
}

/// Puts a directive, or one for each item where it needs that. Items act one after the other, so both do the same.
pub fn put_directive(sheet: &mut Sheet, frame: DirectiveFrame, items: &[Written]) {
    if fit_one_directive(&sheet.names, items) {
        put_clauses(sheet, frame, items);
        if frame.opens {
            sheet.open_block();
        }
        return;
    }
    for item in items {
        put_item(sheet, frame, *item);
    }
}

/// Puts an item as a directive of its own, with the call for its pointer. An item without a section is a comment, and
/// opens its block all the same.
fn put_item(sheet: &mut Sheet, frame: DirectiveFrame, item: Written) {
    if let Some(detach) = frame.detach {
        put_call(sheet, detach, item.pointer());
    }
    if item.is_clause() {
        put_clause_alone(sheet, frame, item);
    } else if !item.task.names_pointer() {
        sheet.remark("an empty section: no action");
    } else if item.pointer().is_none() {
        sheet.remark("the pointer stays as it is: no action");
    }
    if frame.opens {
        sheet.open_block();
    }
    if item.zero && item.is_born() {
        put_fill(sheet, item.section());
    }
    if frame.detach.is_none() {
        put_call(sheet, "acc_attach", item.pointer());
    }
}

/// Puts an item as a directive of its own. A compiler that does not know the modifier `zero` gets it without.
fn put_clause_alone(sheet: &mut Sheet, frame: DirectiveFrame, item: Written) {
    if !item.zero {
        return put_clauses(sheet, frame, &[item]);
    }
    let without_zero = Written {
        zero: false,
        ..item
    };
    sheet.put("#if KNOWS_ZERO\n", &[]);
    put_clauses(sheet, frame, &[item]);
    sheet.put("#else\n", &[]);
    put_clauses(sheet, frame, &[without_zero]);
    sheet.put("#endif\n", &[]);
}

/// Fills the new block of an item with the modifier `zero`, for a compiler that does not know it.
fn put_fill(sheet: &mut Sheet, section: Section) {
    sheet.need(section.len);
    sheet.put("#if !KNOWS_ZERO\n", &[]);
    sheet.call("fill_with_zero(%)", &[Piece::Argument(section)]);
    sheet.put("#endif\n", &[]);
}

fn put_clauses(sheet: &mut Sheet, frame: DirectiveFrame, items: &[Written]) {
    sheet.line("#pragma acc %", "!$acc %", &[Piece::Text(frame.head)]);
    for item in items {
        put_clause(sheet, *item);
    }
    // All items of a directive have its queue.
    if let Some(item) = items.first()
        && let Some(queue) = item.task.queue()
    {
        sheet.put(" async(%)", &[Piece::Number(queue)]);
    }
    sheet.put("%\n", &[Piece::Text(frame.option)]);
}

fn put_clause(sheet: &mut Sheet, item: Written) {
    let text = if item.zero { " %(zero: %)" } else { " %(%)" };
    let pieces = [Piece::Text(item.task.word()), Piece::Part(item.section())];
    sheet.put(text, &pieces);
}

/// Puts a `wait` for a queue, or for all (OpenACC 3.3, the wait directive).
pub fn put_wait(sheet: &mut Sheet, queue: Option<u64>) {
    match queue {
        Some(queue) => {
            let queue = Piece::Number(queue);
            sheet.line("#pragma acc wait(%)\n", "!$acc wait(%)\n", &[queue]);
        }
        None => sheet.line("#pragma acc wait\n", "!$acc wait\n", &[]),
    }
}

/// Puts the call that attaches or detaches a pointer, if there is one.
pub fn put_call(sheet: &mut Sheet, call: &str, pointer: Option<u64>) {
    if let Some(pointer) = pointer {
        let pieces = [Piece::Text(call), Piece::Start(pointer_section(pointer))];
        sheet.line("%((void **)(%));\n", "call %(%)\n", &pieces);
    }
}
