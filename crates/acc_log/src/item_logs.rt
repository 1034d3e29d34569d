//! What the log prints of one item.

ghost use Rattle.std.specs.Prelude.{◌≤◌, length};

use crate::log_lines::{Tail, put_mark, put_tail};
use crate::logs::Log;
use crate::rows::{reach_item, reach_pointer};
use acc_base::{Aim, Did, Holding, Section, Step, Task, Transfer};
use acc_read::Names;
use acc_script::Line;
use acc_stale::Held;

/// An item of a directive, for every directive alike.
#[derive(Clone, Copy)]
pub struct LogItem {
    /// Its place in the directive, counted from 0.
    pub place: usize,
    /// What it asked.
    pub task: Task,
    /// What it did.
    pub did: Did,
    /// The block of its step, as the item left it. Where it did nothing, that which has its section, or the pointer of
    /// `attach` and `detach`. One that a later item mapped is not known yet.
    pub held: Option<Held>,
    /// How often its pointer was attached before.
    pub count: u64,
    /// What it copied, or put into its queue.
    pub transfer: Option<Transfer>,
}

/// A copy between host memory and a device, made or put into a queue.
#[derive(Clone, Copy)]
pub struct Copied {
    /// The section of host memory.
    pub section: Section,
    /// The device address of its first byte.
    pub place: u64,
    /// True for a copy from the device to host memory, false for one to the device.
    pub out: bool,
    /// The queue into which it was put, or `None` where it was made at once.
    pub queue: Option<u64>,
}

impl Copied {
    /// A transfer of a block that lies at a device address.
    pub fn of(transfer: Transfer, place: u64, queue: Option<u64>) -> Copied {
        Copied {
            section: transfer.section,
            place: place.saturating_add(transfer.offset),
            out: transfer.out,
            queue,
        }
    }
}

impl Log {
    /// Puts the lines of an item: its pointer, its copy, its mapping, in the order in which it did something to them.
    pub(crate) fn tell_item(&mut self, names: &Names, item: &LogItem) {
        match item.task {
            Task::Enter { .. } => {
                self.tell_step(names, item);
                self.tell_aim(names, item);
            }
            Task::ExitRegion { holding } => self.tell_holding(names, item, &holding),
            Task::ExitData { .. } => {
                self.tell_aim(names, item);
                self.tell_step(names, item);
            }
            Task::Move { .. } => self.tell_step(names, item),
        }
    }

    /// Puts what became of an item that a region held; nothing where its entry did nothing.
    fn tell_holding(&mut self, names: &Names, item: &LogItem, holding: &Holding) {
        if holding.aim.is_some() {
            self.tell_aim(names, item);
            if matches!(item.did.aim, Aim::None) {
                reach_pointer(&mut self.rows, &item.task, "gone");
            }
        }
        if holding.block.is_some() {
            self.tell_step(names, item);
        } else {
            reach_item(&mut self.rows, &item.task, "nothing");
        }
    }

    /// Puts what an item did to a mapping and to bytes.
    fn tell_step(&mut self, names: &Names, item: &LogItem) {
        match (item.did.step, item.held) {
            (Step::Nothing, _) => self.tell_nothing(names, item),
            (Step::Moved { .. }, Some(held)) => {
                reach_item(&mut self.rows, &item.task, "inside");
                self.tell_copy(names, item, held);
            }
            (_, Some(held)) => self.tell_left(names, item, held),
            (_, None) => {}
        }
    }

    /// Puts the lines of an item's mapping, with the counters that it left, and of its copy.
    fn tell_left(&mut self, names: &Names, item: &LogItem, left: Held) {
        let (task, section) = (&item.task, item.task.section());
        reach_item(&mut self.rows, task, way_of(task, item.did.step));
        self.totals.count(item.did.step);
        let nth = Some(item.place);
        match item.did.step {
            Step::Born { .. } => {
                self.put_range(names, nth, "mapped", left);
                self.tell_copy(names, item, left);
            }
            Step::Counted { .. } => {
                self.put_range(names, nth, "counted", left);
                if task.gets_bytes() {
                    self.put(names, nth, "skipped in", section, None, Tail::Present);
                }
            }
            Step::Dropped { ended: true, .. } => {
                self.tell_copy(names, item, left);
                let place = Some(left.placed.place);
                self.put(names, nth, "ended", left.range.section, place, Tail::None);
            }
            Step::Dropped { .. } => {
                if task.gives_bytes() {
                    self.put(names, nth, "skipped out", section, None, Tail::Held);
                }
                self.put_range(names, nth, "dropped", left);
            }
            _ => {}
        }
    }

    /// Puts the line of an item that did nothing. The section is empty or absent, or nothing of `enter data` counts it.
    /// An item of `attach` or `detach` names none, and gets no line.
    fn tell_nothing(&mut self, names: &Names, item: &LogItem) {
        let (task, section) = (&item.task, item.task.section());
        if task.names_pointer() {
            return;
        }
        reach_pointer(&mut self.rows, task, "nothing");
        if section.len == 0 {
            reach_item(&mut self.rows, task, "empty");
            self.put_empty(item.place);
        } else if let Some(held) = item.held {
            reach_item(&mut self.rows, task, "inside, uncounted");
            self.put_range(names, Some(item.place), "kept", held);
        } else {
            reach_item(&mut self.rows, task, "absent");
            let nth = Some(item.place);
            self.put(names, nth, "absent", section, None, Tail::None);
        }
    }

    /// Puts the line of an item's copy, if its step has one: made at once, or put into its queue.
    fn tell_copy(&mut self, names: &Names, item: &LogItem, held: Held) {
        if let Some(transfer) = item.transfer {
            let copied = Copied::of(transfer, held.placed.place, item.task.queue());
            self.put_copy(names, Some(item.place), copied, copied.queue.is_some());
        }
    }

    /// Puts the line of a copy that was put into its queue, or made.
    pub(crate) fn put_copy(
        &mut self,
        names: &Names,
        item: Option<usize>,
        copied: Copied,
        is_put: bool,
    ) {
        if !is_put {
            self.totals.copied(copied.out, copied.section.len);
        }
        let (word, tail) = (copy_word(is_put, copied.out), Tail::Queue(copied.queue));
        self.put(names, item, word, copied.section, Some(copied.place), tail);
    }

    /// Puts the line of a mapped range with its counters.
    fn put_range(&mut self, names: &Names, item: Option<usize>, word: &str, held: Held)
        requires short { length word.now ≤ 11 }
    {
        self.texts.note(names, held);
        let Held { placed, range, .. } = held;
        let tail = Tail::Counters(range.structured, range.dynamic);
        self.put(names, item, word, range.section, Some(placed.place), tail);
    }

    /// Puts a line of a section: its word, behind the place of the item if there is one, and its addresses.
    #[inline(always)]
    pub(crate) fn put(
        &mut self,
        names: &Names,
        item: Option<usize>,
        word: &str,
        section: Section,
        place: Option<u64>,
        tail: Tail,
    )
        requires short { length word.now ≤ 11 }
    {
        if self.opens(word) {
            return self.end_section(names, item, section, place, tail);
        }
        let mut line = Line::new();
        self.texts.put_name(&mut line, names, section);
        put_tail(&mut line, tail);
        self.texts.put_front(&mut line, section, place);
        put_mark(&mut line, item, word);
        self.page.bytes(line.as_slice());
    }

    /// Puts what an item did to its pointer.
    #[inline(always)]
    fn tell_aim(&mut self, names: &Names, item: &LogItem) {
        if let Some(pointer) = aimed(item.did.aim) {
            self.tell_pointer(names, item, pointer);
        } else if item.task.names_pointer() {
            self.tell_no_aim(names, item);
        }
    }

    fn tell_pointer(&mut self, names: &Names, item: &LogItem, pointer: u64) {
        let aim = item.did.aim;
        let (count, way) = left_by(aim, item.count);
        reach_pointer(&mut self.rows, &item.task, way);
        let (word, target) = match aim {
            Aim::New { target, .. } => ("attached", Some(target)),
            Aim::Again { .. } => ("attached", None),
            _ => ("detached", None),
        };
        let aimed = (pointer, target, Some(count));
        self.put_pointer(names, item.place, word, aimed);
    }

    /// Puts the line of a clause that is of pointers alone, where its item did nothing.
    fn tell_no_aim(&mut self, names: &Names, item: &LogItem) {
        let way = way_unaimed(&item.task, item.held.is_some());
        reach_pointer(&mut self.rows, &item.task, way);
        let aimed = (item.task.section().start, None, None);
        self.put_pointer(names, item.place, "unattached", aimed);
    }
}

/// The word of a copy that was put into a queue or made, out of the device or into it.
fn copy_word(is_put: bool, out: bool) -> &'static str
    ensures { length result.now ≤ 11 }
{
    match (is_put, out) {
        (true, true) => "put out",
        (true, false) => "put in",
        (false, true) => "copied out",
        (false, false) => "copied in",
    }
}

/// What became of a mapping that an item named, as the rows name it.
fn way_of(task: &Task, step: Step) -> &'static str {
    let is_region = matches!(task, Task::ExitRegion { .. });
    match step {
        Step::Born { .. } => "absent",
        Step::Dropped { ended: true, .. } if is_region => "ends",
        Step::Dropped { ended: true, .. } => "inside, ends",
        Step::Dropped { .. } if is_region => "stays",
        Step::Dropped { .. } => "inside, stays",
        _ => "inside",
    }
}

/// Why nothing became of a pointer that is or is not in a mapped range, as the rows name it.
fn way_unaimed(task: &Task, is_there: bool) -> &'static str {
    if !is_there {
        "no pointer"
    } else if task.goes_out() {
        "unattached"
    } else {
        "no target"
    }
}

/// The pointer that an item attached or detached.
#[inline(always)]
fn aimed(aim: Aim) -> Option<u64> {
    match aim {
        Aim::None => None,
        Aim::New { pointer, .. }
        | Aim::Again { pointer, .. }
        | Aim::Less { pointer, .. }
        | Aim::Cleared { pointer, .. } => Some(pointer),
    }
}

/// How often a pointer is attached that was attached so often, and what became of it, as the rows name it.
fn left_by(aim: Aim, was: u64) -> (u64, &'static str) {
    match aim {
        Aim::None => (was, "last"),
        Aim::New { .. } if was > 0 => (1, "another target"),
        Aim::New { .. } => (1, "new"),
        Aim::Again { .. } => (was.saturating_add(1), "again"),
        Aim::Less { .. } if was > 1 => (was.saturating_sub(1), "one of more"),
        Aim::Less { .. } => (0, "last"),
        Aim::Cleared { .. } if was > 1 => (0, "several"),
        Aim::Cleared { .. } => (0, "last"),
    }
}
