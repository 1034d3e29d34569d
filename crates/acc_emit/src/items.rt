//! The items of a directive, as programs write them.

use acc_base::{Aim, Did, Section, Step, Task};
use acc_read::Names;

/// An item of a data clause, as programs write it, and what it did.
#[derive(Clone, Copy)]
pub struct Written {
    /// What it asks.
    pub task: Task,
    /// Whether it has the modifier `zero`.
    pub zero: bool,
    /// What it did, or what its end did; nothing where the directive is refused.
    pub did: Did,
}

impl Written {
    /// Returns the item that asks this, and did that.
    pub fn new(task: Task, did: Did) -> Written {
        let zero = match task {
            Task::Enter { item, .. } => item.clause.is_zeroed(),
            _ => false,
        };
        Written { task, zero, did }
    }

    /// Returns its section.
    pub fn section(self) -> Section {
        self.task.section()
    }

    /// Whether a data clause of a program can name it: it names no pointer alone, and its section is not empty.
    pub fn is_clause(self) -> bool {
        !self.task.names_pointer() && self.section().len > 0
    }

    /// Whether it was mapped to a new block.
    pub fn is_born(self) -> bool {
        matches!(self.did.step, Step::Born { .. })
    }

    /// Whether it was mapped to a new block, whose bytes nothing fills.
    pub fn is_left_open(self) -> bool {
        self.is_born() && !self.zero && self.copied_block().is_none()
    }

    /// Returns the host address of the pointer that it attached or detached.
    pub fn pointer(self) -> Option<u64> {
        match self.did.aim {
            Aim::None => None,
            Aim::New { pointer, .. }
            | Aim::Again { pointer, .. }
            | Aim::Less { pointer, .. }
            | Aim::Cleared { pointer, .. } => Some(pointer),
        }
    }

    /// Returns the host address of the pointer that it attached.
    pub fn attached(self) -> Option<u64> {
        Some(self.did.aim.pointer_attached()?.0)
    }

    /// Returns the number of the block whose mapping it ended.
    pub fn ended_block(self) -> Option<u64> {
        match self.did.step {
            Step::Dropped { block, ended: true } => Some(block),
            _ => None,
        }
    }

    /// Returns the number of the block to or from which it copied its section, at once or by a queue.
    pub fn copied_block(self) -> Option<u64> {
        match self.did.step {
            Step::Born { block, .. } | Step::Dropped { block, .. } | Step::Moved { block } => {
                self.task.copies(self.did.step).then_some(block)
            }
            _ => None,
        }
    }
}

/// Whether one directive can have all of the items: each names another array, as compilers ask. None has a pointer, since
/// a call attaches it before the next item. None has the modifier `zero`, which not each compiler knows.
pub fn fit_one_directive(names: &Names, items: &[Written]) -> bool {
    for (nth, item) in items.iter().enumerate() {
        if !item.is_clause() || item.pointer().is_some() || item.zero {
            return false;
        }
        for other in items.iter().take(nth) {
            if array_start(names, other.section()) == array_start(names, item.section()) {
                return false;
            }
        }
    }
    !items.is_empty()
}

fn array_start(names: &Names, section: Section) -> Option<u32> {
    Some(names.spot(section.start)?.array.start)
}
