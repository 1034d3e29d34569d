//! The copies that wait in queues.

use acc_base::Section;

/// A copy that is in a queue, and that no `wait` has made.
///
/// A runtime makes it when it likes, each queue in its order (OpenACC 3.3, section 2.16). So what reads or writes the
/// same bytes meanwhile, and is not in the same queue, may come before it or behind it.
#[derive(Clone, Copy)]
pub struct WaitingCopy {
    /// The number of the queue.
    pub queue: u64,
    /// The number of the block to or from which it copies.
    pub block: u64,
    /// The bytes that it copies.
    pub section: Section,
}

impl WaitingCopy {
    /// Returns the bytes of a section that it has too, if it waits in another queue than this one; else none.
    pub fn shared(self, section: Section, queue: Option<u64>) -> Section {
        if queue == Some(self.queue) {
            return Section { start: 0, len: 0 };
        }
        common(self.section, section)
    }
}

/// Returns the bytes that two sections have in common.
pub fn common(one: Section, other: Section) -> Section {
    let start = one.start.max(other.start);
    let end = one.start.saturating_add(one.len);
    let other_end = other.start.saturating_add(other.len);
    let len = end.min(other_end).saturating_sub(start);
    Section { start, len }
}
