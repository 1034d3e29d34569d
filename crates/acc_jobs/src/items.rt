//! Items of directives.

use acc_base::{HOST_BASE, Item, List, Section};
use std::alloc::{AllocError, Global};

/// A section of host memory: its first byte, counted from the start of that memory, and its length.
pub fn section(at: u64, len: u64) -> Section {
    Section {
        start: HOST_BASE.wrapping_add(at),
        len,
    }
}

/// An item of a clause, without a pointer.
pub fn item<C>(clause: C, section: Section) -> Item<C> {
    Item {
        clause,
        section,
        pointer: None,
    }
}

/// A list of one item.
pub fn one<C>(clause: C, section: Section) -> List<Item<C>> {
    List::one(item(clause, section))
}

/// Sections of host memory that have one length and lie at equal distances.
#[derive(Clone, Copy)]
pub struct Row {
    /// Where the first begins, counted from the start of host memory.
    pub first: u64,
    /// How many bytes lie from the start of one to the start of the next.
    pub apart: u64,
    /// The length of each.
    pub len: u64,
    /// How many there are, one at least.
    pub count: u64,
}

impl Row {
    /// The section of a number. Numbers begin at 0, and behind the last section the first comes again.
    pub fn at(self, number: u64) -> Section {
        let nth = number % self.count.max(1);
        section(
            self.first.wrapping_add(nth.wrapping_mul(self.apart)),
            self.len,
        )
    }

    /// The section from the start of the first to the end of the last.
    pub fn all(self) -> Section {
        let behind = self.count.saturating_sub(1).wrapping_mul(self.apart);
        section(self.first, behind.wrapping_add(self.len))
    }

    /// Items of a clause for `count` sections: that of number `first`, and then each whose number is `stride` higher.
    pub fn items<C: Copy + Drop>(
        self,
        alloc: Global,
        clause: C,
        first: u64,
        stride: u64,
        count: u64,
    ) -> Result<Vec<Item<C>>, AllocError> {
        let mut items = Vec::with_capacity(alloc, count as usize)?;
        for nth in 0..count {
            let number = first.wrapping_add(nth.wrapping_mul(stride));
            items.push(item(clause, self.at(number)))?;
        }
        Ok(items)
    }
}
