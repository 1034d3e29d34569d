//! Lists that note where there was no memory.

use std::alloc::Global;

/// A list that grows. What found no memory is left out, and noted.
#[derive(Drop)]
pub struct List<T> {
    /// What is in it.
    pub all: Vec<T>,
    /// Whether there was no memory for some of it.
    pub wants: bool,
}

impl<T: Drop> List<T> {
    /// Returns an empty list.
    pub fn new(alloc: Global) -> List<T> {
        List {
            all: Vec::new(alloc),
            wants: false,
        }
    }

    /// Adds one.
    pub fn add(&mut self, one: T) {
        self.wants |= self.all.push(one).is_err();
    }
}
