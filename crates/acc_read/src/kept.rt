//! A list that is filled while a line is read.

ghost use Rattle.std.specs.Prelude.{◌≡◌, ◌==◌, ◌∷◌, ◌++◌, [], false, IfOk, IsOk, List, length, vec_len, vec_capacity, MatchResult};
ghost use Rattle.acc_read.specs.Meanings.{IsKept, IsFinished};

use acc_base::List as Items;
use std::alloc::{AllocError, Global};

/// A copy that has no room to spare.
///
/// # Errors
///
/// Where there is no memory for it.
fn fitted<T: Copy>(alloc: Global, items: &[T]) -> Result<Vec<T>, AllocError>
    ensures same { IfOk result (λ copy. copy.items ≡ items.now) }
    ensures fits { IfOk result (λ copy. vec_capacity copy ≡ vec_len copy) }
    ensures needed { items.now ≡ [] → IsOk result }
{
    let mut copy = Vec::with_capacity(alloc, items.len())?;
    for item in items {
        copy.push_reserved(*item);
    }
    Ok(copy)
}

/// What the items of a line come to at its end.
#[derive(Drop)]
enum Finished<T> {
    /// A list of just their length, into which they were copied.
    Fitted(Vec<T>),
    /// The only item, which takes no memory.
    Single(T),
    /// Memory was refused, for one of them or for the list.
    Refused,
}

/// What is kept of the items of a line. One alone takes no memory. Once memory was refused for one of them no more are
/// kept, and the rest of the line can still be read for its faults.
#[derive(Drop)]
pub struct KeptItems<T> {
    // All items but the one that stands alone.
    items: Vec<T>,
    // The first item, as long as no other follows it.
    alone: Option<T>,
    is_wanting: bool,
}

impl<T: Copy> KeptItems<T> {
    /// No item is kept yet.
    pub fn new(alloc: Global) -> KeptItems<T>
        ensures { IsKept result [] }
    {
        KeptItems {
            items: Vec::new(alloc),
            alone: None,
            is_wanting: false,
        }
    }

    /// Keeps one more item, if there is memory for it and was for all before.
    pub fn push(&mut self, item: T)
        ensures { (items : List T) → IsKept self.old items → IsKept self.new (items ++ item ∷ []) }
    {
        if self.is_wanting {
            return;
        }
        match self.alone {
            None if self.items.is_empty() => self.alone = Some(item),
            None => self.is_wanting = self.items.push(item).is_err(),
            Some(first) => {
                self.alone = None;
                self.is_wanting = self.items.push(first).is_err() || self.items.push(item).is_err();
            }
        }
    }

    /// What the items come to: a list of just their length, the only item, or that memory was refused.
    fn finished(self) -> Finished<T>
        ensures { (items : List T) → IsKept self items → IsFinished result items }
    {
        if self.is_wanting {
            return Finished::Refused;
        }
        match self.alone {
            Some(item) => Finished::Single(item),
            None => match fitted(*self.items.allocator(), &self.items) {
                Ok(copy) => Finished::Fitted(copy),
                Err(AllocError) => Finished::Refused,
            },
        }
    }

    /// All items, in no more memory than they need: one takes none.
    ///
    /// # Errors
    ///
    /// Where memory was wanting for one of them, or is for a list of just their length.
    pub fn finish(self) -> Result<Items<T>, AllocError>
        ensures { (items : List T) → IsKept self items
            → MatchResult result (λ all. all ≡ items) (λ _. (length items == 0) ≡ false) }
    {
        match self.finished() {
            Finished::Fitted(items) => Ok(Items::from_vec(items)),
            Finished::Single(item) => Ok(Items::one(item)),
            Finished::Refused => Err(AllocError),
        }
    }
}
