//! A list that directives and events carry.

ghost use Rattle.std.specs.Prelude.{◌≡◌, [], ◌∷◌, IfOk, IfErr, IsOk, length};

use std::alloc::{AllocError, Global};
use std::fmt::{self, Debug};
use std::marker::Model;

/// Where the elements of a list are.
#[derive(Drop)]
enum Kept<T> {
    /// One element, in the list itself.
    One([T; 1]),
    /// All of them, in a `Vec`.
    Many(Vec<T>),
}

/// A list of elements. One that was made from a single element keeps it in itself. Contracts see the elements in order.
pub struct List<T> {
    kept: Kept<T>,
}

// By hand, so that a crate above does not prove the drops of its parts again.
impl<T: Drop> Drop for List<T> {
    #[inline(always)]
    fn drop(self) {
        let List { kept: _ } = self;
    }
}

impl<T> Model for List<T> {
    ghost use Rattle.std.specs.Prelude.{List as Items};
    ghost use Rattle.acc_base.specs.Kept.{items_in};

    ghost Value = { Items T };

    ghost view = { λ list. items_in list.kept };
}

impl<T: Debug> Debug for List<T> {
    // Wherever the elements are, they are written alike.
    fn fmt<W: fmt::Write>(&self, f: &mut fmt::Formatter<W>) -> fmt::Result {
        f.debug_struct("List")
            .field("items", &self.as_slice())
            .finish()
    }
}

impl<T> List<T> {
    /// The elements of a `Vec`, in its order. Takes no memory.
    pub fn from_vec(items: Vec<T>) -> List<T>
        ensures { result ≡ items.items }
    {
        List {
            kept: Kept::Many(items),
        }
    }

    /// A list of one element. Takes no memory.
    pub fn one(item: T) -> List<T>
        ensures { result ≡ item ∷ [] }
    {
        List {
            kept: Kept::One([item]),
        }
    }

    /// The elements, to read.
    pub fn as_slice(&self) -> &[T]
        ensures { result.now ≡ self.now }
    {
        match &self.kept {
            Kept::One(item) => item.as_slice(),
            Kept::Many(items) => items,
        }
    }
}

impl<T: Copy> Clone for List<T> {
    ghost use Rattle.std.specs.Prelude.{◌≡◌};

    ghost is_clone = { λ list copy. copy ≡ list };

    /// A list of the same elements.
    ///
    /// # Errors
    ///
    /// [`AllocError`] where there is no memory for more than one element.
    fn clone(&self) -> Result<List<T>, AllocError> {
        match &self.kept {
            Kept::One([item]) => Ok(List::one(*item)),
            Kept::Many(items) => {
                let alloc = *items.allocator();
                Ok(List::from_vec(Vec::from_slice(alloc, items)?))
            }
        }
    }
}

impl<T: Copy> List<T> {
    /// The elements of a slice, in its order. Takes no memory for one element, and for others as much as they need.
    ///
    /// # Errors
    ///
    /// Where there is no such memory.
    pub fn from_slice(alloc: Global, items: &[T]) -> Result<List<T>, AllocError>
        ensures same { IfOk result (λ list. list ≡ items.now) }
        ensures one { length items.now ≡ 1 → IsOk result }
    {
        match items {
            [item] => Ok(List::one(*item)),
            _ => Ok(List::from_vec(Vec::from_slice(alloc, items)?)),
        }
    }
    /// The `Vec` from which the list was made, with the elements in the same order. Takes no memory.
    ///
    /// # Errors
    ///
    /// The element itself, where the list keeps its only one in itself.
    pub fn into_vec(self) -> Result<Vec<T>, T>
        ensures all { IfOk result (λ items. items.items ≡ self) }
        ensures one { IfErr result (λ item. self ≡ item ∷ []) }
    {
        let List { kept } = self;
        match kept {
            Kept::One(item) => Err(item[0]),
            Kept::Many(items) => Ok(items),
        }
    }
}
