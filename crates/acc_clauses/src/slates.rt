//! A short list that costs nothing to empty.

ghost use Rattle.std.specs.Prelude.{[], ◌∷◌, ◌++◌, ◌≡◌, ◌<◌, ◌≤◌, ◌↔◌, IsSome, length, option_to_list};

use arrayvec::ArrayVec;
use std::marker::Model;

/// How many values there may be.
const MOST: usize = 64;

/// At most 64 values, one after the other, which lie in the list itself. What it no longer has is not written over, as an
/// `ArrayVec` does: so it is emptied at once, however many there were.
#[derive(Drop)]
pub(crate) struct Slate<T> {
    // Always full.
    cells: ArrayVec<T, 64>,
    len: usize,
}

impl<T> Model for Slate<T> {
    ghost use Rattle.std.specs.Prelude.{List, ◌≡◌, ◌≤◌, length, take};

    ghost Value = { List T };

    ghost view = { λ s. take s.len s.cells.items };

    ghost invariant = { λ s. (s.len ≤ 64) × (length s.cells.items ≡ 64) };
}

impl<T: Copy + Default> Slate<T> {
    /// No value.
    pub(crate) fn new() -> Slate<T>
        ensures { result ≡ [] }
    {
        let mut cells = ArrayVec::new();
        for _ in 0..MOST {
            cells.push(T::default());
        }
        Slate { cells, len: 0 }
    }

    /// It has no value any more.
    pub(crate) fn clear(&mut self)
        ensures { self.new ≡ [] }
    {
        self.len = 0;
    }

    /// One value more.
    pub(crate) fn push(&mut self, value: T)
        requires { length self.old < 64 }
        ensures items { self.new ≡ self.old ++ value ∷ [] }
    {
        let cells = self.cells.as_mut_slice();
        cells[self.len] = value;
        self.len += 1;
    }

    /// Takes off the last value, if there is one.
    pub(crate) fn pop(&mut self) -> Option<T>
        ensures items { self.old ≡ self.new ++ option_to_list result }
        ensures variant { IsSome result ↔ (0 < length self.old) }
    {
        let last = self.len.checked_sub(1)?;
        self.len = last;
        Some(self.cells[last])
    }

    /// The values.
    pub(crate) fn as_slice(&self) -> &[T]
        ensures value { result.now ≡ self.now }
        ensures few { length result.now ≤ 64 }
    {
        &self.cells[..self.len]
    }
}
