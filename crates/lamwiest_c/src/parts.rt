//! A boxed value in two pieces.

ghost use Rattle.std.specs.Prelude.{◌≡◌};
ghost use Rattle.std.specs.Box.Ownership.{box_owns};

use std::alloc::Allocator;
use std::marker::Model;

/// A boxed value in two pieces: where it lies, and the allocator that frees it. It owns the value as its box does, so a
/// handle can be made of it; it is not dropped.
pub struct BoxParts<T, A: Allocator> {
    pub(crate) ptr: *mut T,
    pub(crate) alloc: A,
    pub ghost value: { T },
}

impl<T, A: Allocator> Model for BoxParts<T, A> {
    ghost also_owns = { λ p. box_owns (A.dealloc_token p.alloc) T.row p.ptr p.value };
}

impl<T, A: Allocator> BoxParts<T, A> {
    /// The pieces of a box.
    pub fn of(boxed: Box<T, A>) -> BoxParts<T, A>
    where
        T: Drop,
        ensures { result.value ≡ boxed.value }
    {
        let (ptr, alloc) = Box::into_raw_with_allocator(boxed);
        BoxParts { ptr, alloc }
    }

    /// The box again.
    pub fn into_box(self) -> Box<T, A>
        ensures { result.value ≡ self.value }
    {
        let BoxParts { ptr, alloc } = self;
        unsafe { Box::from_raw(alloc, ptr) }
    }
}
