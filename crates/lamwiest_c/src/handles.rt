//! What C holds in place of a table.

ghost use Rattle.std.specs.Prelude.{◌≡◌, MatchOption};
ghost use Rattle.std.specs.Coded.{coded_option};
ghost use Rattle.std.specs.declared.option.Option.{Option};
ghost use Rattle.std.specs.declared.option.Option.TheVariants.{None, Some};
ghost use Rattle.lamwiest_c.specs.contracts.environments.TableWithLeases as environment;
ghost use Rattle.lamwiest_c.specs.Held.{held};

use crate::environments::TableWithLeases;
use crate::parts::BoxParts;
use std::alloc::Global;
use std::marker::Model;
use std::mem;
use std::ptr::null_mut;

/// A handle of C: a table with its leases, or nothing where the pointer is null. In C it is a struct of that one
/// pointer, since a [`Global`] takes no bytes.
///
/// Contracts see what it has.
#[repr(C)]
pub struct Handle {
    at: *mut u8,
    alloc: Global,
    pub ghost value: { Option (environment.the_row).Denot } by { coded_option (environment.the_row).coded },
}

impl Model for Handle {
    ghost also_owns = { λ h. held environment.the_row h.alloc h.at h.value };
}

impl Handle {
    /// A handle that has nothing.
    pub fn empty(alloc: Global) -> Handle
        ensures { result.value ≡ None }
    {
        Handle {
            at: null_mut(),
            alloc,
        }
    }

    /// The handle of what these pieces own.
    pub fn of(parts: BoxParts<TableWithLeases, Global>) -> Handle
        ensures { result.value ≡ Some parts.value }
    {
        let BoxParts { ptr, alloc } = parts;
        Handle {
            at: ptr as *mut u8,
            alloc,
        }
    }

    /// The pieces of what it has, if it has something.
    pub fn take(self) -> Option<BoxParts<TableWithLeases, Global>>
        ensures { MatchOption result (self.value ≡ None) (λ p. self.value ≡ Some p.value) }
    {
        let Handle { at, alloc } = self;
        if at.is_null() {
            None
        } else {
            Some(BoxParts {
                ptr: at as *mut TableWithLeases,
                alloc,
            })
        }
    }
}

impl Drop for Handle {
    // Each call drops an empty handle where it puts the table back.
    #[inline(always)]
    fn drop(self) {
        if let Some(parts) = self.take() {
            end(parts);
        }
    }
}

/// Ends what a handle has. A call is shorter where this stands apart.
#[inline(never)]
fn end(parts: BoxParts<TableWithLeases, Global>) {
    drop(parts.into_box());
}

/// Takes out what a handle has, and leaves it with nothing.
pub fn take_out(alloc: Global, handle: &mut Handle) -> Option<Box<TableWithLeases>>
    ensures had { MatchOption result (handle.old.value ≡ None) (λ e. handle.old.value ≡ Some e.value) }
    ensures empty { handle.new.value ≡ None }
{
    match mem::replace(handle, Handle::empty(alloc)).take() {
        Some(parts) => Some(parts.into_box()),
        None => None,
    }
}

/// Puts an environment into a handle, in place of what that has.
pub fn put_back(handle: &mut Handle, environment: Box<TableWithLeases>)
    ensures { handle.new.value ≡ Some environment.value }
{
    drop(mem::replace(handle, Handle::of(BoxParts::of(environment))));
}
