//! Items as C writes them, and the clauses by their numbers.

ghost use Rattle.std.specs.Prelude.{◌≡◌, ◌<◌, ℕ, Option, Err, [], ◌∷◌, length};
ghost use Rattle.lamwiest_c.specs.Clauses.{pointer_of, queue_of, queue_asked, region_clause, enter_clause, exit_clause, update_clause, item_of, items_from, IsRead};

use crate::statuses::Refusal;
use acc_base::{EnterClause, ExitClause, Fault, Item, List, RegionClause, Section, UpdateClause};
use std::alloc::Global;

/// The `copy` clause, of a data region.
pub const COPY: u32 = 1;

/// The `copyin` clause, of a data region and of `enter data`.
pub const COPYIN: u32 = 2;

/// The `copyout` clause, of a data region and of `exit data`.
pub const COPYOUT: u32 = 3;

/// The `copyout` clause with the `zero` modifier, of a data region.
pub const COPYOUT_ZERO: u32 = 4;

/// The `create` clause, of a data region and of `enter data`.
pub const CREATE: u32 = 5;

/// The `create` clause with the `zero` modifier, of a data region and of `enter data`.
pub const CREATE_ZERO: u32 = 6;

/// The `no_create` clause, of a data region.
pub const NO_CREATE: u32 = 7;

/// The `present` clause, of a data region.
pub const PRESENT: u32 = 8;

/// The `attach` clause, of a data region and of `enter data`.
pub const ATTACH: u32 = 9;

/// The `delete` clause, of `exit data`.
pub const DELETE: u32 = 10;

/// The `detach` clause, of `exit data`.
pub const DETACH: u32 = 11;

/// The `self` clause, of `update`.
pub const SELF: u32 = 12;

/// The `device` clause, of `update`.
pub const DEVICE: u32 = 13;

/// The number of all queues, to wait for.
pub const NO_QUEUE_GIVEN: u64 = 18_446_744_073_709_551_615;

/// The number of no queue, as `acc_async_sync` in 64 bits: copies are made at once.
pub const ASYNC_SYNC: u64 = 18_446_744_073_709_551_614;

/// The number of `async` without an argument, as `acc_async_noval` in 64 bits.
pub const ASYNC_NOVAL: u64 = 18_446_744_073_709_551_615;

/// The queue of `async` without an argument.
const DEFAULT_QUEUE: u64 = 0;

/// One item of a data clause, as C writes it.
#[repr(C)]
#[derive(Clone, Copy)]
pub struct RawItem {
    /// The number of the clause in which it stands.
    pub clause: u32,
    /// The first host address of its section.
    pub start: u64,
    /// The length of its section in bytes.
    pub len: u64,
    /// The host address of the pointer to the section's data, or 0 for none.
    pub pointer: u64,
}

/// The pointer of an item, where it is not 0.
fn pointer_of(pointer: u64) -> Option<u64>
    ensures { result ≡ pointer_of pointer }
{
    if pointer == 0 { None } else { Some(pointer) }
}

/// The queue of a directive by the number of its `async` (OpenACC 3.3, section 2.16): none for [`ASYNC_SYNC`].
pub fn queue_asked(number: u64) -> Option<u64>
    ensures { result ≡ queue_asked number }
{
    match number {
        ASYNC_SYNC => None,
        ASYNC_NOVAL => Some(DEFAULT_QUEUE),
        _ => Some(number),
    }
}

/// The queue of a wait, where it is not [`NO_QUEUE_GIVEN`].
pub fn queue_of(queue: u64) -> Option<u64>
    ensures { result ≡ queue_of queue }
{
    if queue == NO_QUEUE_GIVEN {
        None
    } else {
        Some(queue)
    }
}

/// The clauses of a directive, by the numbers that C gives them.
pub trait NumberedClause: Sized + Copy + Drop {
    /// The clause of a number, if the directive has one.
    ghost numbered: { ℕ → Option Self };

    /// The clause of a number, if the directive has one.
    fn from_number(number: u32) -> Option<Self>
        ensures { result ≡ numbered number };
}

impl NumberedClause for RegionClause {
    ghost numbered = { region_clause };

    fn from_number(number: u32) -> Option<RegionClause> {
        match number {
            COPY => Some(RegionClause::Copy),
            COPYIN => Some(RegionClause::Copyin),
            COPYOUT => Some(RegionClause::Copyout { zero: false }),
            COPYOUT_ZERO => Some(RegionClause::Copyout { zero: true }),
            CREATE => Some(RegionClause::Create { zero: false }),
            CREATE_ZERO => Some(RegionClause::Create { zero: true }),
            NO_CREATE => Some(RegionClause::NoCreate),
            PRESENT => Some(RegionClause::Present),
            ATTACH => Some(RegionClause::Attach),
            _ => None,
        }
    }
}

impl NumberedClause for EnterClause {
    ghost numbered = { enter_clause };

    fn from_number(number: u32) -> Option<EnterClause> {
        match number {
            COPYIN => Some(EnterClause::Copyin),
            CREATE => Some(EnterClause::Create { zero: false }),
            CREATE_ZERO => Some(EnterClause::Create { zero: true }),
            ATTACH => Some(EnterClause::Attach),
            _ => None,
        }
    }
}

impl NumberedClause for ExitClause {
    ghost numbered = { exit_clause };

    fn from_number(number: u32) -> Option<ExitClause> {
        match number {
            DELETE => Some(ExitClause::Delete),
            COPYOUT => Some(ExitClause::Copyout),
            DETACH => Some(ExitClause::Detach),
            _ => None,
        }
    }
}

impl NumberedClause for UpdateClause {
    ghost numbered = { update_clause };

    fn from_number(number: u32) -> Option<UpdateClause> {
        match number {
            SELF => Some(UpdateClause::ToSelf),
            DEVICE => Some(UpdateClause::ToDevice),
            _ => None,
        }
    }
}

fn item_of<C: NumberedClause>(clause: C, item: RawItem) -> Item<C>
    ensures { result ≡ item_of clause item }
{
    Item {
        clause,
        section: Section {
            start: item.start,
            len: item.len,
        },
        pointer: pointer_of(item.pointer),
    }
}

/// A clause number that is none of the directive's is refused before lack of memory for the list of items.
fn refusal_without_memory<C: NumberedClause>(items: &[RawItem]) -> Refusal
    requires { 1 < length items.now }
    ensures { IsRead (items_from C.numbered 0 items.now) (Err result) }
{
    let mut place = 0u64;
    for item in items {
        let Some(_) = C::from_number(item.clause) else {
            return Refusal::BadClause { item: place };
        };
        place += 1;
    }
    Refusal::OfTable(Fault::Memory)
}

/// The list of one item, which takes no memory.
fn one_item<C: NumberedClause>(item: RawItem) -> Result<List<Item<C>>, Refusal>
    ensures { IsRead (items_from C.numbered 0 (item ∷ [])) result }
{
    match C::from_number(item.clause) {
        Some(clause) => Ok(List::one(item_of(clause, item))),
        None => Err(Refusal::BadClause { item: 0 }),
    }
}

/// The items of a directive.
///
/// # Errors
///
/// [`Refusal::BadClause`] at the first item whose clause number is none of the directive's; else `Memory` where there
/// is none for a list of more than one item.
pub fn items_of<C: NumberedClause>(
    alloc: Global,
    items: &[RawItem],
) -> Result<List<Item<C>>, Refusal>
    ensures { IsRead (items_from C.numbered 0 items.now) result }
{
    if let [item] = items {
        return one_item(*item);
    }
    let Ok(mut read) = Vec::with_capacity(alloc, items.len()) else {
        return Err(refusal_without_memory::<C>(items));
    };
    let mut place = 0u64;
    for item in items {
        let Some(clause) = C::from_number(item.clause) else {
            return Err(Refusal::BadClause { item: place });
        };
        read.push_reserved(item_of(clause, *item));
        place += 1;
    }
    Ok(List::from_vec(read))
}
