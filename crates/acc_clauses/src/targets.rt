//! What look-ups of pointers and of their targets return in what the tasks judged so far will leave.

ghost use Rattle.std.specs.Prelude.{◌≡◌, ◌%◌, ◌<◌, Some, true, false};
ghost use Rattle.std.specs.List.{list_all};
ghost use Rattle.acc_base.specs.Attachments.{count_at};
ghost use Rattle.acc_base.specs.Detaching.{block_with};
ghost use Rattle.acc_base.specs.Loans.{is_lent};
ghost use Rattle.acc_base.specs.Pointers.{device_address_of, device_pointer};
ghost use Rattle.acc_clauses.specs.Overlays.{IsPlanned, AreUnmixed, tasks_in, records_after, state_after, enters};

use crate::aim_effects::{count_over, place_over, value_over};
use crate::drafts::Draft;
use crate::readings::locate_after;
use crate::sections::pointer_at;
use crate::views::View;
use acc_base::{Found, Section};

/// The block that holds a pointer after the tasks, if one does.
pub(crate) fn block_after(view: &View<'_>, draft: &Draft, pointer: u64) -> Option<u64>
    requires planned { IsPlanned view.now.limits draft.now view.now.state.records }
    requires unmixed { AreUnmixed (tasks_in draft.now) }
    ensures { result ≡ block_with pointer (records_after draft.now view.now.state.records).ranges }
{
    match locate_after(view, draft, pointer_at(pointer)).found {
        Found::Inside { block, .. } => Some(block),
        Found::Empty | Found::Partly | Found::Absent => None,
    }
}

/// How often a pointer in a block is attached after the tasks, where the block holds it then.
#[tactic(auto, using(crate::proofs::AimsCounted::count_laws))]
pub(crate) fn count_after(view: &View<'_>, draft: &Draft, block: u64, pointer: u64) -> u64
    requires planned { IsPlanned view.now.limits draft.now view.now.state.records }
    requires there { block_with pointer (records_after draft.now view.now.state.records).ranges ≡ Some block }
    ensures { result ≡ count_at block pointer (records_after draft.now view.now.state.records).attached }
{
    let count = view.count(block, pointer);
    count_over(block, pointer, count, draft.acts())
}

/// The device address that a host address is mapped to after the tasks, of which each enters, if it is.
pub(crate) fn address_after(view: &View<'_>, draft: &Draft, address: u64) -> Option<u64>
    requires planned { IsPlanned view.now.limits draft.now view.now.state.records }
    requires entering { list_all enters (tasks_in draft.now) ≡ true }
    ensures { result ≡ device_address_of address (records_after draft.now view.now.state.records) }
{
    let only = Section {
        start: address,
        len: 1,
    };
    match locate_after(view, draft, only).found {
        Found::Inside { block, offset } => {
            let place = place_over(block, view.place(block), draft.acts());
            Some(place + offset)
        }
        Found::Empty | Found::Partly | Found::Absent => None,
    }
}

/// The address that an attached pointer holds on the device after the tasks, of which each enters, where its block is
/// not lent.
pub(crate) fn value_after(view: &View<'_>, draft: &Draft, block: u64, pointer: u64) -> u64
    requires planned { IsPlanned view.now.limits draft.now view.now.state.records }
    requires entering { list_all enters (tasks_in draft.now) ≡ true }
    requires aligned { pointer % 8 ≡ 0 }
    requires there { block_with pointer (records_after draft.now view.now.state.records).ranges ≡ Some block }
    requires free { is_lent block view.now.state.records.loans ≡ false }
    requires attached { 0 < count_at block pointer (records_after draft.now view.now.state.records).attached }
    ensures { result ≡ device_pointer block pointer (state_after draft.now view.now.state) }
{
    view.laws();
    let value = view.device_pointer(block, pointer);
    value_over(block, pointer, value, draft.acts())
}
