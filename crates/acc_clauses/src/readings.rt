//! What look-ups return in the records that the tasks judged so far will leave.

ghost use Rattle.std.specs.Prelude.{◌≡◌, ◌+◌, ◌<◌, ◌^◌, length, true, Some, IfSome};
ghost use Rattle.std.specs.List.{list_all};
ghost use Rattle.acc_base.specs.Section.{device_memory};
ghost use Rattle.acc_base.specs.declared.addresses.TheConstants.{MEMORY_MAX};
ghost use Rattle.acc_base.specs.declared.transfers.TheConstants.{QUEUE_COUNT};
ghost use Rattle.acc_base.specs.Queues.{queue_at};
ghost use Rattle.acc_base.specs.Limits.{IsFromOne};
ghost use Rattle.acc_base.specs.Ranges.{where_is, range_of};
ghost use Rattle.acc_base.specs.Blocks.{rounded, place_for};
ghost use Rattle.acc_clauses.specs.Overlays.{IsPlanned, AreUnmixed, tasks_in, records_after, enters, counters_at, found_over, counters_over};

use crate::drafts::Draft;
use crate::effects::{counters_over, found_over, puts_in};
use crate::views::View;
use acc_base::{Counters, Found, Range, Section};
use acc_present::Located;

/// Where a section lies after the tasks, and what was found on the way among the ranges before them.
#[tactic(auto, using(crate::proofs::Laws::plan_laws))]
#[inline(always)]
pub(crate) fn locate_after(view: &View<'_>, draft: &Draft, section: Section) -> Located
    requires planned { IsPlanned view.now.limits draft.now view.now.state.records }
    requires unmixed { AreUnmixed (tasks_in draft.now) }
    ensures found { result.found ≡ where_is section (records_after draft.now view.now.state.records).ranges }
    ensures known { IfSome result.range (λ range. range_of range.block view.now.state.records.ranges ≡ Some range) }
{
    let near = draft.near(section.start);
    let located = view.find_apart(section, draft.ended(), near);
    let found = found_past(draft, section, located.found);
    Located { found, ..located }
}

/// Where a section lies after the tasks, of which none ends a mapping that it may touch.
#[inline(always)]
fn found_past(draft: &Draft, section: Section, found: Found) -> Found
    ensures { result ≡ found_over section found draft.now }
{
    if draft.is_clear_of(section) {
        return found;
    }
    found_over(section, found, draft.acts())
}

/// The counters of the range that is mapped to a block after the tasks; both are 0 where none is. Before them it is not
/// searched for where it is the one that is known.
#[tactic(auto, using(crate::proofs::Laws::plan_laws))]
#[inline(always)]
pub(crate) fn counters_after(
    view: &View<'_>,
    draft: &Draft,
    block: u64,
    known: Option<Range>,
) -> Counters
    requires known { IfSome known (λ range. range_of range.block view.now.state.records.ranges ≡ Some range) }
    requires planned { IsPlanned view.now.limits draft.now view.now.state.records }
    ensures value { result ≡ counters_at block (records_after draft.now view.now.state.records).ranges }
    ensures structured { result.structured < 2 ^ 33 }
    ensures dynamic { result.dynamic < 2 ^ 33 }
{
    let counters = view.counters_known(block, known);
    counters_past(draft, block, counters)
}

/// The counters of a block's range after the tasks.
fn counters_past(draft: &Draft, block: u64, counters: Counters) -> Counters
    requires structured { counters.structured < 2 ^ 32 }
    requires dynamic { counters.dynamic < 2 ^ 32 }
    ensures value { result ≡ counters_over block counters draft.now }
    ensures structured { result.structured < 2 ^ 33 }
    ensures dynamic { result.dynamic < 2 ^ 33 }
{
    if draft.is_without(block) {
        return counters;
    }
    counters_over(block, counters, draft.acts())
}

/// Where a block of `len` bytes would be born after the tasks, which all enter.
#[tactic(auto, using(crate::proofs::Laws::plan_laws))]
pub(crate) fn place_after(view: &View<'_>, draft: &Draft, len: u64) -> Option<u64>
    requires planned { IsPlanned view.now.limits draft.now view.now.state.records }
    requires entering { list_all enters (tasks_in draft.now) ≡ true }
    requires len { IsFromOne MEMORY_MAX len }
    ensures { result ≡ place_for (device_memory view.now.limits) (records_after draft.now view.now.state.records).blocks (rounded len) }
{
    view.would_take(draft.spans(), len)
}

/// The number of the next block after the tasks, which all enter.
#[tactic(auto, using(crate::proofs::Laws::plan_laws))]
pub(crate) fn number_after(view: &View<'_>, draft: &Draft) -> u64
    requires planned { IsPlanned view.now.limits draft.now view.now.state.records }
    requires entering { list_all enters (tasks_in draft.now) ≡ true }
    requires births { view.now.state.records.births < 2 ^ 48 }
    ensures { result ≡ (records_after draft.now view.now.state.records).births + 1 }
{
    view.next_block() + draft.lens().len() as u64
}

/// How many transfers wait in a queue after the tasks.
#[tactic(auto, using(crate::proofs::QueuesAfter::queue_laws))]
pub(crate) fn queue_len_after(view: &View<'_>, draft: &Draft, q: u64) -> u64
    requires planned { IsPlanned view.now.limits draft.now view.now.state.records }
    requires known { q < QUEUE_COUNT }
    ensures { result ≡ length (queue_at q (records_after draft.now view.now.state.records).queues) }
{
    view.queue_len(q) + puts_in(q, draft.acts())
}
