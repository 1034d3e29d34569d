//! A directive is judged whole, without memory and without a change.

ghost use Rattle.std.specs.Prelude.{ℕ, ◌≡◌, ◌<◌, ◌≤◌, ◌^◌, MatchResult, OnOk, length, get_or, Ok, Err};
ghost use Rattle.acc_base.specs.declared.tasks.Task.{Task};
ghost use Rattle.std.specs.List.{AllByRecursion};
ghost use Rattle.acc_base.specs.Acting.{judge_all};
ghost use Rattle.acc_base.specs.Queues.{queue_named};
ghost use Rattle.acc_base.specs.Judge.{few_items, device_named, own_device, tasks_with, holdings_left, queue_in, verdict_of, plan_of};
ghost use Rattle.acc_clauses.specs.Overlays.{IsPlanned, AreUnmixed, AreQueuesNamed, tasks_in, dids_in};
ghost use Rattle.acc_clauses.specs.Planned.{HasFewHoldings, IsPlanOf};
ghost use Rattle.acc_clauses.specs.Acts.{regions_entered};

use crate::drafts::Draft;
use crate::items::judge;
use crate::lending::transfers_free;
use crate::plans::Plan;
use crate::views::View;
use acc_base::{Counter, Directive, Fault, Holding, QUEUE_COUNT, Task};

/// Judges the tasks of a directive, of which there are `count`, each as if those before it had acted. The region that it
/// leaves holds these. A closure tells the task at a place, counted from 0. There is one for each kind of directive, so
/// its code is that of the kind.
#[inline(always)]
fn judge_each<F: Fn(usize) -> Task>(
    view: &View<'_>,
    directive: &Directive,
    holdings: &[Holding],
    count: usize,
    task: F,
    draft: &mut Draft,
) -> Result<(), Fault>
    requires asked { (n : ℕ) → n < length (tasks_with directive.now holdings.now) → F.pre task n × ((t d : Task) → F.post task n t → t ≡ get_or (tasks_with directive.now holdings.now) n d) }
    requires count { count ≡ length (tasks_with directive.now holdings.now) }
    requires few { length (tasks_with directive.now holdings.now) ≤ 64 }
    requires unmixed { AreUnmixed (tasks_with directive.now holdings.now) }
    requires queues { AreQueuesNamed (tasks_with directive.now holdings.now) }
    requires births { view.now.state.records.births < 2 ^ 48 }
    ensures judged { MatchResult result (λ _. judge_all view.now.limits 0 (tasks_with directive.now holdings.now) view.now.state ≡ Ok (dids_in draft.new)) (λ fault. judge_all view.now.limits 0 (tasks_with directive.now holdings.now) view.now.state ≡ Err fault) }
    ensures asked { OnOk result (tasks_in draft.new ≡ tasks_with directive.now holdings.now) }
    ensures planned { OnOk result (IsPlanned view.now.limits draft.new view.now.state.records) }
{
    view.laws();
    draft.clear();
    for n in 0..count {
        judge(view, draft, n as u64, task(n))?;
    }
    Ok(())
}

/// Judges each task of a directive as if those before it had acted, where the region that it leaves holds these.
fn judge_all(
    view: &View<'_>,
    directive: &Directive,
    holdings: &[Holding],
    draft: &mut Draft,
) -> Result<(), Fault>
    requires few { length (tasks_with directive.now holdings.now) ≤ 64 }
    requires unmixed { AreUnmixed (tasks_with directive.now holdings.now) }
    requires queues { AreQueuesNamed (tasks_with directive.now holdings.now) }
    requires births { view.now.state.records.births < 2 ^ 48 }
    ensures judged { MatchResult result (λ _. judge_all view.now.limits 0 (tasks_with directive.now holdings.now) view.now.state ≡ Ok (dids_in draft.new)) (λ fault. judge_all view.now.limits 0 (tasks_with directive.now holdings.now) view.now.state ≡ Err fault) }
    ensures asked { OnOk result (tasks_in draft.new ≡ tasks_with directive.now holdings.now) }
    ensures planned { OnOk result (IsPlanned view.now.limits draft.new view.now.state.records) }
{
    match directive {
        Directive::Enter { items, .. } => {
            let (items, counter, queue) = (items.as_slice(), Counter::Structured, None);
            let task = |n: usize| Task::Enter {
                counter,
                item: items[n],
                queue,
            };
            judge_each(view, directive, holdings, items.len(), task, draft)
        }
        Directive::Exit { .. } => {
            let task = |n: usize| Task::ExitRegion {
                holding: holdings[holdings.len() - 1 - n],
            };
            judge_each(view, directive, holdings, holdings.len(), task, draft)
        }
        Directive::EnterData { items, queue, .. } => {
            let (items, queue) = (items.as_slice(), *queue);
            let task = |n: usize| Task::of_enter_data(items[n], queue);
            judge_each(view, directive, holdings, items.len(), task, draft)
        }
        Directive::ExitData {
            items,
            finalize,
            queue,
            ..
        } => {
            let (items, finalize, queue) = (items.as_slice(), *finalize, *queue);
            let task = |n: usize| Task::ExitData {
                finalize,
                item: items[n],
                queue,
            };
            judge_each(view, directive, holdings, items.len(), task, draft)
        }
        Directive::Update {
            items,
            if_present,
            queue,
            ..
        } => {
            let (items, if_present, queue) = (items.as_slice(), *if_present, *queue);
            let task = |n: usize| Task::Move {
                if_present,
                item: items[n],
                queue,
            };
            judge_each(view, directive, holdings, items.len(), task, draft)
        }
        Directive::Wait { .. } | Directive::Step { .. } => {
            view.laws();
            draft.clear();
            Ok(())
        }
    }
}

/// How many items a directive may name.
const ITEM_LIMIT: usize = 64;

/// The directive names no more items than it may, as [`crate::DeviceData::plan`] requires.
///
/// # Errors
///
/// [`Fault::TooManyItems`] above 64 items.
#[inline(always)]
pub fn check_items(directive: &Directive) -> Result<(), Fault>
    ensures { result ≡ few_items directive.now }
{
    let n = directive.item_count();
    if n > ITEM_LIMIT {
        return Err(Fault::TooManyItems { n: n as u64 });
    }
    Ok(())
}

/// The number of the device that a directive names. The exit from a data region names none: it is for the device on
/// which the region was entered (OpenACC 3.3, section 2.6.5).
#[inline(always)]
pub fn device_named(directive: &Directive) -> Option<u64>
    ensures { result ≡ device_named directive.now }
{
    match directive {
        Directive::Enter { device, .. } => Some(*device),
        Directive::Exit { .. } => None,
        Directive::EnterData { device, .. } => Some(*device),
        Directive::ExitData { device, .. } => Some(*device),
        Directive::Update { device, .. } => Some(*device),
        Directive::Wait { device, .. } => Some(*device),
        Directive::Step { device, .. } => Some(*device),
    }
}

// What the region holds that a directive leaves, which undoes it.
fn holdings_left<'a>(view: &'a View<'_>, directive: &Directive) -> Result<&'a [Holding], Fault>
    ensures { let left = holdings_left directive.now view.now.state.register in MatchResult result (λ holdings. left ≡ Ok holdings.now) (λ fault. left ≡ Err fault) }
{
    match directive {
        Directive::Exit { number } => match view.holdings(*number) {
            Some(holdings) => Ok(holdings),
            None => Err(Fault::NoRegion { number: *number }),
        },
        _ => Ok(&[]),
    }
}

/// The queue that a directive names. Without one its transfers are made at once, and a wait is for all queues.
fn queue_in(directive: &Directive) -> Option<u64>
    ensures { result ≡ queue_in directive.now }
{
    match directive {
        Directive::EnterData { queue, .. } => *queue,
        Directive::ExitData { queue, .. } => *queue,
        Directive::Update { queue, .. } => *queue,
        Directive::Wait { queue, .. } => *queue,
        Directive::Step { queue, .. } => Some(*queue),
        _ => None,
    }
}

/// How many regions a directive enters.
pub(crate) fn regions_entered(directive: &Directive) -> u64
    ensures { result ≡ regions_entered directive.now }
{
    match directive {
        Directive::Enter { .. } => 1,
        _ => 0,
    }
}

// The queue that is named is there.
fn check_queue(queue: Option<u64>) -> Result<(), Fault>
    ensures { result ≡ queue_named queue }
{
    match queue {
        Some(q) if q >= QUEUE_COUNT => Err(Fault::NoQueue { q }),
        Some(_) | None => Ok(()),
    }
}

/// Judges a directive whole for the device that is seen: its first refusal, or what each of its items will do. It names
/// no other device, and no more items than it may. It allocates nothing, and nothing that is seen changes.
///
/// # Errors
///
/// [`Fault::NoRegion`] where the region that is left is not open. [`Fault::NoQueue`] where there is no queue of the
/// number that it names. Else the first refusal of an item, with its place in the directive, counted from 0. This is
/// [`Fault::OutOfHost`], [`Fault::Misaligned`], [`Fault::PartlyPresent`], [`Fault::NotPresent`],
/// [`Fault::CounterFull`], [`Fault::DeviceFull`], or without a place [`Fault::Lent`] or [`Fault::QueueFull`]. Of a wait
/// or a step it is [`Fault::Lent`] at the first transfer whose block is lent.
#[tactic(auto, using(crate::proofs::Asking::event_laws))]
pub(crate) fn plan(view: &View<'_>, directive: &Directive, plan: &mut Plan) -> Result<(), Fault>
    requires items { few_items directive.now ≡ Ok tt }
    requires own { own_device view.now.limits.number (device_named directive.now) ≡ Ok tt }
    requires births { view.now.state.records.births < 2 ^ 48 }
    requires register { AllByRecursion HasFewHoldings view.now.state.register.regions }
    ensures judged { let s = view.now.state in MatchResult result (λ _. plan_of view.now.limits directive.now s ≡ Ok (verdict_of view.now.limits.number directive.now s plan.new.dids)) (λ fault. plan_of view.now.limits directive.now s ≡ Err fault) }
    ensures planned { OnOk result (IsPlanOf view.now.limits directive.now view.now.state plan.new) }
{
    let holdings = holdings_left(view, directive)?;
    let queue = queue_in(directive);
    check_queue(queue)?;
    judge_all(view, directive, holdings, &mut plan.draft)?;
    plan.queue = queue;
    transfers_free(view, directive)
}
