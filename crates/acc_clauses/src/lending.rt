//! What is refused because a block is lent (OpenACC 3.3, section 2.5, compute constructs).

ghost use Rattle.std.specs.Prelude.{◌≡◌, Some, Ok, Err, MatchResult};
ghost use Rattle.acc_base.specs.Queues.{queue_at};
ghost use Rattle.acc_base.specs.Waits.{transfers_of};
ghost use Rattle.acc_base.specs.Judge.{transfers_in, region_open, lend_event, gathered, gather_event};
ghost use Rattle.acc_clauses.specs.Lending.{IsLoanPlanned};
ghost use Rattle.acc_base.specs.Loans.{not_lent, none_lent};

use crate::judging::in_host;
use crate::views::View;
use acc_base::{Directive, Fault, Found, Loan, QUEUE_COUNT, Section};
use acc_lend::Lease;

/// The block, if there is one, is not lent.
#[inline(always)]
pub(crate) fn not_lent(view: &View<'_>, block: Option<u64>) -> Result<(), Fault>
    ensures { result ≡ not_lent block view.now.state.records.loans }
{
    match block {
        Some(block) if view.is_lent(block) => Err(Fault::Lent { block }),
        Some(_) | None => Ok(()),
    }
}

// No transfer of a queue names a block that is lent.
fn queue_free(view: &View<'_>, q: u64) -> Result<(), Fault>
    ensures { result ≡ none_lent (queue_at q view.now.state.records.queues) view.now.state.records.loans }
{
    let count = view.queue_len(q);
    for place in 0..count {
        not_lent(view, view.waiting_block(q, place))?;
    }
    Ok(())
}

// No transfer of a queue, or of all queues, names a block that is lent. The refusal names the first such block.
fn wait_free(view: &View<'_>, queue: Option<u64>) -> Result<(), Fault>
    ensures { result ≡ none_lent (transfers_of queue view.now.state.records.queues) view.now.state.records.loans }
{
    // Where no block is lent, the queues are not gone through.
    if view.loans() == 0 {
        return Ok(());
    }
    match queue {
        Some(q) => queue_free(view, q),
        None => {
            for q in 0..QUEUE_COUNT {
                queue_free(view, q)?;
            }
            view.laws();
            Ok(())
        }
    }
}

/// No queued transfer that a directive makes names a block that is lent. The refusal names the first such block.
pub(crate) fn transfers_free(view: &View<'_>, directive: &Directive) -> Result<(), Fault>
    ensures { result ≡ none_lent (transfers_in directive.now view.now.state.records.queues) view.now.state.records.loans }
{
    match directive {
        Directive::Wait { queue, .. } => wait_free(view, *queue),
        Directive::Step { queue, .. } => not_lent(view, view.head_block(*queue)),
        _ => Ok(()),
    }
}

// A region of the number is open.
fn region_open(view: &View<'_>, number: u64) -> Result<(), Fault>
    ensures { result ≡ region_open number view.now.state.register }
{
    match view.holdings(number) {
        Some(_) => Ok(()),
        None => Err(Fault::NoRegion { number }),
    }
}

/// The loan of a section in an open region of the device of the view, or what it is refused for.
#[tactic(auto, unfolding(acc_base::specs::Judge::lend_event))]
pub(crate) fn plan_loan(view: &View<'_>, region: u64, section: Section) -> Result<Loan, Fault>
    ensures { MatchResult result (λ loan. IsLoanPlanned view.now.limits region section view.now.state loan) (λ fault. lend_event view.now.limits view.now.limits.number region section view.now.state ≡ Err fault) }
{
    region_open(view, region)?;
    in_host(view, 0, section)?;
    match view.find(section) {
        Found::Empty => Err(Fault::NotPresent { item: 0 }),
        Found::Absent => Err(Fault::NotPresent { item: 0 }),
        Found::Partly => Err(Fault::PartlyPresent { item: 0 }),
        Found::Inside { block, .. } => {
            not_lent(view, Some(block))?;
            Ok(Loan {
                serial: view.next_serial(),
                block,
                offset: section.start.saturating_sub(view.start(block)),
                len: section.len,
            })
        }
    }
}

/// The lease brings a lent block of the device back, or what it is refused for.
#[tactic(auto, unfolding(acc_base::specs::Judge::gather_event))]
pub(crate) fn check_lease(view: &View<'_>, lease: &Lease) -> Result<(), Fault>
    ensures { MatchResult result (λ _. gather_event view.now.limits lease.now view.now.state ≡ Ok (gathered view.now.limits.full lease.now)) (λ fault. gather_event view.now.limits lease.now view.now.state ≡ Err fault) }
{
    if view.is_returnable(lease) {
        return Ok(());
    }
    let serial = lease.serial();
    Err(Fault::NoLease { serial })
}
