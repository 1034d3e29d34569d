//! The outcome of a call, as its caller gets it. A call that came back refused is dropped here: that of a runtime when
//! its lock is free.

ghost use Rattle.std.specs.Prelude.{◌≡◌, ◌⊎◌, if◌then◌else◌, Ok, Err, IfOk, IfErr, MatchResult};
ghost use Rattle.acc_base.specs.declared.calls.Call.TheVariants.{Gather};
ghost use Rattle.acc_table.specs.declared.calls.Reply.TheVariants.{Done, Entered, Drained, Idle, Lease as Lent};
ghost use Rattle.acc_table.specs.Counts.{answers_idle};
ghost use Rattle.acc_table.specs.Replies.{HasNumber, HasCount, HasLease};
ghost use Rattle.acc_runtime.specs.Outcomes.{IsBack, IsGather};

use crate::regions::Region;
use acc_base::Fault;
use acc_lend::Lease;
use acc_table::{Call, Reply, abandon};

/// The reply of a call, or the call with what it was refused for.
pub(crate) type Outcome = Result<Reply, (Call, Fault)>;

/// There was nothing to do.
pub(crate) fn answers_idle(reply: &Reply) -> bool
    ensures { result ≡ answers_idle reply.now }
{
    matches!(reply, Reply::Idle)
}

/// The region of an entry.
pub(crate) fn entered(outcome: Outcome) -> Result<Region, Fault>
    requires { IfOk outcome HasNumber }
    ensures { MatchResult result (λ region. outcome ≡ Ok (Entered region)) (IsBack outcome) }
{
    match outcome {
        Ok(reply) => Ok(Region::of(reply)),
        Err((call, fault)) => {
            abandon(call);
            Err(fault)
        }
    }
}

/// The end of a region, or the region where it stays open.
pub(crate) fn exited(outcome: Outcome, region: Region) -> Result<(), (Region, Fault)>
    requires { IfOk outcome (λ reply. reply ≡ Done) }
    ensures outcome { MatchResult result (λ _. outcome ≡ Ok Done) (λ back. IsBack outcome back.1) }
    ensures region { IfErr result (λ back. back.0 ≡ region) }
{
    match done(outcome) {
        Ok(()) => {
            region.abandon();
            Ok(())
        }
        Err(fault) => Err((region, fault)),
    }
}

/// The outcome of a call that returns no value.
pub(crate) fn done(outcome: Outcome) -> Result<(), Fault>
    requires { IfOk outcome (λ reply. reply ≡ Done) }
    ensures { MatchResult result (λ _. outcome ≡ Ok Done) (IsBack outcome) }
{
    match outcome {
        Ok(reply) => {
            reply.abandon();
            Ok(())
        }
        Err((call, fault)) => {
            abandon(call);
            Err(fault)
        }
    }
}

/// How many transfers a wait made.
pub(crate) fn drained(outcome: Outcome) -> Result<u64, Fault>
    requires { IfOk outcome HasCount }
    ensures { MatchResult result (λ count. outcome ≡ Ok (Drained count)) (IsBack outcome) }
{
    match outcome {
        Ok(reply) => Ok(count_of(reply)),
        Err((call, fault)) => {
            abandon(call);
            Err(fault)
        }
    }
}

/// The number of transfers in a reply that has one.
fn count_of(reply: Reply) -> u64
    requires { HasCount reply }
    ensures { reply ≡ Drained result }
{
    match reply {
        Reply::Drained { count } => count,
        Reply::Done | Reply::Entered { number: _ } | Reply::Idle => unreachable!(),
        Reply::Lease(lease) => {
            lease.abandon();
            unreachable!()
        }
    }
}

/// Whether a step made a transfer.
pub(crate) fn stepped(outcome: Outcome) -> Result<bool, Fault>
    requires { IfOk outcome (λ reply. (reply ≡ Done) ⊎ (reply ≡ Idle)) }
    ensures { MatchResult result (λ made. outcome ≡ Ok (if made then Done else Idle)) (IsBack outcome) }
{
    match outcome {
        Ok(reply) => Ok(is_made(reply)),
        Err((call, fault)) => {
            abandon(call);
            Err(fault)
        }
    }
}

/// Whether a step that was replied to so made a transfer.
fn is_made(reply: Reply) -> bool
    requires { (reply ≡ Done) ⊎ (reply ≡ Idle) }
    ensures { reply ≡ (if result then Done else Idle) }
{
    match reply {
        Reply::Done => true,
        Reply::Idle => false,
        Reply::Entered { number: _ } | Reply::Drained { count: _ } => unreachable!(),
        Reply::Lease(lease) => {
            lease.abandon();
            unreachable!()
        }
    }
}

/// The lease of a loan.
pub(crate) fn leased(outcome: Outcome) -> Result<Lease, Fault>
    requires { IfOk outcome HasLease }
    ensures { MatchResult result (λ lease. outcome ≡ Ok (Lent lease)) (IsBack outcome) }
{
    match outcome {
        Ok(reply) => Ok(lease_of(reply)),
        Err((call, fault)) => {
            abandon(call);
            Err(fault)
        }
    }
}

/// The lease in a reply that has one.
fn lease_of(reply: Reply) -> Lease
    requires { HasLease reply }
    ensures { reply ≡ Lent result }
{
    match reply {
        Reply::Lease(lease) => lease,
        Reply::Done | Reply::Entered { number: _ } | Reply::Drained { count: _ } | Reply::Idle => {
            unreachable!()
        }
    }
}

/// The end of a loan, or the lease where it was refused.
pub(crate) fn gathered(outcome: Outcome) -> Result<(), (Lease, Fault)>
    requires ok { IfOk outcome (λ reply. reply ≡ Done) }
    requires back { IfErr outcome (λ back. IsGather back.0) }
    ensures { MatchResult result (λ _. outcome ≡ Ok Done) (λ back. outcome ≡ Err (Gather back.0, back.1)) }
{
    match outcome {
        Ok(reply) => {
            reply.abandon();
            Ok(())
        }
        Err((call, fault)) => Err((brought(call), fault)),
    }
}

/// The lease that a call brings.
fn brought(call: Call) -> Lease
    requires { IsGather call }
    ensures { call ≡ Gather result }
{
    match call {
        Call::Gather(lease) => lease,
        Call::Do(_) | Call::HostWrite { addr: _, bytes: _ } => unreachable!(),
        Call::Lend {
            region: _,
            section: _,
        } => unreachable!(),
    }
}
