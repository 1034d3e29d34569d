//! A worker that makes the transfers of the queues whose words it gets.

ghost use Rattle.std.specs.Prelude.{ℕ, List, ◌≡◌, ◌≤◌, ◌+◌, ◌-◌, ◌^◌, min, if◌then◌else◌, IfOk, IfErr, OnErr};
ghost use Rattle.std.specs.Iterator.{Drains, IsFinite};
ghost use Rattle.acc_table.specs.declared.calls.Reply.TheVariants.{Done, Idle};
ghost use Rattle.acc_runtime.specs.Shared.{WasAccepted, WasRefused};
ghost use Rattle.acc_runtime.specs.Services.{step_of, WasDrained, WasServed};

use crate::callers::Caller;
use crate::ledgers::Limited;
use crate::lock::Runtime;
use acc_base::{Fault, QUEUE_COUNT};
use acc_lend::Gate;
use std::sync::Wait;
use std::sync::ledger::Ledger;

/// What a worker did.
#[derive(Clone, Copy, Debug, Default, PartialEq, Eq)]
pub struct Served {
    /// How many transfers it made.
    pub steps: u64,
    /// How often a step was refused, of which no more than 2^64 - 1 are counted.
    pub refusals: u64,
}

/// Makes the next transfer of the queue that a word means, and returns whether there was one.
fn step_of<Regions: Limited, Tickets: Ledger, Events: Ledger, R: Wait>(
    rt: &R,
    runtime: &Runtime<Regions, Tickets, Events>,
    caller: &mut Caller<Regions, Tickets, Events>,
    word: u64,
) -> Result<bool, Fault>
    ensures accepted { IfOk result (λ made. WasAccepted runtime.now caller.old (step_of word) (if made then Done else Idle) caller.new) }
    ensures refused { IfErr result (WasRefused runtime.now caller.old (step_of word)) }
    ensures same { OnErr result (caller.new ≡ caller.old) }
{
    runtime.step(rt, caller, word / QUEUE_COUNT, word % QUEUE_COUNT)
}

/// Steps until the queue is empty, a step is refused, or as many are made as a queue may have. So a queue that is
/// filled meanwhile keeps no word waiting. It returns whether a step was refused.
#[tactic(auto, using(crate::proofs::Stepping::stepped_more, crate::proofs::Stepping::drained_empty, crate::proofs::Stepping::drained_full, crate::proofs::Stepping::drained_refused))]
fn drain<Regions: Limited, Tickets: Ledger, Events: Ledger, R: Wait>(
    rt: &R,
    runtime: &Runtime<Regions, Tickets, Events>,
    caller: &mut Caller<Regions, Tickets, Events>,
    word: u64,
) -> bool
    ensures events { caller.new.made + caller.new.tickets ≡ caller.old.made + caller.old.tickets }
    ensures more { caller.old.made ≤ caller.new.made }
    ensures allowance { caller.new.allowance ≡ caller.old.allowance }
    ensures drained { WasDrained runtime.now word result caller.old caller.new }
{
    for _i in 0..runtime.config().queue_cap() {
        match step_of(rt, runtime, caller, word) {
            Ok(true) => {}
            Ok(false) => return false,
            Err(_) => return true,
        }
    }
    false
}

/// Makes the transfers of the queue of each word that comes, until no more come (OpenACC 3.3, section 2.16,
/// asynchronous behavior). The word `w` means queue `w % 16` of device `w / 16`. A queue is stepped until it is empty,
/// a step is refused, or as many are made as a queue may have. For the n-th word, counted from 0, the gate's
/// `before(n)` and `after(n)` are called around that. The lock is free between two steps, and while the gate is called.
///
/// The words may be those that a channel receives, until it is closed: `serve` waits for them as their iterator does. A
/// word of a device that is not there is a refusal, as every step is that the table or the caller's shares refuse. The
/// words behind it are served too. The numbers for the gate end at `usize::MAX`, which all later words get.
pub fn serve<
    Regions: Limited,
    Tickets: Ledger,
    Events: Ledger,
    R: Wait,
    W: Iterator<Item = u64>,
    G: Gate<R>,
>(
    rt: &R,
    runtime: &Runtime<Regions, Tickets, Events>,
    caller: &mut Caller<Regions, Tickets, Events>,
    words: W,
    gate: &G,
) -> Served
    requires can { W.can_next words }
    requires ends { IsFinite (W.remaining words) }
    ensures served { (all : List ℕ) × (refusals : ℕ) × Drains W.next_gives words all × WasServed runtime.now all result.steps refusals caller.old caller.new × (result.refusals ≡ min refusals (2 ^ 64 - 1)) }
    ensures steps { caller.new.made ≡ caller.old.made + result.steps }
    ensures tickets { caller.new.tickets + result.steps ≡ caller.old.tickets }
    ensures allowance { caller.new.allowance ≡ caller.old.allowance }
{
    let before = caller.made();
    let mut number: usize = 0;
    let mut refusals: u64 = 0;
    for word in words {
        gate.before(rt, number);
        if drain(rt, runtime, caller, word) {
            refusals = refusals.saturating_add(1);
        }
        gate.after(rt, number);
        number = number.saturating_add(1);
    }
    Served {
        steps: caller.made() - before,
        refusals,
    }
}
