//! What the region holds that tasks enter.

ghost use Rattle.std.specs.Prelude.{List, ◌≡◌, ◌≤◌, [], length, vec_capacity, option_to_list};
ghost use Rattle.acc_base.specs.Judge.{tasks_with};
ghost use Rattle.acc_clauses.specs.Overlays.{tasks_in, dids_in};
ghost use Rattle.acc_clauses.specs.Planned.{holding_by, holdings_by};

use crate::acted::Acted;
use acc_base::{Counter, Directive, Holding, Task};

// What a task holds that enters an item of a region.
fn holding_by(x: &Acted) -> Option<Holding>
    ensures { option_to_list result ≡ holding_by x.now.task x.now.did }
{
    match x.task {
        Task::Enter {
            counter: Counter::Structured,
            item,
            ..
        } => Some(Holding {
            item,
            block: x.did.step.block_counted(),
            aim: x.did.aim.pointer_attached(),
        }),
        _ => None,
    }
}

/// How many holdings the region gets that a directive enters: one for each of its tasks. It is 0 where none is entered.
pub fn count_holdings(directive: &Directive, acts: &[Acted]) -> u64
    requires asked { (left : List Holding) × (tasks_with directive.now left ≡ tasks_in acts.now) }
    ensures { result ≡ length (holdings_by (tasks_in acts.now) (dids_in acts.now)) }
{
    match directive {
        Directive::Enter { .. } => acts.len() as u64,
        _ => 0,
    }
}

/// Notes what a region holds that is entered by these tasks, in written order; nothing where none is entered. There is
/// room for it.
pub fn note_holdings(holdings: &mut Vec<Holding>, acts: &[Acted])
    requires none { holdings.old.items ≡ [] }
    requires room { length (holdings_by (tasks_in acts.now) (dids_in acts.now)) ≤ vec_capacity holdings.old }
    ensures { holdings.new.items ≡ holdings_by (tasks_in acts.now) (dids_in acts.now) }
{
    for x in acts {
        if let Some(holding) = holding_by(x) {
            holdings.push_reserved(holding);
        }
    }
}
