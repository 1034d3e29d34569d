//! A directive that is named as an event names it: it is judged, or carried out.

ghost use Rattle.std.specs.Prelude.{◌≡◌};
ghost use Rattle.acc_base.specs.declared.calls.Call.TheVariants.{Do};
ghost use Rattle.acc_base.specs.Calls.{judge};
ghost use Rattle.lamwiest_c.specs.Statuses.{IsAnswered, IsNumberAnswered};
ghost use Rattle.lamwiest_c.specs.Answers.{IsAsked, IsOf};
ghost use Rattle.lamwiest_c.specs.Named.{directive_alone, directive_named, IsNamed, verdict_told, IsDryRun};

use crate::directives::is_given;
use crate::environments::TableWithLeases;
use crate::events::RawEvent;
use crate::handles::{Handle, put_back, take_out};
use crate::items::{RawItem, items_of, queue_of};
use crate::statuses::{FaultFields, Refusal, tell, tell_number};
use acc_base::Directive;
use std::alloc::Global;

/// The directive without items that an event names; `Absent` where the kind is none of a directive's.
fn directive_alone(asked: &RawEvent) -> Result<Directive, Refusal>
    ensures { result ≡ directive_alone asked.now }
{
    let device = asked.device;
    match asked.kind {
        2 => Ok(Directive::Exit {
            number: asked.region,
        }),
        6 => Ok(Directive::Wait {
            device,
            queue: queue_of(asked.queue),
        }),
        7 => Ok(Directive::Step {
            device,
            queue: asked.queue,
        }),
        _ => Err(Refusal::Absent),
    }
}

/// The directive that an event names, with the items of an array. Errors are those of `items_of` and `directive_alone`.
fn directive_named(alloc: Global, asked: &RawEvent, items: &[RawItem]) -> Result<Directive, Refusal>
    ensures { IsNamed (directive_named asked.now items.now) result }
{
    let device = asked.device;
    let queue = queue_of(asked.queue);
    let given = is_given(asked.option);
    match asked.kind {
        1 => {
            let items = items_of(alloc, items)?;
            Ok(Directive::Enter { device, items })
        }
        3 => {
            let items = items_of(alloc, items)?;
            Ok(Directive::EnterData {
                device,
                items,
                queue,
            })
        }
        4 => {
            let items = items_of(alloc, items)?;
            Ok(Directive::ExitData {
                device,
                items,
                finalize: given,
                queue,
            })
        }
        5 => {
            let items = items_of(alloc, items)?;
            Ok(Directive::Update {
                device,
                items,
                if_present: given,
                queue,
            })
        }
        _ => directive_alone(asked),
    }
}

impl TableWithLeases {
    /// Judges a directive. Errors are those of the table, but never `Memory`.
    fn judge(&mut self, directive: &Directive) -> Result<u64, Refusal>
        ensures told { result ≡ verdict_told (judge self.old.world (Do directive.now)) }
        ensures same { self.new ≡ self.old }
    {
        self.table.judge(directive)?;
        Ok(0)
    }

    /// Judges the directive of an event, with the items of an array. Errors are those of `directive_named` and of the
    /// table.
    fn judge_named(
        &mut self,
        alloc: Global,
        asked: &RawEvent,
        items: &[RawItem],
    ) -> Result<u64, Refusal>
        ensures judged { IsDryRun self.old (directive_named asked.now items.now) (λ r. result ≡ r) }
        ensures same { self.new ≡ self.old }
    {
        match directive_named(alloc, asked, items) {
            Ok(directive) => self.judge(&directive),
            Err(refusal) => Err(refusal),
        }
    }

    /// Carries out the directive of an event, with the items of an array, and returns the number of its reply. Errors
    /// are those of `directive_named` and of the table.
    fn do_named(
        &mut self,
        alloc: Global,
        asked: &RawEvent,
        items: &[RawItem],
    ) -> Result<u64, Refusal>
        ensures { IsAsked self.old (directive_named asked.now items.now) (λ r. result ≡ r) self.new }
    {
        match directive_named(alloc, asked, items) {
            Ok(directive) => self.direct(directive),
            Err(refusal) => Err(refusal),
        }
    }
}

/// Judges a directive and does not carry it out: the fault is that of its call. What is asked stands where an event has
/// it: the kind, the device, the queue, the region of an exit, and the option. The items are those of the array. Memory
/// is wanted for a list of more than one item alone.
#[unsafe(no_mangle)]
pub extern "C" fn lamwiest_judge(
    alloc: Global,
    table: &mut Handle,
    asked: &RawEvent,
    items: &[RawItem],
    fault: &mut FaultFields,
) -> u32
    ensures { IsOf table.old.value table.new.value (IsAnswered result fault.new)
        (λ e v. IsDryRun e (directive_named asked.now items.now) (IsAnswered result fault.new) × (v ≡ e)) }
{
    let Some(mut environment) = take_out(alloc, table) else {
        return tell(Err(Refusal::Ended), fault);
    };
    let made = environment.judge_named(alloc, asked, items);
    put_back(table, environment);
    tell(made, fault)
}

/// Carries out a directive that is named as for [`lamwiest_judge`]. Where it is done, `number` is that of the region
/// that it entered, or how many transfers a wait or a step made; of another directive it is 1.
#[unsafe(no_mangle)]
pub extern "C" fn lamwiest_do(
    alloc: Global,
    table: &mut Handle,
    asked: &RawEvent,
    items: &[RawItem],
    number: &mut u64,
    fault: &mut FaultFields,
) -> u32
    ensures { IsOf table.old.value table.new.value (IsNumberAnswered result fault.new number.old number.new)
        (λ e v. IsAsked e (directive_named asked.now items.now) (IsNumberAnswered result fault.new number.old number.new) v) }
{
    let Some(mut environment) = take_out(alloc, table) else {
        return tell_number(Err(Refusal::Ended), number, fault);
    };
    let made = environment.do_named(alloc, asked, items);
    put_back(table, environment);
    tell_number(made, number, fault)
}
