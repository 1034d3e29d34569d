//! The directives, each under a name of its own. Each is on a device; where there is none of its number, the table
//! refuses it.

ghost use Rattle.std.specs.Prelude.{◌≡◌};
ghost use Rattle.acc_base.specs.declared.calls.Call.TheVariants.{Do};
ghost use Rattle.acc_base.specs.declared.directives.Directive.TheVariants.{Exit, Wait, Step};
ghost use Rattle.lamwiest_c.specs.Clauses.{queue_asked, queue_of, is_given, enter_of, enter_data_of, exit_data_of, update_of};
ghost use Rattle.lamwiest_c.specs.Statuses.{IsAnswered, IsNumberAnswered};
ghost use Rattle.lamwiest_c.specs.Answers.{IsMadeIn, IsAsked, IsOf};

use crate::handles::{Handle, put_back, take_out};
use crate::items::{RawItem, queue_of};
use crate::statuses::{FaultFields, Refusal, tell, tell_number};
use acc_base::Directive;
use std::alloc::Global;

/// Whether C gives a clause without arguments: any number but 0 gives it.
pub fn is_given(clause: u32) -> bool
    ensures { result ≡ is_given clause }
{
    clause != 0
}

/// Enters a data region with these items: the start of a `data` construct (OpenACC 3.3, section 2.6.5). Where it is
/// done, `region` is the number by which [`lamwiest_exit`] exits from it.
#[unsafe(no_mangle)]
pub extern "C" fn lamwiest_enter(
    alloc: Global,
    table: &mut Handle,
    device: u64,
    items: &[RawItem],
    region: &mut u64,
    fault: &mut FaultFields,
) -> u32
    ensures { IsOf table.old.value table.new.value (IsNumberAnswered result fault.new region.old region.new)
        (λ e v. IsAsked e (enter_of device items.now) (IsNumberAnswered result fault.new region.old region.new) v) }
{
    let Some(mut environment) = take_out(alloc, table) else {
        return tell_number(Err(Refusal::Ended), region, fault);
    };
    let made = environment.enter(alloc, device, items);
    put_back(table, environment);
    tell_number(made, region, fault)
}

/// Exits from the open data region of a number: the end of its `data` construct (OpenACC 3.3, section 2.6.5).
#[unsafe(no_mangle)]
pub extern "C" fn lamwiest_exit(
    alloc: Global,
    table: &mut Handle,
    region: u64,
    fault: &mut FaultFields,
) -> u32
    ensures { IsOf table.old.value table.new.value (IsAnswered result fault.new)
        (λ e v. IsMadeIn e (Do (Exit region)) (IsAnswered result fault.new) v) }
{
    let Some(mut environment) = take_out(alloc, table) else {
        return tell(Err(Refusal::Ended), fault);
    };
    let made = environment.direct(Directive::Exit { number: region });
    put_back(table, environment);
    tell(made, fault)
}

/// The `enter data` directive (OpenACC 3.3, section 2.6.6). Its copies are put into the queue of the number of its
/// `async` clause (section 2.16): into the default one for `ASYNC_NOVAL`, into none for `ASYNC_SYNC`.
#[unsafe(no_mangle)]
pub extern "C" fn lamwiest_enter_data(
    alloc: Global,
    table: &mut Handle,
    device: u64,
    items: &[RawItem],
    queue: u64,
    fault: &mut FaultFields,
) -> u32
    ensures { IsOf table.old.value table.new.value (IsAnswered result fault.new)
        (λ e v. IsAsked e (enter_data_of device items.now (queue_asked queue)) (IsAnswered result fault.new) v) }
{
    let Some(mut environment) = take_out(alloc, table) else {
        return tell(Err(Refusal::Ended), fault);
    };
    let made = environment.enter_data(alloc, device, items, queue);
    put_back(table, environment);
    tell(made, fault)
}

/// The `exit data` directive (OpenACC 3.3, section 2.6.6), with the `finalize` clause unless `finalize` is 0. The queue
/// is as that of [`lamwiest_enter_data`].
#[unsafe(no_mangle)]
pub extern "C" fn lamwiest_exit_data(
    alloc: Global,
    table: &mut Handle,
    device: u64,
    items: &[RawItem],
    finalize: u32,
    queue: u64,
    fault: &mut FaultFields,
) -> u32
    ensures { IsOf table.old.value table.new.value (IsAnswered result fault.new)
        (λ e v. IsAsked e (exit_data_of device items.now (is_given finalize) (queue_asked queue)) (IsAnswered result fault.new) v) }
{
    let Some(mut environment) = take_out(alloc, table) else {
        return tell(Err(Refusal::Ended), fault);
    };
    let made = environment.exit_data(alloc, device, items, is_given(finalize), queue);
    put_back(table, environment);
    tell(made, fault)
}

/// The `update` directive (OpenACC 3.3, the update directive), with the `if_present` clause unless `if_present` is 0.
/// The queue is as that of [`lamwiest_enter_data`].
#[unsafe(no_mangle)]
pub extern "C" fn lamwiest_update(
    alloc: Global,
    table: &mut Handle,
    device: u64,
    items: &[RawItem],
    if_present: u32,
    queue: u64,
    fault: &mut FaultFields,
) -> u32
    ensures { IsOf table.old.value table.new.value (IsAnswered result fault.new)
        (λ e v. IsAsked e (update_of device items.now (is_given if_present) (queue_asked queue)) (IsAnswered result fault.new) v) }
{
    let Some(mut environment) = take_out(alloc, table) else {
        return tell(Err(Refusal::Ended), fault);
    };
    let made = environment.update(alloc, device, items, is_given(if_present), queue);
    put_back(table, environment);
    tell(made, fault)
}

/// The `wait` directive (OpenACC 3.3, the wait directive): makes all transfers of a queue of a device, or of all its
/// queues where the queue is `NO_QUEUE_GIVEN`. Where it is done, `count` is how many transfers it made.
#[unsafe(no_mangle)]
pub extern "C" fn lamwiest_wait(
    alloc: Global,
    table: &mut Handle,
    device: u64,
    queue: u64,
    count: &mut u64,
    fault: &mut FaultFields,
) -> u32
    ensures { IsOf table.old.value table.new.value (IsNumberAnswered result fault.new count.old count.new)
        (λ e v. IsMadeIn e (Do (Wait device (queue_of queue))) (IsNumberAnswered result fault.new count.old count.new) v) }
{
    let Some(mut environment) = take_out(alloc, table) else {
        return tell_number(Err(Refusal::Ended), count, fault);
    };
    let queue = queue_of(queue);
    let made = environment.direct(Directive::Wait { device, queue });
    put_back(table, environment);
    tell_number(made, count, fault)
}

/// Makes the next transfer of a queue, as the device does while the host goes on (OpenACC 3.3, section 2.16). Where it
/// is done, `count` is 1, or 0 where the queue was empty, which is no event.
#[unsafe(no_mangle)]
pub extern "C" fn lamwiest_step(
    alloc: Global,
    table: &mut Handle,
    device: u64,
    queue: u64,
    count: &mut u64,
    fault: &mut FaultFields,
) -> u32
    ensures { IsOf table.old.value table.new.value (IsNumberAnswered result fault.new count.old count.new)
        (λ e v. IsMadeIn e (Do (Step device queue)) (IsNumberAnswered result fault.new count.old count.new) v) }
{
    let Some(mut environment) = take_out(alloc, table) else {
        return tell_number(Err(Refusal::Ended), count, fault);
    };
    let made = environment.direct(Directive::Step { device, queue });
    put_back(table, environment);
    tell_number(made, count, fault)
}
