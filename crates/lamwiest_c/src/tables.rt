//! How a table begins and ends.

ghost use Rattle.std.specs.Prelude.{◌≡◌, None, Ok, MatchResult};
ghost use Rattle.lamwiest_c.specs.Statuses.{IsAnswered, IsNumberAnswered};
ghost use Rattle.lamwiest_c.specs.Answers.{IsRebased, IsOf};
ghost use Rattle.lamwiest_c.specs.Begins.{or_default, IsConfig, IsNotBegun, IsBegunAs, IsBegun};

use crate::environments::TableWithLeases;
use crate::handles::{Handle, put_back, take_out};
use crate::statuses::{FaultFields, Refusal, tell, tell_number};
use acc_base::{Config, Fault};
use std::alloc::Global;
use std::mem;

/// The limits of a table: the sizes of its memories, and how much it may hold. A limit that is 0 is as it is by default.
#[repr(C)]
#[derive(Clone, Copy)]
pub struct RawLimits {
    /// The size of host memory in bytes: a multiple of 16 from 16 to 67,108,864. By default it is 65,536.
    pub host: u64,
    /// The size of each device's memory in bytes: a multiple of 16 from 16 to 67,108,864. By default it is 65,536.
    pub device: u64,
    /// How many data regions may be open at a time: 1 to 65,536. By default it is 64.
    pub regions: u64,
    /// How many events there may be in all: 1 to 2^40. By default it is 2^40.
    pub tickets: u64,
    /// The greatest value of a counter: 1 to 4,294,967,295. By default it is the greatest of these.
    pub counter_max: u64,
    /// How many transfers may wait in one queue: 1 to 4,096. By default it is 256.
    pub queue_cap: u64,
    /// How many events the stored trace may have: 1 to 16,777,216. By default it is 262,144.
    pub trace_cap: u64,
    /// 1 where traces are full: they store the bytes that calls bring, too. Else 0.
    pub full: u64,
    /// How many devices there are: 1 to 4. By default it is 1.
    pub devices: u64,
}

/// A limit, or what it is by default where it is 0.
fn or_default(limit: u64, default: u64) -> u64
    ensures { result ≡ or_default limit default }
{
    if limit == 0 { default } else { limit }
}

/// The configuration of these limits.
///
/// # Errors
///
/// `BadConfig` alone, where one of them is out of its bounds.
pub fn config_of(limits: &RawLimits) -> Result<Config, Refusal>
    ensures { IsConfig limits.now result }
{
    let config = Config::new(
        or_default(limits.host, 65_536),
        or_default(limits.device, 65_536),
        or_default(limits.regions, 64),
        or_default(limits.tickets, 1_099_511_627_776),
        or_default(limits.counter_max, 4_294_967_295),
        or_default(limits.queue_cap, 256),
        or_default(limits.trace_cap, 262_144),
    )?
    .with_devices(or_default(limits.devices, 1))?;
    match limits.full {
        0 => Ok(config),
        1 => Ok(config.with_full_trace()),
        _ => Err(Refusal::OfTable(Fault::BadConfig)),
    }
}

fn begin(alloc: Global, limits: &RawLimits) -> Result<Box<TableWithLeases>, Refusal>
    ensures { MatchResult result (λ e. IsBegunAs limits.now (Ok e.value)) (IsNotBegun limits.now) }
{
    let config = config_of(limits)?;
    let environment = TableWithLeases::new(alloc, config)?;
    Ok(Box::new(alloc, environment)?)
}

/// Puts a new table into a handle: nothing is mapped, no region is open, and host memory is zero. It ends the table
/// that the handle had. Where it is refused, the handle stays as it is.
#[unsafe(no_mangle)]
pub extern "C" fn lamwiest_table_new(
    alloc: Global,
    table: &mut Handle,
    limits: &RawLimits,
    fault: &mut FaultFields,
) -> u32
    ensures { IsBegun limits.now table.old.value table.new.value (IsAnswered result fault.new) }
{
    match begin(alloc, limits) {
        Ok(environment) => {
            put_back(table, environment);
            tell(Ok(0), fault)
        }
        Err(refusal) => tell(Err(refusal), fault),
    }
}

/// Ends the table of a handle, with its leases. An ended handle stays ended.
#[unsafe(no_mangle)]
pub extern "C" fn lw_table_end(alloc: Global, table: &mut Handle)
    ensures { table.new.value ≡ None }
{
    drop(mem::replace(table, Handle::empty(alloc)));
}

/// Makes what the table has its base, and empties the stored trace, so that there is room in it again. It is no event,
/// and every query returns what it did before. Where it is done, `folded` is how many events the trace had.
#[unsafe(no_mangle)]
pub extern "C" fn lamwiest_rebase(
    alloc: Global,
    table: &mut Handle,
    folded: &mut u64,
    fault: &mut FaultFields,
) -> u32
    ensures { IsOf table.old.value table.new.value (IsNumberAnswered result fault.new folded.old folded.new)
        (λ e v. IsRebased e (IsNumberAnswered result fault.new folded.old folded.new) v) }
{
    let Some(mut environment) = take_out(alloc, table) else {
        return tell_number(Err(Refusal::Ended), folded, fault);
    };
    let made = environment.rebase();
    put_back(table, environment);
    tell_number(made, folded, fault)
}
