//! The turns and calls that a row asks of a table, and the table.

use crate::tests::example::boxed_table;
use crate::tests::language::{Ask, At, Limits};
use acc_base::{Config, Directive, Fault, List, ScriptFault, Section};
use acc_read::{Arrays, Statement, Trouble, line_at};
use acc_table::{Call, Table, Turn};
use std::alloc::{AllocError, Global};

/// A line that asks for no call.
pub const NO_CALL: Fault = Fault::Script {
    line: 0,
    kind: ScriptFault::Syntax,
};

/// The section of a first host address and a length in bytes.
pub fn section(at: At) -> Section {
    let (start, len) = at;
    Section { start, len }
}

/// The arrays that rows name.
pub fn two_arrays(alloc: Global) -> Result<Arrays, AllocError> {
    let mut arrays = Arrays::new(alloc, 64);
    for name in ["a", "b"] {
        if let Some(array) = arrays.next_array(16) {
            arrays.insert(name.as_bytes(), array)?;
        }
    }
    Ok(arrays)
}

/// The turn that a line of a script asks for.
fn said(alloc: Global, arrays: &Arrays, device: u64, text: &str) -> Result<Turn, Fault> {
    match line_at(alloc, arrays, device, None, text.as_bytes()) {
        Ok(Statement::Direct(directive)) => Ok(Turn::Do(directive)),
        Ok(Statement::Write { addr, bytes }) => {
            let mut list = vec![in alloc; 0u8; bytes.len()]?;
            bytes.copy_to(list.as_mut_slice());
            let bytes = List::from_vec(list);
            Ok(Turn::HostWrite { addr, bytes })
        }
        Ok(Statement::Point { addr, target }) => {
            let bytes = List::from_slice(alloc, &target.to_le_bytes())?;
            Ok(Turn::HostWrite { addr, bytes })
        }
        Err(Trouble::Memory) => Err(Fault::Memory),
        _ => Err(NO_CALL),
    }
}

/// The turn that is asked for, of a device where it is for one.
pub fn turn_of(alloc: Global, arrays: &Arrays, device: u64, ask: Ask) -> Result<Turn, Fault> {
    match ask {
        Ask::Do(text) => said(alloc, arrays, device, text),
        Ask::Exit(number) => Ok(Turn::Do(Directive::Exit { number })),
        Ask::Lend(region, at) => {
            let section = section(at);
            Ok(Turn::Lend { region, section })
        }
        Ask::Back(serial, listed) => {
            let bytes = List::from_slice(alloc, listed)?;
            Ok(Turn::Back { serial, bytes })
        }
    }
}

/// The call that a turn makes. One that brings a lease back makes none by itself.
pub fn call_of(turn: Turn) -> Result<Call, Fault> {
    match turn {
        Turn::Do(directive) => Ok(Call::Do(directive)),
        Turn::HostWrite { addr, bytes } => Ok(Call::HostWrite { addr, bytes }),
        Turn::Lend { region, section } => Ok(Call::Lend { region, section }),
        Turn::Back { .. } => Err(NO_CALL),
    }
}

/// The configuration of limits.
fn config_of(limits: Limits) -> Result<Config, Fault> {
    let config = Config::new(
        limits.host,
        limits.device,
        limits.regions,
        limits.tickets,
        limits.counter_max,
        limits.queue_cap,
        limits.trace_cap,
    )?;
    let config = config.with_devices(limits.devices)?;
    Ok(if limits.full {
        config.with_full_trace()
    } else {
        config
    })
}

/// A new table within limits.
pub fn table_of(alloc: Global, limits: Limits) -> Result<Box<Table>, Fault> {
    boxed_table(alloc, config_of(limits)?)
}
