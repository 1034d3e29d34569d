//! An example of a table.

use crate::tests::same;
use acc_base::{Config, Directive, EnterClause, Fault, HOST_BASE, Item, List, Section};
use acc_table::{Call, Table, abandon};
use std::alloc::Global;

/// A new table, in a box, since a test that owns an unboxed one takes long to check.
pub fn boxed_table(alloc: Global, config: Config) -> Result<Box<Table>, Fault> {
    Ok(Box::new(alloc, Table::new(alloc, config)?)?)
}

/// A table of 65,536 bytes of host memory and as many of the device.
fn small_table(alloc: Global) -> Result<Box<Table>, Fault> {
    let config = Config::new(65_536, 65_536, 64, 1_048_576, 4_294_967_295, 256, 262_144)?;
    boxed_table(alloc, config)
}

/// Maps the first 20 bytes of host memory, and returns how many bytes of the device are in use then.
fn map_one_array(table: &mut Table) -> Result<u64, Fault> {
    let item = Item {
        clause: EnterClause::Copyin,
        section: Section {
            start: HOST_BASE,
            len: 20,
        },
        pointer: None,
    };
    let (device, items, queue) = (0, List::one(item), None);
    match table.apply(Call::Do(Directive::EnterData {
        device,
        items,
        queue,
    })) {
        Ok(reply) => {
            reply.abandon();
            Ok(table.used(device))
        }
        Err((call, fault)) => {
            abandon(call);
            Err(fault)
        }
    }
}

#[test]
fn an_array_of_20_bytes_takes_32(rt: HostRuntime) -> Result<(), Fault> {
    let mut table = small_table(rt.alloc())?;
    same(&rt, map_one_array(&mut table), Ok(32), "20 bytes mapped");
    Ok(())
}
