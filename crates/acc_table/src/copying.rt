//! Copies of tables, and whether two tables have the same.

ghost use Rattle.std.specs.Prelude.{◌≡◌, IfOk, IfErr, MatchBool, true};
ghost use Rattle.acc_base.specs.declared.faults.Fault.TheVariants.{Memory};
ghost use Rattle.acc_base.specs.Calls.{base_of};
ghost use Rattle.acc_table.specs.Comparing.{IsSame};
ghost use Rattle.acc_table.specs.Devices.{whole_of};

use crate::devices::Devices;
use crate::tables::{Table, TableData};
use acc_base::{Event, Fault};
use acc_clauses::{Base, Plan};
use std::alloc::{AllocError, Global};

/// Copies of events.
fn copy_trace(alloc: Global, events: &[Event]) -> Result<Vec<Event>, AllocError>
    ensures { IfOk result (λ copies. copies.items ≡ events.now) }
{
    Vec::from_clones(alloc, events)
}

impl Clone for Devices {
    ghost use Rattle.std.specs.Prelude.{◌≡◌};
    ghost use Rattle.acc_base.specs.Limits.{Limits};
    ghost use Rattle.acc_table.specs.Devices.{whole_of, AreSet};

    ghost is_clone = { λ devices copy. (whole_of copy ≡ whole_of devices) × ((l : Limits) → AreSet l devices → AreSet l copy) };

    fn clone(&self) -> Result<Devices, AllocError> {
        Ok(Devices {
            shared: self.shared.clone()?,
            each: self.each.clone()?,
        })
    }
}

impl Clone for TableData {
    ghost use Rattle.std.specs.Prelude.{◌≡◌};
    ghost use Rattle.acc_base.specs.Limits.{Limits};
    ghost use Rattle.acc_table.specs.Devices.{whole_of, AreSet};

    ghost is_clone = { λ it copy. (copy.config ≡ it.config) × (copy.base ≡ it.base) × (whole_of copy.devices ≡ whole_of it.devices) × ((l : Limits) → AreSet l it.devices → AreSet l copy.devices) × (copy.trace.items ≡ it.trace.items) };

    fn clone(&self) -> Result<TableData, AllocError> {
        let alloc = *self.trace.allocator();
        let base = self.base.clone()?;
        let trace = copy_trace(alloc, &self.trace)?;
        let plan = Box::new(alloc, Plan::new())?;
        Ok(TableData {
            config: self.config,
            devices: self.devices.clone()?,
            base,
            trace,
            plan,
        })
    }
}

impl Clone for Table {
    ghost use Rattle.std.specs.Prelude.{◌≡◌};

    ghost is_clone = { λ table copy. copy ≡ table };

    /// A table of the same limits, history and state, which shares no memory with this one. It allocates for all that
    /// this one has, and for little more. A lease that is out fits both; it can be brought back to one of them.
    ///
    /// # Errors
    ///
    /// [`AllocError`] where there is no such memory.
    fn clone(&self) -> Result<Table, AllocError> {
        Ok(Table {
            data: self.data.clone()?,
        })
    }
}

impl Table {
    /// All that the devices have, and all memories, in plain vectors. It counts no events.
    fn saved(&self) -> Result<Base, Fault>
        ensures ok { IfOk result (λ saved. saved ≡ base_of true self.now.state 0) }
        ensures only { IfErr result (λ fault. fault ≡ Memory) }
    {
        let data = &*self.data;
        let alloc = *data.trace.allocator();
        data.devices.base(alloc, &data.config, true, 0)
    }

    /// Whether another table has the same limits, and the same in memory and on record. That is the bytes of host and
    /// devices, blocks, mapped ranges with their counters, attached pointers, open regions, queued transfers and loans.
    /// It is also the numbers that come next. What led there may differ. It allocates for a copy of both.
    ///
    /// # Errors
    ///
    /// [`Fault::Memory`] alone.
    pub fn is_same_as(&self, other: &Table) -> Result<bool, Fault>
        ensures ok { IfOk result (λ same. MatchBool same (IsSame self.now other.now) (IsSame self.now other.now → ⊥)) }
        ensures only { IfErr result (λ fault. fault ≡ Memory) }
    {
        let (one, two) = (&*self.data, &*other.data);
        one.config.laws();
        two.config.laws();
        if one.config != two.config {
            return Ok(false);
        }
        Ok(self.saved()? == other.saved()?)
    }
}
