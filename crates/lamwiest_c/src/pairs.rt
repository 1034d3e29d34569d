//! Calls on the tables of two handles: one is copied, or both are compared.

ghost use Rattle.std.specs.Prelude.{◌≡◌, Some, MatchResult};
ghost use Rattle.lamwiest_c.specs.Statuses.{IsAnswered, IsNumberAnswered};
ghost use Rattle.lamwiest_c.specs.Pairs.{refusal_of_copy, IsCopy, IsCopiedInto, CameOfComparison, AreCompared};

use crate::environments::TableWithLeases;
use crate::handles::{Handle, put_back, take_out};
use crate::lookups::lease_from;
use crate::statuses::{FaultFields, Refusal, tell, tell_number};
use acc_base::Fault;
use acc_index::Index;
use std::alloc::Global;

impl TableWithLeases {
    /// A copy, where no lease is out: none can be had twice.
    ///
    /// # Errors
    ///
    /// `Lent` with the block of the lease of least number that is out; else `Memory` alone.
    fn copy(&self, alloc: Global) -> Result<Box<TableWithLeases>, Refusal>
        ensures { MatchResult result (λ copy. IsCopy self.now copy.value) (λ refusal. refusal ≡ refusal_of_copy self.now) }
    {
        if let Some(lease) = lease_from(&self.leases, 0) {
            return Err(Refusal::OfTable(Fault::Lent { block: lease.block }));
        }
        let environment = TableWithLeases {
            table: self.table.clone()?,
            leases: Index::new(alloc),
        };
        Ok(Box::new(alloc, environment)?)
    }

    /// 1 where another table has the same limits, and the same in memory and on record; else 0. `Memory` is the only
    /// error.
    fn is_same_as(&self, other: &TableWithLeases) -> Result<u64, Refusal>
        ensures { CameOfComparison self.now other.now (λ r. result ≡ r) }
    {
        if self.table.is_same_as(&other.table)? {
            Ok(1)
        } else {
            Ok(0)
        }
    }

    /// The same of the table of a handle, which may have none.
    fn compare(&self, alloc: Global, other: &mut Handle) -> Result<u64, Refusal>
        ensures same { other.new.value ≡ other.old.value }
        ensures told { AreCompared (Some self.now) other.old.value (λ r. result ≡ r) }
    {
        let Some(environment) = take_out(alloc, other) else {
            return Err(Refusal::Ended);
        };
        let made = self.is_same_as(&environment);
        put_back(other, environment);
        made
    }
}

/// Puts a copy of the table of a handle into another one: its limits, all memories, what is on record, and the stored
/// trace. It ends the table that the other one had. Where it is refused, that stays; it is `Lent` while a lease is out.
#[unsafe(no_mangle)]
pub extern "C" fn lamwiest_table_copy(
    alloc: Global,
    from: &mut Handle,
    to: &mut Handle,
    fault: &mut FaultFields,
) -> u32
    ensures same { from.new.value ≡ from.old.value }
    ensures copied { IsCopiedInto from.old.value to.old.value to.new.value (IsAnswered result fault.new) }
{
    let Some(environment) = take_out(alloc, from) else {
        return tell(Err(Refusal::Ended), fault);
    };
    let made = environment.copy(alloc);
    put_back(from, environment);
    match made {
        Ok(copy) => {
            put_back(to, copy);
            tell(Ok(0), fault)
        }
        Err(refusal) => tell(Err(refusal), fault),
    }
}

/// Compares the tables of two handles. Where it is done, `same` is 1 where they have the same limits, and the same in
/// memory and on record; else it is 0. Their traces may differ.
#[unsafe(no_mangle)]
pub extern "C" fn lamwiest_table_same(
    alloc: Global,
    one: &mut Handle,
    other: &mut Handle,
    same: &mut u64,
    fault: &mut FaultFields,
) -> u32
    ensures one { one.new.value ≡ one.old.value }
    ensures other { other.new.value ≡ other.old.value }
    ensures told { AreCompared one.old.value other.old.value (IsNumberAnswered result fault.new same.old same.new) }
{
    let Some(environment) = take_out(alloc, one) else {
        return tell_number(Err(Refusal::Ended), same, fault);
    };
    let made = environment.compare(alloc, other);
    put_back(one, environment);
    tell_number(made, same, fault)
}
