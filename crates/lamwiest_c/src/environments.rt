//! What is behind a handle: a table, and the leases of the blocks that it has lent.

ghost use Rattle.std.specs.Prelude.{◌≡◌, Ok, IfOk, IfErr};
ghost use Rattle.acc_base.specs.declared.calls.Call.TheVariants.{Do, HostWrite};
ghost use Rattle.acc_base.specs.declared.faults.Fault.TheVariants.{Memory};
ghost use Rattle.lamwiest_c.specs.declared.statuses.Refusal.TheVariants.{OfTable};
ghost use Rattle.lamwiest_c.specs.Begins.{new_environment};
ghost use Rattle.lamwiest_c.specs.Clauses.{queue_asked, enter_of, enter_data_of, exit_data_of, update_of};
ghost use Rattle.lamwiest_c.specs.Answers.{number_in, IsMadeIn, IsAsked, IsRebased};

use crate::items::{RawItem, items_of, queue_asked};
use crate::statuses::Refusal;
use acc_base::{Config, Directive};
use acc_index::Index;
use acc_lend::Lease;
use acc_table::{Call, Reply, Table, abandon};
use std::alloc::Global;
use std::marker::Model;

/// A lease that a table keeps. Where it is let go its block stays lent for good.
pub struct KeptLease {
    pub(crate) lease: Lease,
}

impl Drop for KeptLease {
    fn drop(self) {
        let KeptLease { lease } = self;
        lease.abandon();
    }
}

/// A table, and the leases of the blocks that it has lent, in the order in which they were lent. C names a lease by its
/// serial number, so that none is lost, and none is spent twice.
///
/// Contracts see the table's world and what the leases hold.
#[derive(Drop)]
pub struct TableWithLeases {
    pub(crate) table: Table,
    // By serial number, so that a lease comes back without a move of the others.
    pub(crate) leases: Index<KeptLease>,
}

impl Model for TableWithLeases {
    ghost use Rattle.lamwiest_c.specs.Environments.{DataEnvironment};
    ghost use Rattle.lamwiest_c.specs.Keeps.{leases_in, AreLeasesKept};

    ghost Value = { DataEnvironment };

    ghost view = { λ e. record { world = e.table; leases = leases_in e.leases.entries } };

    ghost invariant = { λ e. AreLeasesKept e.table e.leases.entries };
}

/// The number of a reply. A lease in it is abandoned.
pub fn number_in(reply: Reply) -> u64
    ensures { result ≡ number_in reply }
{
    match reply {
        Reply::Done => 1,
        Reply::Entered { number } => number,
        Reply::Drained { count } => count,
        Reply::Idle => 0,
        Reply::Lease(lease) => {
            let serial = lease.serial();
            lease.abandon();
            serial
        }
    }
}

impl TableWithLeases {
    /// A new table of these limits, which has lent nothing.
    ///
    /// # Errors
    ///
    /// `Memory` alone.
    pub fn new(alloc: Global, config: Config) -> Result<TableWithLeases, Refusal>
        ensures ok { IfOk result (λ e. e ≡ new_environment config) }
        ensures err { IfErr result (λ refusal. refusal ≡ OfTable Memory) }
    {
        let table = Table::new(alloc, config)?;
        Ok(TableWithLeases {
            table,
            leases: Index::new(alloc),
        })
    }

    /// Makes a call that moves no lease.
    #[inline(always)]
    fn make(&mut self, call: Call) -> Result<u64, Refusal>
        ensures { IsMadeIn self.old call (λ r. result ≡ r) self.new }
    {
        match self.table.apply(call) {
            Ok(reply) => Ok(number_in(reply)),
            Err((call, fault)) => {
                abandon(call);
                Err(Refusal::OfTable(fault))
            }
        }
    }

    /// Carries out a directive, and returns the number of its reply.
    ///
    /// # Errors
    ///
    /// That of the table.
    #[inline(always)]
    pub fn direct(&mut self, directive: Directive) -> Result<u64, Refusal>
        ensures { IsMadeIn self.old (Do directive) (λ r. result ≡ r) self.new }
    {
        self.make(Call::Do(directive))
    }

    /// Enters a data region with the items of an array (OpenACC 3.3, section 2.6.5), and returns its number.
    ///
    /// # Errors
    ///
    /// Those of `items_of` and of the table.
    pub fn enter(&mut self, alloc: Global, device: u64, items: &[RawItem]) -> Result<u64, Refusal>
        ensures { IsAsked self.old (enter_of device items.now) (λ r. result ≡ r) self.new }
    {
        let items = items_of(alloc, items)?;
        self.direct(Directive::Enter { device, items })
    }

    /// Carries out `enter data` with the items of an array (OpenACC 3.3, section 2.6.6). Errors are those of
    /// [`TableWithLeases::enter`].
    pub fn enter_data(
        &mut self,
        alloc: Global,
        device: u64,
        items: &[RawItem],
        queue: u64,
    ) -> Result<u64, Refusal>
        ensures { IsAsked self.old (enter_data_of device items.now (queue_asked queue)) (λ r. result ≡ r) self.new }
    {
        let items = items_of(alloc, items)?;
        let queue = queue_asked(queue);
        self.direct(Directive::EnterData {
            device,
            items,
            queue,
        })
    }

    /// Carries out `exit data` with the items of an array (OpenACC 3.3, section 2.6.6). Errors are those of
    /// [`TableWithLeases::enter`].
    pub fn exit_data(
        &mut self,
        alloc: Global,
        device: u64,
        items: &[RawItem],
        finalize: bool,
        queue: u64,
    ) -> Result<u64, Refusal>
        ensures { IsAsked self.old (exit_data_of device items.now finalize (queue_asked queue)) (λ r. result ≡ r) self.new }
    {
        let items = items_of(alloc, items)?;
        let queue = queue_asked(queue);
        self.direct(Directive::ExitData {
            device,
            items,
            finalize,
            queue,
        })
    }

    /// Carries out `update` with the items of an array (OpenACC 3.3, the update directive). Errors are those of
    /// [`TableWithLeases::enter`].
    pub fn update(
        &mut self,
        alloc: Global,
        device: u64,
        items: &[RawItem],
        if_present: bool,
        queue: u64,
    ) -> Result<u64, Refusal>
        ensures { IsAsked self.old (update_of device items.now if_present (queue_asked queue)) (λ r. result ≡ r) self.new }
    {
        let items = items_of(alloc, items)?;
        let queue = queue_asked(queue);
        self.direct(Directive::Update {
            device,
            items,
            if_present,
            queue,
        })
    }

    /// Writes bytes into host memory from a host address on. They are copied once; with full traces the event has a
    /// second copy. Errors are those of the table.
    pub fn host_write(&mut self, addr: u64, bytes: &[u8]) -> Result<u64, Refusal>
        ensures { IsMadeIn self.old (HostWrite addr bytes.now) (λ r. result ≡ r) self.new }
    {
        self.table.host_write(addr, bytes)?;
        Ok(number_in(Reply::Done))
    }

    /// Makes what the table has its base, and returns how many events that folded; `Memory` is the only error.
    pub fn rebase(&mut self) -> Result<u64, Refusal>
        ensures { IsRebased self.old (λ r. result ≡ r) self.new }
    {
        Ok(self.table.rebase()?)
    }
}
