//! How what a table has becomes its base.

ghost use Rattle.std.specs.Prelude.{◌≡◌, [], length, IfOk, IfErr, OnOk, OnErr};
ghost use Rattle.acc_base.specs.declared.faults.Fault.TheVariants.{Memory};
ghost use Rattle.acc_base.specs.Calls.{rebased};

use crate::tables::Table;
use acc_base::{Event, Fault};
use acc_clauses::Base;
use std::marker::Model;
use std::mem;

/// What a table had before a rebase and no longer needs: its base, and the events that it had stored since. Contracts
/// see it as that history.
#[derive(Drop)]
pub struct Folded {
    base: Base,
    events: Vec<Event>,
}

impl Model for Folded {
    ghost use Rattle.acc_base.specs.Calls.{History};

    ghost Value = { History };

    ghost view = { λ folded. record { base = folded.base; trace = folded.events.items } };
}

impl Folded {
    /// How many events were stored.
    pub fn count(&self) -> u64
        ensures { result ≡ length self.now.trace }
    {
        self.events.len() as u64
    }
}

impl Table {
    /// Makes what the table has its base, empties the stored trace, and returns how many events that had. So a program
    /// that runs for long need not keep every event. Counts over the history begin at the base's values, and there is
    /// room in the trace again. It is no event and takes no ticket, and every query but [`Table::base`] and
    /// [`Table::trace`] returns what it did. The memory of the trace is kept for the events to come. The base allocates
    /// for each range, block, attached pointer, queued transfer, loan and open region. With full traces it also
    /// allocates for the bytes of all memories.
    ///
    /// # Errors
    ///
    /// [`Fault::Memory`] alone, and nothing changed.
    pub fn rebase(&mut self) -> Result<u64, Fault>
        ensures folded { IfOk result (λ folded. folded ≡ length self.old.history.trace) }
        ensures rebased { OnOk result (self.new ≡ rebased self.old) }
        ensures same { OnErr result (self.new ≡ self.old) }
        ensures err { IfErr result (λ fault. fault ≡ Memory) }
    {
        let Folded { base, events } = self.fold()?;
        // It goes first, so that the next base finds its memory.
        drop(base);
        let count = events.len() as u64;
        self.keep_room(events);
        Ok(count)
    }

    /// As [`Table::rebase`], but it returns what the table no longer needs. The caller frees that where it likes, as
    /// when a lock is free again. The memory of the trace goes with it.
    ///
    /// # Errors
    ///
    /// [`Fault::Memory`] alone, and nothing changed.
    pub fn fold(&mut self) -> Result<Folded, Fault>
        ensures folded { IfOk result (λ folded. folded ≡ self.old.history) }
        ensures rebased { OnOk result (self.new ≡ rebased self.old) }
        ensures same { OnErr result (self.new ≡ self.old) }
        ensures err { IfErr result (λ fault. fault ≡ Memory) }
    {
        let events = self.events();
        let data = &mut *self.data;
        let alloc = *data.trace.allocator();
        let full = data.config.full();
        let base = data.devices.base(alloc, &data.config, full, events)?;
        let base = mem::replace(&mut data.base, base);
        let events = mem::replace(&mut data.trace, Vec::new(alloc));
        Ok(Folded { base, events })
    }

    /// Keeps the memory of these events for those to come, where none is stored.
    fn keep_room(&mut self, mut events: Vec<Event>)
        requires { self.old.history.trace ≡ [] }
        ensures { self.new ≡ self.old }
    {
        events.clear();
        self.data.trace = events;
    }
}
