//! A list of turns on a table.

ghost use Rattle.std.specs.Prelude.{◌≡◌, ◌+◌, ◌≤◌, ◌∷◌, ◌++◌, [], length, vec_len, vec_capacity, IfOk, IfErr, OnErr};
ghost use Rattle.std.specs.List.{position};
ghost use Rattle.acc_base.specs.declared.faults.Fault.TheVariants.{Memory, NoLease};
ghost use Rattle.acc_table.specs.declared.calls.Turn.TheVariants.{Back};
ghost use Rattle.acc_table.specs.Turns.{is_meant, asked_by, answer_to, lent_by, refuse_back, MayAnswer, IsRun};
ghost use Rattle.acc_table.specs.Turning.{is_lend, lends_in, IsTurnTaken, IsTurnMade, IsRefusalOf};

use crate::calls::{Answer, Reply, Turn};
use crate::lending::take_back;
use crate::making::recorded;
use crate::tables::Table;
use acc_base::{Fault, List};
use acc_lend::Lease;

/// The turn asks for a loan.
fn is_lend(turn: &Turn) -> bool
    ensures { result ≡ is_lend turn.now }
{
    matches!(turn, Turn::Lend { .. })
}

/// How many of the turns ask for a loan.
fn lends_in(turns: &[Turn]) -> usize
    ensures { result ≡ lends_in turns.now }
{
    turns.iter().filter(|turn| is_lend(turn)).count()
}

/// The place in the list of the first lease of this serial number that lends as many bytes as these.
fn place_of(leases: &[Lease], serial: u64, bytes: &List<u8>) -> Option<usize>
    ensures { result ≡ position (is_meant serial (length bytes.now)) leases.now }
{
    let len = bytes.as_slice().len();
    leases
        .iter()
        .position(|lease| lease.serial() == serial && lease.len() == len)
}

/// The answer to a turn whose call got this reply. A lease goes to the end of the list, where there is room for it.
fn answer_to(reply: Reply, leases: &mut Vec<Lease>) -> Answer
    requires room { vec_len leases.old + length (lent_by reply) ≤ vec_capacity leases.old }
    ensures value { result ≡ answer_to reply }
    ensures leases { leases.new.items ≡ leases.old.items ++ lent_by reply }
    ensures len { vec_len leases.new ≡ vec_len leases.old + length (lent_by reply) }
    ensures capacity { vec_capacity leases.new ≡ vec_capacity leases.old }
{
    match reply {
        Reply::Done => Answer::Replied {
            number: 0,
            count: 0,
        },
        Reply::Entered { number } => Answer::Replied { number, count: 0 },
        Reply::Lease(lease) => {
            let number = lease.serial();
            leases.push_reserved(lease);
            Answer::Replied { number, count: 0 }
        }
        Reply::Drained { count } => Answer::Replied { number: 0, count },
        Reply::Idle => Answer::Idle,
    }
}

impl Table {
    /// Plays the turns one after the other, and returns the answer to each. A refused turn changes nothing, and the
    /// next one follows. The answer to a turn for which memory cannot be allocated is `Refused(Memory)`.
    ///
    /// The lease of a [`Turn::Lend`] goes to the end of the list, and the answer has its serial number. A
    /// [`Turn::Back`] takes the first lease of its serial number that lends as many bytes as it brings. They are
    /// written over those, and the lease leaves the list. Where there is none, the turn is refused:
    /// [`Fault::NoTickets`], [`Fault::TraceFull`], or else [`Fault::NoLease`]. A lease of a refused turn keeps its
    /// bytes and its place.
    ///
    /// # Errors
    ///
    /// [`Fault::Memory`] alone, where there is none for the answers, or for a place in the list for each
    /// [`Turn::Lend`]. Nothing was run, the list is as it was, and the turns are dropped.
    pub fn run(&mut self, turns: Vec<Turn>, leases: &mut Vec<Lease>) -> Result<Vec<Answer>, Fault>
        ensures ran { IfOk result (λ answers. IsRun self.old leases.old.items turns.items answers.items self.new leases.new.items) }
        ensures err { IfErr result (λ fault. (fault ≡ Memory) × (self.new ≡ self.old) × (leases.new.items ≡ leases.old.items)) }
    {
        let mut answers = Vec::with_capacity(*self.data.trace.allocator(), turns.len())?;
        leases.reserve(lends_in(&turns))?;
        for turn in turns {
            let answer = self.take_turn(turn, leases);
            answers.push_reserved(answer);
        }
        Ok(answers)
    }

    /// Plays one turn, and returns its answer. There is room in the list for a lease, where it asks for one.
    fn take_turn(&mut self, turn: Turn, leases: &mut Vec<Lease>) -> Answer
        requires room { vec_len leases.old + lends_in (turn ∷ []) ≤ vec_capacity leases.old }
        ensures may { MayAnswer self.old leases.old.items turn (asked_by turn leases.old.items) result self.new leases.new.items }
        ensures len { vec_len leases.new ≤ vec_len leases.old + lends_in (turn ∷ []) }
        ensures capacity { vec_capacity leases.new ≡ vec_capacity leases.old }
    {
        match self.make_turn(turn, leases) {
            Ok(reply) => answer_to(reply, leases),
            Err(fault) => Answer::Refused(fault),
        }
    }

    /// Plays one turn. A lease that it brings back leaves the list.
    fn make_turn(&mut self, turn: Turn, leases: &mut Vec<Lease>) -> Result<Reply, Fault>
        ensures taken { IsTurnTaken self.old leases.old.items turn result self.new leases.new.items }
        ensures len { vec_len leases.new ≤ vec_len leases.old }
        ensures capacity { vec_capacity leases.new ≡ vec_capacity leases.old }
    {
        match turn {
            Turn::Do(directive) => match self.direct(directive) {
                Ok(reply) => Ok(reply),
                Err((_, fault)) => Err(fault),
            },
            Turn::HostWrite { addr, bytes } => match self.write(addr, bytes) {
                Ok(reply) => Ok(reply),
                Err((_, fault)) => Err(fault),
            },
            Turn::Lend { region, section } => self.lend(region, section),
            Turn::Back { serial, bytes } => self.bring_back(serial, bytes, leases),
        }
    }

    /// Brings back the first lease of the list that is meant, with these bytes over those that were lent. It is judged
    /// as it is, since no judgement reads the bytes of its section, and where it is refused it stays as it is.
    fn bring_back(
        &mut self,
        serial: u64,
        bytes: List<u8>,
        leases: &mut Vec<Lease>,
    ) -> Result<Reply, Fault>
        ensures done { IfOk result (λ reply. IsTurnMade self.old leases.old.items (Back serial bytes) reply self.new leases.new.items) }
        ensures told { IfErr result (IsRefusalOf self.old (asked_by (Back serial bytes) leases.old.items)) }
        ensures same { OnErr result (self.new ≡ self.old) }
        ensures same_leases { OnErr result (leases.new.items ≡ leases.old.items) }
        ensures len { vec_len leases.new ≤ vec_len leases.old }
        ensures capacity { vec_capacity leases.new ≡ vec_capacity leases.old }
    {
        let Some(at) = place_of(leases, serial, &bytes) else {
            return Err(self.refuse_back(serial));
        };
        let lease = &leases[at];
        lease.laws();
        self.admit_lease(lease)?;
        let data = &mut *self.data;
        data.trace.reserve(1)?;
        let mut lease = leases.remove(at);
        lease.overwrite(bytes.as_slice());
        let bytes = recorded(data.config.full(), bytes, *data.trace.allocator());
        let device = &mut data.devices.each[lease.device() as usize];
        Ok(take_back(device, &mut data.trace, lease, bytes))
    }

    /// What bringing back a lease is refused for that is not in the list.
    fn refuse_back(&self, serial: u64) -> Fault
        ensures { refuse_back self.now (NoLease serial) ≡ Err result }
    {
        if let Err(fault) = self.admit_ticket() {
            return fault;
        }
        if let Err(fault) = self.admit_event() {
            return fault;
        }
        Fault::NoLease { serial }
    }
}
