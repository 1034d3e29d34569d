//! A table on which a job makes its calls, and a digest of what they answered.

use crate::items::Row;
use crate::tallies::Tally;
use acc_base::{
    Config, Directive, EnterClause, ExitClause, Fault, Item, List, MEMORY_MAX, RegionClause,
    Section, UpdateClause,
};
use acc_lend::Lease;
use acc_table::{Call, Reply, Table, abandon};
use acc_trials::Chance;
use std::alloc::{AllocError, Global};

/// How many events a trace has when [`Desk::fold_when_due`] folds it.
const FOLD: usize = 16_384;

/// How many items a directive for a part of a row has at most.
const PART: u64 = 50;

/// A table, numbers by chance, and a digest of what was answered so far. Where memory is refused for what a call needs,
/// the tally knows it, and the call is made without that.
#[derive(Drop)]
pub struct Desk {
    /// The allocator of lists.
    pub alloc: Global,
    /// The table. It stands in a box, since a check of a type that holds a table itself takes long.
    pub table: Box<Table>,
    /// Numbers by chance.
    pub chance: Chance,
    /// What was answered.
    pub tally: Tally,
    /// The number of the device on which directives act.
    pub device: u64,
    // Bytes by chance. They are drawn apart, so that their count does not change which numbers come.
    bytes: Chance,
}

/// So many bytes by chance, at most as many as host memory may have.
pub fn chance_bytes(alloc: Global, chance: &mut Chance, len: u64) -> Result<Vec<u8>, AllocError> {
    let len = len.min(MEMORY_MAX);
    let words = len.div_ceil(8);
    let mut bytes = Vec::with_capacity(alloc, words.wrapping_mul(8) as usize)?;
    for _ in 0..words {
        bytes.extend_from_slice(&chance.number().to_le_bytes())?;
    }
    bytes.truncate(len as usize);
    Ok(bytes)
}

impl Desk {
    /// A desk with a new table of these limits. The seed decides on the numbers and bytes by chance.
    pub fn new(alloc: Global, config: Config, seed: u64, tally: Tally) -> Result<Desk, Fault> {
        let table = Box::new(alloc, Table::new(alloc, config)?)?;
        Ok(Desk {
            alloc,
            table,
            chance: Chance::new(seed),
            tally,
            device: 0,
            bytes: Chance::new(!seed),
        })
    }

    /// A number by chance, below a bound; 0 where the bound is 0.
    pub fn below(&mut self, bound: u64) -> u64 {
        self.chance.number() % bound.max(1)
    }

    /// A stride by chance, one of `tens` numbers that end in 9. It shares no factor with a count such as 1,000 or
    /// 20,000. So that many steps of it come to each of that many arrays once.
    pub fn stride(&mut self, tens: u64) -> u64 {
        self.below(tens).wrapping_mul(10).wrapping_add(9)
    }

    /// A list of what was made; an empty one where memory was refused for it.
    pub fn list<T: Drop>(&mut self, made: Result<Vec<T>, AllocError>) -> List<T> {
        match made {
            Ok(items) => List::from_vec(items),
            Err(_) => {
                self.tally.is_short = true;
                List::from_vec(Vec::new(self.alloc))
            }
        }
    }

    /// The items that [`Row::items`] makes.
    pub fn items<C: Copy + Drop>(
        &mut self,
        row: Row,
        clause: C,
        first: u64,
        stride: u64,
        count: u64,
    ) -> List<Item<C>> {
        let made = row.items(self.alloc, clause, first, stride, count);
        self.list(made)
    }

    /// Items of a clause for a part of a row, at most fifty. Parts are counted from 0.
    fn part<C: Copy + Drop>(&mut self, row: Row, clause: C, part: u64) -> List<Item<C>> {
        let first = part.wrapping_mul(PART);
        let count = row.count.saturating_sub(first).min(PART);
        self.items(row, clause, first, 1, count)
    }

    /// The host writes bytes that were made.
    pub fn write(&mut self, addr: u64, made: Result<Vec<u8>, AllocError>) {
        let bytes = self.list(made);
        self.call(Call::HostWrite { addr, bytes });
    }

    /// The host writes bytes by chance into all of a section.
    pub fn fill(&mut self, section: Section) {
        let made = chance_bytes(self.alloc, &mut self.bytes, section.len);
        self.write(section.start, made);
    }

    /// Makes a call, and returns the number that it replied; 0 where it was refused.
    pub fn call(&mut self, call: Call) -> u64 {
        let outcome = self.table.apply(call);
        self.tally_outcome(outcome)
    }

    fn tally_outcome(&mut self, outcome: Result<Reply, (Call, Fault)>) -> u64 {
        match outcome {
            Ok(reply) => self.tally.accept(reply),
            Err((call, fault)) => {
                abandon(call);
                self.tally.refuse(fault)
            }
        }
    }

    /// Enters a region, and returns its number.
    pub fn enter(&mut self, items: List<Item<RegionClause>>) -> u64 {
        let device = self.device;
        self.call(Call::Do(Directive::Enter { device, items }))
    }

    /// Exits a region.
    pub fn exit(&mut self, number: u64) {
        self.call(Call::Do(Directive::Exit { number }));
    }

    /// Enters a region, and exits it.
    pub fn pass(&mut self, items: List<Item<RegionClause>>) {
        let number = self.enter(items);
        self.exit(number);
    }

    /// An `enter data`.
    pub fn enter_data(&mut self, items: List<Item<EnterClause>>) {
        let (device, queue) = (self.device, None);
        self.call(Call::Do(Directive::EnterData {
            device,
            items,
            queue,
        }));
    }

    /// An `exit data`, at once or through a queue.
    pub fn exit_data(&mut self, items: List<Item<ExitClause>>, queue: Option<u64>) {
        let (device, finalize) = (self.device, false);
        self.call(Call::Do(Directive::ExitData {
            device,
            items,
            finalize,
            queue,
        }));
    }

    /// Names all sections of a row in an `enter data` for each of its parts.
    pub fn enter_row(&mut self, row: Row, clause: EnterClause) {
        for part in 0..row.count.div_ceil(PART) {
            let items = self.part(row, clause, part);
            self.enter_data(items);
        }
    }

    /// Names all sections of a row in an `exit data` for each of its parts.
    pub fn exit_row(&mut self, row: Row, clause: ExitClause) {
        for part in 0..row.count.div_ceil(PART) {
            let items = self.part(row, clause, part);
            self.exit_data(items, None);
        }
    }

    /// An `update`, at once or through a queue.
    pub fn update(&mut self, items: List<Item<UpdateClause>>, queue: Option<u64>) {
        let (device, if_present) = (self.device, false);
        self.call(Call::Do(Directive::Update {
            device,
            items,
            if_present,
            queue,
        }));
    }

    /// Lends a section in a region, and notes the lease; `None` where it is refused.
    pub fn lend(&mut self, region: u64, section: Section) -> Option<Lease> {
        match self.table.apply(Call::Lend { region, section }) {
            Ok(Reply::Lease(lease)) => {
                self.tally.note_lease(&lease);
                Some(lease)
            }
            outcome => {
                self.tally_outcome(outcome);
                None
            }
        }
    }

    /// Notes whether a section is present, and returns it.
    pub fn note_presence(&mut self, section: Section) -> bool {
        let is_there = self.table.is_present(self.device, section);
        self.tally.note(u64::from(is_there));
        is_there
    }

    /// Notes the bytes that the host has of a section.
    pub fn note_host(&mut self, section: Section) {
        let bytes = self.table.host_read(section).unwrap_or(&[]);
        self.tally.note_bytes(bytes);
    }

    /// Notes the bytes that the device has of a section.
    pub fn note_device(&mut self, section: Section) {
        let bytes = self.table.device_read(self.device, section).unwrap_or(&[]);
        self.tally.note_bytes(bytes);
    }

    /// Does what [`Desk::fold`] does, where the trace has grown long.
    pub fn fold_when_due(&mut self) {
        if self.table.trace().len() >= FOLD {
            self.fold();
        }
    }

    /// Notes the events of the trace, and folds them into what the table begins with.
    pub fn fold(&mut self) {
        self.tally.note_events(self.table.trace());
        let folded = self.table.rebase();
        self.tally.note_folded(folded);
    }

    /// Notes all mapped ranges of the device, one after the other, and returns how many they are.
    pub fn note_ranges(&mut self) -> u64 {
        let mut from = 0u64;
        let mut count = 0u64;
        for _ in 0..1_000_000u64 {
            // The range of least start at or above the address.
            let Some(range) = self.table.mapped(self.device, from) else {
                break;
            };
            self.tally.note_mapped(range);
            from = range.start.wrapping_add(1);
            count = count.wrapping_add(1);
        }
        count
    }

    /// Notes the last events and what is left on each device, and returns the digest of all that was noted.
    pub fn finish(&mut self) -> Tally {
        self.tally.note_events(self.table.trace());
        self.tally.note(self.table.events());
        let mut left = self.table.regions();
        for device in 0..self.table.config().devices() {
            self.device = device;
            let used = self.table.used(device);
            left = left.wrapping_add(used).wrapping_add(self.note_ranges());
        }
        self.tally.left = self.tally.left.wrapping_add(left);
        self.tally
    }
}
