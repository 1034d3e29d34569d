//! The log: each call of a script, and behind it a line for each thing that it did, read from the events of the table.
//! Bytes are copied in to the device and copied out to host memory, in the words of OpenACC.

use crate::item_logs::{Copied, LogItem};
use crate::log_lines::{Tail, Texts};
use crate::objects::LogForm;
use crate::rows::{RowCounts, has_readonly, reach, reach_item};
use crate::totals::{REFUSED, Totals, WAITING};
use acc_base::{Did, Event, Fault, Found, QUEUE_COUNT, Section, Step, Task};
use acc_read::{Names, Page, Statement};
use acc_script::Effect;
use acc_stale::{Account, Held, NextTold};
use acc_table::Table;
use std::alloc::{AllocError, Global};

/// The log of a script. Its lines gather in a page until they are written.
pub struct Log {
    /// The lines that were not written yet.
    pub page: Page,
    /// How often rows of the clause tables were reached, where that is counted.
    pub rows: Option<RowCounts>,
    /// How its lines are put.
    pub(crate) form: LogForm,
    /// The number of the line of the last statement in it.
    pub(crate) line: u64,
    /// What the events in the log say of blocks, pointers, queues and regions.
    pub(crate) account: Account,
    /// The texts of the range that its lines name.
    pub(crate) texts: Texts,
    /// What the events in the log did in all.
    pub(crate) totals: Totals,
    /// How many events of the trace are in the log.
    told: usize,
    /// The section that the kernel that runs is lent, and its device address.
    lent: Option<(Section, Option<u64>)>,
}

// By hand, so that a crate above does not prove the drops of its parts again.
impl Drop for Log {
    fn drop(self) {
        let Log {
            page: _,
            rows: _,
            form: _,
            line: _,
            account: _,
            texts: _,
            totals: _,
            told: _,
            lent: _,
        } = self;
    }
}

impl Log {
    /// Returns the log of a script whose first line is yet to run.
    pub fn new(alloc: Global, form: LogForm) -> Log {
        Log {
            page: Page::new(alloc),
            rows: None,
            form,
            line: 0,
            account: Account::new(alloc),
            texts: Texts::new(),
            totals: Totals::new(),
            told: 0,
            lent: None,
        }
    }

    /// Puts the lines of a statement that made events, was refused, or stepped an empty queue. With several devices
    /// they show on which one something was done.
    ///
    /// # Errors
    ///
    /// [`Fault::Memory`] alone, where the account of events found none. The log is not to be told more then. For the
    /// log's own text, [`Page::whole`] returns it.
    pub fn tell(
        &mut self,
        names: &Names,
        number: u64,
        text: &[u8],
        table: &Table,
        effect: Effect,
    ) -> Result<(), Fault> {
        if let Some(rows) = &mut self.rows {
            rows.readonly = has_readonly(text);
        }
        if self.told < table.trace().len() || is_outcome(effect) {
            self.line = number;
            self.tell_call(text, table);
            self.tell_events(names, table)?;
            self.put_outcome(effect);
        }
        Ok(())
    }

    /// Puts the last line: how much was done in all, and how many copies wait still.
    pub fn tell_total(&mut self) {
        self.totals
            .add(WAITING, self.account.waiting().len() as u64);
        self.totals.put(&mut self.page, self.form);
    }

    /// Counts the row of a statement that was refused.
    pub fn count_refused(&mut self, statement: &Statement<'_>, fault: Fault) {
        match fault {
            Fault::PartlyPresent { item } => self.count_item(statement, item, "partly present"),
            Fault::NotPresent { item } => self.count_item(statement, item, "absent"),
            _ => reach(&mut self.rows, "refused", fault.name()),
        }
    }

    /// Counts the row of the item of a place for which a statement was refused.
    fn count_item(&mut self, statement: &Statement<'_>, place: u64, outcome: &'static str) {
        match statement {
            Statement::Direct(directive) => {
                if let Some(task) = &directive.task(place as usize) {
                    reach_item(&mut self.rows, task, outcome);
                }
            }
            Statement::Kernel { section, .. } if section.len == 0 => {
                reach(&mut self.rows, "kernel", "empty")
            }
            _ => reach(&mut self.rows, "kernel", outcome),
        }
    }

    /// Puts the line of a statement and of its device. An object has the device always, a text only where there are
    /// several.
    fn tell_call(&mut self, text: &[u8], table: &Table) {
        let device = self.device(table);
        self.put_head(text, device);
        let has_line = matches!(self.form, LogForm::Text) && table.config().devices() > 1;
        match device {
            Some(device) if has_line => self.put_device(device),
            _ => {}
        }
    }

    /// The device of the events that are not told yet. All of a statement are on one. A write of the host is on none
    /// here, though its event names the first.
    fn device(&self, table: &Table) -> Option<u64> {
        match table.trace().get(self.told) {
            None | Some(Event::HostWritten { .. }) => None,
            Some(event) => Some(event.device()),
        }
    }

    fn tell_events(&mut self, names: &Names, table: &Table) -> Result<(), AllocError> {
        let trace = table.trace();
        for event in trace.get(self.told..).unwrap_or(&[]) {
            self.tell_event(names, table, event)?;
        }
        self.told = trace.len();
        Ok(())
    }

    fn put_outcome(&mut self, effect: Effect) {
        match effect {
            Effect::EmptyQueue => {
                reach(&mut self.rows, "step", "none");
                self.put_idle();
            }
            Effect::Refused(fault) => {
                self.totals.add(REFUSED, 1);
                self.put_refused(fault);
            }
            _ => {}
        }
    }

    fn tell_event(
        &mut self,
        names: &Names,
        table: &Table,
        event: &Event,
    ) -> Result<(), AllocError> {
        self.tell_items(names, table, event)?;
        match event {
            Event::Entered { device, number, .. } => {
                self.account.open(*device, *number, event)?;
                self.put_region("entered", *number);
            }
            Event::Left { device, number, .. } => {
                self.account.close(*device, *number);
                self.put_region("exited", *number);
            }
            Event::Waited {
                device,
                queue,
                count,
            } => {
                self.count_waited(*queue, *count);
                self.tell_waited(names, *device, *queue)?;
            }
            Event::Stepped { device, queue, .. } => {
                reach(&mut self.rows, "step", "some");
                self.tell_next(names, *device, *queue)?;
            }
            Event::HostWritten { addr, len, .. } => {
                let section = Section {
                    start: *addr,
                    len: *len,
                };
                self.put(names, None, "wrote", section, None, Tail::None);
            }
            Event::Lent {
                device,
                section,
                block,
                serial,
                ..
            } => self.tell_lent(names, *device, *section, *block, *serial),
            Event::Gathered { serial, .. } => self.tell_gathered(names, *serial),
            _ => {}
        }
        Ok(())
    }

    /// Puts the lines of the items of an event, in the order in which they acted.
    fn tell_items(
        &mut self,
        names: &Names,
        table: &Table,
        event: &Event,
    ) -> Result<(), AllocError> {
        let count = event.did().len();
        for nth in 0..count {
            if let Some((task, did)) = self.account.act(event, nth) {
                let place = match task {
                    Task::ExitRegion { .. } => count.saturating_sub(nth).saturating_sub(1),
                    _ => nth,
                };
                self.tell_task(names, table, event.device(), place, task, did)?;
            }
        }
        Ok(())
    }

    fn tell_task(
        &mut self,
        names: &Names,
        table: &Table,
        device: u64,
        place: usize,
        task: Task,
        did: Did,
    ) -> Result<(), AllocError> {
        let told = self.account.item(device, task, did, self.line)?;
        let held = match did.step {
            Step::Nothing => self.found(table, device, task),
            _ => told.held,
        };
        let item = LogItem {
            place,
            task,
            did,
            held,
            count: told.item.holder.map_or(0, |holder| holder.count),
            transfer: told.transfer,
        };
        self.tell_item(names, &item);
        Ok(())
    }

    /// The block that has the section of an item, or the pointer that it names alone.
    fn found(&self, table: &Table, device: u64, task: Task) -> Option<Held> {
        let section = task.section();
        let asked = if task.names_pointer() {
            Section { len: 8, ..section }
        } else {
            section
        };
        match table.find(device, asked) {
            Found::Inside { block, .. } => self.account.block(device, block),
            _ => None,
        }
    }

    /// Counts the row of a `wait`, and puts that no copy waited, if none did.
    fn count_waited(&mut self, queue: Option<u64>, count: u64) {
        let directive = match queue {
            Some(_) => "wait queue",
            None => "wait",
        };
        let outcome = if count > 0 { "some" } else { "none" };
        reach(&mut self.rows, directive, outcome);
        if count == 0 {
            self.put_idle();
        }
    }

    /// Puts the copies that a `wait` made: those of a queue, or of all queues from the first on.
    fn tell_waited(
        &mut self,
        names: &Names,
        device: u64,
        queue: Option<u64>,
    ) -> Result<(), AllocError> {
        let queues = match queue {
            Some(queue) => queue..queue.saturating_add(1),
            None => 0..QUEUE_COUNT,
        };
        for queue in queues {
            for _ in 0..self.account.count_in(device, queue) {
                self.tell_next(names, device, queue)?;
            }
        }
        Ok(())
    }

    /// Puts the next copy of a queue, if one waits in it.
    fn tell_next(&mut self, names: &Names, device: u64, queue: u64) -> Result<(), AllocError> {
        if let Some(
            NextTold {
                block,
                transfer,
                ..
            },
        ) = self.account.next(device, queue)?
        {
            let copied = Copied::of(transfer, block.place, Some(queue));
            self.put_copy(names, None, copied, false);
        }
        Ok(())
    }

    fn tell_lent(&mut self, names: &Names, device: u64, section: Section, block: u64, serial: u64) {
        if let Some(Held { placed, .. }) = self.account.block(device, block) {
            let offset = section.start.saturating_sub(placed.start);
            let place = Some(placed.place.saturating_add(offset));
            self.lent = Some((section, place));
            reach(&mut self.rows, "kernel", "inside");
            self.put(names, None, "lent", section, place, Tail::Serial(serial));
        }
    }

    fn tell_gathered(&mut self, names: &Names, serial: u64) {
        if let Some((section, place)) = self.lent {
            self.lent = None;
            self.put(
                names,
                None,
                "gathered",
                section,
                place,
                Tail::Serial(serial),
            );
        }
    }
}

/// Whether a statement has something to print beside events.
fn is_outcome(effect: Effect) -> bool {
    matches!(effect, Effect::EmptyQueue | Effect::Refused(_))
}
