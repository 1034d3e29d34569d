//! The check of a script: what its lines read is told where it is stale.

use crate::findings::{Finding, Origin, put_drop, put_finding, put_leak, put_needless};
use crate::looks::{Looks, part_of};
use crate::notes::{Read, stale_in};
use acc_base::{Config, Directive, Fault, Found, Item, Section, UpdateClause};
use acc_read::{Names, Page, ScriptKernel, Statement};
use acc_stale::{Held, Known, Placed, Run, Tracker};
use acc_table::{Place, Table};
use std::alloc::Global;

/// A kernel that is about to run.
#[derive(Drop)]
pub(crate) struct Kernel {
    /// What it does.
    pub kernel: ScriptKernel,
    /// The section that is lent to it.
    pub section: Section,
    /// The bytes that the device has of the section before, or `None` where the kernel leaves each byte another one.
    pub before: Option<Vec<u8>>,
}

/// Whether a kernel leaves each byte another one, whatever it was.
fn leaves_others(kernel: ScriptKernel) -> bool {
    match kernel {
        ScriptKernel::Add(number) | ScriptKernel::Xor(number) => number != 0,
        _ => false,
    }
}

/// Checks the lines of a script, each when it has run.
pub struct Check {
    pub(crate) alloc: Global,
    /// What is known of all bytes, and the account of the blocks, pointers, queues and regions.
    pub(crate) tracker: Tracker,
    /// What is told, and how.
    telling: Telling,
    /// What was found in the line, and what was dropped.
    pub(crate) looks: Looks,
    /// What updates copied that was equal already.
    needless: Needless,
    /// The kernel of the line that ran.
    pub(crate) kernel: Option<Kernel>,
    /// How many events of the trace were seen.
    seen: usize,
    /// How many findings there were.
    count: u64,
}

// By hand, so that a crate above does not prove the drops of its parts again.
impl Drop for Check {
    fn drop(self) {
        let Check {
            alloc: _,
            tracker: _,
            telling: _,
            looks: _,
            needless: _,
            kernel: _,
            seen: _,
            count: _,
        } = self;
    }
}

/// What a check tells, and how.
#[derive(Clone, Copy)]
pub struct Telling {
    /// Whether that is told too which may be meant: copies over newer bytes, newer bytes that are dropped, and copies that
    /// change nothing.
    pub all: bool,
    /// Whether each finding is an object of JSON, on a line of its own.
    pub json: bool,
}

/// Updates of bytes that were equal already.
#[derive(Clone, Copy)]
pub(crate) struct Needless {
    /// How many items of updates these were.
    pub copies: u64,
    /// How many bytes they have.
    pub bytes: u64,
}

/// Where a finding is told: in the script of a file, or of standard input.
#[derive(Clone, Copy)]
pub struct Line<'a> {
    /// The file of the script, if it has one.
    pub file: Option<&'a str>,
    /// The number of the line.
    pub number: u64,
    /// Its text.
    pub text: &'a [u8],
}

impl Check {
    /// Returns the check of a script that is yet to run on a table of these limits.
    ///
    /// # Errors
    ///
    /// [`Fault::Memory`] alone.
    pub fn new(alloc: Global, config: Config, telling: Telling) -> Result<Check, Fault> {
        let (host, device) = (config.host() as u32, config.device() as u32);
        Ok(Check {
            alloc,
            tracker: Tracker::new(alloc, host, config.devices() as usize, device)?,
            telling,
            looks: Looks::new(alloc, telling.all),
            needless: Needless {
                copies: 0,
                bytes: 0,
            },
            kernel: None,
            seen: 0,
            count: 0,
        })
    }

    /// What is known of all bytes, behind the lines so far.
    pub fn known(&self) -> &Known {
        &self.tracker.known
    }

    /// How many findings there were so far.
    pub fn count(&self) -> u64 {
        self.count
    }

    /// Sees a statement before it runs.
    ///
    /// # Errors
    ///
    /// [`Fault::Memory`] alone.
    pub fn before(&mut self, statement: &Statement<'_>, table: &Table) -> Result<(), Fault> {
        self.kernel = None;
        if let (true, Statement::Direct(directive)) = (self.telling.all, statement) {
            self.count_needless(directive, table);
        }
        if let Statement::Kernel {
            region,
            kernel,
            section,
        } = statement
        {
            self.kernel = Some(Kernel {
                kernel: *kernel,
                section: *section,
                before: self.bytes_before(*region, *kernel, *section, table)?,
            });
        }
        Ok(())
    }

    /// The bytes that a device has before a kernel runs, where they have to be compared.
    fn bytes_before(
        &self,
        region: u64,
        kernel: ScriptKernel,
        section: Section,
        table: &Table,
    ) -> Result<Option<Vec<u8>>, Fault> {
        if leaves_others(kernel) {
            return Ok(None);
        }
        let device = table.device_of_region(region);
        let bytes = table.device_read(device, section).unwrap_or(&[]);
        Ok(Some(Vec::from_slice(self.alloc, bytes)?))
    }

    /// Sees a line after it ran, and puts what it read that is stale. `shown` is the section of host memory that it
    /// shows, if it shows one.
    ///
    /// # Errors
    ///
    /// [`Fault::Memory`] alone.
    pub fn after(
        &mut self,
        page: &mut Page,
        names: &Names,
        line: Line<'_>,
        table: &Table,
        shown: Option<Section>,
    ) -> Result<(), Fault> {
        self.looks.line = line.number;
        if self.seen < table.trace().len() {
            self.see_events(table)?;
        }
        if let Some(section) = shown {
            self.find(table, None, section, 0)?;
        }
        if !self.looks.findings.is_empty() {
            self.put_findings(page, names, line);
        }
        Ok(())
    }

    /// Tells what each event did that is new.
    fn see_events(&mut self, table: &Table) -> Result<(), Fault> {
        let trace = table.trace();
        for at in self.seen..trace.len() {
            if let Some(event) = trace.get(at) {
                self.see_event(table, event)?;
            }
        }
        self.seen = trace.len();
        self.looks.sift_drops(&self.tracker.known);
        Ok(())
    }

    /// Puts what was found in a line.
    fn put_findings(&mut self, page: &mut Page, names: &Names, line: Line<'_>) {
        for finding in self.looks.findings.iter() {
            put_finding(page, names, line, self.telling.json, *finding);
        }
        self.count = self.count.saturating_add(self.looks.findings.len() as u64);
        self.looks.findings.clear();
    }

    /// Puts what is mapped still at the end, and what was dropped or copied in vain, where all is told.
    pub fn end(&mut self, page: &mut Page, names: &Names, file: Option<&str>, table: &Table) {
        let json = self.telling.json;
        for device in 0..table.config().devices() {
            self.put_leaks(page, names, file, table, device);
        }
        for held in self.looks.drops.iter() {
            put_drop(
                page,
                names,
                Origin::line(file, held.line, json),
                held.range.section,
            );
            self.count = self.count.saturating_add(1);
        }
        if self.needless.copies > 0 {
            put_needless(
                page,
                Origin::line(file, self.looks.line, json),
                self.needless,
            );
            self.count = self.count.saturating_add(1);
        }
    }

    /// Puts what is mapped still on a device.
    fn put_leaks(
        &mut self,
        page: &mut Page,
        names: &Names,
        file: Option<&str>,
        table: &Table,
        device: u64,
    ) {
        let mut from = 0;
        let mut near = Place::default();
        for _ in 0..=table.events() {
            let Some((range, place)) = table.mapped_near(device, from, near) else {
                break;
            };
            near = place;
            let section = Section {
                start: range.start,
                len: range.len,
            };
            let line = match self.placed(table, device, section) {
                Some(held) => held.line,
                None => 0,
            };
            put_leak(
                page,
                names,
                Origin::line(file, line, self.telling.json),
                range,
            );
            self.count = self.count.saturating_add(1);
            from = range.start.saturating_add(range.len);
        }
    }

    /// The block that a section is mapped to.
    fn placed(&self, table: &Table, device: u64, section: Section) -> Option<Held> {
        match table.find(device, section) {
            Found::Inside { block, .. } => self.tracker.account.block(device, block),
            _ => None,
        }
    }

    /// Finds what a kernel reads that is stale, when its block is lent.
    pub(crate) fn find_in_kernel(
        &mut self,
        table: &Table,
        device: u64,
        block: u64,
    ) -> Result<(), Fault> {
        let Some(kernel) = &self.kernel else {
            return Ok(());
        };
        let (reads, source) = match kernel.kernel {
            ScriptKernel::Add(_) | ScriptKernel::Xor(_) => (kernel.section.len, None),
            ScriptKernel::Number(_) => (0, None),
            ScriptKernel::Plus(source) => (kernel.section.len.min(source.len), Some(source)),
        };
        let section = Section {
            start: kernel.section.start,
            len: reads,
        };
        if let Some(source) = source {
            self.find(table, None, source, 1)?;
        }
        if let Some(held) = self.tracker.account.block(device, block) {
            self.find(table, Some(held.placed), section, 0)?;
        }
        Ok(())
    }

    /// Finds what of a section is stale as a block has it, or host memory. The line names it by its last reference but so
    /// many.
    fn find(
        &mut self,
        table: &Table,
        block: Option<Placed>,
        section: Section,
        nth: usize,
    ) -> Result<(), Fault> {
        let mut rest = section;
        for _ in 0..section.len {
            let Some(run) = stale_in(&self.tracker.known, block, rest) else {
                break;
            };
            let section = part_of(rest, run);
            let read = Read {
                block,
                mark: run.mark,
                section,
            };
            let advice = self.advice(table, read)?;
            if block.is_none() {
                self.looks.forget_drops(section);
            }
            self.looks.findings.push(Finding {
                kind: read.kind(),
                section,
                nth,
                advice,
            })?;
            rest = rest_of(rest, run);
        }
        Ok(())
    }
}

impl Check {
    // ---- what may be meant

    /// Counts what an update is about to copy that is equal already.
    fn count_needless(&mut self, directive: &Directive, table: &Table) {
        let Directive::Update {
            device,
            items,
            queue: None,
            ..
        } = directive
        else {
            return;
        };
        for item in items.as_slice() {
            if is_equal(table, *device, *item) {
                self.needless.copies = self.needless.copies.saturating_add(1);
                self.needless.bytes = self.needless.bytes.saturating_add(item.section.len);
            }
        }
    }
}

/// Whether an item of an update copies bytes that are equal already.
fn is_equal(table: &Table, device: u64, item: Item<UpdateClause>) -> bool {
    match (
        table.host_read(item.section),
        table.device_read(device, item.section),
    ) {
        (Some(host), Some(own)) => host == own,
        _ => false,
    }
}

/// What of a section lies behind a run in it.
pub(crate) fn rest_of(section: Section, run: Run) -> Section {
    let done = (run.at as u64).saturating_add(run.len as u64);
    Section {
        start: section.start.saturating_add(done),
        len: section.len.saturating_sub(done),
    }
}
