//! Copies what a script prints, with each statement before that, or as JSON.

use crate::effect_objects::{put_effect, put_statement};
use crate::follows::Views;
use acc_base::Fault;
use acc_read::{Page, Statement, statement_text};
use acc_script::{Effect, MemorySink, Session, Sink, Status, Watcher, write_all};
use acc_table::Table;
use std::alloc::Global;

/// What a run prints, in memory. Nothing of it is kept where it is shown as JSON, which comes from effects.
#[derive(Drop)]
pub struct RunSink {
    sink: MemorySink,
    is_kept: bool,
}

impl RunSink {
    /// Nothing yet, to be shown with these views.
    pub fn new(alloc: Global, views: Views) -> RunSink {
        RunSink {
            sink: MemorySink::new(alloc),
            is_kept: !views.json,
        }
    }
}

impl Sink for RunSink {
    fn write(&mut self, piece: &[u8]) -> Option<usize> {
        if self.is_kept {
            self.sink.write(piece)
        } else {
            Some(piece.len())
        }
    }

    fn takes_reports(&self) -> bool {
        self.is_kept
    }
}

/// Copies what a run prints to another sink, behind each line, for a watcher of that sink.
#[derive(Drop)]
pub struct Copier<'a, O, X> {
    views: Views,
    /// What is copied behind the line that runs.
    page: Page,
    out: &'a mut O,
    watcher: &'a mut X,
    lines: &'a mut Vec<u64>,
    /// How many bytes of what was printed are copied.
    copied: usize,
    /// Why nothing more is copied; `None` while copies go on.
    failed: Option<Fault>,
}

impl<'a, O, X> Copier<'a, O, X> {
    /// A copier to a sink, for its watcher, with these views. Where they ask for lines, `lines` gets for each line that
    /// is copied the number of the line that printed it.
    pub fn new(
        alloc: Global,
        views: Views,
        out: &'a mut O,
        watcher: &'a mut X,
        lines: &'a mut Vec<u64>,
    ) -> Copier<'a, O, X> {
        Copier {
            views,
            page: Page::new(alloc),
            out,
            watcher,
            lines,
            copied: 0,
            failed: None,
        }
    }

    /// How a run ended, of which this copied what it printed.
    ///
    /// # Errors
    ///
    /// Why nothing more was copied. Else that of the run, with [`Fault::Memory`] for [`Fault::Write`]: the memory that it
    /// prints into fails for nothing else.
    pub fn ended<T: Drop>(&self, ending: Result<T, Fault>) -> Result<T, Fault> {
        if let Some(fault) = self.failed {
            return Err(fault);
        }
        match ending {
            Err(Fault::Write) => Err(Fault::Memory),
            ending => ending,
        }
    }
}

impl<O: Sink, X: Watcher<O>> Copier<'_, O, X> {
    fn copy(
        &mut self,
        number: u64,
        line: &[u8],
        table: &Table,
        effect: Effect,
        printed: &[u8],
    ) -> Result<(), Fault> {
        self.page.clear();
        let text = if self.views.echo {
            statement_text(line)
        } else {
            &[]
        };
        if self.views.json {
            put_statement(&mut self.page, number, text);
            put_effect(&mut self.page, number, table, effect);
        } else {
            put_echo(&mut self.page, text);
            self.page.bytes(printed.get(self.copied..).unwrap_or(&[]));
        }
        self.copied = printed.len();
        if self.views.lines {
            note(self.lines, number, self.page.as_slice())?;
        }
        if write_all(self.out, self.page.whole()?) {
            Ok(())
        } else {
            Err(Fault::Write)
        }
    }
}

impl<O: Sink, X: Watcher<O>> Watcher<RunSink> for Copier<'_, O, X> {
    fn before(&mut self, number: u64, line: &[u8], statement: &Statement<'_>, session: &Session) {
        self.watcher.before(number, line, statement, session);
    }

    #[tactic(auto, using(acc_script::proofs::Fronts::took_nothing))]
    fn after(
        &mut self,
        number: u64,
        line: &[u8],
        session: &Session,
        effect: Effect,
        writer: &mut RunSink,
    ) {
        if self.failed.is_none() {
            self.failed = self
                .copy(number, line, &session.table, effect, writer.sink.as_slice())
                .err();
        }
        if self.failed.is_none() {
            self.watcher.after(number, line, session, effect, self.out);
        }
    }

    fn end(&mut self, number: u64, line: &[u8], session: &Session, ending: Result<Status, Fault>) {
        self.watcher.end(number, line, session, ending);
    }
}

/// Keeps the number of the line that printed some lines, for each of these.
fn note(lines: &mut Vec<u64>, number: u64, printed: &[u8]) -> Result<(), Fault> {
    for _ in printed.iter().filter(|byte| **byte == b'\n') {
        lines.push(number)?;
    }
    Ok(())
}

fn put_echo(page: &mut Page, text: &[u8]) {
    if !text.is_empty() {
        page.text("> ");
        page.bytes(text);
        page.text("\n");
    }
}
