//! Which rows of the clause tables a script reaches.

use acc_base::{Config, Fault};
use acc_log::{Log, LogForm, RowCounts};
use acc_read::{Names, line_at, statement_text};
use acc_script::{Effect, InOnePart, MemorySink, Session, Sink, Status, Watcher, run_text};
use std::alloc::Global;

/// Runs a script, drops what it prints, and returns the counts with the rows of the clause tables that it reached.
///
/// # Errors
///
/// Those of [`run_text`], and [`Fault::Memory`] where there is none for the counts.
pub fn count_rows(
    alloc: Global,
    config: Config,
    script: &[u8],
    rows: RowCounts,
) -> Result<RowCounts, Fault> {
    let mut log = Log::new(alloc, LogForm::Text);
    log.rows = Some(rows);
    let mut counter = RowCounter {
        alloc,
        names: Names::new(alloc),
        log,
        wants: false,
    };
    let mut printed = MemorySink::new(alloc);
    let ending = run_text(
        alloc,
        &InOnePart,
        config,
        script,
        &mut printed,
        &mut counter,
    );
    counter.ended(ending)
}

#[derive(Drop)]
struct RowCounter {
    alloc: Global,
    /// No array: the log that they are for is dropped.
    names: Names,
    log: Log,
    /// Whether there was no memory for some of it.
    wants: bool,
}

impl RowCounter {
    /// The counts, by how the run ended.
    fn ended(&mut self, ending: Result<Status, Fault>) -> Result<RowCounts, Fault> {
        let is_whole = !self.wants && self.log.page.whole().is_ok();
        match (ending, &self.log.rows) {
            (Ok(_), Some(rows)) if is_whole && !rows.wants() => {}
            // The sink of the run fails for lack of memory alone.
            (Ok(_) | Err(Fault::Write), _) => return Err(Fault::Memory),
            (Err(fault), _) => return Err(fault),
        }
        self.log.rows.take().ok_or(Fault::Memory)
    }

    /// Counts the row of a line that was refused. It is read once more: it changed nothing.
    fn count_refused(&mut self, line: &[u8], session: &Session, fault: Fault) {
        let (arrays, innermost) = (&session.arrays, session.innermost());
        match line_at(self.alloc, arrays, session.device, innermost, line) {
            Ok(statement) => self.log.count_refused(&statement, fault),
            Err(_) => self.wants = true,
        }
    }
}

impl<W: Sink> Watcher<W> for RowCounter {
    #[tactic(auto, using(acc_script::proofs::Fronts::took_nothing))]
    fn after(
        &mut self,
        number: u64,
        line: &[u8],
        session: &Session,
        effect: Effect,
        _writer: &mut W,
    ) {
        let text = statement_text(line);
        let told = self
            .log
            .tell(&self.names, number, text, &session.table, effect);
        self.wants |= told.is_err();
        self.log.page.clear();
        if let Effect::Refused(fault) = effect {
            self.count_refused(line, session, fault);
        }
    }
}
