//! Whole scripts by chance.

use crate::random_statements::Statements;
use acc_base::{Config, Fault};
use acc_read::Page;
use acc_script::{InOnePart, Session, ToWrite, Unwatched, run_line};
use std::alloc::Global;
use std::io;

/// How many arrays are declared first.
const ARRAYS: u64 = 5;

/// How many statements are tried for one that the table accepts.
const TRIES: u64 = 16;

/// Returns a script of so many statements on a table of these limits, which runs without a fault, and without a
/// statement that is refused. It is the same for a seed on each machine.
///
/// The arrays come first, and are not counted. In the end all regions are exited, all copies that wait are made, and the
/// host's bytes are shown.
///
/// # Errors
///
/// [`Fault::Memory`] alone.
pub fn random_script(alloc: Global, config: Config, seed: u64, lines: u64) -> Result<Page, Fault> {
    let mut script = Page::new(alloc);
    put_script(alloc, &mut script, config, seed, lines)?;
    Ok(script)
}

/// Puts the script, over a session of its own.
fn put_script(
    alloc: Global,
    script: &mut Page,
    config: Config,
    seed: u64,
    lines: u64,
) -> Result<(), Fault> {
    let mut session = Session::new(alloc, config)?;
    let mut draft = ScriptDraft {
        script,
        statements: Statements::new(alloc, seed, config.devices()),
        session: &mut session,
    };
    draft.put_all(lines)
}

/// A script so far, and the session in which it ran.
#[derive(Drop)]
struct ScriptDraft<'a> {
    script: &'a mut Page,
    statements: Statements,
    session: &'a mut Session,
}

impl ScriptDraft<'_> {
    fn put_all(&mut self, lines: u64) -> Result<(), Fault> {
        for nth in 0..ARRAYS {
            self.statements.put_array(nth);
            self.keep()?;
        }
        self.add_statements(lines)?;
        self.finish()
    }

    fn add_statements(&mut self, lines: u64) -> Result<(), Fault> {
        let mut left = lines;
        for _ in 0..lines.saturating_mul(TRIES) {
            if left == 0 {
                return Ok(());
            }
            self.statements.put_any();
            if self.keep()? {
                left -= 1;
            }
        }
        Ok(())
    }

    fn finish(&mut self) -> Result<(), Fault> {
        for _ in 0..self.session.table.regions() {
            self.add("end data")?;
        }
        let devices = self.session.table.config().devices();
        for device in 0..devices {
            if devices > 1 {
                self.statements.put_device(device);
                self.keep()?;
            }
            self.add("wait")?;
        }
        for nth in 0..ARRAYS {
            self.statements.put_show(nth);
            self.keep()?;
        }
        self.add("report")
    }

    fn add(&mut self, text: &str) -> Result<(), Fault> {
        self.statements.page.text(text);
        self.keep()?;
        Ok(())
    }

    /// Runs the statement that was written last, and adds it to the script, if it is neither at fault nor refused.
    fn keep(&mut self) -> Result<bool, Fault> {
        let line = self.statements.page.whole()?;
        let is_right = runs(self.session, line)?;
        if is_right {
            self.script.bytes(line);
            self.script.text("\n");
        }
        self.statements.page.clear();
        Ok(is_right)
    }
}

/// Runs a line, and returns whether it is neither at fault nor refused. Then alone it changes something.
fn runs(session: &mut Session, line: &[u8]) -> Result<bool, Fault> {
    let mut out = ToWrite::new(io::sink());
    match run_line(&InOnePart, 1, session, line, &mut out, &mut Unwatched) {
        Ok(is_refused) => Ok(!is_refused),
        Err(Fault::Script { .. }) => Ok(false),
        Err(fault) => Err(fault),
    }
}
