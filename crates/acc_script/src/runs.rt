//! Runs a script.

ghost use Rattle.std.specs.Prelude.{◌≡◌, false};
ghost use Rattle.acc_read.specs.Lines.{lines_of};
ghost use Rattle.acc_script.specs.Scripts.{transcript, transcript_from, status_of};
ghost use Rattle.acc_script.specs.Runs.{LineRuns, LinesPlayed, Played, Ran};
ghost use Rattle.acc_script.specs.Sessions.{session_state};

use crate::kernels::KernelRunner;
use crate::print::effects::write_effect;
use crate::sessions::Session;
use crate::watchers::Watcher;
use crate::{Sink, Source, read_all};
use acc_base::{Config, Fault, ScriptFault};
use acc_read::{Trouble, line_at, next_line};
use std::alloc::Global;

/// How a script ended that ran to its last line.
#[derive(Clone, Copy, Debug, PartialEq, Eq)]
pub enum Status {
    /// No line was refused.
    Clean,
    /// At least one line was refused.
    Refused,
}

/// Reads a whole script, and then runs it line by line on a new table of these limits.
///
/// What is printed does not depend on what runs its kernels.
///
/// The watcher sees each line. With any watcher, the run reads, writes and returns the same.
///
/// These statements on bytes read and written are proved where contracts know the bytes of the source and of the sink
/// ([`Source`], [`Sink`]).
///
/// # Errors
///
/// - [`Fault::Read`] where the reader fails or gives more than 16,777,216 bytes. Nothing was written.
/// - [`Fault::Script`] at the first line that is at fault, or behind the last line where a data region is then open.
///   What the lines before print was written.
/// - [`Fault::Write`] where the writer fails. It took a front of what the script prints.
/// - [`Fault::Memory`]. Nothing was written where there was none for the input or for the table. Else what the lines
///   before one print was written. There was no memory for that line, which is not at fault. It lists items,
///   declares an array, or makes a call that makes an event.
pub fn run<K: KernelRunner, S: Source, W: Sink, X: Watcher<W>>(
    alloc: Global,
    kernels: &K,
    reader: &mut S,
    writer: &mut W,
    config: Config,
    watcher: &mut X,
) -> Result<Status, Fault>
    requires { K.able kernels.now }
    ensures { Ran config (S.told reader.old) (S.told reader.new) (W.told writer.old) (W.told writer.new) result }
{
    let input = read_all(alloc, reader)?;
    run_text(alloc, kernels, config, &input, writer, watcher)
}

/// Runs a script that is read already, whatever its length, as [`run`] runs what it has read.
///
/// # Errors
///
/// Those of [`run`], but for [`Fault::Read`].
#[tactic(auto, unfolding(crate::specs::Scripts::transcript))]
pub fn run_text<K: KernelRunner, W: Sink, X: Watcher<W>>(
    alloc: Global,
    kernels: &K,
    config: Config,
    input: &[u8],
    writer: &mut W,
    watcher: &mut X,
) -> Result<Status, Fault>
    requires { K.able kernels.now }
    ensures { Played (transcript config input.now) (W.told writer.old) (W.told writer.new) result }
{
    let mut session = Session::new(alloc, config)?;
    play_lines(kernels, &mut session, input, writer, watcher)
}

fn play_lines<K: KernelRunner, W: Sink, X: Watcher<W>>(
    kernels: &K,
    session: &mut Session,
    input: &[u8],
    writer: &mut W,
    watcher: &mut X,
) -> Result<Status, Fault>
    requires { K.able kernels.now }
    ensures { LinesPlayed (transcript_from 1 (session_state session.old) false (lines_of input.now)) (W.told writer.old) (W.told writer.new) result }
{
    let mut rest = input;
    let mut done = 0u64;
    let mut refused = false;
    'lines: while !rest.is_empty() {
        let (line, after) = next_line(rest);
        let is_refused = match run_line(kernels, done + 1, session, line, writer, watcher) {
            Ok(is_refused) => is_refused,
            Err(fault) => {
                watcher.end(done + 1, line, session, Err(fault));
                return Err(fault);
            }
        };
        refused |= is_refused;
        rest = after;
        done += 1;
    }
    if session.table.regions() > 0 {
        let fault = Fault::Script {
            line: done + 1,
            kind: ScriptFault::Unclosed,
        };
        watcher.end(done + 1, rest, session, Err(fault));
        return Err(fault);
    }
    let status = status_of(refused);
    watcher.end(done + 1, rest, session, Ok(status));
    Ok(status)
}

/// Runs the line of a number on a session as [`run`] does, and returns whether it was refused. The watcher sees the
/// line, and no end. With any watcher it writes and returns the same.
///
/// # Errors
///
/// - [`Fault::Script`] where the line is at fault. Nothing was written.
/// - [`Fault::Write`] where the writer fails. It took a front of what the line prints.
/// - [`Fault::Memory`] as [`Session::perform`], or where a line lists items. Nothing was written.
#[tactic(auto, unfolding(crate::specs::Scripts::line_turned))]
pub fn run_line<K: KernelRunner, W: Sink, X: Watcher<W>>(
    kernels: &K,
    number: u64,
    session: &mut Session,
    line: &[u8],
    writer: &mut W,
    watcher: &mut X,
) -> Result<bool, Fault>
    requires { K.able kernels.now }
    ensures { LineRuns number (session_state session.old) line.now (W.told writer.old) (W.told writer.new) (session_state session.new) result }
{
    let innermost = session.innermost();
    let device = session.device;
    let statement = match line_at(session.alloc, &session.arrays, device, innermost, line) {
        Ok(statement) => statement,
        Err(Trouble::Memory) => return Err(Fault::Memory),
        Err(Trouble::Line(kind)) => return Err(Fault::Script { line: number, kind }),
    };
    watcher.before(number, line, &statement, session);
    let effect = session.perform(kernels, statement)?;
    if !write_effect(writer, number, &session.table, effect) {
        return Err(Fault::Write);
    }
    watcher.after(number, line, session, effect, writer);
    Ok(effect.is_refused())
}

fn status_of(refused: bool) -> Status
    ensures { result ≡ status_of refused }
{
    if refused {
        Status::Refused
    } else {
        Status::Clean
    }
}
