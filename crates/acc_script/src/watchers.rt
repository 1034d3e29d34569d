//! Who watches a script while it runs.

ghost use Rattle.acc_script.specs.Told.{Took};
ghost use Rattle.std.specs.Prelude.{[]};

use crate::Sink;
use crate::print::effects::Effect;
use crate::runs::Status;
use crate::sessions::Session;
use acc_base::Fault;
use acc_read::Statement;

/// Watches the lines of a script while it runs.
///
/// A watcher changes nothing that the run writes or returns, and cannot stop the run. It keeps its own failures.
pub trait Watcher<W: Sink> {
    /// Sees the line of a number before its statement runs.
    fn before(
        &mut self,
        _number: u64,
        _line: &[u8],
        _statement: &Statement<'_>,
        _session: &Session,
    ) {}

    /// Sees the line of a number after it ran and what it prints was written. A watcher may flush the writer.
    #[tactic(auto, using(crate::proofs::Fronts::took_nothing))]
    fn after(
        &mut self,
        _number: u64,
        _line: &[u8],
        _session: &Session,
        _effect: Effect,
        _writer: &mut W,
    )
        ensures { Took (W.told _writer.old) (W.told _writer.new) [] }
    {}

    /// Sees how the run ends. That is at the line of a number, which is at fault or could not run, or behind the last
    /// line.
    fn end(
        &mut self,
        _number: u64,
        _line: &[u8],
        _session: &Session,
        _ending: Result<Status, Fault>,
    ) {}
}

/// Watches nothing.
#[derive(Clone, Copy)]
pub struct Unwatched;

impl<W: Sink> Watcher<W> for Unwatched {}
