//! How a row is played. Where a growth is refused for a call, the call that came back is made once more. Where it is
//! refused before, the row is played once more.

ghost use Rattle.std.specs.Prelude.{◌<◌, vec_len, vec_capacity};

use crate::tests::checks::holds;
use crate::tests::language::{Ask, Line, Row};
use crate::tests::leasing::{adds, brings, gathers};
use crate::tests::million::maps;
use crate::tests::same;
use crate::tests::turns::{call_of, table_of, turn_of, two_arrays};
use acc_base::Fault;
use acc_read::Arrays;
use acc_table::{Answer, Call, Lease, Reply, Table, Turn, abandon, abandon_all};
use std::alloc::Global;
use std::process::Abort;

/// A row that is played.
struct Play {
    /// Its name, and the number of the line that is played, counted from 1.
    place: (&'static str, usize),
    arrays: Arrays,
    /// The table on which the lines are played.
    table: Box<Table>,
    /// The leases that are out.
    leases: Vec<Lease>,
    /// The device that calls and queries are for.
    device: u64,
}

impl Play {
    fn new(alloc: Global, row: &Row) -> Result<Play, Fault> {
        Ok(Play {
            place: (row.name, 0),
            arrays: two_arrays(alloc)?,
            table: table_of(alloc, row.limits)?,
            leases: Vec::new(alloc),
            device: 0,
        })
    }

    /// Abandons the leases that are out at the end.
    fn end(self) {
        let Play {
            place: _,
            arrays: _,
            table: _,
            leases,
            device: _,
        } = self;
        abandon_all(leases);
    }
}

/// Makes a call, and once more where a growth is refused for it.
fn apply(table: &mut Table, call: Call) -> Result<Reply, (Call, Fault)> {
    match table.apply(call) {
        Err((call, Fault::Memory)) => table.apply(call),
        answer => answer,
    }
}

/// Makes a call whose reply says nothing, and returns what it is refused for.
pub fn refusal(table: &mut Table, call: Call) -> Option<Fault> {
    match apply(table, call) {
        Ok(reply) => {
            reply.abandon();
            None
        }
        Err((call, fault)) => {
            abandon(call);
            Some(fault)
        }
    }
}

/// Folds all events, and once more where a growth is refused for that.
fn rebase(table: &mut Table) -> Result<u64, Fault> {
    match table.rebase() {
        Err(Fault::Memory) => table.rebase(),
        folded => folded,
    }
}

/// The answer to a turn whose call got this reply. A lease goes to those that are out.
fn answer_of(reply: Reply, leases: &mut Vec<Lease>) -> Answer
    requires { vec_len leases.old < vec_capacity leases.old }
{
    let (number, count) = match reply {
        Reply::Done => (0, 0),
        Reply::Entered { number } => (number, 0),
        Reply::Drained { count } => (0, count),
        Reply::Idle => return Answer::Idle,
        Reply::Lease(lease) => {
            let number = lease.serial();
            leases.push_reserved(lease);
            (number, 0)
        }
    };
    Answer::Replied { number, count }
}

/// Makes the call of a line, and returns what the answer to a turn would be.
fn make(alloc: Global, play: &mut Play, ask: Ask) -> Result<Answer, Fault> {
    play.leases.reserve(1)?;
    let call = call_of(turn_of(alloc, &play.arrays, play.device, ask)?)?;
    match apply(&mut play.table, call) {
        Ok(reply) => Ok(answer_of(reply, &mut play.leases)),
        Err((call, fault)) => {
            abandon(call);
            Ok(Answer::Refused(fault))
        }
    }
}

/// The call of a line with its answer, if it has one.
fn asked(line: Line) -> Option<(Ask, Answer)> {
    let (ask, number, count) = match line {
        Line::Does(ask) => (ask, 0, 0),
        Line::Gives(ask, number) => (ask, number, 0),
        Line::Makes(ask, count) => (ask, 0, count),
        Line::Idles(ask) => return Some((ask, Answer::Idle)),
        Line::Refuses(ask, fault) => return Some((ask, Answer::Refused(fault))),
        _ => return None,
    };
    Some((ask, Answer::Replied { number, count }))
}

/// Puts the turns behind each other that some lines ask for.
fn add_turns(
    alloc: Global,
    play: &Play,
    lines: &[Line],
    turns: &mut Vec<Turn>,
) -> Result<(), Fault> {
    for &line in lines {
        if let Some((ask, _)) = asked(line) {
            turns.push(turn_of(alloc, &play.arrays, play.device, ask)?)?;
        }
    }
    Ok(())
}

/// Makes the calls of some lines as a list of turns. Whether the answers are as the lines say.
fn run(alloc: Global, play: &mut Play, lines: &[Line]) -> Result<bool, Fault> {
    let mut turns = Vec::new(alloc);
    add_turns(alloc, play, lines, &mut turns)?;
    let answers = play.table.run(turns, &mut play.leases)?;
    are_said(answers.as_slice(), lines)
}

fn are_said(answers: &[Answer], lines: &[Line]) -> Result<bool, Fault> {
    let mut is_so = answers.len() == lines.len();
    for (&answer, &line) in answers.iter().zip(lines) {
        if answer == Answer::Refused(Fault::Memory) {
            return Err(Fault::Memory);
        }
        is_so &= matches!(asked(line), Some((_, wanted)) if wanted == answer);
    }
    Ok(is_so)
}

/// Does what a line says that asks for no single call. Whether it comes out as the line says.
fn is_so(alloc: Global, play: &mut Play, line: Line) -> Result<bool, Fault> {
    match line {
        Line::Runs(lines) => run(alloc, play, lines),
        Line::Brings(loan, bytes, wanted) => {
            Ok(brings(alloc, &mut play.table, loan, bytes)? == wanted)
        }
        Line::Maps(count) => Ok(maps(alloc, &mut play.table, count)?),
        _ => Ok(is_done(play, line)),
    }
}

/// The same of a line for which no memory is needed.
fn is_done(play: &mut Play, line: Line) -> bool {
    match line {
        Line::Says(check) => holds(&play.table, play.device, check),
        Line::Rebases(wanted) => rebase(&mut play.table) == Ok(wanted),
        Line::Adds(serial, number) => adds(play.leases.as_mut_slice(), serial, number),
        Line::Gathers(serial) => gathers(&mut play.table, &mut play.leases, serial),
        Line::On(device) => {
            play.device = device;
            true
        }
        _ => false,
    }
}

fn play_line(rt: &(impl Abort + AllocGlobal), play: &mut Play, line: Line) -> Result<(), Fault> {
    match asked(line) {
        Some((ask, wanted)) => same(rt, make(rt.alloc(), play, ask)?, wanted, play.place),
        None => same(rt, is_so(rt.alloc(), play, line)?, true, play.place),
    }
    Ok(())
}

fn play_lines(
    rt: &(impl Abort + AllocGlobal),
    play: &mut Play,
    lines: &[Line],
) -> Result<(), Fault> {
    for &line in lines {
        play.place.1 = play.place.1.saturating_add(1);
        play_line(rt, play, line)?;
    }
    Ok(())
}

/// Plays a row on a new table.
fn play_once(rt: &(impl Abort + AllocGlobal), row: &Row) -> Result<(), Fault> {
    let mut play = Play::new(rt.alloc(), row)?;
    let outcome = play_lines(rt, &mut play, row.lines);
    play.end();
    outcome
}

/// Plays a row, and once more where a growth is refused.
pub fn play_row(rt: &(impl Abort + AllocGlobal), row: &Row) -> Result<(), Fault> {
    match play_once(rt, row) {
        Err(Fault::Memory) => play_once(rt, row),
        outcome => outcome,
    }
}
