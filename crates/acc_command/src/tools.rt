//! The program, over any source, any two sinks and any store of files.

use crate::drills::run_drill;
use crate::emissions::{emit_all, emit_script};
use crate::endings::{Mishap, tell_difference, tell_mishap, tell_sizes};
use crate::picture_files::Shown;
use crate::programs::{write_random, write_rows};
use crate::runs::{Ends, Told, keep_apart, limits, read_whole, run_text, use_script};
use crate::suites::Tester;
use acc_base::Fault;
use acc_follow::first_difference;
use acc_script::{MemorySink, Sink, Source, Status, ToWrite, write_all};
use acc_terminal::{Options, Terminals, options_of, parsed_words, tell};
use acc_trials::FileStore;
use clap::Error;
use clap::error::ErrorKind;
use std::cell::Cell;
use std::io;
use std::sync::Wait;
use std::thread::Threads;

/// The status of a run in which no statement was refused, or with `--expect` one whose output is the expected one. It
/// is that of tests of which none failed, of a drill, of a program that was emitted, and of help too.
pub const CLEAN: u8 = 0;

/// The status of a script that ran to its end, with some statement refused; with `--expect`, with another output. It is
/// that of tests of which one failed too.
pub const REFUSED: u8 = 1;

/// The status of a fault, of the command line too.
pub const FAULTED: u8 = 2;

/// Parses the command line, does what it asks for, flushes the output, and returns the status: [`CLEAN`], [`REFUSED`]
/// or [`FAULTED`].
///
/// `words` begins with the program's name. A script comes from `reader`, or from a file, whose first line may have more
/// options. Several files are run one after the other, and the status is the greatest of theirs. What it prints goes to
/// `out`, or is compared with a file. Where `reader` is a terminal, and no file is named, a prompt on `err` asks for
/// each line of a script. Where `err` is one, the script is explained.
///
/// For a fault of the command line the parser's words go to `err`, and nothing is read. For any other fault one line
/// goes there, behind the flush of `out`. The reason follows, with `--explain` or where a first line is wrong. Only the
/// first fault is told, in this order: the expected output cannot be read; [`Fault::BadConfig`]; those of the run;
/// [`Fault::Write`] where the flush fails. A script that goes on behind faults of its lines tells each of them. Help and
/// the version go to `out`. A failure of `err` changes nothing.
pub fn tool<
    R: Threads + Wait + Sync + AllocGlobal,
    S: Source,
    O: Sink,
    E: Sink,
    D: FileStore + Sync,
>(
    rt: &R,
    words: Vec<String>,
    terminals: Terminals,
    reader: &mut S,
    out: &mut O,
    err: &mut E,
    files: &D,
) -> u8 {
    match parsed_words(rt.alloc(), &words) {
        Ok(matches) => do_all(rt, options_of(&matches, terminals), reader, out, err, files),
        Err(error) => tell_usage(rt, out, err, &error),
    }
}

/// Does what is asked for with each file, in their order, or else with standard input or with all at once; returns the
/// greatest status.
fn do_all<R: Threads + Wait + Sync + AllocGlobal, S: Source, O: Sink, E: Sink, D: FileStore + Sync>(
    rt: &R,
    options: Options<'_>,
    reader: &mut S,
    out: &mut O,
    err: &mut E,
    files: &D,
) -> u8 {
    if options.files.is_empty() || options.out.is_some() {
        return do_asked(rt, options, reader, out, err, files);
    }
    let mut status = CLEAN;
    for name in options.files {
        let file = Some(*name).filter(|name| *name != "-");
        status = status.max(do_asked(rt, Options { file, ..options }, reader, out, err, files));
    }
    status
}

fn do_asked<
    R: Threads + Wait + Sync + AllocGlobal,
    S: Source,
    O: Sink,
    E: Sink,
    D: FileStore + Sync,
>(rt: &R, options: Options<'_>, reader: &mut S, out: &mut O, err: &mut E, files: &D) -> u8 {
    let mut told = Told::new(rt.alloc());
    let ends = Ends {
        out: &mut *out,
        err: &mut *err,
        files,
        told: &mut told,
    };
    let ending = match options.expect {
        Some(name) if options.emit.is_none() => compared(rt, options, name, reader, ends),
        _ => carried_out(rt, options, reader, ends),
    };
    match flushed(out, ending) {
        Ok(Status::Clean) => CLEAN,
        Ok(Status::Refused) => REFUSED,
        Err(mishap) => {
            tell_end(rt, err, options, told.column, mishap);
            let _ = write_all(err, told.reason.as_slice());
            FAULTED
        }
    }
}

/// Writes why the program ends. Where it is told for people, the sizes are named that it cannot have.
fn tell_end<R: AllocGlobal, E: Sink>(
    rt: &R,
    err: &mut E,
    options: Options<'_>,
    column: u64,
    mishap: Mishap<'_>,
) {
    let is_more = options.file.is_some() || !options.tests.is_empty() || options.views().explain;
    match mishap {
        Mishap::Fault(Fault::BadConfig) if is_more => {
            tell_sizes(rt.alloc(), err, options.machine());
        }
        _ => tell_mishap(rt.alloc(), err, options.file, column, mishap),
    }
}

fn flushed<'a, O: Sink>(
    out: &mut O,
    ending: Result<Status, Mishap<'a>>,
) -> Result<Status, Mishap<'a>> {
    if !out.flush() && ending.is_ok() {
        return Err(Mishap::Fault(Fault::Write));
    }
    ending
}

fn carried_out<
    'a,
    R: Threads + Wait + Sync + AllocGlobal,
    S: Source,
    O: Sink,
    E: Sink,
    D: FileStore + Sync,
>(
    rt: &R,
    options: Options<'a>,
    reader: &mut S,
    ends: Ends<'_, O, E, D>,
) -> Result<Status, Mishap<'a>> {
    let config = limits(options)?;
    keep_apart(ends.files, options)?;
    if let Some(rounds) = options.drill {
        return Ok(run_drill(rt, options, config, rounds, ends.out)?);
    }
    if let Some(seed) = options.random {
        return write_random(rt.alloc(), config, seed, options.lines, ends.out);
    }
    if !options.rows.is_empty() {
        return write_rows(rt, options, ends);
    }
    if !options.tests.is_empty() {
        let Ends { out, files, .. } = ends;
        return Tester { rt, options, files }.run(out);
    }
    match options.out {
        Some(folder) => emit_all(rt, options, folder, ends),
        None if options.emit.is_some() => emit_script(rt, options, reader, ends),
        None if options.svg == Some("-") || options.html == Some("-") => {
            run_shown(rt, options, reader, ends)
        }
        None => run_asked(rt, options, reader, ends),
    }
}

/// Runs a script whose picture or page goes to standard output, in place of what the script prints.
fn run_shown<'a, R: Threads + Wait + Sync + AllocGlobal, S: Source, O: Sink, E: Sink, D: FileStore>(
    rt: &R,
    options: Options<'a>,
    reader: &mut S,
    ends: Ends<'_, O, E, D>,
) -> Result<Status, Mishap<'a>> {
    let Ends {
        out,
        err,
        files,
        told,
    } = ends;
    let shown = Shown {
        files,
        alloc: rt.alloc(),
        held: Cell::new(None),
    };
    let mut printed = ToWrite::new(io::sink());
    let within = Ends {
        out: &mut printed,
        err: &mut *err,
        files: &shown,
        told,
    };
    let ending = run_asked(rt, options, reader, within);
    match shown.held.take() {
        Some(picture) if !write_all(out, &picture) && ending.is_ok() => {
            Err(Mishap::Fault(Fault::Write))
        }
        _ => ending,
    }
}

fn run_asked<'a, R: Threads + Wait + Sync + AllocGlobal, S: Source, O: Sink, E: Sink, D: FileStore>(
    rt: &R,
    options: Options<'a>,
    reader: &mut S,
    ends: Ends<'_, O, E, D>,
) -> Result<Status, Mishap<'a>> {
    if options.file.is_none() && (!options.views().explain || options.manner().is_live()) {
        use_script(rt, options, reader, ends)
    } else {
        run_whole(rt, options, reader, ends)
    }
}

fn run_whole<'a, R: Threads + Wait + Sync + AllocGlobal, S: Source, O: Sink, E: Sink, D: FileStore>(
    rt: &R,
    options: Options<'a>,
    reader: &mut S,
    ends: Ends<'_, O, E, D>,
) -> Result<Status, Mishap<'a>> {
    let script = read_whole(rt.alloc(), options.file, reader, ends.files)?;
    run_text(rt, options, &script, ends)
}

fn compared<
    'a,
    R: Threads + Wait + Sync + AllocGlobal,
    S: Source,
    O: Sink,
    E: Sink,
    D: FileStore + Sync,
>(
    rt: &R,
    options: Options<'a>,
    name: &'a str,
    reader: &mut S,
    ends: Ends<'_, O, E, D>,
) -> Result<Status, Mishap<'a>> {
    let Ends {
        err,
        files,
        told,
        ..
    } = ends;
    let expected = read_whole(rt.alloc(), Some(name), reader, files)?;
    let mut found = MemorySink::new(rt.alloc());
    let within = Ends {
        out: &mut found,
        err: &mut *err,
        files,
        told,
    };
    match carried_out(rt, options, reader, within) {
        Ok(_) => Ok(agreement(rt, options.file, &expected, found.as_slice(), err)),
        // This sink fails for lack of memory alone.
        Err(Mishap::Fault(Fault::Write)) => Err(Mishap::Fault(Fault::Memory)),
        Err(mishap) => Err(mishap),
    }
}

fn agreement<R: AllocGlobal, E: Sink>(
    rt: &R,
    file: Option<&str>,
    expected: &[u8],
    found: &[u8],
    err: &mut E,
) -> Status {
    match first_difference(expected, found) {
        None => Status::Clean,
        Some(difference) => {
            tell_difference(rt.alloc(), err, file, difference);
            Status::Refused
        }
    }
}

/// Writes what the parser returned. A fault of the command line goes to `err`; help and the version go to `out`.
fn tell_usage<R: AllocGlobal, O: Sink, E: Sink>(
    rt: &R,
    out: &mut O,
    err: &mut E,
    error: &Error,
) -> u8 {
    match error.to_string(rt.alloc()) {
        Ok(text) if error.kind() != ErrorKind::OutOfMemory => {
            tell_text(out, err, text.as_bytes(), error.use_stderr())
        }
        _ => {
            tell(err, Fault::Memory);
            FAULTED
        }
    }
}

fn tell_text<O: Sink, E: Sink>(out: &mut O, err: &mut E, text: &[u8], is_fault: bool) -> u8 {
    if is_fault {
        let _ = write_all(err, text);
        return FAULTED;
    }
    if write_all(out, text) && out.flush() {
        return CLEAN;
    }
    tell(err, Fault::Write);
    FAULTED
}
