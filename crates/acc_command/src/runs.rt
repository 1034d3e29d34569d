//! How a script is run with the options that it has.

use crate::endings::{Mishap, put_sizes};
use crate::picture_files::PictureFiles;
use acc_base::{Config, Fault};
use acc_follow::{Beside, Frame, Page, Setting, Stop, Unkept, warnings_of};
use acc_script::{MemorySource, Sink, Source, Status, ToWrite, read_all, write_all};
use acc_terminal::{Options, run_script, with_first_line};
use acc_trials::{FileStore, put_texts};
use clap::error::ErrorKind;
use std::alloc::Global;
use std::io;
use std::sync::Wait;
use std::thread::Threads;

/// How many data regions may be open at a time.
const REGIONS: u64 = 64;

/// How many events there may be, unless the trace may have as many.
const TICKETS: u64 = 1_048_576;

/// The greatest value of a counter.
const COUNTER_MAX: u64 = 4_294_967_295;

/// How many transfers may wait in one queue.
const QUEUE_CAP: u64 = 256;

/// Why a picture or a page cannot be written to a file of its own run.
pub const NAMED_TWICE: &str = "it is named twice";

/// What a run tells beside its output, for whoever ends it.
#[derive(Drop)]
pub struct Told {
    /// Why a line is at fault, or what is wrong with the options of the first line.
    pub reason: Page,
    /// The column of what is wrong in it, from 1 on; 0 where none is known.
    pub column: u64,
    /// For each line of the output the number of the line that printed it, where that is asked for.
    pub lines: Vec<u64>,
}

impl Told {
    /// Nothing so far.
    pub fn new(alloc: Global) -> Told {
        Told {
            reason: Page::new(alloc),
            column: 0,
            lines: Vec::new(alloc),
        }
    }
}

/// What a run writes to, and the store of its files.
#[derive(Drop)]
pub struct Ends<'a, O, E, D> {
    /// Gets its output.
    pub out: &'a mut O,
    /// Gets the log and the explanations.
    pub err: &'a mut E,
    /// The store of files.
    pub files: &'a D,
    /// Gets what it tells beside.
    pub told: &'a mut Told,
}

/// Runs a script of this text, with the options of its first line if it is that of a file. Where it is explained,
/// warnings come first.
pub fn run_text<'a, R: Threads + Wait + Sync + AllocGlobal, O: Sink, E: Sink, D: FileStore>(
    rt: &R,
    options: Options<'a>,
    script: &[u8],
    ends: Ends<'_, O, E, D>,
) -> Result<Status, Mishap<'a>> {
    let reason = &mut ends.told.reason;
    let options = options_for(rt.alloc(), options, options.file, script, reason)?;
    if options.views().explain {
        let warnings = warnings_of(rt.alloc(), options.file, script)?;
        let _ = write_all(ends.err, warnings.as_slice());
    }
    use_script(rt, options, &mut MemorySource::new(script), ends)
}

/// Runs a script, each line as the options ask for it.
///
/// # Errors
///
/// Those of the script; a picture that cannot be kept; [`Mishap::Told`] where its faults are told already.
pub fn use_script<
    'a,
    R: Threads + Wait + Sync + AllocGlobal,
    S: Source,
    O: Sink,
    E: Sink,
    D: FileStore,
>(
    rt: &R,
    options: Options<'a>,
    reader: &mut S,
    ends: Ends<'_, O, E, D>,
) -> Result<Status, Mishap<'a>> {
    let Ends {
        out,
        err,
        files,
        told,
    } = ends;
    match run_drawn(rt, options, reader, out, err, files, told) {
        Ok(status) => status.ok_or(Mishap::Told),
        Err(stop) => Err(mishap_of(options, stop)),
    }
}

/// Runs a script, and keeps its pictures; `None` where its faults are told already.
fn run_drawn<'x, R: Threads + Wait + Sync + AllocGlobal, S: Source, O: Sink, E: Sink, D: FileStore>(
    rt: &R,
    options: Options<'x>,
    reader: &mut S,
    out: &mut O,
    err: &mut E,
    files: &'x D,
    told: &mut Told,
) -> Result<Option<Status>, Stop> {
    let config = limits(options)?;
    let setting = Setting {
        config,
        parts: options.thread_count(),
        views: options.views(),
    };
    let beside = Beside {
        file: options.file.unwrap_or(""),
        err,
        pictures: &PictureFiles {
            files,
            alloc: rt.alloc(),
            file: options.file,
            expect: options.expect,
            last: options.svg,
            each: options.svg_every,
            page: options.html,
        },
        reason: &mut told.reason,
        column: &mut told.column,
        lines: &mut told.lines,
    };
    run_script(rt, setting, options.manner(), reader, out, beside)
}

fn mishap_of(options: Options<'_>, stop: Stop) -> Mishap<'_> {
    let Unkept { frame, reason } = match stop {
        Stop::Fault(fault) => return Mishap::Fault(fault),
        Stop::Picture(unkept) => unkept,
    };
    let (name, line) = match frame {
        Frame::Last => (options.svg, None),
        Frame::Line(number) => (options.svg_every, Some(number)),
        Frame::Each => (options.html, None),
    };
    Mishap::Unwritten(name.unwrap_or(""), line, reason)
}

/// Options with those of the first line of a script, if a file has it. What is wrong with these is told as the reason.
pub fn options_for<'a>(
    alloc: Global,
    options: Options<'a>,
    file: Option<&str>,
    script: &[u8],
    reason: &mut Page,
) -> Result<Options<'a>, Mishap<'a>> {
    let Some(name) = file else {
        return Ok(options);
    };
    match with_first_line(alloc, options, script) {
        Ok(options) if limits(options).is_ok() => return Ok(options),
        Ok(options) => {
            put_texts(reason, &[name, ":1: error: "]);
            put_sizes(reason, options.machine());
        }
        Err(error) if error.kind() == ErrorKind::OutOfMemory => {
            return Err(Mishap::Fault(Fault::Memory));
        }
        Err(error) => {
            let text = error.to_string(alloc).map_err(Fault::from)?;
            put_texts(reason, &[name, ":1: ", text.as_str()]);
        }
    }
    reason.whole()?;
    Err(Mishap::FirstLine)
}

/// The limits of a run. There is a ticket more than the trace may have events, so a trace that is full is told first.
///
/// # Errors
///
/// [`Fault::BadConfig`] where a size is no multiple of 16.
pub fn limits(options: Options<'_>) -> Result<Config, Fault> {
    let machine = options.machine();
    let events = options.event_limit();
    let config = Config::new(
        machine.host,
        machine.device,
        REGIONS,
        events.saturating_add(1).max(TICKETS),
        COUNTER_MAX,
        QUEUE_CAP,
        events,
    )?
    .with_devices(machine.devices)?;
    Ok(match options.full {
        Some(true) => config.with_full_trace(),
        _ => config,
    })
}

/// Reads a file, which has to be there.
pub fn read_file<'a, D: FileStore>(files: &D, name: &'a str) -> Result<Vec<u8>, Mishap<'a>> {
    match files.read(name) {
        Ok(bytes) => Ok(bytes),
        Err(fault) => Err(Mishap::Unread(name, fault.reason()?)),
    }
}

/// Reads a file, or standard input where that is named `-` or no file is.
///
/// # Errors
///
/// That it cannot be read.
pub fn read_whole<'a, S: Source, D: FileStore>(
    alloc: Global,
    file: Option<&'a str>,
    reader: &mut S,
    files: &D,
) -> Result<Vec<u8>, Mishap<'a>> {
    match file {
        Some(name) if name != "-" => read_file(files, name),
        _ => Ok(read_all(alloc, reader)?),
    }
}

/// Refuses a picture or a page that is another file of a run too: the script, the expected output, or each other. A
/// picture of a line is looked at when it is written.
///
/// # Errors
///
/// [`Mishap::Unwritten`] for the first of them.
pub fn keep_apart<'a, D: FileStore>(files: &D, options: Options<'a>) -> Result<(), Mishap<'a>> {
    keep(files, options.svg, &[options.file, options.expect])?;
    keep(
        files,
        options.html,
        &[options.file, options.expect, options.svg],
    )
}

/// Refuses a file that is one of the others.
fn keep<'a, D: FileStore>(
    files: &D,
    written: Option<&'a str>,
    others: &[Option<&str>],
) -> Result<(), Mishap<'a>> {
    let Some(name) = written else {
        return Ok(());
    };
    if is_named(files, name, others) {
        return Err(Mishap::Unwritten(name, None, NAMED_TWICE));
    }
    Ok(())
}

/// Whether a file is one of those with these names. `-` names none.
pub fn is_named<D: FileStore>(files: &D, name: &str, others: &[Option<&str>]) -> bool {
    for other in others {
        if let Some(other) = *other
            && name != "-"
            && other != "-"
            && files.is_same(name, other)
        {
            return true;
        }
    }
    false
}

/// Puts the column of the line at fault of a script, by a run that shows nothing.
pub fn find_column<R: Threads + Wait + Sync + AllocGlobal, D: FileStore>(
    rt: &R,
    options: Options<'_>,
    script: &[u8],
    files: &D,
    told: &mut Told,
) {
    let ends = Ends {
        out: &mut ToWrite::new(io::sink()),
        err: &mut ToWrite::new(io::sink()),
        files,
        told,
    };
    let _ = use_script(rt, options, &mut MemorySource::new(script), ends);
}
