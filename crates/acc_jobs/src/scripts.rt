//! Scripts of thousands of lines: plain, with a log or with pictures, copied line by line with each statement, and some
//! whose lines are refused or whose last line is at fault.

use crate::tallies::Tally;
use crate::texts::{Body, Script, text_of};
use acc_base::{Config, Fault};
use acc_follow::{Beside, Frame, LogForm, Page, PictureSink, Setting, Stop, Views, follow};
use acc_script::{MemorySink, MemorySource, Status, write_all};
use std::alloc::Global;
use std::cell::Cell;
use std::sync::Wait;
use std::thread::Threads;

/// Shows only what a script prints.
const PLAIN: Views = Views {
    echo: false,
    json: false,
    log: None,
    explain: false,
    picture: false,
    pictures: false,
    page: false,
    lines: false,
    check: false,
    check_fails: false,
    check_all: false,
};

/// A script with many statements between the mappings of many arrays and their ends.
const MANY: Script = Script {
    declared: 10_000,
    mapped: 10_000,
    body: Body::Statement(0),
    times: 20_000,
    behind: "wait\n",
    last: "",
    views: PLAIN,
};

/// Scripts that succeed: four that are plain, one of which is of nested regions, one with a log and why lines are
/// refused, and one with each statement before what it prints.
const SCRIPTS: [Script; 6] = [
    MANY,
    Script {
        declared: 4,
        mapped: 4,
        ..MANY
    },
    Script {
        declared: 1_000,
        mapped: 1_000,
        body: Body::Statement(100),
        times: 10_000,
        ..MANY
    },
    Script {
        declared: 64,
        mapped: 0,
        body: Body::Nest(40),
        times: 100,
        behind: "",
        ..MANY
    },
    Script {
        declared: 4_000,
        mapped: 4_000,
        times: 10_000,
        views: Views {
            log: Some(LogForm::Text),
            explain: true,
            ..PLAIN
        },
        ..MANY
    },
    Script {
        declared: 500,
        mapped: 500,
        body: Body::Statement(50),
        times: 5_000,
        views: Views {
            echo: true,
            ..PLAIN
        },
        ..MANY
    },
];

/// What is shown of scripts at fault beside what they print: why a line is refused.
const EXPLAIN: Views = Views {
    explain: true,
    ..PLAIN
};

/// A script whose directives are all refused between the mappings and their ends, and one whose last line is at fault.
pub const REFUSED: [Script; 2] = [
    Script {
        declared: 4_000,
        mapped: 2_000,
        body: Body::Refused,
        times: 500,
        behind: "",
        views: EXPLAIN,
        ..MANY
    },
    Script {
        declared: 2_000,
        mapped: 2_000,
        times: 1_000,
        last: "update self(nobody)\n",
        views: EXPLAIN,
        ..MANY
    },
];

/// A script that is drawn behind each directive and each kernel, and at its end.
pub const DRAWN: [Script; 1] = [Script {
    declared: 300,
    mapped: 300,
    times: 100,
    views: Views {
        picture: true,
        pictures: true,
        ..PLAIN
    },
    ..MANY
}];

/// Gets pictures, and notes when each was made and its bytes.
#[derive(Drop)]
struct Album {
    tally: Cell<Tally>,
}

impl PictureSink for Album {
    fn keep(&self, frame: Frame, picture: &[u8]) -> Result<(), Stop> {
        let mut tally = self.tally.get();
        tally.note(number_of_frame(frame));
        tally.note_bytes(picture);
        self.tally.set(tally);
        Ok(())
    }
}

/// When a picture was made, as a number: 0 at the end, and else one more than the line. No page is made.
fn number_of_frame(frame: Frame) -> u64 {
    match frame {
        Frame::Last | Frame::Each => 0,
        Frame::Line(number) => number.wrapping_add(1),
    }
}

/// What comes of a script beside what it prints.
#[derive(Drop)]
struct Aside {
    err: MemorySink,
    album: Album,
    reason: Page,
}

/// Plays scripts that succeed, so many times, each with another seed. What is shown is noted each time.
pub fn play_apart<R: Threads + Wait + Sync + AllocGlobal>(
    rt: &R,
    config: Config,
    seed: u64,
    rounds: u64,
    tally: &mut Tally,
) {
    for round in 0..rounds {
        let seed = seed.wrapping_add(round.wrapping_mul(1_000));
        play(rt, config, &SCRIPTS, seed, 1, tally);
    }
}

/// Plays each of the scripts so many times, each time with the next seed, and notes what is shown of all of them.
pub fn play<R: Threads + Wait + Sync + AllocGlobal>(
    rt: &R,
    config: Config,
    scripts: &[Script],
    seed: u64,
    rounds: u64,
    tally: &mut Tally,
) {
    let mut sink = MemorySink::new(rt.alloc());
    for round in 0..rounds {
        for script in scripts {
            tally.is_short |= !play_one(rt, config, *script, seed.wrapping_add(round), &mut sink);
        }
    }
    tally.note_bytes(sink.as_slice());
}

/// Makes and plays a script, and returns whether there was memory for that.
fn play_one<R: Threads + Wait + Sync + AllocGlobal>(
    rt: &R,
    config: Config,
    script: Script,
    seed: u64,
    sink: &mut MemorySink,
) -> bool {
    match text_of(rt.alloc(), seed, script) {
        Ok(text) => play_text(rt, config, &text, script.views, sink),
        Err(_) => false,
    }
}

/// Plays a script. It adds what the script prints, its log, why a line is at fault, a digest of the pictures, and how
/// the script ended.
fn play_text<R: Threads + Wait + Sync + AllocGlobal>(
    rt: &R,
    config: Config,
    text: &str,
    views: Views,
    sink: &mut MemorySink,
) -> bool {
    let mut aside = Aside {
        err: MemorySink::new(rt.alloc()),
        album: Album {
            tally: Cell::new(Tally::new()),
        },
        reason: Page::new(rt.alloc()),
    };
    let ending = follow_text(rt, config, text, views, sink, &mut aside);
    write_all(sink, aside.err.as_slice());
    write_all(sink, aside.reason.as_slice());
    write_all(sink, &aside.album.tally.get().digest.to_le_bytes());
    write_all(sink, ending.as_bytes());
    !ending.is_empty()
}

/// Runs a script, and returns how it ended; nothing where there was no memory for it.
fn follow_text<R: Threads + Wait + Sync + AllocGlobal>(
    rt: &R,
    config: Config,
    text: &str,
    views: Views,
    out: &mut MemorySink,
    aside: &mut Aside,
) -> &'static str {
    let setting = Setting {
        config,
        parts: 1,
        views,
    };
    let mut reader = MemorySource::new(text.as_bytes());
    let mut column = 0;
    let mut lines = Vec::new(rt.alloc());
    let beside = Beside {
        file: "",
        err: &mut aside.err,
        pictures: &aside.album,
        reason: &mut aside.reason,
        column: &mut column,
        lines: &mut lines,
    };
    ending_of(follow(rt, setting, &mut reader, out, beside))
}

fn ending_of(ending: Result<Status, Stop>) -> &'static str {
    match ending {
        Ok(Status::Clean) => "clean\n",
        Ok(Status::Refused) => "refused\n",
        Err(Stop::Fault(Fault::Script { .. })) => "at fault\n",
        Err(Stop::Fault(_)) => "",
        Err(Stop::Picture(_)) => "no picture\n",
    }
}
