//! Runs a script line by line.

use crate::answers::{end_answer, run_shown};
use crate::fault_lines::tell_fault;
use crate::histories::{Entry, History, Mark};
use crate::line_readers::LineReader;
use crate::manners::{Keeper, Manner};
use crate::options::statements;
use crate::prompt_words::Word;
use acc_base::{Config, Fault, ScriptFault};
use acc_follow::{Beside, Follower, RanLine, Setting, Stop, follow};
use acc_read::Page;
use acc_script::{
    InOnePart, MemorySink, Session, Sink, Source, Status, Watcher, run_line, write_all,
};
use acc_trials::put_numbers;
use std::alloc::Global;
use std::sync::Wait;
use std::thread::Threads;

/// Runs a script as [`follow`] does, or line by line: then each line is read, and run, before the next one is read.
/// Where the script goes on behind faults, each fault of a line is told, also that there was no memory for it. It
/// returns `None` where one was told.
///
/// # Errors
///
/// Those of [`follow`], but for faults that are told.
pub fn run_script<R: Threads + Wait + Sync + AllocGlobal, S: Source, O: Sink, E: Sink, G: Keeper>(
    rt: &R,
    setting: Setting,
    manner: Manner,
    reader: &mut S,
    out: &mut O,
    beside: Beside<'_, E, G>,
) -> Result<Option<Status>, Stop> {
    if !manner.is_live() && !manner.goes_on {
        return Ok(Some(follow(rt, setting, reader, out, beside)?));
    }
    let mut session = Session::new(rt.alloc(), setting.config)?;
    run_by_line(rt, setting, manner, reader, out, beside, &mut session)
}

fn run_by_line<R: Threads + Wait + Sync + AllocGlobal, S: Source, O: Sink, E: Sink, G: Keeper>(
    rt: &R,
    setting: Setting,
    manner: Manner,
    reader: &mut S,
    out: &mut O,
    beside: Beside<'_, E, G>,
    session: &mut Session,
) -> Result<Option<Status>, Stop> {
    let mut follower = Follower::new(rt.alloc(), setting.views, beside);
    let mut dialogue = Dialogue {
        rt,
        setting,
        manner,
        out,
        session,
        history: History::new(rt.alloc()),
        done: 0,
        is_refused: false,
        has_fault: false,
    };
    dialogue.run_all(&mut follower, &mut LineReader::new(reader))
}

#[derive(Drop)]
struct Dialogue<'a, R, O> {
    rt: &'a R,
    setting: Setting,
    manner: Manner,
    out: &'a mut O,
    session: &'a mut Session,
    /// What the words of a prompt need; nothing where nothing is asked.
    history: History,
    /// The number of the last line that was run.
    done: u64,
    is_refused: bool,
    has_fault: bool,
}

impl<R: Threads + Wait + Sync + AllocGlobal, O: Sink> Dialogue<'_, R, O> {
    fn run_all<E: Sink, G: Keeper, S: Source>(
        &mut self,
        follower: &mut Follower<'_, E, G>,
        lines: &mut LineReader<'_, S>,
    ) -> Result<Option<Status>, Stop> {
        for _ in 0..u64::MAX {
            self.ask(follower.err);
            let line = match lines.next_line() {
                Ok(Some(line)) => line,
                Ok(None) => break,
                Err(fault) => return self.end(follower, &[], Err(fault)),
            };
            if let Err(fault) = self.take(follower, line) {
                return self.end(follower, line, Err(fault));
            }
        }
        self.end_all(follower)
    }

    /// Does what a line asks for, and ends its answer.
    fn take<E: Sink, G: Keeper>(
        &mut self,
        follower: &mut Follower<'_, E, G>,
        line: &[u8],
    ) -> Result<(), Fault> {
        let ending = match Word::of(line) {
            Some(word) if self.manner.asks => self.obey(follower, word),
            _ => self.run_next(follower, line),
        };
        if let Err(fault) = ending {
            self.bear(follower, line, fault)?;
        }
        self.answer()
    }

    /// Runs the next line. A prompt keeps it, unless it was not done and changed nothing.
    fn run_next<E: Sink, G: Keeper>(
        &mut self,
        follower: &mut Follower<'_, E, G>,
        line: &[u8],
    ) -> Result<(), Fault> {
        let (rt, setting, number) = (self.rt, self.setting, self.done.saturating_add(1));
        self.done = number;
        if self.manner.asks {
            self.history.add(number, line)?;
        }
        let before = Mark::of(self.session);
        let ending = run_shown(rt, setting, number, self.session, line, self.out, follower);
        let has_changed = Mark::of(self.session) != before;
        self.history
            .settle(has_changed, matches!(ending, Ok(false)));
        self.is_refused |= ending?;
        Ok(())
    }
}

// None of these waits, and the program is proved to end where nothing waits.
impl<R: AllocGlobal, O: Sink> Dialogue<'_, R, O> {
    /// Writes the prompt. It goes to standard error, so that standard output has what the script prints.
    fn ask<E: Sink>(&self, err: &mut E) {
        if self.manner.asks {
            let mut page = Page::new(self.rt.alloc());
            let (device, regions) = (self.session.device, self.session.table.regions());
            put_numbers(
                &mut page,
                &[("device ", device), (" regions ", regions)],
                "> ",
            );
            say(err, page.as_slice());
        }
    }

    /// Ends what a line prints, and lets it be seen.
    fn answer(&mut self) -> Result<(), Fault> {
        if self.manner.answers {
            end_answer(self.out)?;
        }
        if self.manner.is_live() {
            flush(self.out)?;
        }
        Ok(())
    }

    /// Tells a fault behind which the script goes on; returns any other.
    fn bear<E: Sink, G: Keeper>(
        &mut self,
        follower: &mut Follower<'_, E, G>,
        line: &[u8],
        fault: Fault,
    ) -> Result<(), Fault> {
        if !self.manner.goes_on || matches!(fault, Fault::Write) {
            return Err(fault);
        }
        self.has_fault = true;
        if let Fault::Script { kind, .. } = fault {
            let ran = RanLine {
                number: self.done,
                line,
                session: self.session,
            };
            follower.give_reason(ran, kind);
        }
        flush(self.out)?;
        tell(self.rt.alloc(), follower, fault);
        Ok(())
    }

    fn obey<E: Sink, G: Keeper>(
        &mut self,
        follower: &mut Follower<'_, E, G>,
        word: Word<'_>,
    ) -> Result<(), Fault> {
        match word {
            Word::Undo => self.undo(follower),
            Word::Save(name) => self.save(follower, name),
            Word::History => {
                say(follower.err, self.history.listing().whole()?);
                Ok(())
            }
            Word::Help => {
                say(follower.err, statements().as_bytes());
                Ok(())
            }
            Word::Misused(word, wanted) => {
                let mut page = Page::new(self.rt.alloc());
                put_misused(&mut page, word, wanted);
                say(follower.err, page.as_slice());
                Ok(())
            }
        }
    }

    /// Goes back to what there was before the last line that changed something. Where there is no memory for that, the
    /// session stays, and nothing more is shown of it.
    fn undo<E: Sink, G: Keeper>(&mut self, follower: &mut Follower<'_, E, G>) -> Result<(), Fault> {
        let mut page = Page::new(self.rt.alloc());
        self.take_back(follower, &mut page)?;
        say(follower.err, page.as_slice());
        Ok(())
    }

    /// Undoes a line, and puts which one.
    fn take_back<E: Sink, G: Keeper>(
        &mut self,
        follower: &mut Follower<'_, E, G>,
        page: &mut Page,
    ) -> Result<(), Fault> {
        let Some((before, last)) = self.history.split() else {
            page.text("accrun: there is nothing to undo\n");
            return Ok(());
        };
        page.text("accrun: undone: ");
        last.put(page);
        page.whole()?;
        let count = before.len();
        let (alloc, config) = (self.rt.alloc(), self.setting.config);
        replay(alloc, config, before, follower, self.session)?;
        self.history.leave(count);
        Ok(())
    }

    /// Keeps the lines so far as a file.
    fn save<E: Sink, G: Keeper>(
        &self,
        follower: &mut Follower<'_, E, G>,
        name: &str,
    ) -> Result<(), Fault> {
        let script = self.history.script();
        if let Err(reason) = follower.pictures.save(name, script.whole()?) {
            let mut page = Page::new(self.rt.alloc());
            page.text("accrun: cannot write ");
            page.text(name);
            page.text(": ");
            page.text(reason);
            page.text("\n");
            say(follower.err, page.as_slice());
        }
        Ok(())
    }

    /// Ends the script behind its last line.
    fn end_all<E: Sink, G: Keeper>(
        &mut self,
        follower: &mut Follower<'_, E, G>,
    ) -> Result<Option<Status>, Stop> {
        if self.manner.asks {
            say(follower.err, b"\n");
        }
        let ending = if self.session.table.regions() > 0 {
            Err(Fault::Script {
                line: self.done.saturating_add(1),
                kind: ScriptFault::Unclosed,
            })
        } else if self.is_refused {
            Ok(Status::Refused)
        } else {
            Ok(Status::Clean)
        };
        self.end(follower, &[], ending)
    }

    /// Ends the script, at a line that is at fault or behind the last one.
    fn end<E: Sink, G: Keeper>(
        &mut self,
        follower: &mut Follower<'_, E, G>,
        line: &[u8],
        ending: Result<Status, Fault>,
    ) -> Result<Option<Status>, Stop> {
        let number = match ending {
            Err(Fault::Script { line, .. }) => line,
            _ => self.done,
        };
        Watcher::<O>::end(follower, number, line, self.session, ending);
        let status = follower.ended(self.out, ending)?;
        Ok((!self.has_fault).then_some(status))
    }
}

/// Writes a text beside the output. A failure of the sink changes nothing.
fn say<E: Sink>(err: &mut E, text: &[u8]) {
    let _ = write_all(err, text);
}

/// Puts how a word of the prompt has to be used.
fn put_misused(page: &mut Page, word: &str, wanted: &str) {
    page.text("accrun: '");
    page.text(word);
    page.text("' ");
    page.text(wanted);
    page.text("\n");
}

/// Writes a fault, and behind it its reason.
fn tell<E: Sink, G: Keeper>(alloc: Global, follower: &mut Follower<'_, E, G>, fault: Fault) {
    let (file, column) = (follower.pictures.file(), *follower.column);
    tell_fault(alloc, follower.err, file, column, fault);
    follower.tell_reason();
}

fn flush<O: Sink>(out: &mut O) -> Result<(), Fault> {
    if out.flush() {
        Ok(())
    } else {
        Err(Fault::Write)
    }
}

/// Makes a session one behind these lines, of which nothing is shown again.
fn replay<E: Sink, G: Keeper>(
    alloc: Global,
    config: Config,
    entries: &[Entry],
    follower: &mut Follower<'_, E, G>,
    session: &mut Session,
) -> Result<(), Fault> {
    let mut replayed = Session::new(alloc, config)?;
    follower.forget();
    follower.is_silent = true;
    let ran = run_all_again(alloc, &mut replayed, entries, follower);
    follower.is_silent = false;
    if ran.is_ok() {
        *session = replayed;
    }
    ran
}

fn run_all_again<E: Sink, G: Keeper>(
    alloc: Global,
    session: &mut Session,
    entries: &[Entry],
    follower: &mut Follower<'_, E, G>,
) -> Result<(), Fault> {
    for entry in entries {
        run_again(alloc, session, entry, follower)?;
    }
    Ok(())
}

fn run_again<E: Sink, G: Keeper>(
    alloc: Global,
    session: &mut Session,
    entry: &Entry,
    follower: &mut Follower<'_, E, G>,
) -> Result<bool, Fault> {
    let mut printed = MemorySink::new(alloc);
    run_line(
        &InOnePart,
        entry.number,
        session,
        &entry.text,
        &mut printed,
        follower,
    )
}
