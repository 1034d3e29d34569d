//! Runs a script, and shows more of it than what it prints, line by line.

ghost use Rattle.std.specs.Prelude.{[]};
ghost use Rattle.acc_script.specs.Told.{Took};

use crate::copiers::{Copier, RunSink};
use crate::picture_sinks::{Frame, PictureSink, Stop};
use crate::ran_lines::{RanLine, draw_session};
use crate::timelines::Timeline;
use acc_base::{Config, Event, Fault, ScriptFault};
use acc_check::{Check, Line, Telling};
use acc_explain::fault_column;
use acc_log::{Log, LogForm};
use acc_picture::Caption;
use acc_read::{Names, Page, ScriptKernel, Statement};
use acc_script::{
    ByCall, Effect, KernelRunner, Lease, Session, Sink, Source, Status, Watcher, run,
    run_in_threads, write_all,
};
use std::alloc::Global;
use std::sync::Wait;
use std::thread::Threads;

/// What is shown beside what a script prints.
#[derive(Clone, Copy)]
pub struct Views {
    /// Each statement, before what it prints.
    pub echo: bool,
    /// What it prints as objects of JSON, and so what a check finds.
    pub json: bool,
    /// The log in this form: what each call did.
    pub log: Option<LogForm>,
    /// Why a line is at fault, why a statement is refused, and which lines are comments that look like directives.
    pub explain: bool,
    /// A picture of the memories at the end.
    pub picture: bool,
    /// A picture of them behind each directive and each kernel.
    pub pictures: bool,
    /// A page that shows the script step by step.
    pub page: bool,
    /// Which line printed what ([`Beside::lines`]).
    pub lines: bool,
    /// Which bytes a line reads that are stale, and what is mapped still at the end.
    pub check: bool,
    /// Whether such a finding makes the status that of a refused line.
    pub check_fails: bool,
    /// Whether a check also tells what may be meant.
    pub check_all: bool,
}

impl Views {
    /// Whether any of it is shown.
    fn show_any(self) -> bool {
        let lines = self.echo || self.json || self.lines;
        let pictures = self.picture || self.pictures || self.page;
        lines || pictures || self.log.is_some() || self.explain || self.check
    }

    /// Whether any of it names arrays.
    fn name_arrays(self) -> bool {
        let pictures = self.picture || self.pictures;
        pictures || self.log.is_some() || self.check || self.explain_faults()
    }

    /// Whether any of it explains faults.
    fn explain_faults(self) -> bool {
        self.explain || self.page
    }
}

/// How a script is followed.
#[derive(Clone, Copy)]
pub struct Setting {
    /// The limits of its table.
    pub config: Config,
    /// Into how many parts the work of a kernel is cut at most, from 1 to 64.
    pub parts: usize,
    /// What is shown of it.
    pub views: Views,
}

/// Where all goes that is shown beside what a script prints.
#[derive(Drop)]
pub struct Beside<'a, E, G> {
    /// The file of the script, which stands in front of explanations; empty for standard input.
    pub file: &'a str,
    /// Gets the log and the explanations, each line's behind what it prints. Its failure changes nothing.
    pub err: &'a mut E,
    /// Keeps the pictures.
    pub pictures: &'a G,
    /// Gets why a line is at fault, to be written behind the fault itself.
    pub reason: &'a mut Page,
    /// Gets the column of what is wrong in that line, from 1 on.
    pub column: &'a mut u64,
    /// Gets for each line of the output the number of the line that printed it, where that is asked for.
    pub lines: &'a mut Vec<u64>,
}

/// Runs a whole script as [`run`] does, and shows more of it.
///
/// # Errors
///
/// Those of [`run`], and [`Fault::Memory`] where there is none for what is shown. [`Stop::Picture`] where a picture
/// cannot be kept. Where something cannot be shown, nothing more is shown, and the script runs on.
pub fn follow<R: Threads + Wait + Sync + AllocGlobal, S: Source, O: Sink, E: Sink, G: PictureSink>(
    rt: &R,
    setting: Setting,
    reader: &mut S,
    out: &mut O,
    beside: Beside<'_, E, G>,
) -> Result<Status, Stop> {
    let Setting { config, parts, .. } = setting;
    let alloc = rt.alloc();
    let kernels = ByCall(move |kernel: ScriptKernel, lease: Lease, src: &[u8]| {
        run_in_threads(rt, parts, kernel, lease, src)
    });
    if setting.views.show_any() {
        return follow_shown(alloc, &kernels, setting, reader, out, beside);
    }
    beside.lines.clear();
    let mut watcher = FaultWatcher {
        alloc,
        column: *beside.column,
    };
    let ending = run(alloc, &kernels, reader, out, config, &mut watcher);
    *beside.column = watcher.column;
    Ok(ending?)
}

/// Runs a script, and shows what the views ask for.
fn follow_shown<K: KernelRunner, S: Source, O: Sink, E: Sink, G: PictureSink>(
    alloc: Global,
    kernels: &K,
    setting: Setting,
    reader: &mut S,
    out: &mut O,
    beside: Beside<'_, E, G>,
) -> Result<Status, Stop>
    requires { K.able kernels.now }
{
    let Setting { config, views, .. } = setting;
    let mut lines = Vec::new(alloc);
    let mut follower = Follower::new(alloc, views, beside);
    let ending = if views.echo || views.json || views.lines {
        run_copied(
            alloc,
            kernels,
            setting,
            reader,
            out,
            &mut lines,
            &mut follower,
        )
    } else {
        run(alloc, kernels, reader, out, config, &mut follower)
    };
    *follower.lines = lines;
    follower.ended(out, ending)
}

/// Runs a script, and copies what it prints.
fn run_copied<K: KernelRunner, S: Source, O: Sink, X: Watcher<O>>(
    alloc: Global,
    kernels: &K,
    setting: Setting,
    reader: &mut S,
    out: &mut O,
    lines: &mut Vec<u64>,
    watcher: &mut X,
) -> Result<Status, Fault>
    requires { K.able kernels.now }
{
    let Setting { config, views, .. } = setting;
    let mut printed = RunSink::new(alloc, views);
    let mut copier = Copier::new(alloc, views, out, watcher, lines);
    let ending = run(alloc, kernels, reader, &mut printed, config, &mut copier);
    copier.ended(ending)
}

/// The log of a script whose first line is yet to run, for these views.
fn new_log(alloc: Global, views: Views) -> Log {
    Log::new(alloc, views.log.unwrap_or(LogForm::Text))
}

/// Sees where a line is at fault. No line meets it before.
#[derive(Clone, Copy)]
struct FaultWatcher {
    alloc: Global,
    /// As in [`Beside`].
    column: u64,
}

impl<O: Sink> Watcher<O> for FaultWatcher {
    fn end(&mut self, _number: u64, line: &[u8], session: &Session, ending: Result<Status, Fault>) {
        if let Err(Fault::Script { kind, .. }) = ending {
            self.column = fault_column(self.alloc, &session.arrays, line, kind);
        }
    }
}

/// Watches a run, and shows more of it.
#[derive(Drop)]
pub struct Follower<'a, E, G> {
    alloc: Global,
    views: Views,
    file: Option<&'a str>,
    /// As in [`Beside`], with those that follow.
    pub err: &'a mut E,
    /// Keeps the pictures.
    pub pictures: &'a G,
    reason: &'a mut Page,
    /// Gets the column of what is wrong in it.
    pub column: &'a mut u64,
    lines: &'a mut Vec<u64>,
    /// Whether it writes nothing.
    pub is_silent: bool,
    names: Names,
    log: Log,
    /// What is known of stale bytes, from the first line on, where that is asked for.
    check: Option<Check>,
    /// The lines whose data regions are open, the innermost last.
    entries: Vec<u64>,
    /// What the page shows of the lines so far.
    timeline: Timeline,
    /// How many events the trace had when a line was last checked for a picture.
    drawn: usize,
    /// Why nothing more is shown.
    stop: Option<Stop>,
}

impl<'a, E, G> Follower<'a, E, G> {
    /// Returns a follower of no line.
    pub fn new(alloc: Global, views: Views, beside: Beside<'a, E, G>) -> Follower<'a, E, G> {
        Follower {
            alloc,
            views,
            file: Some(beside.file).filter(|name| !name.is_empty()),
            err: beside.err,
            pictures: beside.pictures,
            reason: beside.reason,
            column: beside.column,
            lines: beside.lines,
            is_silent: false,
            names: Names::new(alloc),
            log: new_log(alloc, views),
            check: None,
            entries: Vec::new(alloc),
            timeline: Timeline::new(alloc),
            drawn: 0,
            stop: None,
        }
    }

    /// Forgets the lines so far.
    pub fn forget(&mut self) {
        self.names = Names::new(self.alloc);
        self.log = new_log(self.alloc, self.views);
        self.check = None;
        self.entries.clear();
        self.timeline = Timeline::new(self.alloc);
        self.drawn = 0;
    }
}

impl<O: Sink, E: Sink, G: PictureSink> Watcher<O> for Follower<'_, E, G> {
    fn before(&mut self, _number: u64, _line: &[u8], statement: &Statement<'_>, session: &Session) {
        if self.views.check && self.check_before(statement, session).is_err() {
            self.halt(Stop::Fault(Fault::Memory));
        }
        if let (true, Statement::Declare { name, array }) = (self.views.name_arrays(), statement) {
            if self.names.insert(self.alloc, name, *array).is_err() {
                self.halt(Stop::Fault(Fault::Memory));
            }
        }
    }

    #[tactic(auto, using(acc_script::proofs::Fronts::took_nothing))]
    fn after(
        &mut self,
        number: u64,
        line: &[u8],
        session: &Session,
        effect: Effect,
        writer: &mut O,
    ) {
        if self.stop.is_none() {
            let ran = RanLine {
                number,
                line,
                session,
            };
            if let Err(stop) = self.show(ran, effect, writer) {
                self.halt(stop);
            }
        }
    }

    fn end(&mut self, number: u64, line: &[u8], session: &Session, ending: Result<Status, Fault>) {
        let ran = RanLine {
            number,
            line,
            session,
        };
        match ending {
            Ok(_) => {
                self.check_end(session);
                self.draw_last(session);
            }
            Err(Fault::Script { kind, .. }) => self.give_reason(ran, kind),
            Err(_) => {}
        }
        self.end_page(ending);
        if self.views.log.is_some() {
            self.log.tell_total();
        }
    }
}

impl<E: Sink, G: PictureSink> Follower<'_, E, G> {
    /// Keeps why nothing more is shown, if there is no reason yet.
    fn halt(&mut self, stop: Stop) {
        if self.stop.is_none() {
            self.stop = Some(stop);
        }
    }

    /// Shows what a line did.
    #[tactic(auto, using(acc_script::proofs::Fronts::took_nothing))]
    fn show<O: Sink>(
        &mut self,
        ran: RanLine<'_>,
        effect: Effect,
        writer: &mut O,
    ) -> Result<(), Stop>
        ensures { Took (O.told writer.old) (O.told writer.new) [] }
    {
        self.tell(ran, effect)?;
        self.write_told(writer)?;
        if self.views.pictures {
            self.draw_line(ran)?;
        }
        Ok(())
    }

    /// Puts what a line did into the log, and what is asked for beside that.
    #[inline(always)]
    fn tell(&mut self, ran: RanLine<'_>, effect: Effect) -> Result<(), Fault> {
        let (number, table) = (ran.number, &ran.session.table);
        if self.views.log.is_some() {
            self.log
                .tell(&self.names, number, ran.statement(), table, effect)?;
        }
        if self.views.check || self.views.explain_faults() {
            self.tell_more(ran, effect)?;
        }
        Ok(())
    }

    /// Explains what a line did, and puts what it read that is stale.
    fn tell_more(&mut self, ran: RanLine<'_>, effect: Effect) -> Result<(), Fault> {
        if self.views.explain {
            ran.explain(
                &mut self.log.page,
                self.alloc,
                &self.names,
                self.file,
                effect,
            );
        }
        self.check_after(ran, effect)?;
        if self.views.page {
            self.timeline
                .add_line(&self.names, self.check.as_ref(), ran, effect)?;
        }
        if self.views.explain_faults() {
            self.note_region(ran.number, ran.session.table.regions())?;
        }
        Ok(())
    }

    /// Lets the check that is asked for see a statement before it runs. It begins with the first one.
    fn check_before(&mut self, statement: &Statement<'_>, session: &Session) -> Result<(), Fault> {
        if self.check.is_none() {
            self.begin_check(session)?;
        }
        match &mut self.check {
            Some(check) => check.before(statement, &session.table),
            None => Ok(()),
        }
    }

    /// Begins the check.
    #[inline(never)]
    fn begin_check(&mut self, session: &Session) -> Result<(), Fault> {
        let telling = Telling {
            all: self.views.check_all,
            json: self.views.json,
        };
        let config = session.table.config();
        self.check = Some(Check::new(self.alloc, config, telling)?);
        Ok(())
    }

    /// Puts what a line read that is stale.
    fn check_after(&mut self, ran: RanLine<'_>, effect: Effect) -> Result<(), Fault> {
        let Some(check) = &mut self.check else {
            return Ok(());
        };
        let line = Line {
            file: self.file,
            number: ran.number,
            text: ran.line,
        };
        let shown = match effect {
            Effect::HostBytes(section) => Some(section),
            _ => None,
        };
        check.after(
            &mut self.log.page,
            &self.names,
            line,
            &ran.session.table,
            shown,
        )
    }

    /// Puts what is mapped still at the end.
    fn check_end(&mut self, session: &Session) {
        if let Some(check) = &mut self.check {
            check.end(&mut self.log.page, &self.names, self.file, &session.table);
        }
    }

    /// Whether a finding makes the status that of a refused line.
    fn has_failed_check(&self) -> bool {
        self.views.check_fails && self.check.as_ref().map_or(0, Check::count) > 0
    }

    /// Keeps the number of a line that entered a region, until it is exited.
    fn note_region(&mut self, number: u64, open: u64) -> Result<(), Fault> {
        let known = self.entries.len() as u64;
        if known < open {
            self.entries.push(number)?;
        }
        if open < known {
            self.entries.pop();
        }
        Ok(())
    }

    /// Flushes what was printed so far, and then writes the log and the explanations.
    #[tactic(auto, using(acc_script::proofs::Fronts::took_nothing))]
    fn write_told<O: Sink>(&mut self, out: &mut O) -> Result<(), Fault>
        ensures { Took (O.told out.old) (O.told out.new) [] }
    {
        let lines = self.log.page.whole()?;
        if lines.is_empty() {
            return Ok(());
        }
        if !out.flush() {
            return Err(Fault::Write);
        }
        if !self.is_silent {
            let _ = write_all(self.err, lines);
        }
        self.log.page.clear();
        Ok(())
    }

    /// Draws what a line left, where it is a directive or a kernel that was done.
    fn draw_line(&mut self, ran: RanLine<'_>) -> Result<(), Stop> {
        if !self.is_picture_due(ran.session) {
            return Ok(());
        }
        self.draw(ran.session, ran.caption(), Frame::Line(ran.number))
    }

    /// Whether there is a new event that is no write of the host.
    fn is_picture_due(&mut self, session: &Session) -> bool {
        let trace = session.table.trace();
        let is_new = self.drawn < trace.len();
        self.drawn = trace.len();
        is_new && !matches!(trace.last(), Some(Event::HostWritten { .. }))
    }

    fn draw_last(&mut self, session: &Session) {
        if self.views.picture && self.stop.is_none() {
            if let Err(stop) = self.draw(session, Caption::End, Frame::Last) {
                self.halt(stop);
            }
        }
    }

    fn draw(&self, session: &Session, caption: Caption<'_>, frame: Frame) -> Result<(), Stop> {
        let mut page = Page::new(self.alloc);
        let check = self.check.as_ref();
        draw_session(&mut page, self.alloc, session, &self.names, check, caption)?;
        self.pictures.keep(frame, page.as_slice())
    }

    /// Writes why the last line at fault is, behind the fault itself.
    pub fn tell_reason(&mut self) {
        let _ = write_all(self.err, self.reason.as_slice());
        self.reason.clear();
    }

    /// Puts where and why a line is at fault. Where there is no memory, the reason is cut short, and the fault itself is
    /// still written.
    pub fn give_reason(&mut self, ran: RanLine<'_>, kind: ScriptFault) {
        *self.column = fault_column(self.alloc, &ran.session.arrays, ran.line, kind);
        if self.views.explain {
            ran.explain_fault(self.reason, self.alloc, &self.entries, kind);
        }
        if self.views.page {
            self.timeline.add_fault(ran, &self.entries, kind);
        }
    }

    /// Keeps the page of a script that ran to its end, or to a line that is at fault.
    fn end_page(&mut self, ending: Result<Status, Fault>) {
        let has_page = self.views.page && self.stop.is_none();
        if has_page && matches!(ending, Ok(_) | Err(Fault::Script { .. })) {
            if let Err(stop) = self.keep_page() {
                self.halt(stop);
            }
        }
    }

    fn keep_page(&self) -> Result<(), Stop> {
        let mut page = Page::new(self.alloc);
        self.timeline.put(&mut page)?;
        self.pictures.keep(Frame::Each, page.as_slice())
    }

    /// Writes the last lines. Returns why something could not be shown; else how the run ended, if by a fault; else
    /// whether the last lines were written, with a status that heeds what was found.
    ///
    /// # Errors
    ///
    /// Those of [`follow`].
    pub fn ended<O: Sink>(
        &mut self,
        out: &mut O,
        ending: Result<Status, Fault>,
    ) -> Result<Status, Stop> {
        let told = self.write_told(out);
        if let Some(stop) = self.stop {
            return Err(stop);
        }
        let status = ending?;
        told?;
        if self.has_failed_check() {
            return Ok(Status::Refused);
        }
        Ok(status)
    }
}
