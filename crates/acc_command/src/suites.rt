//! Scripts as tests: those of files and folders are run, and compared with what they have to print.

use crate::endings::{Mishap, tell_mishap};
use crate::paths::scripts_of;
use crate::runs::{Ends, Told, options_for, run_text};
use acc_base::Fault;
use acc_follow::{Page, warnings_of};
use acc_script::{MemorySink, Sink, Status, write_all};
use acc_terminal::Options;
use acc_trials::{
    BAIL_OUT, FileFault, FileStore, Played, Report, Trial, blessed, compared, expectation,
    lines_of, output_name, told_name,
};
use std::alloc::AllocError;
use std::sync::Wait;
use std::thread::{self, Threads};

/// Runs tests.
#[derive(Drop)]
pub struct Tester<'a, 'b, R, D> {
    /// The handle for what runs them.
    pub rt: &'b R,
    /// What is asked for.
    pub options: Options<'a>,
    /// The store of files.
    pub files: &'b D,
}

impl<'a, R: Threads + Wait + Sync + AllocGlobal, D: FileStore + Sync> Tester<'a, '_, R, D> {
    /// Runs the scripts of files and folders as tests, some at a time, and writes what came of each in their order;
    /// [`Status::Refused`] where one failed.
    ///
    /// # Errors
    ///
    /// A folder without a script; a file that cannot be written, or is one of the scripts; [`Fault::Memory`];
    /// [`Fault::Write`] where the sink fails.
    pub fn run<O: Sink>(&self, out: &mut O) -> Result<Status, Mishap<'a>> {
        let names = scripts_of(self.rt.alloc(), self.options.tests, self.files)?;
        self.run_names(&names, out)
    }

    fn run_names<O: Sink>(&self, names: &[String], out: &mut O) -> Result<Status, Mishap<'a>> {
        self.keep_outputs(names)?;
        self.keep_scripts(names)?;
        // An older report would tell of this run, if it ends early.
        self.write_junit(b"")?;
        let mut report = Report::new(self.rt.alloc(), names.len());
        match self.run_all(&mut report, names, out) {
            Ok(()) => self.end(&report),
            Err(fault) => {
                if fault == Fault::Memory {
                    let _ = write_all(out, BAIL_OUT);
                }
                Err(Mishap::Fault(fault))
            }
        }
    }

    /// Refuses a file of JUnit that is one of the scripts, or what one has to print.
    fn keep_scripts(&self, names: &[String]) -> Result<(), Mishap<'a>> {
        let Some(junit) = self.options.junit else {
            return Ok(());
        };
        for name in names {
            if self.belongs_to(junit, name.as_str())? {
                return Err(Mishap::Unwritten(junit, None, "it belongs to a script"));
            }
        }
        Ok(())
    }

    /// Whether a file is a script, or what that has to print.
    fn belongs_to(&self, file: &str, script: &str) -> Result<bool, Fault> {
        Ok(self.files.is_same(file, script) || self.is_output(file, script)?)
    }

    /// Refuses a script without `.acc` beside one that has the same name with it: both have to print the same file. Of
    /// those without only paths of the command line are scripts.
    fn keep_outputs(&self, names: &[String]) -> Result<(), Mishap<'a>> {
        for path in self.options.tests {
            if is_bare_script(*path, names) && self.has_twin(*path, names)? {
                return Err(Mishap::Unread(*path, "another script has the same output"));
            }
        }
        Ok(())
    }

    fn run_all<O: Sink>(
        &self,
        report: &mut Report,
        names: &[String],
        out: &mut O,
    ) -> Result<(), Fault> {
        for part in names.chunks(self.options.jobs.max(1) as usize) {
            self.run_part(report, part)?;
            flush_page(out, &mut report.tap)?;
        }
        report.put_counts();
        flush_page(out, &mut report.tap)
    }

    /// Runs tests side by side, and adds what came of each.
    fn run_part(&self, report: &mut Report, names: &[String]) -> Result<(), Fault> {
        let trials = self.try_all(names)?;
        for (name, trial) in names.iter().zip(trials.iter()) {
            report.add(self.rt.alloc(), name.as_str(), trial)?;
        }
        Ok(())
    }

    fn try_all(&self, names: &[String]) -> Result<Vec<Result<Trial, Fault>>, AllocError> {
        thread::map_indices(
            self.rt,
            self.rt.alloc(),
            names.len(),
            &|index| { self.try_name(names.get(index).map_or("", |name| name.as_str())) },
        )
    }

    fn try_name(&self, name: &str) -> Result<Trial, Fault> {
        if self.options.bless {
            // Lines that are new or gone move others, and what these print may have their numbers.
            self.try_file(name)?;
        }
        self.try_file(name)
    }

    fn end(&self, report: &Report) -> Result<Status, Mishap<'a>> {
        let page = report.junit(self.rt.alloc())?;
        self.write_junit(page.whole()?)?;
        Ok(if report.has_failed() {
            Status::Refused
        } else {
            Status::Clean
        })
    }

    /// Writes the file of JUnit, if there is to be one.
    fn write_junit(&self, text: &[u8]) -> Result<(), Mishap<'a>> {
        let Some(name) = self.options.junit else {
            return Ok(());
        };
        match self.files.write(name, text) {
            Ok(()) => Ok(()),
            Err(fault) => Err(Mishap::Unwritten(name, None, fault.reason()?)),
        }
    }

    fn try_file(&self, name: &str) -> Result<Trial, Fault> {
        match self.files.read(name) {
            Ok(script) => self.try_script(name, &script),
            Err(fault) => self.failed("cannot read ", name, fault.reason()?),
        }
    }

    fn failed(&self, what: &str, name: &str, reason: &str) -> Result<Trial, Fault> {
        Trial::failed(self.rt.alloc(), &[what, name, ": ", reason])
    }

    fn try_script(&self, name: &str, script: &[u8]) -> Result<Trial, Fault> {
        let alloc = self.rt.alloc();
        let mut told = Told::new(alloc);
        let file = told_name(alloc, name)?;
        match options_for(
            alloc,
            self.options,
            Some(file.as_str()),
            script,
            &mut told.reason,
        ) {
            Ok(options) => self.try_warned(options, name, script, &mut told),
            Err(Mishap::Fault(fault)) => Err(fault),
            Err(_) => Trial::noted(alloc, &[], told.reason),
        }
    }

    /// Runs a script with its options, and warns of what may not be meant; a script that is explained told that.
    fn try_warned(
        &self,
        options: Options<'_>,
        name: &str,
        script: &[u8],
        told: &mut Told,
    ) -> Result<Trial, Fault> {
        let mut trial = self.try_with(options, name, script, told)?;
        if !options.views().explain {
            let file = told_name(self.rt.alloc(), name)?;
            trial.warnings = warnings_of(self.rt.alloc(), Some(file.as_str()), script)?;
        }
        Ok(trial)
    }

    /// Runs a script with its options, unless these do not give what it requires, and judges what it prints.
    fn try_with(
        &self,
        options: Options<'_>,
        name: &str,
        script: &[u8],
        told: &mut Told,
    ) -> Result<Trial, Fault> {
        let alloc = self.rt.alloc();
        let lines = lines_of(alloc, script)?;
        match options.machine().unmet(alloc, name, &lines)? {
            Some(trial) => Ok(trial),
            None => self.run_lines(options, name, script, &lines, told),
        }
    }

    /// Runs a script, and judges what it prints by the comments in its lines.
    fn run_lines<'x>(
        &self,
        options: Options<'_>,
        name: &'x str,
        script: &[u8],
        lines: &'x [&'x [u8]],
        told: &mut Told,
    ) -> Result<Trial, Fault> {
        let mut sink = MemorySink::new(self.rt.alloc());
        let place = self.play(options, script, &mut sink, told)?;
        let printed = lines_of(self.rt.alloc(), sink.as_slice())?;
        self.judge_lines(name, lines, &printed, place, &mut told.lines)
    }

    /// Judges what a script printed, behind which it ended at a place.
    fn judge_lines<'x>(
        &self,
        name: &'x str,
        lines: &'x [&'x [u8]],
        printed: &'x [&'x [u8]],
        end: u64,
        places: &'x mut Vec<u64>,
    ) -> Result<Trial, Fault> {
        places.resize(printed.len().saturating_add(1), end)?;
        self.judge(Played {
            name,
            lines,
            printed,
            places,
        })
    }

    /// Runs a script. Behind what it prints stands what standard error gets. It returns the number of the line that is
    /// at fault, if one is, and else that of no line.
    fn play(
        &self,
        options: Options<'_>,
        script: &[u8],
        sink: &mut MemorySink,
        told: &mut Told,
    ) -> Result<u64, Fault> {
        let mut beside = MemorySink::new(self.rt.alloc());
        let ends = Ends {
            out: &mut *sink,
            err: &mut beside,
            files: self.files,
            told: &mut *told,
        };
        let ending = run_text(self.rt, options, script, ends);
        put_all(sink, beside.as_slice())?;
        match ending {
            Ok(_) => Ok(u64::MAX),
            // These sinks fail for lack of memory alone.
            Err(Mishap::Fault(Fault::Memory | Fault::Write)) => Err(Fault::Memory),
            Err(mishap) => self.put_mishap(sink, mishap, told),
        }
    }

    /// Puts why a script ended.
    fn put_mishap(
        &self,
        sink: &mut MemorySink,
        mishap: Mishap<'_>,
        told: &Told,
    ) -> Result<u64, Fault> {
        let before = sink.as_slice().len();
        tell_mishap(self.rt.alloc(), sink, None, 0, mishap);
        if sink.as_slice().len() == before {
            return Err(Fault::Memory);
        }
        put_all(sink, told.reason.whole()?)?;
        Ok(mishap.line())
    }

    /// Judges what a script printed by the file that says what it has to print; one that is not there is empty.
    fn judge(&self, played: Played<'_>) -> Result<Trial, Fault> {
        let alloc = self.rt.alloc();
        let name = expectation(alloc, played)?;
        match self.files.read(name.as_str()) {
            Ok(wanted) => self.compare(played, name.as_str(), &wanted),
            Err(FileFault::Absent) => self.compare(played, name.as_str(), &[]),
            Err(fault) => self.failed("cannot read ", name.as_str(), fault.reason()?),
        }
    }

    /// Compares what a script printed with that file. Where it differs, and has not to, the file may be blessed.
    fn compare(&self, played: Played<'_>, name: &str, wanted: &[u8]) -> Result<Trial, Fault> {
        let found = blessed(self.rt.alloc(), played);
        let trial = compared(self.rt.alloc(), played, name, wanted, found.whole()?)?;
        if !self.options.bless || !trial.is_failed() || played.has_to_fail() {
            return Ok(trial);
        }
        match played.unstorable(wanted) {
            Some(reason) => self.failed("", name, reason),
            None => self.bless(name, found.as_slice()),
        }
    }

    /// Writes what a script printed as what it has to print.
    fn bless(&self, name: &str, text: &[u8]) -> Result<Trial, Fault> {
        let alloc = self.rt.alloc();
        match self.files.write(name, text) {
            Ok(()) => Trial::noted(alloc, &[], Page::new(alloc)),
            Err(fault) => self.failed("cannot write ", name, fault.reason()?),
        }
    }
}

// Neither of these waits.
impl<R: AllocGlobal, D: FileStore> Tester<'_, '_, R, D> {
    /// Whether a file is what a script has to print.
    fn is_output(&self, file: &str, script: &str) -> Result<bool, Fault> {
        let output = output_name(self.rt.alloc(), script)?;
        Ok(self.files.is_same(file, output.as_str()))
    }

    /// Whether a script with `.acc` has to print the same file as one without.
    fn has_twin(&self, script: &str, names: &[String]) -> Result<bool, Fault> {
        let output = output_name(self.rt.alloc(), script)?;
        for name in names {
            if adds_suffix(name.as_str(), script)
                && self.is_output(output.as_str(), name.as_str())?
            {
                return Ok(true);
            }
        }
        Ok(false)
    }
}

/// Whether a path has no `.acc`, and is one of these scripts.
fn is_bare_script(path: &str, names: &[String]) -> bool {
    !path.ends_with(".acc") && names.iter().any(|name| name.as_str() == path)
}

/// Whether the name of a file is that of another, in whichever folder, with `.acc` behind it.
fn adds_suffix(name: &str, other: &str) -> bool {
    name.strip_suffix(".acc")
        .is_some_and(|stem| last_of(stem) == last_of(other))
}

/// The name of a file in its folder.
fn last_of(path: &str) -> &str {
    path.rsplit_once('/').map_or(path, |parts| parts.1)
}

/// Adds to what a script printed, which fails for lack of memory alone.
fn put_all(sink: &mut MemorySink, bytes: &[u8]) -> Result<(), Fault> {
    if write_all(sink, bytes) {
        Ok(())
    } else {
        Err(Fault::Memory)
    }
}

/// Writes a page, so that it is seen before the next test runs.
fn flush_page<O: Sink>(out: &mut O, page: &mut Page) -> Result<(), Fault> {
    if !write_all(out, page.whole()?) || !out.flush() {
        return Err(Fault::Write);
    }
    page.clear();
    Ok(())
}
