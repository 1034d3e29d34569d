//! Scripts that are written as programs.

use crate::endings::{Mishap, tell_mishap};
use crate::paths::scripts_of;
use crate::programs::write_page;
use crate::runs::{Ends, Told, find_column, limits, options_for, read_file, read_whole};
use acc_base::Fault;
use acc_emit::{CHECK, EmitFault, Language, MAKEFILE, Origin, Reason, emit};
use acc_follow::Page;
use acc_script::{Sink, Source, Status, write_all};
use acc_terminal::{Options, put_place};
use acc_trials::{FileFault, FileStore, lines_of, put_texts};
use std::alloc::{AllocError, Global};
use std::sync::Wait;
use std::thread::Threads;

/// Reads the script and writes it as a program. With `--expect` that has to have the output in the file.
///
/// # Errors
///
/// A file that cannot be read; those of [`read_all`] and [`emit`]; [`Fault::Write`] where the sink fails. Before that
/// nothing is written.
pub fn emit_script<
    'a,
    R: Threads + Wait + Sync + AllocGlobal,
    S: Source,
    O: Sink,
    E: Sink,
    D: FileStore,
>(
    rt: &R,
    options: Options<'a>,
    reader: &mut S,
    ends: Ends<'_, O, E, D>,
) -> Result<Status, Mishap<'a>> {
    let Ends {
        out,
        files,
        told,
        ..
    } = ends;
    let output = match options.expect {
        Some(name) => Some(read_whole(rt.alloc(), Some(name), reader, files)?),
        None => None,
    };
    let script = read_whole(rt.alloc(), options.file, reader, files)?;
    let maker = Maker { rt, files };
    let page = maker.program_of(options, &script, output.as_deref(), told)?;
    write_page(out, &page)
}

/// The name of a file without its folders.
fn file_name(path: &str) -> &str {
    match path.rsplit_once('/') {
        Some((_, name)) => name,
        None => path,
    }
}

/// Writes scripts as programs into a folder, and beside them a Makefile and a runner. Why a script gives no program
/// is told on standard error; [`Status::Refused`] where one gives none.
///
/// # Errors
///
/// A path without a script; a folder that cannot be written; [`Mishap::Told`] where the Makefile or the runner cannot be;
/// [`Fault::Memory`].
pub fn emit_all<'a, R: Threads + Wait + Sync + AllocGlobal, O: Sink, E: Sink, D: FileStore>(
    rt: &R,
    options: Options<'a>,
    folder: &'a str,
    ends: Ends<'_, O, E, D>,
) -> Result<Status, Mishap<'a>> {
    let Ends { err, files, .. } = ends;
    let scripts = scripts_of(rt.alloc(), options.files, files)?;
    if let Err(fault) = files.make_folder(folder) {
        return Err(Mishap::Unwritten(folder, None, fault.reason()?));
    }
    let maker = Maker { rt, files };
    let mut status = Status::Clean;
    let mut programs = Vec::new(rt.alloc());
    for script in &scripts {
        let name = program_name(rt.alloc(), folder, script.as_str(), language_of(options))?;
        if programs.contains(&name) {
            tell_taken(rt.alloc(), err, script.as_str(), name.as_str());
            status = Status::Refused;
        } else if maker.make(options, script.as_str(), name.as_str(), err)? {
            programs.push(name).map_err(Fault::from)?;
        } else {
            status = Status::Refused;
        }
    }
    if maker.write_kit(folder, "Makefile", MAKEFILE, err)?
        && maker.write_kit(folder, "check", CHECK, err)?
    {
        Ok(status)
    } else {
        Err(Mishap::Told)
    }
}

/// The language of programs, which is C where none is asked for.
fn language_of(options: Options<'_>) -> Language {
    options.emit.unwrap_or(Language::C)
}

/// The name of the program of a script: `FOLDER/life.c` for `tests/life.acc`. It has `_` for each letter that make, a
/// compiler or a shell might take for another thing than a part of a name.
fn program_name(
    alloc: Global,
    folder: &str,
    script: &str,
    language: Language,
) -> Result<String, Fault> {
    let mut path = path_into(alloc, folder)?;
    let mut is_first = true;
    for letter in stem_of(script).chars() {
        let is_plain = letter.is_ascii_alphanumeric() || matches!(letter, '.' | '_' | '-');
        // No `*.c` finds a name with a dot in front, and a compiler takes one with a dash for an option.
        let is_apart = is_first && matches!(letter, '.' | '-');
        path.push(if is_plain && !is_apart { letter } else { '_' })?;
        is_first = false;
    }
    path.push_str(language.suffix())?;
    Ok(path)
}

/// The name of a script without its folders and its `.acc`, unless nothing is left then.
fn stem_of(script: &str) -> &str {
    let name = file_name(script);
    match name.strip_suffix(".acc") {
        None | Some("") => name,
        Some(stem) => stem,
    }
}

/// The path of a folder, with a slash behind it.
fn path_into(alloc: Global, folder: &str) -> Result<String, AllocError> {
    let mut path = String::from_str(alloc, folder)?;
    path.push('/')?;
    Ok(path)
}

/// Tells that another script has the program of this name.
fn tell_taken<E: Sink>(alloc: Global, err: &mut E, script: &str, name: &str) {
    let mut page = Page::new(alloc);
    let texts = ["accrun: cannot write ", name, " for ", script];
    put_texts(&mut page, &texts);
    page.text(": another script has this name\n");
    let _ = write_all(err, page.as_slice());
}

/// Whether a file was written by `--emit`: a program, or the Makefile or the runner beside programs.
fn is_emitted(text: &[u8]) -> bool {
    let first = first_line(text);
    first == first_line(MAKEFILE.as_bytes())
        || first == first_line(CHECK.as_bytes())
        || text.split(|byte| *byte == b'\n').any(|line| is_mark(line))
}

/// Whether a line stands in each program of a language alone.
fn is_mark(line: &[u8]) -> bool {
    line.starts_with(Language::C.mark().as_bytes())
        || line.starts_with(Language::Fortran.mark().as_bytes())
}

/// The first line of a text, without what ends it.
fn first_line(text: &[u8]) -> &[u8] {
    text.split(|byte| *byte == b'\n').next().unwrap_or(text)
}

/// Makes programs of scripts.
#[derive(Drop)]
struct Maker<'a, R, D> {
    /// The handle for what runs them.
    rt: &'a R,
    /// The store of files.
    files: &'a D,
}

impl<R: Threads + Wait + Sync + AllocGlobal, D: FileStore> Maker<'_, R, D> {
    /// A script as a program, with the options of its first line where it comes from a file.
    fn program_of<'x>(
        &self,
        options: Options<'x>,
        script: &[u8],
        output: Option<&[u8]>,
        told: &mut Told,
    ) -> Result<Page, Mishap<'x>> {
        let reason = &mut told.reason;
        let options = options_for(self.rt.alloc(), options, options.file, script, reason)?;
        if options.out.is_some() {
            check_requirements(self.rt.alloc(), options, script, reason)?;
        }
        let emitted = self.emitted(options, script, output);
        if let Err(Mishap::Fault(Fault::Script { .. })) = &emitted {
            find_column(self.rt, options, script, self.files, told);
        }
        emitted
    }

    fn emitted<'x>(
        &self,
        options: Options<'x>,
        script: &[u8],
        output: Option<&[u8]>,
    ) -> Result<Page, Mishap<'x>> {
        let config = limits(options)?;
        let origin = Origin {
            language: language_of(options),
            name: options.file.map(file_name),
            script,
            output,
            until_refusal: options.until_refusal,
        };
        let page = match emit(self.rt.alloc(), config, origin) {
            // Among many scripts, those that are refused are programs up to that.
            Err(
                EmitFault::Line {
                    reason: Reason::Refused,
                    ..
                },
            ) if options.out.is_some() => {
                let until_refusal = true;
                emit(
                    self.rt.alloc(),
                    config,
                    Origin {
                        until_refusal,
                        ..origin
                    },
                )
            }
            emitted => emitted,
        };
        Ok(page?)
    }

    /// Writes the program of a script to a file. Where it gives none, that is told, and no older program of it stays; then
    /// this is false.
    fn make<'x, E: Sink>(
        &self,
        options: Options<'x>,
        script: &'x str,
        name: &'x str,
        err: &mut E,
    ) -> Result<bool, Fault> {
        let mut told = Told::new(self.rt.alloc());
        let file = Some(script);
        let options = Options { file, ..options };
        match self.write_program(options, script, name, &mut told) {
            Ok(()) => return Ok(true),
            Err(Mishap::Fault(Fault::Memory)) => return Err(Fault::Memory),
            Err(mishap) => tell_mishap(self.rt.alloc(), err, Some(script), told.column, mishap),
        }
        let _ = write_all(err, told.reason.as_slice());
        if self.files.read(name).is_ok_and(|old| is_emitted(&old)) {
            self.files.remove(name);
        }
        Ok(false)
    }

    fn write_program<'x>(
        &self,
        options: Options<'x>,
        script: &'x str,
        name: &'x str,
        told: &mut Told,
    ) -> Result<(), Mishap<'x>> {
        let text = read_file(self.files, script)?;
        let page = self.program_of(options, &text, None, told)?;
        self.write(name, page.whole()?)
    }

    /// Writes a file, unless one has its name that `--emit` did not write.
    fn write<'x>(&self, name: &'x str, text: &[u8]) -> Result<(), Mishap<'x>> {
        let written = match self.files.read(name) {
            Ok(old) if !is_emitted(&old) => Err(FileFault::Because("another file has this name")),
            Ok(_) | Err(FileFault::Absent) => self.files.write(name, text),
            Err(fault) => Err(fault),
        };
        match written {
            Ok(()) => Ok(()),
            Err(fault) => Err(Mishap::Unwritten(name, None, fault.reason()?)),
        }
    }

    /// Writes the Makefile, or the runner, into a folder; false where it cannot be written, which is told.
    fn write_kit<E: Sink>(
        &self,
        folder: &str,
        name: &str,
        text: &str,
        err: &mut E,
    ) -> Result<bool, Fault> {
        let mut path = path_into(self.rt.alloc(), folder)?;
        path.push_str(name)?;
        match self.write(path.as_str(), text.as_bytes()) {
            Ok(()) => Ok(true),
            Err(Mishap::Fault(fault)) => Err(fault),
            Err(mishap) => {
                tell_mishap(self.rt.alloc(), err, None, 0, mishap);
                Ok(false)
            }
        }
    }
}

/// Refuses a script that requires what its options do not give, which a test skips, or what is unknown; the reason
/// tells that.
fn check_requirements<'x>(
    alloc: Global,
    options: Options<'_>,
    script: &[u8],
    reason: &mut Page,
) -> Result<(), Mishap<'x>> {
    let lines = lines_of(alloc, script).map_err(Fault::from)?;
    let Some(note) = options.machine().lack(&lines) else {
        return Ok(());
    };
    put_place(reason, options.file.unwrap_or(""), note.line, 0);
    reason.text(": error: cannot be emitted: '# requires: ");
    reason.text(note.text);
    reason.text("' is not met\n");
    reason.whole()?;
    Err(Mishap::Told)
}
