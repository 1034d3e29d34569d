//! Emits a script: what watches its run emits each line, and lets the twin do it.

use crate::answers::{emit_bytes, emit_present, emit_report, put_comment};
use crate::doing::emit_directive;
use crate::emitters::Emitter;
use crate::faults::{EmitFault, Reason};
use crate::languages::Language;
use crate::pieces::Piece;
use crate::pointers::pointer_section;
use crate::refusals::emit_refused;
use crate::sheets::Sheet;
use crate::twins::{DEVICE, follow_on_twin, open_twin};
use crate::writes::{declare, emit_kernel, emit_point, emit_write};
use acc_base::{Config, Fault, Section};
use acc_read::{Page, Statement, line_at, statement_text};
use acc_script::{Effect, InOnePart, MemorySink, Session, Status, Watcher, run_text};
use acc_table::Table;
use std::alloc::Global;

/// What a program is made of.
#[derive(Clone, Copy)]
pub struct Origin<'a> {
    /// The language of the program.
    pub language: Language,
    /// The name of the script, if it has one.
    pub name: Option<&'a str>,
    /// The script.
    pub script: &'a [u8],
    /// The output that it has to have; `None` for that which the table gives.
    pub output: Option<&'a [u8]>,
    /// Whether the program ends with the first directive that is refused, and has to fail there.
    pub until_refusal: bool,
}

/// Returns a script as a program with OpenACC 3.3 directives, which prints what the script prints and compares it. Its
/// tables have these limits. The program begins with the name of the script and its first comments. The script runs to
/// its end, also where the program ends before, and what it prints is kept till then.
///
/// # Errors
///
/// [`EmitFault::Run`] for a fault of the script or lack of memory; [`EmitFault::Line`] at the first line that a program
/// cannot have, or for which the output has no line.
pub fn emit(alloc: Global, config: Config, origin: Origin<'_>) -> Result<Page, EmitFault> {
    let mut emitter = Emitter::new(alloc, config, origin)?;
    open_twin(&mut emitter);
    let script = origin.script;
    let mut printed = MemorySink::new(alloc);
    let ending = run_text(
        alloc,
        &InOnePart,
        config,
        script,
        &mut printed,
        &mut emitter,
    );
    emitter.finish(ending);
    emitter.sheet.whole(alloc, origin.name, script)
}

impl Emitter<'_> {
    /// Whether the program has ended, or a line before it has none.
    fn is_done(&self) -> bool {
        self.is_over || !self.sheet.is_fit()
    }

    /// Emits a line that the script's own table did or refused, and the twin has yet to do. It is read once more, as the
    /// twin has it.
    fn emit_line(&mut self, line: &[u8], own: &Table, effect: Effect, printed: &[u8]) {
        let twin = &self.twin;
        let innermost = twin.innermost();
        match line_at(self.alloc, &twin.arrays, twin.device, innermost, line) {
            Ok(statement) => {
                put_statement(&mut self.sheet, line);
                emit_effect(self, own, &statement, effect, printed);
            }
            // It has no fault, since the script's own session has read it.
            Err(_) => self.sheet.fail_run(Fault::Memory),
        }
    }

    /// Notes where a program cannot have the end of a script.
    fn finish(&mut self, ending: Result<Status, Fault>) {
        if self.is_done() {
            return;
        }
        self.sheet.line = self.sheet.line.saturating_add(1);
        match ending {
            Err(fault) => self.sheet.fail_run(fault),
            Ok(_) if self.origin.until_refusal => self.sheet.unfit(Reason::NothingRefused),
            Ok(_) if self.wanted.goes_on() => self.sheet.unfit(Reason::OutputGoesOn),
            Ok(_) => {}
        }
    }
}

impl Watcher<MemorySink> for Emitter<'_> {
    /// Emits a line, and lets the twin do it. With a line that is refused the program ends.
    fn after(
        &mut self,
        number: u64,
        line: &[u8],
        session: &Session,
        effect: Effect,
        writer: &mut MemorySink,
    ) {
        if self.is_done() {
            return;
        }
        self.sheet.line = number;
        let all = writer.as_slice();
        let (_, printed) = all.split_at(self.printed.min(all.len()));
        self.emit_line(line, &session.table, effect, printed);
        self.printed = all.len();
        if effect.is_refused() {
            self.is_over = true;
        } else {
            follow_on_twin(self, line);
        }
    }
}

/// Puts a statement as a comment, with the number of its line.
fn put_statement(sheet: &mut Sheet, line: &[u8]) {
    let text = statement_text(line);
    if !text.is_empty() {
        let pieces = [Piece::Number(sheet.line), Piece::Bytes(text)];
        sheet.line("/* %: % */\n", "! %: %\n", &pieces);
    }
}

/// Emits a statement, and what it printed.
fn emit_effect(
    emitter: &mut Emitter<'_>,
    own: &Table,
    statement: &Statement<'_>,
    effect: Effect,
    printed: &[u8],
) {
    if !emitter.wanted.pass(printed) {
        emitter.sheet.unfit(Reason::OutputEnds);
    }
    match effect {
        Effect::Refused(fault) => emit_refused(emitter, own, statement, fault),
        _ => emit_statement(emitter, own, statement, printed),
    }
}

/// Emits a statement that was done, and what it printed.
fn emit_statement(
    emitter: &mut Emitter<'_>,
    own: &Table,
    statement: &Statement<'_>,
    printed: &[u8],
) {
    match statement {
        Statement::Blank => {}
        Statement::Declare { name, array } => {
            declare(emitter.alloc, &mut emitter.sheet, name, *array);
        }
        Statement::Direct(directive) => emit_directive(emitter, own, directive),
        Statement::Select(device) if *device == DEVICE => {}
        Statement::Select(_) => emitter.sheet.unfit(Reason::OtherDevice),
        Statement::Kernel {
            kernel,
            section,
            ..
        } => emit_kernel(emitter, own, *kernel, *section),
        Statement::Write { addr, bytes } => {
            let (start, len) = (*addr, bytes.len() as u64);
            emit_write(emitter, own, Section { start, len });
        }
        Statement::Point { addr, .. } => emit_point(emitter, own, pointer_section(*addr)),
        Statement::Show(section) | Statement::Peek(section) | Statement::Present(section)
            if section.len == 0 => {
            emitter.sheet.remark("an empty section: nothing to compare");
        }
        Statement::Show(section) => emit_bytes(emitter, own, *section, false),
        Statement::Peek(section) => emit_bytes(emitter, own, *section, true),
        Statement::Present(section) => emit_present(emitter, own, *section),
        Statement::Address(_) => put_comment(&mut emitter.sheet, printed),
        Statement::Report => emit_report(emitter, own, printed),
    }
}
