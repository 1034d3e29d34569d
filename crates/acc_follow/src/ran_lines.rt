//! A line of a script that ran, and what there is to tell of it.

use acc_base::{Fault, ScriptFault};
use acc_check::Check;
use acc_explain::{explain_fault, explain_refusal, explain_unclosed, is_pragma, warn_of_pragma};
use acc_picture::{Caption, put_picture};
use acc_read::{Names, Page, line_at, statement_text};
use acc_script::{Effect, MemorySink, Session, write_effect};
use std::alloc::Global;

/// A line of a script that ran, or is at fault, and the session that it left.
#[derive(Clone, Copy)]
pub struct RanLine<'a> {
    /// The number of the line, from 1 on.
    pub number: u64,
    /// Its text, with a comment.
    pub line: &'a [u8],
    /// What it left.
    pub session: &'a Session,
}

impl<'a> RanLine<'a> {
    /// Its statement, which is empty where there is none.
    pub fn statement(self) -> &'a [u8] {
        statement_text(self.line)
    }

    /// Explains the line where it was refused, or is a comment and looks like a directive of C. `file` is that of the
    /// script; `None` for standard input. A refused line is read once more: it changed nothing.
    pub fn explain(
        self,
        page: &mut Page,
        alloc: Global,
        names: &Names,
        file: Option<&str>,
        effect: Effect,
    ) {
        if is_pragma(self.line) {
            warn_of_pragma(page, file, self.number, self.line);
        }
        let Effect::Refused(fault) = effect else {
            return;
        };
        let session = self.session;
        let (device, innermost) = (session.device, session.innermost());
        if let Ok(statement) = line_at(alloc, &session.arrays, device, innermost, self.line) {
            explain_refusal(
                page,
                &session.table,
                names,
                file,
                self.number,
                &statement,
                fault,
            );
        }
    }

    /// Explains why the line ends the script, where `entries` are the lines of the open data regions. Where there is no
    /// memory, the reason is cut short.
    pub fn explain_fault(self, page: &mut Page, alloc: Global, entries: &[u64], kind: ScriptFault) {
        if kind == ScriptFault::Unclosed {
            explain_unclosed(page, entries);
        } else {
            let arrays = &self.session.arrays;
            let _ = explain_fault(page, alloc, arrays, self.number, self.line, kind);
        }
    }

    /// Puts what a line of this effect prints; false where there was no memory for some of it.
    pub fn print(self, printed: &mut MemorySink, effect: Effect) -> bool {
        write_effect(printed, self.number, &self.session.table, effect)
    }

    /// What stands above the picture of what the line left.
    pub fn caption(self) -> Caption<'a> {
        Caption::Line {
            number: self.number,
            text: self.statement(),
        }
    }

    /// Puts the picture that the line left; false where there was no memory for some of it.
    pub fn draw(
        self,
        page: &mut Page,
        alloc: Global,
        names: &Names,
        check: Option<&Check>,
    ) -> bool {
        draw_session(page, alloc, self.session, names, check, self.caption()).is_ok()
    }
}

/// Puts the picture of a session's memories, with what a check knows of bytes.
///
/// # Errors
///
/// [`Fault::Memory`] where there was none for some of it.
pub fn draw_session(
    page: &mut Page,
    alloc: Global,
    session: &Session,
    names: &Names,
    check: Option<&Check>,
    caption: Caption<'_>,
) -> Result<(), Fault> {
    let known = check.map(Check::known);
    put_picture(page, alloc, &session.table, names, known, caption)?;
    page.whole()?;
    Ok(())
}
