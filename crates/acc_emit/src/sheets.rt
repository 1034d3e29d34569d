//! The text of the program, while it grows.

use crate::faults::{EmitFault, Reason};
use crate::folds::put_folded;
use crate::harness::IN_C;
use crate::harness_in_fortran::IN_FORTRAN;
use crate::languages::Language;
use crate::pieces::Piece;
use crate::wanted::put_literal;
use acc_base::{Fault, Section};
use acc_read::{Names, Page};
use std::alloc::Global;
use std::slice;

/// How many nested blocks are indented.
const SET_IN: u64 = 16;

/// The parts of a program, and the arrays that it names.
#[derive(Drop)]
pub struct Sheet {
    /// The language of the program.
    pub language: Language,
    /// The declarations of the arrays.
    pub head: Page,
    /// The statements.
    pub body: Page,
    /// The arrays.
    pub names: Names,
    /// The number of the line that is being emitted, counted from 1.
    pub line: u64,
    /// Why there is no program, if there is none.
    fault: Option<EmitFault>,
    /// The length of the longest section whose bytes the program handles.
    longest: u64,
    /// How many blocks are open.
    depth: u64,
}

impl Sheet {
    /// Returns a sheet without a line, for a program in a language.
    pub fn new(alloc: Global, language: Language) -> Sheet {
        Sheet {
            language,
            head: Page::new(alloc),
            body: Page::new(alloc),
            names: Names::new(alloc),
            line: 0,
            fault: None,
            longest: 16,
            depth: 0,
        }
    }

    /// Notes why there is no program, of which only [`Sheet::whole`] tells, by its first reason. So what emits a line
    /// needs no `?`.
    fn fail(&mut self, fault: EmitFault) {
        self.fault = self.fault.or(Some(fault));
    }

    /// Notes why a program cannot have this line.
    pub fn unfit(&mut self, reason: Reason) {
        let line = self.line;
        self.fail(EmitFault::Line { line, reason });
    }

    /// Notes a fault of a run into memory, which fails for lack of it alone.
    pub fn fail_run(&mut self, fault: Fault) {
        self.fail(EmitFault::Run(match fault {
            Fault::Write => Fault::Memory,
            fault => fault,
        }));
    }

    /// Notes that there was no memory for a thing, where it is not kept.
    pub fn heed(&mut self, is_kept: bool) {
        if !is_kept {
            self.fail_run(Fault::Memory);
        }
    }

    /// Whether a program can have all lines so far.
    pub fn is_fit(&self) -> bool {
        self.fault.is_none()
    }

    /// Notes that the program handles `length` bytes at a time.
    pub fn need(&mut self, length: u64) {
        self.longest = self.longest.max(length);
    }

    /// Puts a text, in which a piece stands in place of each `%`.
    pub fn put(&mut self, text: &str, pieces: &[Piece<'_>]) {
        for (nth, text) in text.split('%').enumerate() {
            // The first text has no piece before it.
            if let Some(piece) = pieces.get(nth.wrapping_sub(1)) {
                self.put_piece(*piece);
            }
            self.body.text(text);
        }
    }

    /// Puts the one of two texts that is for the language. Pieces behind its last `%` are left out.
    pub fn pick(&mut self, c: &'static str, fortran: &'static str, pieces: &[Piece<'_>]) {
        self.put(self.language.pick(c, fortran), pieces);
    }

    /// Puts the one of two texts that is for the language on a new line, indented as its block is, or as the deepest
    /// indented block.
    pub fn line(&mut self, c: &'static str, fortran: &'static str, pieces: &[Piece<'_>]) {
        self.body.text("    ");
        for _ in 0..self.depth.min(SET_IN) {
            self.body.text("    ");
        }
        self.pick(c, fortran, pieces);
    }

    /// Puts a call as a line.
    pub fn call(&mut self, text: &'static str, pieces: &[Piece<'_>]) {
        self.line("", "call ", &[]);
        self.put(text, pieces);
        self.pick(";\n", "\n", &[]);
    }

    /// Puts a question for a section, and the answer that has to come.
    pub fn ask<'a>(&mut self, question: &'a str, section: Section, answer: &'a [u8]) {
        let line = Piece::Number(self.line);
        let (question, answer) = (Piece::Text(question), Piece::Literal(answer));
        self.call(
            "%(%, %, \"%\")",
            &[question, line, Piece::Argument(section), answer],
        );
    }

    /// Puts a comment as a line.
    pub fn remark(&mut self, text: &str) {
        self.line("/* % */\n", "! %\n", &[Piece::Text(text)]);
    }

    /// Opens the block of a region's directive, or in C also one without a directive. In Fortran the directive opens it.
    pub fn open_block(&mut self) {
        if self.language == Language::C {
            self.line("{\n", "", &[]);
        }
        self.depth = self.depth.saturating_add(1);
    }

    /// Closes the innermost block, which has a directive or none.
    pub fn close_block(&mut self, has_directive: bool) {
        self.depth = self.depth.saturating_sub(1);
        if has_directive || self.language == Language::C {
            self.line("}\n", "!$acc end data\n", &[]);
        }
    }

    fn put_piece(&mut self, piece: Piece<'_>) {
        match piece {
            Piece::Text(text) => self.body.text(text),
            Piece::Bytes(bytes) => self.body.bytes(bytes),
            Piece::Literal(bytes) => put_literal(&mut self.body, self.language, bytes),
            Piece::Digits(byte) => self.body.digits(&[byte]),
            Piece::Number(number) => self.body.number(number),
            Piece::End(count) => self.body.number(self.language.end_of(count)),
            Piece::Part(section) => self.put_place(section, "[f:n]", "(f:l)"),
            Piece::Start(section) => self.put_place(section, "+", "(f:l)"),
            Piece::Argument(section) => self.put_place(section, "+, n", "(f:l)"),
            Piece::Byte(start) => self.put_place(Section { start, len: 1 }, "+", "(f)"),
            Piece::Cell(section) => self.put_place(section, "[i+]", "(i+)"),
        }
    }

    /// Puts the name of the array that has a section, and what a text says of its bytes: the place of the first one for
    /// `f`, and that added to an address or an index for `+`; the place of the last one for `l`; the number of them for
    /// `n`. A whole array has no such range. A program cannot have a section that lies in no one array.
    fn put_place(&mut self, section: Section, c: &'static str, fortran: &'static str) {
        let Some(spot) = self.names.within(section) else {
            self.unfit(Reason::OutsideArray);
            return;
        };
        let (first, count) = (spot.offset, section.len);
        let is_whole = spot.array.whole() == section;
        put_name(&mut self.body, spot.name);
        let text = self.language.pick(c, fortran).as_bytes();
        if !is_whole || !text.contains(&b':') {
            for letter in text {
                put_letter(&mut self.body, *letter, first, count);
            }
        }
    }

    /// Returns the whole program of a script, once all lines are emitted. It begins with the name of the script, if it
    /// has one, and the comments at its front.
    ///
    /// # Errors
    ///
    /// Why there is none.
    pub fn whole(
        &self,
        alloc: Global,
        name: Option<&str>,
        script: &[u8],
    ) -> Result<Page, EmitFault> {
        if let Some(fault) = self.fault {
            return Err(fault);
        }
        let (head, body) = (self.head.whole()?, self.body.whole()?);
        let harness = match self.language {
            Language::C => IN_C,
            Language::Fortran => IN_FORTRAN,
        };
        let mut page = Page::new(alloc);
        put_title(&mut page, self.language, name, script);
        page.text(harness.head);
        page.bytes(head);
        page.text("\n#define LONGEST ");
        page.number(self.longest);
        page.text("\n");
        page.text(harness.declarations);
        page.bytes(body);
        page.text(harness.functions);
        self.folded(alloc, page)
    }

    /// Returns a program whose lines are no longer than its language allows.
    fn folded(&self, alloc: Global, page: Page) -> Result<Page, EmitFault> {
        if self.language == Language::C {
            return Ok(page);
        }
        let mut folded = Page::new(alloc);
        put_folded(&mut folded, page.whole()?);
        Ok(folded)
    }
}

/// Puts a letter of what a program says of some bytes of an array ([`Sheet::put_place`]).
fn put_letter(page: &mut Page, letter: u8, first: u64, count: u64) {
    match letter {
        b'f' => page.number(first),
        b'l' => page.number(first.saturating_add(count).saturating_sub(1)),
        b'n' => page.number(count),
        b'+' if first == 0 => {}
        b'+' => {
            page.text(" + ");
            page.number(first);
        }
        _ => page.bytes(&[letter]),
    }
}

fn put_title(page: &mut Page, language: Language, name: Option<&str>, script: &[u8]) {
    if let Some(name) = name {
        put_remark(page, language, name.as_bytes());
    }
    for line in script.split(|byte| *byte == b'\n') {
        let Some(comment) = line.strip_prefix(b"#".as_slice()) else {
            return;
        };
        put_remark(page, language, comment.trim_ascii());
    }
}

/// Puts a comment, with a question mark for each control character but the tab. A blank stands in what would begin or
/// end one of C within it, which the preprocessor of Fortran knows too. No line of Fortran ends with what would join it
/// to the next.
fn put_remark(page: &mut Page, language: Language, text: &[u8]) {
    page.text(language.pick("/* ", "! "));
    let mut last = b' ';
    for byte in text {
        if matches!((last, *byte), (b'*', b'/') | (b'/', b'*')) {
            page.text(" ");
        }
        let is_hidden = byte.is_ascii_control() && *byte != b'\t';
        page.bytes(slice::from_ref(if is_hidden { &b'?' } else { byte }));
        last = *byte;
    }
    let end = if last == b'\\' { " !\n" } else { "\n" };
    page.text(language.pick(" */\n", end));
}

/// Puts the name of an array: with `_` behind it, so that it is no keyword and no name of the harness.
pub fn put_name(page: &mut Page, name: &[u8]) {
    page.bytes(name);
    page.text("_");
}
