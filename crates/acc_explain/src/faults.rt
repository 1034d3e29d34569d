//! Why a line is at fault.

use crate::hints::{Finding, put_hint};
use crate::readers::Reader;
use crate::sources::{put_cause, put_note, put_source};
use crate::tokens::{front_of, is_mark};
use crate::wanted::put_wanted;
use acc_base::ScriptFault;
use acc_read::{Arrays, Page, before_comment, is_text_byte, is_word_byte};
use std::alloc::{AllocError, Global};

/// How many bytes of a token are shown at most.
const SHOWN: usize = 40;

/// How many bytes a line may have.
const LONGEST: usize = 4_096;

/// How many bytes of a line are counted at most. Of a longer line only a front may be given, which has more too: as
/// `ROOM` of the line reader in `acc_terminal` says, 8,192.
const COUNTED: usize = 8_000;

/// The column of what is wrong in a line at fault, in bytes from 1 on; of a place before it where there is no memory to
/// find it.
pub fn fault_column(alloc: Global, arrays: &Arrays, line: &[u8], kind: ScriptFault) -> u64 {
    let place = match kind {
        ScriptFault::TooLong => LONGEST,
        ScriptFault::Unclosed => 0,
        ScriptFault::NotText => text_len(line),
        _ => finding_of(Reader { alloc, arrays }, line, kind).place(),
    };
    (place as u64).saturating_add(1)
}

/// How many bytes stand before the first one that no line may have.
fn text_len(line: &[u8]) -> usize {
    for (nth, byte) in line.iter().enumerate() {
        if !is_text_byte(*byte) {
            return nth;
        }
    }
    line.len()
}

fn finding_of<'a>(reader: Reader<'_>, line: &'a [u8], kind: ScriptFault) -> Finding<'a> {
    let text = before_comment(line);
    let nth = reader.place(text, kind);
    Finding { text, nth, kind }
}

/// Puts why the line of a number is at fault: the line, with a mark at the first wrong place, and what stands there.
/// What could stand there follows, and what to write in its place where that is known.
///
/// # Errors
///
/// [`AllocError`] where there is no memory.
pub fn explain_fault(
    page: &mut Page,
    alloc: Global,
    arrays: &Arrays,
    number: u64,
    line: &[u8],
    kind: ScriptFault,
) -> Result<(), AllocError> {
    match kind {
        ScriptFault::TooLong => {
            put_long(page, number, line);
            Ok(())
        }
        ScriptFault::NotText => {
            put_not_text(page, number, line);
            Ok(())
        }
        _ => explain_token(page, Reader { alloc, arrays }, number, line, kind),
    }
}

fn put_long(page: &mut Page, number: u64, line: &[u8]) {
    put_note(page, number);
    let is_longer = line.len() > COUNTED;
    page.text(if is_longer {
        "it has more than "
    } else {
        "it has "
    });
    page.number(line.len().min(COUNTED) as u64);
    page.text(" bytes with its comment, and may have 4096\n");
}

fn put_not_text(page: &mut Page, number: u64, line: &[u8]) {
    let place = text_len(line);
    put_source(page, number, line, place);
    page.text("found the byte ");
    page.address(u64::from(line.get(place).copied().unwrap_or(0)));
    page.text(", and only printable ASCII, blanks and tabs may stand before a comment\n");
}

fn explain_token(
    page: &mut Page,
    reader: Reader<'_>,
    number: u64,
    line: &[u8],
    kind: ScriptFault,
) -> Result<(), AllocError> {
    let finding = finding_of(reader, line, kind);
    put_source(page, number, line, finding.place());
    let put = put_kind(page, reader, finding);
    page.text("\n");
    put_hint(page, reader, number, finding);
    put
}

fn put_found(page: &mut Page, found: &[u8]) {
    page.text("found ");
    if found.is_empty() {
        page.text("the end of the line");
        return;
    }
    page.text("'");
    page.bytes(found.get(..SHOWN).unwrap_or(found));
    page.text(if found.len() > SHOWN { "..'" } else { "'" });
    if let [byte] = found {
        if !is_word_byte(*byte) && !is_mark(*byte) {
            page.text(", which is no token");
        }
    }
}

/// Puts what is wrong. For a token it puts what was found, and where its kind is wrong, what could stand there.
fn put_kind(page: &mut Page, reader: Reader<'_>, finding: Finding<'_>) -> Result<(), AllocError> {
    if !matches!(
        finding.kind,
        ScriptFault::NoOpenRegion | ScriptFault::HostFull
    ) {
        put_found(page, finding.found());
    }
    let why = match finding.kind {
        ScriptFault::NoOpenRegion => "no data region is open here",
        ScriptFault::HostFull => "the array would end behind host memory",
        ScriptFault::Number => ", which is out of bounds",
        ScriptFault::UnknownName => ", which names no array",
        ScriptFault::NameTaken => ", which names an array already",
        _ => return put_wanted(page, reader, front_of(finding.text, finding.nth)),
    };
    page.text(why);
    Ok(())
}

/// Puts which `data` are open where the script ends, by the numbers of their lines.
pub fn explain_unclosed(page: &mut Page, lines: &[u64]) {
    put_cause(page);
    page.text("the script ends here, and no end data stands behind the data of line");
    for (nth, line) in lines.iter().enumerate() {
        page.text(if nth == 0 { " " } else { ", " });
        page.number(*line);
    }
    page.text("\n");
}
