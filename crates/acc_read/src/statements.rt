//! What a line of a script says.

ghost use Rattle.std.specs.Prelude.{◌≡◌, ◌==◌, not};
ghost use Rattle.std.specs.List.{list_all};
ghost use Rattle.acc_read.specs.Reading.{Reads};
ghost use Rattle.acc_read.specs.Statements.{array_at, question_at, short_at, statement_at, is_text_byte, hash, before_comment, line_at};
ghost use Rattle.acc_read.specs.Meanings.{Says};
ghost use Rattle.acc_read.specs.PlainLines.{is_plain_byte, text_of};

use crate::arrays::{Array, Arrays};
use crate::byte_words::ByteWord;
use crate::directives::{
    data_at, end_at, enter_at, exit_at, select_at, step_at, update_at, wait_at,
};
use crate::kernels::{ScriptKernel, kernel_at};
use crate::places::{last_address_at, last_section_at};
use crate::runs::{ByteTest, all_pass, passing_len};
use crate::tokens::{is_at_end, is_text, name_at, number_at, word_at};
use crate::troubles::Trouble;
use crate::writes::{point_at, write_at};
use acc_base::{Directive, ScriptFault, Section};
use std::alloc::Global;

/// How many bytes a line may have, with its comment.
const LINE_LIMIT: usize = 4096;

/// What a line asks for.
#[derive(Drop)]
pub enum Statement<'a> {
    /// Nothing.
    Blank,
    /// A new array.
    Declare {
        /// Its letters, digits and `_`, 1 to 32.
        name: &'a [u8],
        /// Where the array lies.
        array: Array,
    },
    /// A directive of OpenACC for the current device, with its items.
    Direct(Directive),
    /// The number of the device that later lines are for (OpenACC 3.3, the set directive).
    Select(u64),
    /// A kernel, run on the device.
    Kernel {
        /// The number of the innermost open region.
        region: u64,
        /// What the kernel does.
        kernel: ScriptKernel,
        /// The section of host memory whose bytes on the device it changes.
        section: Section,
    },
    /// A write into host memory, as the host does it.
    Write {
        /// The first host address.
        addr: u64,
        /// The bytes to write, at most 64.
        bytes: ByteWord<'a>,
    },
    /// A write of a host address into a pointer, as eight bytes, the lowest first.
    Point {
        /// The host address of the pointer.
        addr: u64,
        /// The host address that the pointer has then.
        target: u64,
    },
    /// The bytes of a section of host memory.
    Show(Section),
    /// The bytes that the device has of a section.
    Peek(Section),
    /// Whether a section is present.
    Present(Section),
    /// The device address of a host address.
    Address(u64),
    /// Whether a section is present on the current device.
    Report,
}

/// What a line asks for. `device` is the number of the current device, and `innermost` that of the innermost open
/// region, if one is open.
///
/// # Errors
///
/// The first fault of the line; lack of memory where it has none, and its items found no memory.
#[tactic(auto, unfolding(crate::specs::Statements::line_at))]
pub fn line_at<'a>(
    alloc: Global,
    arrays: &Arrays,
    device: u64,
    innermost: Option<u64>,
    line: &'a [u8],
) -> Result<Statement<'a>, Trouble>
    ensures { Says result (line_at arrays.now device innermost line.now) }
{
    if line.len() > LINE_LIMIT {
        return Err(Trouble::Line(ScriptFault::TooLong));
    }
    let text = text_of(line)?;
    if is_at_end(text) {
        return Ok(Statement::Blank);
    }
    statement_at(alloc, arrays, device, innermost, text)
}

/// What stands before a comment, which has to be text. A line with no comment, no tab and no other byte than text is
/// looked at once.
#[tactic(auto, using(crate::proofs::PlainLines::plain_laws))]
fn text_of(line: &[u8]) -> Result<&[u8], ScriptFault>
    ensures { Reads (λ rest. rest.now) result (text_of line.now) }
{
    if all_pass::<PlainByte>(line) {
        return Ok(line);
    }
    let text = before_comment(line);
    if !has_text_bytes(text) {
        return Err(ScriptFault::NotText);
    }
    Ok(text)
}

/// A byte that is text and no tab, and begins no comment.
struct PlainByte;

impl ByteTest for PlainByte {
    ghost test = { is_plain_byte };

    fn passes(byte: u8) -> bool {
        (b' ' <= byte) & (byte <= b'~') & (byte != b'#')
    }
}

/// What stands in a line before a comment, without the blanks around it.
pub fn statement_text(line: &[u8]) -> &[u8] {
    before_comment(line).trim_ascii()
}

/// A byte that begins no comment.
struct OutsideByte;

impl ByteTest for OutsideByte {
    ghost test = { λ b. not (b == hash) };

    fn passes(byte: u8) -> bool {
        byte != b'#'
    }
}

/// What stands before a comment.
pub fn before_comment(line: &[u8]) -> &[u8]
    ensures { result.now ≡ before_comment line.now }
{
    let (text, _) = line.split_at(passing_len::<OutsideByte>(line));
    text
}

/// The byte may stand before a comment: a tab, or from a blank to `~`.
pub fn is_text_byte(b: u8) -> bool
    ensures { result ≡ is_text_byte b }
{
    b == b'\t' || (b' ' <= b && b <= b'~')
}

fn has_text_bytes(bytes: &[u8]) -> bool
    ensures { result ≡ list_all is_text_byte bytes.now }
{
    bytes.iter().all(|b| is_text_byte(*b))
}

/// A statement, by its first word, of the current device.
#[tactic(auto, unfolding(crate::specs::Statements::statement_at))]
fn statement_at<'a>(
    alloc: Global,
    arrays: &Arrays,
    device: u64,
    innermost: Option<u64>,
    text: &'a [u8],
) -> Result<Statement<'a>, Trouble>
    ensures { Says result (statement_at arrays.now device innermost text.now) }
{
    let (word, rest) = word_at(text)?;
    if is_text(word, "data") {
        data_at(alloc, arrays, device, rest)
    } else if is_text(word, "enter") {
        enter_at(alloc, arrays, device, rest)
    } else if is_text(word, "exit") {
        exit_at(alloc, arrays, device, rest)
    } else if is_text(word, "update") {
        update_at(alloc, arrays, device, rest)
    } else if is_text(word, "write") {
        write_at(arrays, rest)
    } else if is_text(word, "point") {
        point_at(arrays, rest)
    } else {
        short_at(word, arrays, device, innermost, rest)
    }
}

/// The statement that begins with this word, which takes no memory.
#[tactic(auto, unfolding(crate::specs::Statements::short_at))]
fn short_at<'a>(
    word: &[u8],
    arrays: &Arrays,
    device: u64,
    innermost: Option<u64>,
    text: &'a [u8],
) -> Result<Statement<'a>, Trouble>
    ensures { Says result (short_at word.now arrays.now device innermost text.now) }
{
    if is_text(word, "array") {
        array_at(arrays, text)
    } else if is_text(word, "end") {
        end_at(innermost, text)
    } else if is_text(word, "wait") {
        wait_at(device, text)
    } else if is_text(word, "step") {
        step_at(device, text)
    } else if is_text(word, "set") {
        select_at(text)
    } else if is_text(word, "kernel") {
        kernel_at(arrays, innermost, text)
    } else {
        question_at(word, arrays, text)
    }
}

/// The statement that begins with this word: `show`, `peek`, `present`, `address` or `report`.
#[tactic(auto, unfolding(crate::specs::Statements::question_at))]
fn question_at(word: &[u8], arrays: &Arrays, text: &[u8]) -> Result<Statement<'static>, Trouble>
    ensures { Says result (question_at word.now arrays.now text.now) }
{
    if is_text(word, "show") {
        Ok(Statement::Show(last_section_at(arrays, text)?))
    } else if is_text(word, "peek") {
        Ok(Statement::Peek(last_section_at(arrays, text)?))
    } else if is_text(word, "present") {
        Ok(Statement::Present(last_section_at(arrays, text)?))
    } else if is_text(word, "address") {
        Ok(Statement::Address(last_address_at(arrays, text)?))
    } else if is_text(word, "report") && is_at_end(text) {
        Ok(Statement::Report)
    } else {
        Err(Trouble::Line(ScriptFault::Syntax))
    }
}

/// The name and the length of a new array, up to the end of the line.
#[tactic(auto, unfolding(crate::specs::Statements::array_at, crate::specs::Statements::length_at))]
fn array_at<'a>(arrays: &Arrays, text: &'a [u8]) -> Result<Statement<'a>, Trouble>
    ensures { Says result (array_at arrays.now text.now) }
{
    let (name, rest) = name_at(text)?;
    if arrays.get(name).is_some() {
        return Err(Trouble::Line(ScriptFault::NameTaken));
    }
    let (len, rest) = number_at(u32::MAX, rest)?;
    if len == 0 {
        return Err(Trouble::Line(ScriptFault::Number));
    }
    if !is_at_end(rest) {
        return Err(Trouble::Line(ScriptFault::Syntax));
    }
    let array = arrays.next_array(len).ok_or(ScriptFault::HostFull)?;
    Ok(Statement::Declare { name, array })
}
