//! Kernels, and the sections that they work on.

ghost use Rattle.std.specs.Prelude.{◌≡◌};
ghost use Rattle.acc_read.specs.Kernels.{last_number_at, named_kernel_at};
ghost use Rattle.acc_read.specs.Statements.{kernel_at};
ghost use Rattle.acc_read.specs.Meanings.{Says};

use crate::arrays::Arrays;
use crate::places::{last_section_at, section_at};
use crate::statements::Statement;
use crate::tokens::{is_text, number_at, word_at};
use crate::troubles::Trouble;
use acc_base::{ScriptFault, Section};

/// What a kernel does to each byte that the device has of a section (OpenACC 3.3, section 2.5, compute constructs).
#[derive(Clone, Copy)]
pub enum ScriptKernel {
    /// Adds a number, modulo 256.
    Add(u8),
    /// Flips the bits that are set in a number.
    Xor(u8),
    /// Writes a number plus the byte's place in the section, modulo 256.
    Number(u8),
    /// Adds the byte at the same place of a source, a section of host memory, modulo 256.
    Plus(Section),
}

/// A number up to 255 and a section, up to the end of the line.
#[tactic(auto, unfolding(crate::specs::Kernels::last_number_at))]
fn last_number_at(arrays: &Arrays, text: &[u8]) -> Result<(u8, Section), ScriptFault>
    ensures { result ≡ last_number_at arrays.now text.now }
{
    let (number, rest) = number_at(255, text)?;
    let section = last_section_at(arrays, rest)?;
    Ok((number as u8, section))
}

/// A kernel and its section, up to the end of the line, by the word of the kernel.
#[tactic(auto, unfolding(crate::specs::Kernels::named_kernel_at, crate::specs::Kernels::last_source_at))]
fn named_kernel_at(
    word: &[u8],
    arrays: &Arrays,
    text: &[u8],
) -> Result<(ScriptKernel, Section), ScriptFault>
    ensures { result ≡ named_kernel_at word.now arrays.now text.now }
{
    if is_text(word, "add") {
        let (number, section) = last_number_at(arrays, text)?;
        Ok((ScriptKernel::Add(number), section))
    } else if is_text(word, "xor") {
        let (number, section) = last_number_at(arrays, text)?;
        Ok((ScriptKernel::Xor(number), section))
    } else if is_text(word, "number") {
        let (number, section) = last_number_at(arrays, text)?;
        Ok((ScriptKernel::Number(number), section))
    } else if is_text(word, "plus") {
        let (source, rest) = section_at(arrays, text)?;
        let section = last_section_at(arrays, rest)?;
        Ok((ScriptKernel::Plus(source), section))
    } else {
        Err(ScriptFault::Syntax)
    }
}

/// A kernel in the innermost open region (OpenACC 3.3, section 2.5, compute constructs).
///
/// # Errors
///
/// `NoOpenRegion` where none is open, behind all other faults.
#[tactic(auto, unfolding(crate::specs::Statements::kernel_at, crate::specs::Kernels::last_kernel_at))]
pub fn kernel_at(
    arrays: &Arrays,
    innermost: Option<u64>,
    text: &[u8],
) -> Result<Statement<'static>, Trouble>
    ensures { Says result (kernel_at arrays.now innermost text.now) }
{
    let (word, rest) = word_at(text)?;
    let (kernel, section) = named_kernel_at(word, arrays, rest)?;
    let region = innermost.ok_or(ScriptFault::NoOpenRegion)?;
    Ok(Statement::Kernel {
        region,
        kernel,
        section,
    })
}
