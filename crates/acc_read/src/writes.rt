//! The statements that write host memory.

ghost use Rattle.acc_read.specs.Statements.{write_at, point_at};
ghost use Rattle.acc_read.specs.Meanings.{Says};

use crate::arrays::Arrays;
use crate::byte_words::{ByteWord, byte_word_at};
use crate::places::{address_at, last_address_at};
use crate::statements::Statement;
use crate::tokens::{is_at_end, keyword_at};
use crate::troubles::Trouble;
use acc_base::ScriptFault;

/// The host address and the bytes of a `write`.
#[inline(always)]
#[tactic(auto, unfolding(crate::specs::Statements::write_at))]
pub fn write_at<'a>(arrays: &Arrays, text: &'a [u8]) -> Result<Statement<'a>, Trouble>
    ensures { Says result (write_at arrays.now text.now) }
{
    let (addr, rest) = address_at(arrays, text)?;
    let (word, rest) = byte_word_at(rest)?;
    if !is_at_end(rest) {
        return Err(Trouble::Line(ScriptFault::Syntax));
    }
    let bytes = ByteWord::new(word);
    Ok(Statement::Write { addr, bytes })
}

/// The pointer of a `point`, and the host address that is written into it.
#[tactic(auto, unfolding(crate::specs::Statements::point_at))]
pub fn point_at(arrays: &Arrays, text: &[u8]) -> Result<Statement<'static>, Trouble>
    ensures { Says result (point_at arrays.now text.now) }
{
    let (addr, rest) = address_at(arrays, text)?;
    let rest = keyword_at("to", rest)?;
    let target = last_address_at(arrays, rest)?;
    Ok(Statement::Point { addr, target })
}
