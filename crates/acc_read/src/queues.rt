//! Numbers in parentheses: of the queues that options and statements name, and of devices.

ghost use Rattle.std.specs.Prelude.{◌≡◌};
ghost use Rattle.acc_read.specs.Reading.{Reads};
ghost use Rattle.acc_read.specs.Queues.{enclosed_number_at, async_queue_at, last_enclosed_at};

use crate::tokens::{is_at_end, is_mark_next, mark_at, number_at};
use acc_base::ScriptFault;

#[tactic(auto, unfolding(crate::specs::Queues::enclosed_number_at))]
fn enclosed_number_at(text: &[u8]) -> Result<(u64, &[u8]), ScriptFault>
    ensures { Reads (λ x. (x.0, x.1.now)) result (enclosed_number_at text.now) }
{
    let inside = mark_at(b'(', text)?;
    let (number, rest) = number_at(u32::MAX, inside)?;
    let rest = mark_at(b')', rest)?;
    Ok((u64::from(number), rest))
}

/// The queue of `async`, and the text after it (OpenACC 3.3, section 2.16): the number in parentheses where they stand
/// next, and else queue 0.
#[tactic(auto, unfolding(crate::specs::Queues::async_queue_at))]
pub fn async_queue_at(text: &[u8]) -> Result<(u64, &[u8]), ScriptFault>
    ensures { Reads (λ x. (x.0, x.1.now)) result (async_queue_at text.now) }
{
    if is_mark_next(b'(', text) {
        enclosed_number_at(text)
    } else {
        Ok((0, text))
    }
}

/// A number in parentheses, up to the end of the line.
#[tactic(auto, unfolding(crate::specs::Queues::last_enclosed_at))]
pub fn last_enclosed_at(text: &[u8]) -> Result<u64, ScriptFault>
    ensures { result ≡ last_enclosed_at text.now }
{
    let (number, rest) = enclosed_number_at(text)?;
    if !is_at_end(rest) {
        return Err(ScriptFault::Syntax);
    }
    Ok(number)
}
