//! Addresses and sections of host memory, said by the names of arrays.

ghost use Rattle.std.specs.Prelude.{◌≡◌};
ghost use Rattle.acc_read.specs.Reading.{Reads};
ghost use Rattle.acc_read.specs.Places.{known_at, address_at, last_address_at, part_at, section_at, last_section_at};

use crate::arrays::{Array, Arrays};
use crate::tokens::{is_at_end, is_mark_next, mark_at, name_at, number_at};
use acc_base::{ScriptFault, Section};

/// The next word, which is the name of an array, and the text after it.
#[inline(always)]
#[tactic(auto, unfolding(crate::specs::Places::known_at))]
fn known_at<'a>(arrays: &Arrays, text: &'a [u8]) -> Result<(Array, &'a [u8]), ScriptFault>
    ensures { Reads (λ x. (x.0, x.1.now)) result (known_at arrays.now text.now) }
{
    let (name, rest) = name_at(text)?;
    let array = arrays.get(name).ok_or(ScriptFault::UnknownName)?;
    Ok((array, rest))
}

/// The host address of a byte of an array, and the text after it.
#[inline(always)]
#[tactic(auto, unfolding(crate::specs::Places::address_at, crate::specs::Places::offset_at))]
pub fn address_at<'a>(arrays: &Arrays, text: &'a [u8]) -> Result<(u64, &'a [u8]), ScriptFault>
    ensures { Reads (λ x. (x.0, x.1.now)) result (address_at arrays.now text.now) }
{
    let (array, rest) = known_at(arrays, text)?;
    let rest = mark_at(b'[', rest)?;
    let (from, rest) = number_at(u32::MAX, rest)?;
    let rest = mark_at(b']', rest)?;
    Ok((array.byte(from), rest))
}

/// A host address, up to the end of the line.
#[tactic(auto, unfolding(crate::specs::Places::last_address_at))]
pub fn last_address_at(arrays: &Arrays, text: &[u8]) -> Result<u64, ScriptFault>
    ensures { result ≡ last_address_at arrays.now text.now }
{
    let (addr, rest) = address_at(arrays, text)?;
    if !is_at_end(rest) {
        return Err(ScriptFault::Syntax);
    }
    Ok(addr)
}

/// A part of an array in brackets, and the text after it.
#[inline(always)]
#[tactic(auto, unfolding(crate::specs::Places::part_at))]
fn part_at(array: Array, text: &[u8]) -> Result<(Section, &[u8]), ScriptFault>
    ensures { Reads (λ x. (x.0, x.1.now)) result (part_at array text.now) }
{
    let rest = mark_at(b'[', text)?;
    let (from, rest) = number_at(u32::MAX, rest)?;
    let rest = mark_at(b':', rest)?;
    let (len, rest) = number_at(u32::MAX, rest)?;
    let rest = mark_at(b']', rest)?;
    Ok((array.part(from, len), rest))
}

/// A section of host memory, which is an array or a part of one, and the text after it.
#[tactic(auto, unfolding(crate::specs::Places::section_at))]
pub fn section_at<'a>(arrays: &Arrays, text: &'a [u8]) -> Result<(Section, &'a [u8]), ScriptFault>
    ensures { Reads (λ x. (x.0, x.1.now)) result (section_at arrays.now text.now) }
{
    let (array, rest) = known_at(arrays, text)?;
    if is_mark_next(b'[', rest) {
        part_at(array, rest)
    } else {
        Ok((array.whole(), rest))
    }
}

/// A section of host memory, up to the end of the line.
#[tactic(auto, unfolding(crate::specs::Places::last_section_at))]
pub fn last_section_at(arrays: &Arrays, text: &[u8]) -> Result<Section, ScriptFault>
    ensures { result ≡ last_section_at arrays.now text.now }
{
    let (section, rest) = section_at(arrays, text)?;
    if !is_at_end(rest) {
        return Err(ScriptFault::Syntax);
    }
    Ok(section)
}
