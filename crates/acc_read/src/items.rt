//! The items of a clause.

ghost use Rattle.acc_read.specs.Items.{aim_at, one_item_at};
ghost use Rattle.acc_read.specs.Reading.{Reads};

use crate::arrays::Arrays;
use crate::places::{address_at, section_at};
use crate::tokens::{is_word_next, keyword_at};
use acc_base::{Item, ScriptFault, Section};

/// What a clause lists.
#[derive(Clone, Copy)]
pub enum ItemKind {
    /// Sections alone, as in `update`.
    Sections,
    /// Sections, each with the pointer to it where one is named.
    Items,
    /// Pointers alone, as in `attach` and `detach`.
    Pointers,
}

/// The pointer to a section, where the word `via` stands next, and the text after it.
#[inline(always)]
#[tactic(auto, unfolding(crate::specs::Items::aim_at, crate::specs::Items::via_at))]
fn aim_at<'a>(arrays: &Arrays, text: &'a [u8]) -> Result<(Option<u64>, &'a [u8]), ScriptFault>
    ensures { Reads (λ x. (x.0, x.1.now)) result (aim_at arrays.now text.now) }
{
    if !is_word_next("via", text) {
        return Ok((None, text));
    }
    let rest = keyword_at("via", text)?;
    let (pointer, rest) = address_at(arrays, rest)?;
    Ok((Some(pointer), rest))
}

/// The next item of a clause that lists such, and the text after it.
#[tactic(auto, unfolding(crate::specs::Items::one_item_at))]
pub fn one_item_at<'a, C: Copy>(
    kind: ItemKind,
    clause: C,
    arrays: &Arrays,
    text: &'a [u8],
) -> Result<(Item<C>, &'a [u8]), ScriptFault>
    ensures { Reads (λ x. (x.0, x.1.now)) result (one_item_at kind clause arrays.now text.now) }
{
    let (section, rest) = match kind {
        ItemKind::Sections | ItemKind::Items => section_at(arrays, text)?,
        ItemKind::Pointers => {
            let (start, rest) = address_at(arrays, text)?;
            (Section { start, len: 8 }, rest)
        }
    };
    let (pointer, rest) = match kind {
        ItemKind::Items => aim_at(arrays, rest)?,
        ItemKind::Sections | ItemKind::Pointers => (None, rest),
    };
    let item = Item {
        clause,
        section,
        pointer,
    };
    Ok((item, rest))
}
