//! The clauses and options of a directive.

ghost use Rattle.std.specs.Prelude.{MatchResult, IsOk, ◌≡◌};
ghost use Rattle.acc_read.specs.Reading.{MatchTrouble, Reads, ReadsBehind};
ghost use Rattle.acc_read.specs.Clauses.{item_at, items_at, modified_at, group_at, ClausesRead, queued, clause_at, all_clauses_at, with_clause, clauses_at};
ghost use Rattle.acc_read.specs.Meanings.{IsKept, IsRead, clauses_read};

use crate::arrays::Arrays;
use crate::grammar::ScriptClause;
use crate::items::{ItemKind, one_item_at};
use crate::kept::KeptItems;
use crate::queues::async_queue_at;
use crate::tokens::{is_at_end, is_mark_next, is_word_before, mark_at, skip_comma, word_at};
use crate::troubles::Trouble;
use acc_base::{Item, List as Items, ScriptFault};
use std::alloc::Global;

/// What the clauses and options of a directive say.
#[derive(Drop)]
pub struct Clauses<C> {
    /// The items, in written order.
    pub items: Items<Item<C>>,
    /// Whether the directive's option stands among them: `finalize` or `if_present`.
    pub has_option: bool,
    /// The queue of `async`, if it stands among them (OpenACC 3.3, section 2.16).
    pub queue: Option<u64>,
}

/// The clauses and options of a directive that were read so far.
#[derive(Drop)]
struct Unfinished<C> {
    items: KeptItems<Item<C>>,
    has_option: bool,
    queue: Option<u64>,
}

/// An item, behind the items before; the text after it.
#[tactic(auto, unfolding(crate::specs::Clauses::item_at))]
fn item_at<'a, C: Copy>(
    kind: ItemKind,
    clause: C,
    arrays: &Arrays,
    items: &mut KeptItems<Item<C>>,
    text: &'a [u8],
) -> Result<&'a [u8], ScriptFault>
    ensures { ReadsBehind (λ rest. rest.now) (IsKept items.old) (IsKept items.new) result (λ before. item_at kind clause arrays.now before text.now) }
{
    let (item, rest) = one_item_at(kind, clause, arrays, text)?;
    items.push(item);
    Ok(rest)
}

/// One item or more, separated by commas, behind the items before; the text after them.
fn items_at<'a, C: Copy>(
    kind: ItemKind,
    clause: C,
    arrays: &Arrays,
    items: &mut KeptItems<Item<C>>,
    text: &'a [u8],
) -> Result<&'a [u8], ScriptFault>
    ensures { ReadsBehind (λ rest. rest.now) (IsKept items.old) (IsKept items.new) result (λ before. items_at kind clause arrays.now before text.now) }
{
    let mut rest = text;
    for _ in 0..text.len() {
        rest = item_at(kind, clause, arrays, items, rest)?;
        if !is_mark_next(b',', rest) {
            return Ok(rest);
        }
        rest = skip_comma(rest);
    }
    Err(ScriptFault::Syntax)
}

/// A clause with the modifier that stands next, if one does; the text after it. The first word is a modifier exactly
/// where a colon follows it.
#[tactic(auto, unfolding(crate::specs::Clauses::modified_at, crate::specs::Clauses::modifier_at))]
fn modified_at<C: ScriptClause>(clause: C, text: &[u8]) -> Result<(C, &[u8]), ScriptFault>
    ensures { Reads (λ x. (x.0, x.1.now)) result (modified_at C.grammar clause text.now) }
{
    if !is_word_before(b':', text) {
        return Ok((clause, text));
    }
    let (word, rest) = word_at(text)?;
    let rest = mark_at(b':', rest)?;
    let modified = clause.with_modifier(word).ok_or(ScriptFault::Syntax)?;
    Ok((modified, rest))
}

#[tactic(auto, unfolding(crate::specs::Clauses::group_at))]
fn group_at<'a, C: ScriptClause>(
    clause: C,
    arrays: &Arrays,
    items: &mut KeptItems<Item<C>>,
    text: &'a [u8],
) -> Result<&'a [u8], ScriptFault>
    ensures { ReadsBehind (λ rest. rest.now) (IsKept items.old) (IsKept items.new) result (λ before. group_at C.grammar clause arrays.now before text.now) }
{
    let inside = mark_at(b'(', text)?;
    let (modified, inside) = modified_at(clause, inside)?;
    let rest = items_at(modified.lists(), modified, arrays, items, inside)?;
    mark_at(b')', rest)
}

/// The queue of `async`, which stands once at most; the text after it.
fn queued<'a, C>(unfinished: &mut Unfinished<C>, text: &'a [u8]) -> Result<&'a [u8], ScriptFault>
    ensures { ReadsBehind (λ rest. rest.now) (IsRead unfinished.old) (IsRead unfinished.new) result (λ before. queued before text.now) }
{
    if unfinished.queue.is_some() {
        return Err(ScriptFault::Syntax);
    }
    let (queue, rest) = async_queue_at(text)?;
    unfinished.queue = Some(queue);
    Ok(rest)
}

/// A clause or an option, behind those before; the text after it.
#[tactic(auto, unfolding(crate::specs::Clauses::clause_at))]
fn clause_at<'a, C: ScriptClause>(
    arrays: &Arrays,
    unfinished: &mut Unfinished<C>,
    text: &'a [u8],
) -> Result<&'a [u8], ScriptFault>
    ensures { ReadsBehind (λ rest. rest.now) (IsRead unfinished.old) (IsRead unfinished.new) result (λ before. clause_at C.grammar arrays.now before text.now) }
{
    let (word, rest) = word_at(text)?;
    if C::is_option(word) {
        if unfinished.has_option {
            return Err(ScriptFault::Syntax);
        }
        unfinished.has_option = true;
        return Ok(rest);
    }
    if C::is_async(word) {
        return queued(unfinished, rest);
    }
    let clause = C::from_word(word).ok_or(ScriptFault::Syntax)?;
    group_at(clause, arrays, &mut unfinished.items, rest)
}

/// The clauses and options up to the end of the line, behind those before; the text after them.
fn all_clauses_at<'a, C: ScriptClause>(
    arrays: &Arrays,
    unfinished: &mut Unfinished<C>,
    text: &'a [u8],
) -> Result<&'a [u8], ScriptFault>
    ensures { ReadsBehind (λ rest. rest.now) (IsRead unfinished.old) (IsRead unfinished.new) result (λ before. all_clauses_at C.grammar arrays.now before text.now) }
{
    let mut rest = text;
    for _ in 0..text.len() {
        rest = clause_at(arrays, unfinished, rest)?;
        if is_at_end(rest) {
            return Ok(rest);
        }
        rest = skip_comma(rest);
    }
    Err(ScriptFault::Syntax)
}

/// What was read, if a clause was among it.
fn with_clause<C: Copy>(unfinished: Unfinished<C>) -> Result<Clauses<C>, Trouble>
    ensures { (before : ClausesRead C) → IsRead unfinished before → let read = with_clause before in MatchResult result
        (λ clauses. read ≡ Ok (clauses_read clauses))
        (λ trouble. MatchTrouble trouble (IsOk read) (λ fault. read ≡ Err fault)) }
{
    let items = unfinished.items.finish()?;
    if items.as_slice().is_empty() {
        return Err(Trouble::Line(ScriptFault::Syntax));
    }
    Ok(Clauses {
        items,
        has_option: unfinished.has_option,
        queue: unfinished.queue,
    })
}

/// The clauses and options up to the end of the line, at least one clause.
///
/// # Errors
///
/// The first fault of the text. Lack of memory is returned once all was read, so that a fault comes first.
#[tactic(auto, unfolding(crate::specs::Clauses::clauses_at))]
pub fn clauses_at<C: ScriptClause>(
    alloc: Global,
    arrays: &Arrays,
    text: &[u8],
) -> Result<Clauses<C>, Trouble>
    ensures { let read = clauses_at C.grammar arrays.now text.now in MatchResult result
        (λ clauses. read ≡ Ok (clauses_read clauses))
        (λ trouble. MatchTrouble trouble (IsOk read) (λ fault. read ≡ Err fault)) }
{
    let mut unfinished = Unfinished {
        items: KeptItems::new(alloc),
        has_option: false,
        queue: None,
    };
    let _ = all_clauses_at(arrays, &mut unfinished, text)?;
    with_clause(unfinished)
}
