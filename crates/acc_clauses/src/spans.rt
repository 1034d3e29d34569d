//! The addresses that births take.

ghost use Rattle.std.specs.Prelude.{ℕ, List, ◌+◌, ◌<◌, ◌≤◌, ◌++◌, ◌∷◌, [], length, IfSome};
ghost use Rattle.acc_clauses.specs.Spans.{AreSpans, IsJoined};

use crate::slates::Slate;
use acc_base::MEMORY_MAX;
use acc_placement::rounded;

/// A span and a birth right behind it as one span, each a place and a length. `None` where the birth lies elsewhere, or
/// both are longer than a block may be.
fn joined(span: (u64, u64), birth: (u64, u64)) -> Option<(u64, u64)>
    ensures { IfSome result (IsJoined span birth) }
{
    // So rounding cannot overflow.
    if span.1 > MEMORY_MAX {
        return None;
    }
    let size = rounded(span.1);
    let len = size.checked_add(birth.1)?;
    if len > MEMORY_MAX || birth.0.checked_sub(size) != Some(span.0) {
        return None;
    }
    Some((span.0, len))
}

/// One more birth takes addresses. Mostly it lies right behind the one before it, so that there are few spans to look
/// at for the place of the next.
pub(crate) fn add_birth(spans: &mut Slate<(u64, u64)>, birth: (u64, u64))
    requires few { length spans.old < 64 }
    ensures spans { (births : List (ℕ × ℕ)) → AreSpans births spans.old → AreSpans (births ++ birth ∷ []) spans.new }
    ensures few { length spans.new ≤ length spans.old + 1 }
{
    if let Some(last) = spans.pop() {
        if let Some(both) = joined(last, birth) {
            spans.push(both);
            return;
        }
        spans.push(last);
    }
    spans.push(birth);
}
