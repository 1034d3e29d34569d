//! How a range comes back into a tree of holes.
ghost use Rattle.std.specs.Prelude.{◌≡◌, ℕ, ◌+◌, ◌^◌, ◌<◌, ◌≤◌, length, IfSome};
ghost use Rattle.acc_base.specs.Holes.{IsRising, IsIn};
ghost use Rattle.acc_base.specs.Section.{Spans};
ghost use Rattle.acc_placement.specs.Listing.{size_ending, size_beginning};
ghost use Rattle.acc_placement.specs.Changes.{IsAround, IsFilled, NeedsAtMost};

use crate::tree::Tree;

/// Puts a range that is not free into the holes, merged with those that it touches. A hole that grows stays where it is
/// in the tree.
pub fn fill(holes: &mut Tree, place: u64, size: u64)
    requires rising { IsRising 0 holes.old.holes (2 ^ 41) }
    requires limit { place + size ≤ 2 ^ 41 }
    requires not_empty { 0 < size }
    requires not_free { (a : ℕ) → Spans place size a → IsIn holes.old.holes a → ⊥ }
    requires room { NeedsAtMost holes.old.holes place size (length holes.old.holes + holes.old.room) }
    ensures filled { (low high : ℕ) → IsRising low holes.old.holes high → low ≤ place → place + size ≤ high → IsFilled low high holes.old.holes holes.new.holes place size }
    ensures nodes { length holes.new.holes + holes.new.room ≡ length holes.old.holes + holes.old.room }
{
    let (front, back) = touched(holes, place, size);
    let end = place + size;
    let start = place - front;
    let size = front + size + back;
    if front == 0 {
        if back == 0 {
            holes.insert((start, size));
        } else {
            holes.grow(end, start, size);
        }
    } else if back == 0 {
        holes.grow(start, start, size);
    } else {
        holes.remove(end);
        holes.grow(start, start, size);
    }
}

/// The sizes of the holes that a range touches, which is not free: of the one that ends where it begins, and of the one
/// that begins where it ends. Each is 0 where there is none.
fn touched(holes: &Tree, place: u64, size: u64) -> (u64, u64)
    requires rising { IsRising 0 holes.now.holes (2 ^ 41) }
    requires limit { place + size ≤ 2 ^ 41 }
    requires not_empty { 0 < size }
    requires not_free { (a : ℕ) → Spans place size a → IsIn holes.now.holes a → ⊥ }
    ensures { (low high : ℕ) → IsRising low holes.now.holes high → low ≤ place → place + size ≤ high → IsAround low holes.now.holes high place size result.0 result.1 }
{
    let (before, from) = holes.around(place);
    let front = size_before(before, place);
    let back = size_from(from, place + size);
    (front, back)
}

/// The size of a hole that ends at `end`, or 0 where it ends elsewhere or there is none.
fn size_before(hole: Option<(u64, u64)>, end: u64) -> u64
    requires limit { IfSome hole (λ h. h.0 + h.1 < 2 ^ 64) }
    ensures { result ≡ size_ending hole end }
{
    match hole {
        Some((place, size)) if place + size == end => size,
        _ => 0,
    }
}

/// The size of a hole that begins at `start`, or 0 where it begins elsewhere or there is none.
fn size_from(hole: Option<(u64, u64)>, start: u64) -> u64
    ensures { result ≡ size_beginning hole start }
{
    match hole {
        Some((place, size)) if place == start => size,
        _ => 0,
    }
}
