//! One mapped range: what is kept of it, and what it says of a section.

ghost use Rattle.std.specs.Prelude.{◌≡◌, List, ◌∷◌, IfSome, IfNone, ◌<◌, ◌≤◌, ◌==◌, nat_le};
ghost use Rattle.std.specs.Bool.{OnTrue};
ghost use Rattle.std.specs.List.{list_any};
ghost use Rattle.acc_base.specs.Section.{is_within, end_of};
ghost use Rattle.acc_base.specs.Ranges.{where_is_apart};
ghost use Rattle.acc_ordered.specs.Listing.{keyed};
ghost use Rattle.acc_present.specs.Present.{AreMapped, IsToldBy};
ghost use Rattle.acc_present.specs.Kept.{range_in, mapping_of};

use acc_base::{Found, Range, Section};
use acc_ordered::Telling;

/// Each address of the first section is one of the second's, where the first is not empty.
#[inline]
pub fn within(section: Section, other: Section) -> bool
    ensures test { result ≡ is_within section other }
    ensures starts { OnTrue result (other.start ≤ section.start) }
{
    other.start <= section.start
        && u128::from(section.start) + u128::from(section.len)
            <= u128::from(other.start) + u128::from(other.len)
}

/// The first section ends before the second begins.
#[inline]
pub fn ends_before(section: Section, other: Section) -> bool
    ensures { result ≡ nat_le (end_of section) other.start }
{
    u128::from(section.start) + u128::from(section.len) <= u128::from(other.start)
}

/// The block is one of those listed.
#[inline]
pub fn is_listed(blocks: &[u64], block: u64) -> bool
    ensures { result ≡ list_any (λ b. b == block) blocks.now }
{
    blocks.iter().any(|b| *b == block)
}

/// Where a section lies among some ranges without those of the listed blocks, as far as the first range says. `None`
/// where it lies as among the others.
#[inline]
pub fn told_by(first: Range, section: Section, blocks: &[u64]) -> Option<Found>
    requires some { 0 < section.len }
    requires mapped { 0 < first.section.len }
    ensures told { IfSome result (λ found. (others : List Range) → AreMapped (first ∷ others) → where_is_apart section blocks.now (first ∷ others) ≡ found) }
    ensures block { IfSome result (λ found. IsToldBy found (Some first)) }
    ensures silent { IfNone result ((others : List Range) → where_is_apart section blocks.now (first ∷ others) ≡ where_is_apart section blocks.now others) }
{
    if ends_before(section, first.section) {
        return Some(Found::Absent);
    }
    if ends_before(first.section, section) {
        return None;
    }
    if is_listed(blocks, first.block) {
        return None;
    }
    if within(section, first.section) {
        return Some(Found::Inside {
            block: first.block,
            offset: section.start - first.section.start,
        });
    }
    Some(Found::Partly)
}

/// A mapped range without its start, under which it is kept. So it takes 32 bytes.
#[derive(Clone, Copy)]
pub struct Mapping {
    /// How many bytes the range has.
    pub len: u64,
    /// The number of the block that it is mapped to.
    pub block: u64,
    /// Its structured counter.
    pub structured: u64,
    /// Its dynamic counter.
    pub dynamic: u64,
}

impl Mapping {
    /// What is kept of a range under its start.
    #[inline(always)]
    pub fn of(range: Range) -> Mapping
        ensures { result ≡ mapping_of range }
    {
        Mapping {
            len: range.section.len,
            block: range.block,
            structured: range.structured,
            dynamic: range.dynamic,
        }
    }

    /// The range that is kept under a start.
    #[inline(always)]
    pub fn with_start(self, start: u64) -> Range
        ensures { result ≡ range_in (keyed start self) }
    {
        Range {
            section: Section {
                start,
                len: self.len,
            },
            block: self.block,
            structured: self.structured,
            dynamic: self.dynamic,
        }
    }
}

/// Tells each range as a [`Range`].
#[derive(Clone, Copy)]
pub struct AsRange;

impl Telling<u64, Mapping, Range> for AsRange {
    ghost use Rattle.acc_ordered.specs.Listing.{keyed};
    ghost use Rattle.acc_present.specs.Kept.{range_in};

    ghost told = { λ telling start mapping. range_in (keyed start mapping) };

    #[inline]
    fn tell(&self, start: u64, mapping: Mapping) -> Range {
        mapping.with_start(start)
    }
}
