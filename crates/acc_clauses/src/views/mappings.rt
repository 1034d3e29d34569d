//! Where sections lie among the mapped ranges, and what those count.

ghost use Rattle.std.specs.Prelude.{◌≡◌, ◌^◌, ◌<◌, ◌≤◌, Some, IfSome};
ghost use Rattle.acc_base.specs.Ranges.{where_is, where_is_apart, range_from, range_of, structured_of, dynamic_of, start_of};
ghost use Rattle.acc_present.specs.Present.{IsToldBy};

use crate::views::View;
use acc_base::{Counters, Found, Range, Section};
use acc_present::{Located, Place};

impl View<'_> {
    /// Where a section lies among the mapped ranges.
    pub fn find(&self, section: Section) -> Found
        ensures { result ≡ where_is section self.now.state.records.ranges }
    {
        self.environment.present.find(section)
    }

    /// Where a section lies once the mappings to these blocks have ended, and a mapped range that says so, if one does.
    /// The last one that begins at or before the section is looked for first at a place.
    #[inline(always)]
    pub(crate) fn find_apart(&self, section: Section, blocks: &[u64], near: Place) -> Located
        ensures found { result.found ≡ where_is_apart section blocks.now self.now.state.records.ranges }
        ensures range { IfSome result.range (λ range. range_of range.block self.now.state.records.ranges ≡ Some range) }
        ensures block { IsToldBy result.found result.range }
    {
        self.environment
            .present
            .find_range_apart(section, blocks, near)
    }

    /// The mapped range of least start at or above a host address, and where it stands. A place is looked at first.
    #[inline]
    pub fn next_range(&self, from: u64, near: Place) -> (Option<Range>, Place)
        ensures { result.0 ≡ range_from from self.now.state.records.ranges }
    {
        self.environment.present.next_range(from, near)
    }

    /// The range that is mapped to a block, if one is, and where it stands. It is not searched for where it stands at the
    /// place. Where none is mapped, the place is of no meaning.
    #[inline(always)]
    pub(crate) fn range_near(&self, block: u64, near: Place) -> (Option<Range>, Place)
        ensures { result.0 ≡ range_of block self.now.state.records.ranges }
    {
        self.environment.present.range_near(block, near)
    }

    /// The range that is mapped to a block, if one is. It is not searched for where it is the one that is known.
    fn range_known(&self, block: u64, known: Option<Range>) -> Option<Range>
        requires { IfSome known (λ range. range_of range.block self.now.state.records.ranges ≡ Some range) }
        ensures { result ≡ range_of block self.now.state.records.ranges }
    {
        match known {
            Some(range) if range.block == block => Some(range),
            Some(_) | None => self.environment.present.range(block),
        }
    }

    /// The reference counters of the range that is mapped to a block; both are 0 where none is.
    pub fn counters(&self, block: u64) -> Counters
        ensures structured { result.structured ≡ structured_of block self.now.state.records.ranges }
        ensures dynamic { result.dynamic ≡ dynamic_of block self.now.state.records.ranges }
        ensures structured_limit { result.structured ≤ self.now.limits.counter_max }
        ensures dynamic_limit { result.dynamic ≤ self.now.limits.counter_max }
        ensures bound { self.now.limits.counter_max < 2 ^ 32 }
    {
        self.counters_known(block, None)
    }

    /// The reference counters of the range that is mapped to a block, as [`View::counters`] returns them. It is not
    /// searched for where it is the one that is known.
    #[inline(always)]
    pub(crate) fn counters_known(&self, block: u64, known: Option<Range>) -> Counters
        requires { IfSome known (λ range. range_of range.block self.now.state.records.ranges ≡ Some range) }
        ensures structured { result.structured ≡ structured_of block self.now.state.records.ranges }
        ensures dynamic { result.dynamic ≡ dynamic_of block self.now.state.records.ranges }
        ensures structured_limit { result.structured ≤ self.now.limits.counter_max }
        ensures dynamic_limit { result.dynamic ≤ self.now.limits.counter_max }
        ensures bound { self.now.limits.counter_max < 2 ^ 32 }
    {
        self.laws();
        match self.range_known(block, known) {
            Some(range) => Counters {
                structured: range.structured,
                dynamic: range.dynamic,
            },
            None => Counters {
                structured: 0,
                dynamic: 0,
            },
        }
    }

    /// The host address at which the range that is mapped to a block begins; 0 where none is.
    pub(crate) fn start(&self, block: u64) -> u64
        ensures { result ≡ start_of block self.now.state.records.ranges }
    {
        self.environment.present.start(block).unwrap_or(0)
    }
}
