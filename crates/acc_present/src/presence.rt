//! The present table as one value.

ghost use Rattle.std.specs.Prelude.{◌≡◌, [], ℕ, ◌+◌, ◌*◌, ◌^◌, ◌<◌, ◌≤◌, length, map, option_map, None, Some, IfOk, IfErr, OnOk, OnErr, IfSome, MatchOption, vec_capacity};
ghost use Rattle.acc_base.specs.declared.mappings.Found.TheVariants.{Absent};
ghost use Rattle.acc_base.specs.Ranges.{where_is, where_is_apart, range_of, range_from, with_range, without_range, changed_at};
ghost use Rattle.acc_base.specs.Register.{region_at, newest_region, holdings_at, with_region, without_region};
ghost use Rattle.acc_base.specs.Tasks.{recounted};
ghost use Rattle.acc_ordered.specs.Listing.{seen};
ghost use Rattle.acc_present.specs.Present.{IsWithinLimit, new_table, with_ranges, with_regions, HasRange, HasRegion, CanCount, IsToldBy, IsRoomKept, IsRegionRoomTaken, IsRoomMissing, IsMemoryNeeded, IsLawful, region_of};
ghost use Rattle.acc_present.specs.Kept.{range_in, IsNext};

use crate::ranges::{AsRange, Mapping, is_listed, told_by, within};
use crate::register::{OpenRegion, Register};
use acc_base::{Fault, Found, Holding, Range, Section, Steps, Task};
use acc_index::Index;
use acc_ordered::{KeyValueRef, OrderedList, Place};
use std::alloc::{AllocError, Global};
use std::marker::Model;

/// The present table of a device (OpenACC 3.3, section 2.6). It has the ranges of host memory that are mapped to blocks
/// of device memory, each with its two reference counters. And it has the register of open data regions.
///
/// Contracts see the table, and the room that was made for more beside it. A refused call leaves the table as it was.
/// Only `new` and `reserve` allocate for it, and `copy_ranges`, `copy_regions` and `clone` for their results. A clone has
/// the table, and may have no room for more.
///
/// The ranges stand in an [`OrderedList`] by rising start. The start of each block's range stands in an [`Index`] beside
/// it, and is found mostly without a search.
pub struct Present {
    counter_max: u64,
    // By start.
    ranges: OrderedList<u64, Mapping>,
    // The host address at which the range of each block begins.
    starts: Index<u64>,
    register: Register,
}

// By hand, so that a crate above does not prove the drops of its parts again.
impl Drop for Present {
    fn drop(self) {
        let Present {
            counter_max: _,
            ranges: _,
            starts: _,
            register: _,
        } = self;
    }
}

/// What a search for a section found.
#[derive(Clone, Copy)]
pub struct Located {
    /// Where the section lies.
    pub found: Found,
    /// A mapped range that says so, if one does.
    pub range: Option<Range>,
    /// Where the last range may stand that begins at or before the section. A call that changes that range, or maps the
    /// section next, looks there first.
    pub place: Place,
}

impl Model for Present {
    ghost use Rattle.std.specs.Prelude.{◌^◌, ◌<◌, min};
    ghost use Rattle.std.specs.List.{AllByRecursion};
    ghost use Rattle.acc_present.specs.Present.{PresentState, IsWithinLimit};
    ghost use Rattle.acc_present.specs.Kept.{ranges_in, start_in, IsIndexed};

    ghost Value = { PresentState };

    ghost view = { λ p. record {
      table = record { counter_max = p.counter_max; ranges = ranges_in p.ranges.entries; regions = p.register.regions };
      room = record { ranges = min p.ranges.room p.starts.room; regions = p.register.room; holdings = p.register.holdings };
      rows = p.ranges.room;
      gone = record { ranges = p.starts.gone; regions = p.register.gone };
    } };

    ghost invariant = { λ p. (p.counter_max < 2 ^ 32) × AllByRecursion (IsWithinLimit p.counter_max) (ranges_in p.ranges.entries) × IsIndexed p.ranges.entries (start_in p.starts) };
}

impl Clone for Present {
    ghost is_clone = { λ present copy. copy.table ≡ present.table };

    /// The same table, which may have no room for more.
    ///
    /// # Errors
    ///
    /// [`AllocError`] where there is no memory for it.
    fn clone(&self) -> Result<Present, AllocError> {
        Ok(Present {
            counter_max: self.counter_max,
            ranges: self.ranges.clone()?,
            starts: self.starts.clone()?,
            register: self.register.clone()?,
        })
    }
}

/// The range that was found, if one was.
#[inline]
fn range_if(found: Option<KeyValueRef<'_, u64, Mapping>>) -> Option<Range>
    ensures { result ≡ option_map range_in (seen (λ (key : ℕ). key) found.entry) }
{
    let found = found?;
    Some(found.value.with_start(found.key))
}

impl Present {
    /// A table on which nothing is mapped and no region is open. `counter_max` is the greatest value of a reference
    /// counter, below 2^32.
    pub fn new(alloc: Global, counter_max: u64) -> Present
        requires { counter_max < 2 ^ 32 }
        ensures { result.table ≡ new_table counter_max }
    {
        Present {
            counter_max,
            ranges: OrderedList::new(alloc),
            starts: Index::new(alloc),
            register: Register::new(alloc),
        }
    }

    /// What holds of every present table. Mapped ranges are not empty, rise without overlap, and have a block each of
    /// its own. No counter is above the limit, and the numbers of open regions rise.
    pub fn laws(&self)
        ensures { IsLawful self.now.table }
    {
        self.register.laws();
    }

    // ---- mapped ranges

    /// Where a section lies among the mapped ranges: it is empty, inside one of them, absent, or partly present. Any
    /// section may be asked for, one that reaches past the last `u64` too.
    pub fn find(&self, section: Section) -> Found
        ensures { result ≡ where_is section self.now.table.ranges }
    {
        self.find_counted(section, &mut Steps::new())
    }

    /// Where a section lies, as [`Present::find`] says, by at most two steps for each binary digit of the number of
    /// mapped ranges. There is one at least where ranges are mapped and the section is not empty. The ranges stand in
    /// rows of up to 64. A step is a halving of the list of rows, or the look into one row. Not counted are the starts
    /// compared in that row, and among the up to 64 rows that are left: at most fifteen each. Nor is the one that tells
    /// which end of the list is searched. At most 2^32 were counted before.
    pub fn find_counted(&self, section: Section, steps: &mut Steps) -> Found
        requires limit { steps.old ≤ 2 ^ 32 }
        ensures found { result ≡ where_is section self.now.table.ranges }
        ensures not_fewer { steps.old ≤ steps.new }
        ensures least { 0 < section.len → 0 < length self.now.table.ranges → steps.old < steps.new }
        ensures steps { (d : ℕ) → length self.now.table.ranges < 2 ^ d → steps.new ≤ steps.old + 2 * d }
    {
        self.laws();
        match self.locate(section, &[], Place::default(), steps) {
            Ok(located) => located.found,
            Err((None, _)) => Found::Absent,
            Err((Some(range), _)) => told_by(range, section, &[]).unwrap_or(Found::Absent),
        }
    }

    /// Where a section would lie if the mappings to the listed blocks had ended, and a mapped range that says so, if one
    /// does. It is that of the block in which the section lies, whose counters need no search of their own then. With it
    /// comes where the last range may stand that begins at or before the section. That range is looked for first at a
    /// place.
    #[inline(always)]
    pub fn find_range_apart(&self, section: Section, blocks: &[u64], near: Place) -> Located
        ensures found { result.found ≡ where_is_apart section blocks.now self.now.table.ranges }
        ensures range { IfSome result.range (λ range. range_of range.block self.now.table.ranges ≡ Some range) }
        ensures block { IsToldBy result.found result.range }
    {
        match self.find_within(section, blocks, near) {
            Some(located) => located,
            None => self.search_apart(section, blocks, near),
        }
    }

    /// Where a section lies, as [`Present::find_range_apart`] says, if it lies within the range that stands at a place.
    #[inline(always)]
    fn find_within(&self, section: Section, blocks: &[u64], near: Place) -> Option<Located>
        ensures found { IfSome result (λ located. located.found ≡ where_is_apart section blocks.now self.now.table.ranges) }
        ensures range { IfSome result (λ located. IfSome located.range (λ range. range_of range.block self.now.table.ranges ≡ Some range)) }
        ensures block { IfSome result (λ located. IsToldBy located.found located.range) }
    {
        self.laws();
        let range = self.range_at(near)?;
        // As `told_by` says, by fewer comparisons.
        if section.len == 0 || !within(section, range.section) || is_listed(blocks, range.block) {
            return None;
        }
        Some(Located {
            found: Found::Inside {
                block: range.block,
                offset: section.start - range.section.start,
            },
            range: Some(range),
            place: near,
        })
    }

    /// Where a section lies, as [`Present::find_range_apart`] says, by a search, which begins at a place.
    #[inline(always)]
    fn search_apart(&self, section: Section, blocks: &[u64], near: Place) -> Located
        ensures found { result.found ≡ where_is_apart section blocks.now self.now.table.ranges }
        ensures range { IfSome result.range (λ range. range_of range.block self.now.table.ranges ≡ Some range) }
        ensures block { IsToldBy result.found result.range }
    {
        self.laws();
        match self.locate(section, blocks, near, &mut Steps::new()) {
            Ok(located) => located,
            Err((None, place)) => Located {
                found: Found::Absent,
                range: None,
                place,
            },
            Err((next, place)) => {
                let (found, range) = self.find_from(section, blocks, next);
                Located {
                    found,
                    range,
                    place,
                }
            }
        }
    }

    /// Where a section lies among the ranges from one of them on, which say what all say. The search goes on from range
    /// to range as long as their blocks are listed.
    #[inline(never)]
    fn find_from(
        &self,
        section: Section,
        blocks: &[u64],
        mut next: Option<Range>,
    ) -> (Found, Option<Range>)
        requires some { 0 < section.len }
        requires next { IsNext section blocks.now self.now.table.ranges next }
        ensures found { result.0 ≡ where_is_apart section blocks.now self.now.table.ranges }
        ensures range { IfSome result.1 (λ range. range_of range.block self.now.table.ranges ≡ Some range) }
        ensures block { IsToldBy result.0 result.1 }
    {
        self.laws();
        while let Some(range) = next {
            if let Some(found) = told_by(range, section, blocks) {
                return (found, Some(range));
            }
            next = self.behind(range);
        }
        (Found::Absent, None)
    }

    /// Where a section lies among the ranges without those of the listed blocks, as far as one range says: the last that
    /// does not begin behind the section's start. With it comes that range. Else it is the first range behind it, and
    /// where the last one may stand. The last one is looked for first at a place.
    #[inline(always)]
    fn locate(
        &self,
        section: Section,
        blocks: &[u64],
        near: Place,
        steps: &mut Steps,
    ) -> Result<Located, (Option<Range>, Place)>
        requires limit { steps.old ≤ 2 ^ 32 }
        ensures found { IfOk result (λ located. located.found ≡ where_is_apart section blocks.now self.now.table.ranges) }
        ensures range { IfOk result (λ located. IfSome located.range (λ range. range_of range.block self.now.table.ranges ≡ Some range)) }
        ensures block { IfOk result (λ located. IsToldBy located.found located.range) }
        ensures next { IfErr result (λ next. IsNext section blocks.now self.now.table.ranges next.0) }
        ensures some { OnErr result (0 < section.len) }
        ensures behind { IfErr result (λ next. IfSome next.0 (λ range. section.start ≤ range.section.start)) }
        ensures not_fewer { steps.old ≤ steps.new }
        ensures least { 0 < section.len → 0 < length self.now.table.ranges → steps.old < steps.new }
        ensures steps { (d : ℕ) → length self.now.table.ranges < 2 ^ d → steps.new ≤ steps.old + 2 * d }
    {
        if section.len == 0 {
            return Ok(Located {
                found: Found::Empty,
                range: None,
                place: Place::default(),
            });
        }
        let around = self
            .ranges
            .around_counted(section.start.saturating_add(1), near, steps);
        if let Some(range) = range_if(around.before) {
            if let Some(found) = told_by(range, section, blocks) {
                return Ok(Located {
                    found,
                    range: Some(range),
                    place: around.place,
                });
            }
        }
        let next = range_if(around.from);
        Err((next, around.place))
    }

    /// The mapped range behind another.
    fn behind(&self, range: Range) -> Option<Range>
        ensures { result ≡ range_from (range.section.start + 1) self.now.table.ranges }
    {
        let ranges = &self.ranges;
        range_if(ranges.next(range.section.start.checked_add(1)?))
    }

    /// The range that is mapped to a block, if one is.
    pub fn range(&self, block: u64) -> Option<Range>
        ensures { result ≡ range_of block self.now.table.ranges }
    {
        self.find_range_of(block).0
    }

    /// The range that is mapped to a block, if one is, and where it stands.
    fn find_range_of(&self, block: u64) -> (Option<Range>, Place)
        ensures { result.0 ≡ range_of block self.now.table.ranges }
    {
        match self.starts.get(block) {
            Some(start) => {
                let (found, place) = self.ranges.look_up(*start);
                (range_if(found), place)
            }
            None => (None, Place::default()),
        }
    }

    /// The range that stands at a place, if one does.
    #[inline(always)]
    fn range_at(&self, place: Place) -> Option<Range>
        ensures { IfSome result (λ range. range_of range.block self.now.table.ranges ≡ Some range) }
    {
        range_if(self.ranges.at(place))
    }

    /// The host address at which the range begins that is mapped to a block, if one is. It is found mostly without a search.
    pub fn start(&self, block: u64) -> Option<u64>
        ensures { result ≡ option_map (λ r. r.section.start) (range_of block self.now.table.ranges) }
    {
        Some(*self.starts.get(block)?)
    }

    /// The range that is mapped to a block, if one is, as [`Present::range`] returns it, and where it stands. It is not
    /// searched for where it stands at the place. Where none is mapped, the place is of no meaning.
    #[inline(always)]
    pub fn range_near(&self, block: u64, near: Place) -> (Option<Range>, Place)
        ensures { result.0 ≡ range_of block self.now.table.ranges }
    {
        match self.range_at(near) {
            Some(range) if range.block == block => (Some(range), near),
            Some(_) | None => self.find_range_of(block),
        }
    }

    /// The mapped range of least start at or above an address, and where it stands. It is looked for first at a place and
    /// right behind it.
    #[inline]
    pub fn next_range(&self, from: u64, near: Place) -> (Option<Range>, Place)
        ensures { result.0 ≡ range_from from self.now.table.ranges }
    {
        let (found, place) = self.ranges.next_near(from, near);
        (range_if(found), place)
    }

    /// Maps the section of a range to its block. The section is absent, no range is mapped to the block, and there is
    /// room for one more. No search comes first where the place is that of the last range before the new one. It
    /// allocates nothing, and takes one from the room of ranges.
    pub fn add_reserved(&mut self, range: Range, near: Place)
        requires room { 1 ≤ self.old.room.ranges }
        requires absent { where_is range.section self.old.table.ranges ≡ Absent }
        requires new { range_of range.block self.old.table.ranges ≡ None }
        requires within { IsWithinLimit self.old.table.counter_max range }
        ensures table { self.new.table ≡ with_ranges self.old.table (with_range range self.old.table.ranges) }
        ensures room_ranges { self.old.room.ranges ≤ self.new.room.ranges + 1 }
        ensures room_regions { self.old.room.regions ≤ self.new.room.regions }
        ensures room_holdings { self.old.room.holdings ≤ self.new.room.holdings }
    {
        let start = range.section.start;
        self.ranges.insert(start, Mapping::of(range), near);
        self.starts.insert(range.block, start);
    }

    /// Ends the mapping to a block, whatever the counters of its range are. A range is mapped to it. It is not searched
    /// for where it stands at the place.
    pub fn end_mapping(&mut self, block: u64, near: Place)
        requires there { HasRange self.old.table block }
        ensures table { self.new.table ≡ with_ranges self.old.table (without_range block self.old.table.ranges) }
        ensures room { IsRoomKept self.old.room self.new.room }
    {
        // Nothing told where the block stands in the index. A look at its first place costs no search.
        let start = self.starts.take_out_near(block, 0);
        self.ranges.remove(start, near);
    }

    /// Changes the counters of the range that is mapped to a block as a task does (OpenACC 3.3, section 2.6.7). One is,
    /// and a counter that rises is below the limit. It is not searched for where it stands at the place.
    #[inline(always)]
    pub fn recount(&mut self, task: &Task, block: u64, near: Place)
        requires can { CanCount self.old.table.counter_max task.now block self.old.table.ranges }
        ensures table { self.new.table ≡ with_ranges self.old.table (changed_at block (recounted task.now) self.old.table.ranges) }
        ensures room { IsRoomKept self.old.room self.new.room }
    {
        let (found, place) = self.range_near(block, near);
        let Some(range) = found else { unreachable!() };
        let left = Mapping::of(task.recounted(range));
        self.ranges.set(range.section.start, left, place);
    }

    // ---- open data regions

    /// Opens a data region of a number that no open region has, with what the items of its entry counted, where there is
    /// room for one more. It allocates nothing, and takes at most one from the room of regions. The holdings may stand in
    /// what [`Present::spare_holdings`] returned.
    pub fn enter_reserved(&mut self, number: u64, holdings: Vec<Holding>)
        requires room { 1 ≤ self.old.room.regions }
        requires new { region_at number self.old.table.regions ≡ None }
        ensures table { self.new.table ≡ with_regions self.old.table (with_region (record { number = number; holdings = holdings.items }) self.old.table.regions) }
        ensures taken { IsRegionRoomTaken self.old.room self.new.room }
    {
        self.register.enter_reserved(number, holdings);
    }

    /// An empty list, with the room that was made for the holdings of the next region. None is left. It allocates
    /// nothing.
    pub fn spare_holdings(&mut self) -> Vec<Holding>
        ensures none { result.items ≡ [] }
        ensures capacity { vec_capacity result ≡ self.old.room.holdings }
        ensures table { self.new.table ≡ self.old.table }
        ensures room_ranges { self.old.room.ranges ≤ self.new.room.ranges }
        ensures room_regions { self.old.room.regions ≤ self.new.room.regions }
    {
        self.register.spare_holdings()
    }

    /// What an open region holds, in the written order of its items, or `None` where no region of that number is open.
    pub fn holdings(&self, number: u64) -> Option<&[Holding]>
        ensures { MatchOption result (holdings_at number self.now.table.regions ≡ None) (λ h. holdings_at number self.now.table.regions ≡ Some h.now) }
    {
        self.register.holdings(number)
    }

    /// The region of a number, which is open, is open no longer.
    pub fn leave(&mut self, number: u64)
        requires { HasRegion self.old.table number }
        ensures table { self.new.table ≡ with_regions self.old.table (without_region number self.old.table.regions) }
        ensures room { IsRoomKept self.old.room self.new.room }
    {
        self.register.leave(number);
    }

    /// How many regions are open.
    pub fn regions(&self) -> u64
        ensures { result ≡ length self.now.table.regions }
    {
        self.register.len()
    }

    /// The number of the open region that was entered last, if one is open.
    pub fn newest_region(&self) -> Option<u64>
        ensures { result ≡ newest_region self.now.table.regions }
    {
        self.register.newest()
    }

    // ---- copies

    /// The mapped ranges in a vector of their own, by rising start. The table stays as it is.
    ///
    /// It allocates for the result alone, exactly so many ranges, and goes through them once.
    ///
    /// # Errors
    ///
    /// [`Fault::Memory`] alone.
    pub fn copy_ranges(&self, alloc: Global) -> Result<Vec<Range>, Fault>
        ensures ok { IfOk result (λ ranges. ranges.items ≡ self.now.table.ranges) }
        ensures only { IfErr result (λ fault. fault ≡ Fault.Memory) }
    {
        self.ranges.copy_entries(alloc, &AsRange)
    }

    /// The open regions in a vector of their own, by rising number. Each has its number, and what each item of its
    /// entry counted, in written order. The table stays as it is.
    ///
    /// It allocates for the result alone, exactly so many regions and holdings, and goes through them once.
    ///
    /// # Errors
    ///
    /// [`Fault::Memory`] alone.
    pub fn copy_regions(&self, alloc: Global) -> Result<Vec<OpenRegion>, Fault>
        ensures ok { IfOk result (λ regions. map region_of regions.items ≡ self.now.table.regions) }
        ensures exact { IfOk result (λ regions. vec_capacity regions ≡ length self.now.table.regions) }
        ensures only { IfErr result (λ fault. fault ≡ Fault.Memory) }
    {
        self.register.copy_regions(alloc)
    }

    // ---- room

    /// Makes room for so many more ranges and so many more regions, the next of which has so many holdings. Then
    /// [`Present::add_reserved`] allocates nothing, and nor does [`Present::enter_reserved`] with these holdings in what
    /// [`Present::spare_holdings`] returns.
    ///
    /// # Errors
    ///
    /// [`Fault::Memory`] alone, only where some of that room was missing. No room has shrunk then. Places of ranges and
    /// of regions that are gone are taken for others first, where they are a quarter of all or more. So it is refused
    /// only where rows for ranges or room for holdings were missing, or where such places were fewer or not enough.
    pub fn reserve(&mut self, ranges: u64, regions: u64, holdings: u64) -> Result<(), Fault>
        ensures table { self.new.table ≡ self.old.table }
        ensures ranges { OnOk result (ranges ≤ self.new.room.ranges) }
        ensures regions { OnOk result (regions ≤ self.new.room.regions) }
        ensures holdings { OnOk result (holdings ≤ self.new.room.holdings) }
        ensures only { IfErr result (λ fault. fault ≡ Fault.Memory) }
        ensures needed { OnErr result (IsRoomMissing ranges regions holdings self.old.room) }
        ensures cleared { OnErr result (IsMemoryNeeded ranges regions holdings self.old) }
        ensures room { IsRoomKept self.old.room self.new.room }
    {
        self.starts.laws();
        self.ranges.reserve(ranges)?;
        self.starts.reserve(ranges as usize)?;
        self.register.reserve(regions as usize, holdings as usize)?;
        Ok(())
    }
}
