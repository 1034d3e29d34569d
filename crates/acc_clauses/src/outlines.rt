//! An outline of the tasks that were judged so far: most look-ups see by it that none of the tasks matters to them.

ghost use Rattle.std.specs.Prelude.{List, [], ◌∷◌, ◌++◌, ◌≡◌, ◌%◌, true, min, max, slice_set};
ghost use Rattle.acc_clauses.specs.declared.acted.Acted.{Acted};
ghost use Rattle.acc_base.specs.Section.{end_of};
ghost use Rattle.acc_clauses.specs.Words.{Counters, Found};
ghost use Rattle.acc_clauses.specs.Overlays.{found_over, counters_over};
ghost use Rattle.acc_clauses.specs.Outlined.{IsOutlined};

use crate::acted::Acted;
use acc_base::{Section, Step};

/// How many marks there are. A block is marked at its number modulo this.
const MARKS: u64 = 64;

/// What is known of tasks without going through them.
#[derive(Clone, Copy)]
pub(crate) struct Outline {
    // The sections that they map lie from the first of these addresses up to the second.
    low: u64,
    high: u128,
    // Where a block is marked whose counters they change.
    marks: [bool; 64],
}

impl Outline {
    /// That of no task.
    pub(crate) fn new() -> Outline
        ensures { IsOutlined [] result }
    {
        Outline {
            low: u64::MAX,
            high: 0,
            marks: [false; 64],
        }
    }

    /// One more task was judged.
    pub(crate) fn add(&mut self, x: &Acted)
        ensures { (xs : List Acted) → IsOutlined xs self.old → IsOutlined (xs ++ x.now ∷ []) self.new }
    {
        match x.did.step {
            Step::Born { block, .. } => {
                self.widen(x.task.section());
                self.mark(block);
            }
            Step::Counted { block } => self.mark(block),
            Step::Dropped { block, .. } => self.mark(block),
            Step::Nothing | Step::Moved { .. } => {}
        }
    }

    /// A section is mapped.
    fn widen(&mut self, section: Section)
        ensures { self.new ≡ record self.old { low = min self.old.low section.start; high = max self.old.high (end_of section) } }
    {
        self.low = self.low.min(section.start);
        self.high = self.high.max(section.end());
    }

    /// The counters of a block are changed.
    fn mark(&mut self, block: u64)
        ensures { self.new ≡ record self.old { marks = slice_set self.old.marks (block % 64) true } }
    {
        self.marks[(block % MARKS) as usize] = true;
    }

    /// Whether none of the tasks maps an address of a section, which is not empty.
    #[inline]
    pub(crate) fn is_clear_of(&self, section: Section) -> bool
        ensures { result ≡ true → (xs : List Acted) (found : Found) → IsOutlined xs self.now → found_over section found xs ≡ found }
    {
        section.len != 0
            && (section.end() <= u128::from(self.low) || self.high <= u128::from(section.start))
    }

    /// Whether none of the tasks changes a counter of a block.
    #[inline]
    pub(crate) fn is_without(&self, block: u64) -> bool
        ensures { result ≡ true → (xs : List Acted) (counters : Counters) → IsOutlined xs self.now → counters_over block counters xs ≡ counters }
    {
        !self.marks[(block % MARKS) as usize]
    }
}
