//! The holes of a space, one after another.

use crate::placement::Holes;

/// The holes of a space by rising place, each with its place and its size in bytes. It needs no memory, and each step
/// is one walk.
#[derive(Drop)]
pub struct HoleIter<'a> {
    holes: &'a Holes,
    from: u64,
}

impl<'a> HoleIter<'a> {
    ghost use Rattle.std.specs.Prelude.{◌≡◌};
    ghost use Rattle.acc_placement.specs.HoleIter.{holes_left};

    /// All holes of the space, from the one of least place on.
    pub fn new(holes: &'a Holes) -> HoleIter<'a>
        ensures { holes_left result ≡ holes.now.holes }
    {
        holes.laws();
        HoleIter { holes, from: 0 }
    }
}

impl<'a> Iterator for HoleIter<'a> {
    type Item = (u64, u64);

    ghost use Rattle.std.specs.Iterator.{YieldsFirst, item_count};
    ghost use Rattle.acc_placement.specs.HoleIter.{holes_left};

    ghost next_gives = { YieldsFirst holes_left };

    ghost remaining = { item_count holes_left };

    fn next(&mut self) -> Option<(u64, u64)> {
        self.holes.laws();
        let hole = self.holes.next_hole(self.from)?;
        self.from = hole.0 + 1;
        Some(hole)
    }
}
