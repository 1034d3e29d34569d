//! Where ranges may stand that tasks named lately.

ghost use Rattle.std.specs.Prelude.{◌<◌};

use acc_present::Place;

/// How many places are kept.
const CELLS: usize = 1_024;

/// An odd number whose bits are spread: 2^64 over the golden ratio.
const FACTOR: u64 = 0x9E37_79B9_7F4A_7C15;

/// Where ranges may stand that tasks named lately, each in a cell by the start of the section that a task named.
///
/// Sections share cells, and ranges move. So a place is looked at and never trusted, and no contract speaks of it. A
/// program that names some hundreds of arrays again and again searches for few of them.
#[derive(Drop)]
pub(crate) struct Recent {
    places: [Place; CELLS],
}

/// The cell of a section that begins at an address: ten bits of a product to which each bit of the address adds.
#[inline(always)]
fn cell_of(start: u64) -> usize
    ensures { result < 1024 }
{
    // It is compiled to a shift.
    (start.wrapping_mul(FACTOR) / (1 << 54)) as usize
}

impl Recent {
    /// No place is known.
    pub(crate) fn new() -> Recent {
        Recent {
            places: [Place::default(); CELLS],
        }
    }

    /// Where the range may stand in which a section lies, by the address at which it begins.
    #[inline(always)]
    pub(crate) fn near(&self, start: u64) -> Place {
        self.places[cell_of(start)]
    }

    /// The range in which a section lies that begins at an address may stand at a place. The cell keeps that place alone.
    #[inline(always)]
    pub(crate) fn note(&mut self, start: u64, place: Place) {
        self.places[cell_of(start)] = place;
    }
}
