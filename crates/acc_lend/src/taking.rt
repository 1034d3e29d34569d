//! The parts of a loan.

ghost use Rattle.std.specs.Prelude.{◌≡◌, ◌+◌, ◌≤◌, ◌<◌, length, sum, [], MatchOption, All};
ghost use Rattle.std.specs.Borrow.{sem};
ghost use Rattle.std.specs.Option.{ghost_names_of};
ghost use Rattle.acc_base.specs.declared.addresses.TheConstants.{MEMORY_MAX};
ghost use Rattle.acc_lend.specs.Cuts.{lengths_from};

use crate::cutting::Cuts;
use crate::leases::Lease;
use crate::slices::cut;

/// The parts of a loan that are not taken yet, each a slice of the lease's own bytes: nothing is copied, and nothing is
/// locked. While they are held the lease cannot be used.
///
/// Contracts see the bytes of these parts, their lengths, and the place of the first of them in the loan.
pub struct Parts<'a> {
    rest: &'a mut [u8],
    at: usize,
    // The length of the next part, 0 where none is left.
    len: usize,
    later: &'a [usize],
    ghost sizes: { sum (lengths_from len later.now) ≡ length rest.now },
    ghost capped: { at + length rest.now ≤ MEMORY_MAX },
    ghost filled: { All (λ len. 0 < len) later.now },
}

impl Drop for Parts<'_> {
    ghost use Rattle.acc_lend.specs.Parts.{bytes_left};

    /// The bytes of the parts that were not taken stay as they are.
    fn drop(self)
        ensures { self.exit.0.now ≡ bytes_left self.entry }
    {
        let Parts {
            rest,
            at: _,
            len: _,
            later: _,
        } = self;
        let _ = rest;
    }
}

impl<'a> Parts<'a> {
    ghost use Rattle.acc_lend.specs.Parts.{bytes_left, cuts_left, next_place, parts_name, ghost_names, LendsPart, IsNext};
    ghost use Rattle.acc_lend.specs.Taken.{HasLater, IsHanded};

    // The parts of these lengths, the first of them at place `at` of the loan.
    fn from(rest: &'a mut [u8], at: usize, lengths: &'a [usize]) -> Parts<'a>
        requires sizes { sum lengths.now ≡ length rest.old }
        requires capped { at + length rest.old ≤ MEMORY_MAX }
        requires filled { All (λ len. 0 < len) lengths.now }
        ensures bytes { bytes_left result ≡ rest.old }
        ensures cuts { cuts_left result ≡ lengths.now }
        ensures place { next_place result ≡ at }
        ensures same_reference { parts_name result ≡ rest.entry.ghost_name }
    {
        if lengths.is_empty() {
            return Parts {
                rest,
                at,
                len: 0,
                later: lengths,
            };
        }
        Parts {
            rest,
            at,
            len: lengths[0],
            later: &lengths[1..],
        }
    }

    /// The next part, its place in the loan, and the parts after it; `None` where no part is left. A part may be held
    /// while later ones are taken.
    ///
    /// When none of them is held any longer, the bytes that were left are the part's last bytes, then those of the
    /// parts after it.
    pub fn next_part(self) -> Option<(usize, &'a mut [u8], Parts<'a>)>
        ensures next { MatchOption result (cuts_left self.entry ≡ []) (IsNext (cuts_left self.entry) (next_place self.entry) (bytes_left self.entry)) }
        ensures* writes_back { sem 𝓛 (LendsPart (parts_name self.entry) (bytes_left self.entry) result) }
    {
        let Parts {
            rest,
            at,
            len,
            later,
        } = self;
        Parts::handed(cut(rest, len), at, len, later)
    }

    // A part at place `at`, and the parts of these lengths after it.
    fn handed(
        pair: Option<(&'a mut [u8], &'a mut [u8])>,
        at: usize,
        len: usize,
        later: &'a [usize],
    ) -> Option<(usize, &'a mut [u8], Parts<'a>)>
        requires { HasLater at len later.now pair }
        ensures names { ghost_names result ≡ ghost_names_of pair.entry }
        ensures handed { IsHanded at len later.now pair.entry result }
    {
        match pair {
            None => None,
            Some((part, rest)) => Some((at, part, Parts::from(rest, at + len, later))),
        }
    }
}

impl Lease {
    ghost use Rattle.acc_lend.specs.Loans.{section};
    ghost use Rattle.acc_lend.specs.Parts.{bytes_left, cuts_left, next_place, LendsParts};

    /// The bytes that are lent, cut into parts, the first one at place 0. The cuts have as many bytes in all as are
    /// lent.
    ///
    /// When the parts are no longer held, the bytes that are lent are the parts' last bytes, joined. Every other byte
    /// of the block is as it was.
    pub fn parts<'a>(&'a mut self, cuts: &'a Cuts) -> Parts<'a>
        requires { sum cuts.now ≡ self.old.len }
        ensures bytes { bytes_left result ≡ section self.old }
        ensures cuts { cuts_left result ≡ cuts.now }
        ensures place { next_place result ≡ 0 }
        ensures* writes_back { sem 𝓛 (LendsParts self.entry result) }
    {
        Parts::from(self.section_mut(), 0, cuts.lengths())
    }
}
