//! How a loan is cut into parts.

ghost use Rattle.std.specs.Prelude.{◌≡◌, ◌⊎◌, ◌↔◌, length, sum, IfOk, IfErr, IsErrOf, IsOk};

use acc_base::{Fault, MEMORY_MAX};
use std::alloc::Global;
use std::marker::Model;

/// The greatest number of parts into which a loan is cut.
pub const PARTS_MAX: usize = 64;

/// How a loan is cut into parts: the parts' lengths in bytes, in order. There are 1 to 64 of them, none is 0, and their
/// sum is at most 67,108,864.
///
/// Contracts see the lengths.
#[derive(Debug, Drop)]
pub struct Cuts {
    lengths: Vec<usize>,
}

impl Model for Cuts {
    ghost use Rattle.std.specs.Prelude.{List, ℕ};
    ghost use Rattle.acc_lend.specs.Cuts.{AreCuts};

    ghost Value = { List ℕ };

    ghost view = { λ c. c.lengths.items };

    ghost invariant = { λ c. AreCuts c.lengths.items };
}

impl Cuts {
    ghost use Rattle.acc_lend.specs.Cuts.{AreCuts, CanCut, even_cuts};

    /// Parts of these lengths in bytes. It takes the vector over, and allocates nothing.
    ///
    /// # Errors
    ///
    /// [`Fault::BadCuts`] alone, exactly where there is no part, there are more than [`PARTS_MAX`], one of them is
    /// empty, or their sum is over 67,108,864.
    pub fn new(lengths: Vec<usize>) -> Result<Cuts, Fault>
        ensures value { IfOk result (λ cuts. cuts ≡ lengths.items) }
        ensures ok { IsOk result ↔ AreCuts lengths.items }
        ensures bad_cuts { IsErrOf result Fault.BadCuts ↔ ¬ AreCuts lengths.items }
    {
        if lengths.is_empty() || lengths.len() > PARTS_MAX {
            return Err(Fault::BadCuts);
        }
        let mut room = MEMORY_MAX as usize;
        for len in &lengths {
            if *len == 0 || *len > room {
                return Err(Fault::BadCuts);
            }
            room -= *len;
        }
        Ok(Cuts { lengths })
    }

    /// Parts of `len / n` bytes, rounded up, for a loan of `len` bytes: as many as are needed, the last one the rest.
    /// So there are at most `n`, and in all they have `len` bytes.
    ///
    /// # Errors
    ///
    /// [`Fault::BadCuts`], exactly where `len` is not from 1 to 67,108,864 or `n` not from 1 to [`PARTS_MAX`]. Else
    /// only [`Fault::Memory`].
    pub fn even(alloc: Global, len: usize, n: usize) -> Result<Cuts, Fault>
        ensures value { IfOk result (λ cuts. cuts ≡ even_cuts len n) }
        ensures whole { IfOk result (λ cuts. sum cuts ≡ len) }
        ensures bad_cuts { IsErrOf result Fault.BadCuts ↔ ¬ CanCut len n }
        ensures only { IfErr result (λ fault. (fault ≡ Fault.BadCuts) ⊎ (fault ≡ Fault.Memory)) }
    {
        if len == 0 || len > MEMORY_MAX as usize || n == 0 || n > PARTS_MAX {
            return Err(Fault::BadCuts);
        }
        let size = (len + (n - 1)) / n;
        let mut lengths = vec![in alloc; size; len / size]?;
        let rest = len % size;
        if rest > 0 {
            lengths.push(rest)?;
        }
        Ok(Cuts { lengths })
    }

    /// The length in bytes of all the parts.
    pub fn total(&self) -> usize
        ensures value { result ≡ sum self.now }
        ensures laws { AreCuts self.now }
    {
        self.lengths.iter().sum()
    }

    /// How many parts there are.
    pub fn count(&self) -> usize
        ensures value { result ≡ length self.now }
        ensures laws { AreCuts self.now }
    {
        self.lengths.len()
    }

    /// The lengths of the parts in bytes, in order.
    pub fn lengths(&self) -> &[usize]
        ensures value { result.now ≡ self.now }
        ensures laws { AreCuts self.now }
    {
        self.lengths.as_slice()
    }
}
