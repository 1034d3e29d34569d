//! Numbers by chance.

ghost use Rattle.std.specs.Prelude.{◌<◌};

/// Numbers by chance that anybody can repeat: those of SplitMix64 for a seed, on each machine the same.
#[derive(Clone, Copy)]
pub struct Chance {
    state: u64,
}

impl Chance {
    /// Returns the numbers of a seed, from the first on.
    pub fn new(seed: u64) -> Chance {
        Chance { state: seed }
    }

    /// Returns the next number.
    pub fn number(&mut self) -> u64 {
        self.state = self.state.wrapping_add(0x9E37_79B9_7F4A_7C15);
        let first = (self.state ^ (self.state >> 30)).wrapping_mul(0xBF58_476D_1CE4_E5B9);
        let second = (first ^ (first >> 27)).wrapping_mul(0x94D0_49BB_1331_11EB);
        second ^ (second >> 31)
    }

    /// Returns a number below a bound.
    pub(crate) fn below(&mut self, bound: u64) -> u64
        requires { 0 < bound }
        ensures { result < bound }
    {
        self.number() % bound
    }

    /// Returns true once in some times.
    pub(crate) fn once_in(&mut self, times: u64) -> bool
        requires { 0 < times }
    {
        self.below(times) == 0
    }

    /// Returns one of some texts; an empty one where there are none.
    pub(crate) fn text(&mut self, texts: &[&'static str]) -> &'static str {
        let nth = self.below(texts.len().max(1) as u64);
        texts.get(nth as usize).copied().unwrap_or("")
    }
}
