//! How much a search looks at.

ghost use Rattle.std.specs.Prelude.{◌≡◌, ◌+◌, ◌^◌, ◌<◌};

use std::marker::Model;

/// A count of the nodes of a tree, or of the entries of a list, that the counted searches look at.
#[derive(Drop)]
pub struct Steps {
    count: u64,
}

impl Model for Steps {
    ghost use Rattle.std.specs.Prelude.{ℕ};

    ghost Value = { ℕ };

    ghost view = { λ steps. steps.count };
}

impl Steps {
    /// None yet.
    pub fn new() -> Steps
        ensures { result ≡ 0 }
    {
        Steps { count: 0 }
    }

    /// Counts one more. Fewer than 2^33 were counted before.
    pub fn tick(&mut self)
        requires { self.old < 2 ^ 33 }
        ensures { self.new ≡ self.old + 1 }
    {
        self.count += 1;
    }

    /// How many were counted.
    pub fn count(&self) -> u64
        ensures { result ≡ self.now }
    {
        self.count
    }
}
