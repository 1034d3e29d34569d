//! What entries are ordered by.
ghost use Rattle.std.specs.Prelude.{◌≡◌, ℕ, nat_lt};

/// A key, which stands for a number. Keys are ordered as their numbers.
pub trait Key: Copy {
    ghost number: { Self → ℕ };

    /// Whether it lies below another key.
    fn is_below(self, other: Self) -> bool
        ensures { result ≡ nat_lt (number self) (number other) };
}

impl Key for u64 {
    ghost number = { λ key. key };

    #[inline]
    fn is_below(self, other: u64) -> bool {
        self < other
    }
}

impl Key for u128 {
    ghost number = { λ key. key };

    #[inline]
    fn is_below(self, other: u128) -> bool {
        self < other
    }
}
