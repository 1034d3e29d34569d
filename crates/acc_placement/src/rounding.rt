//! Rounding lengths up to the unit of placement.

ghost use Rattle.std.specs.Prelude.{◌≡◌, ℕ, ◌%◌, ◌^◌, ◌<◌, ◌≤◌};
ghost use Rattle.acc_base.specs.Blocks.{rounded as rounded_of};

/// The least multiple of 16 that is at least `length`: how many bytes of device memory a block of that length takes.
pub fn rounded(length: u64) -> u64
    requires fits { rounded_of length < 2 ^ 64 }
    ensures value { result ≡ rounded_of length }
    ensures multiple { result % 16 ≡ 0 }
    ensures not_less { length ≤ result }
    ensures least { (m : ℕ) → m % 16 ≡ 0 → length ≤ m → result ≤ m }
{
    (length + 15) / 16 * 16
}
