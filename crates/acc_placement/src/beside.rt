//! Places outside of listed ranges.

ghost use Rattle.std.specs.Bool.{OnTrue};
ghost use Rattle.std.specs.Prelude.{◌≡◌, ℕ, ◌%◌, ◌^◌, ◌≤◌, All};
ghost use Rattle.acc_base.specs.Limits.{IsFromOne};
ghost use Rattle.acc_placement.specs.Ranges.{IsTakeBelow};
ghost use Rattle.acc_placement.specs.Changes.{IsBeside};

use crate::rounding::rounded;
use acc_base::MEMORY_MAX;

/// The least place from `from` on at which `size` addresses are outside of the listed ranges.
pub fn past(listed: &[(u64, u64)], from: u64, size: u64, top: u64) -> u64
    requires top_limit { top ≤ 2 ^ 41 }
    requires from_limit { from ≤ top }
    requires size_limit { IsFromOne MEMORY_MAX size }
    requires listed { All (IsTakeBelow top) listed.now }
    ensures not_before { from ≤ result }
    ensures limit { result ≤ top }
    ensures outside { IsBeside listed.now size result }
    ensures least { (q : ℕ) → from ≤ q → IsBeside listed.now size q → result ≤ q }
    ensures aligned { All (λ t. t.0 % 16 ≡ 0) listed.now → from % 16 ≡ 0 → result % 16 ≡ 0 }
{
    let mut at = from;
    loop {
        let (next, is_outside) = moved_on(listed, at, size, top);
        if is_outside || next == at {
            return next;
        }
        at = next;
    }
}

/// Where one walk along the listed ranges ends, and whether all of them end there or before it. The walk begins at `from`,
/// and goes on behind each range that has one of the `size` addresses there. It stays only where all `size` addresses are
/// outside of them. Ranges that rise from place to place are all passed by one walk.
fn moved_on(listed: &[(u64, u64)], from: u64, size: u64, top: u64) -> (u64, bool)
    requires top_limit { top ≤ 2 ^ 41 }
    requires from_limit { from ≤ top }
    requires size_limit { IsFromOne MEMORY_MAX size }
    requires listed { All (IsTakeBelow top) listed.now }
    ensures not_before { from ≤ result.0 }
    ensures limit { result.0 ≤ top }
    ensures stays { result.0 ≡ from → IsBeside listed.now size from }
    ensures outside { OnTrue result.1 (IsBeside listed.now size result.0) }
    ensures least { (q : ℕ) → from ≤ q → IsBeside listed.now size q → result.0 ≤ q }
    ensures aligned { All (λ t. t.0 % 16 ≡ 0) listed.now → from % 16 ≡ 0 → result.0 % 16 ≡ 0 }
{
    let mut at = from;
    let mut all_behind = true;
    for &(start, length) in listed {
        let end = start + rounded(length);
        if at < end {
            if start < at + size {
                at = end;
            } else {
                all_behind = false;
            }
        }
    }
    (at, all_behind)
}
