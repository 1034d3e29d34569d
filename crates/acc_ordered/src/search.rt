//! Searches among keys without a branch, by halves and by eighths.
ghost use Rattle.std.specs.Prelude.{◌≡◌, ℕ, ◌+◌, ◌*◌, ◌^◌, ◌<◌, ◌≤◌, length, take, drop, nat_lt, true, false, if◌then◌else◌};
ghost use Rattle.std.specs.List.{AllByRecursion};
ghost use Rattle.acc_base.specs.Splits.{IsSplitBy};
ghost use Rattle.acc_base.specs.Accounts.{EachPair};

use crate::keys::Key;
use acc_base::Steps;
use std::collections::VecDeque;

/// One where a key lies below another, and else none. It is a number, so that what adds it up takes no branch.
#[inline]
fn one_if_below<K: Key>(lower: K, key: K) -> usize
    ensures { result ≡ (if nat_lt (K.number lower) (K.number key) then 1 else 0) }
{
    if lower.is_below(key) { 1 } else { 0 }
}

/// How many keys lie below `key` in the eighths of a row that do so whole, by one comparison for each eighth.
#[inline]
fn count_eighths<K: Key>(keys: &[K], key: K, comparisons: &mut Steps) -> usize
    requires rising { EachPair (λ a b. K.number a < K.number b) keys.now }
    requires few { length keys.now ≤ 64 }
    requires limit { comparisons.old ≤ 2 ^ 32 }
    ensures comparisons { comparisons.new ≤ comparisons.old + 8 }
    ensures passed { AllByRecursion (λ k. nat_lt (K.number k) (K.number key) ≡ true) (take result keys.now) }
    ensures failed { AllByRecursion (λ k. nat_lt (K.number k) (K.number key) ≡ false) (drop (result + 7) keys.now) }
    ensures bound { result ≤ length keys.now }
{
    let mut low = 0;
    for eighth in 0..keys.len() / 8 {
        comparisons.tick();
        low += 8 * one_if_below(keys[8 * eighth + 7], key);
    }
    low
}

/// How many keys of a row lie below `key`, by at most fifteen comparisons: one for each eighth, and seven in the one
/// where the count ends. No branch is taken by any of them: which one a search takes in the end cannot be foreseen.
#[inline]
pub fn count_below<K: Key>(keys: &[K], key: K, comparisons: &mut Steps) -> usize
    requires rising { EachPair (λ a b. K.number a < K.number b) keys.now }
    requires few { length keys.now ≤ 64 }
    requires limit { comparisons.old ≤ 2 ^ 32 }
    ensures split { IsSplitBy (λ k. nat_lt (K.number k) (K.number key)) keys.now result }
    ensures comparisons { comparisons.new ≤ comparisons.old + 15 }
{
    let low = count_eighths(keys, key, comparisons);
    let high = keys.len().min(low + 7);
    let mut place = low;
    for nth in low..high {
        comparisons.tick();
        place += one_if_below(keys[nth], key);
    }
    place
}

/// As [`count_below`], of any number of keys. It halves them until at most 64 are left, and each halving is a step.
#[inline]
fn count_many<K: Key>(keys: &[K], key: K, steps: &mut Steps) -> usize
    requires rising { EachPair (λ a b. K.number a < K.number b) keys.now }
    requires limit { steps.old ≤ 2 ^ 32 }
    ensures split { IsSplitBy (λ k. nat_lt (K.number k) (K.number key)) keys.now result }
    ensures not_fewer { steps.old ≤ steps.new }
    ensures steps { (d : ℕ) → length keys.now < 2 ^ d → steps.new ≤ steps.old + d }
{
    let mut low = 0;
    let mut len = keys.len();
    while 64 < len {
        steps.tick();
        let half = len / 2;
        let below = one_if_below(keys[low + half], key);
        // Where the middle lies below, it is left out with those before it.
        low += below * (half + 1);
        len = (len - below) / 2;
    }
    low + count_below(&keys[low..low + len], key, &mut Steps::new())
}

/// As [`count_below`], of the keys of a queue. One comparison tells in which of its two parts the count ends. That part
/// is halved until at most 64 keys are left, and each halving is a step.
#[inline]
pub fn count_firsts<K: Key>(keys: &VecDeque<K>, key: K, steps: &mut Steps) -> usize
    requires rising { EachPair (λ a b. K.number a < K.number b) keys.now.items }
    requires limit { steps.old ≤ 2 ^ 32 }
    ensures split { IsSplitBy (λ k. nat_lt (K.number k) (K.number key)) keys.now.items result }
    ensures not_fewer { steps.old ≤ steps.new }
    ensures steps { (d : ℕ) → length keys.now.items < 2 ^ d → steps.new ≤ steps.old + d }
{
    let (front, behind) = keys.as_slices();
    if behind.is_empty() || !behind[0].is_below(key) {
        count_many(front, key, steps)
    } else {
        front.len() + count_many(behind, key, steps)
    }
}
