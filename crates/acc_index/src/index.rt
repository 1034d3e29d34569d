//! Values by rising number.

ghost use Rattle.std.specs.Prelude.{◌≡◌, ℕ, ◌+◌, ◌-◌, ◌*◌, ◌<◌, ◌≤◌, ◌⊎◌, false, [], ◌∷◌, ◌++◌, length, None, Some, IsSome, IfSome, IfNone, IfErr, OnOk, OnErr, MatchOption, vec_len, vec_capacity};
ghost use Rattle.std.specs.Borrow.{Lends, sem};
ghost use Rattle.std.specs.Bool.{OnTrue};
ghost use Rattle.std.specs.List.{AllByRecursion};
ghost use Rattle.acc_index.specs.Indexed.{IsIndexRising, value_at, last_number, with_value, without_number, live_entries, AreEntriesRising, IsNumberAt, ends_gone, AreEntryClones, IsPlaceClone};

use acc_base::Fault;
use std::alloc::{AllocError, Global};
use std::marker::Model;

/// A place for the value of a number.
#[derive(Drop)]
pub struct IndexEntry<T> {
    /// The number.
    pub number: u64,
    /// Its value. `None` where it was taken out.
    pub value: Option<T>,
}

/// Values by rising number, as the slots of blocks, or what open regions hold.
///
/// A value that is taken out leaves its place, which is gone, until more than half of the places are. So it moves no
/// other one, and there are never more places than twice as many as values. A number stands as far behind the first as
/// it is greater, unless such places were cleared away in between. A caller that needs a value twice asks for its
/// place, so that the number is searched for once.
pub struct Index<T> {
    // By rising number. The last one is not gone.
    items: Vec<IndexEntry<T>>,
    // How many of them are not gone.
    count: usize,
}

// By hand, so that a crate above does not prove the drops of its parts again.
impl<T: Drop> Drop for Index<T> {
    fn drop(self) {
        let Index { items: _, count: _ } = self;
    }
}

impl<T: Clone> Clone for IndexEntry<T> {
    ghost is_clone = { IsPlaceClone T.is_clone };

    /// A place of the same number, with a clone of its value.
    ///
    /// # Errors
    ///
    /// [`AllocError`] where there is no memory for that.
    fn clone(&self) -> Result<IndexEntry<T>, AllocError> {
        Ok(IndexEntry {
            number: self.number,
            value: self.value.clone()?,
        })
    }
}

impl<T: Clone> Clone for Index<T> {
    ghost is_clone = { λ index copy. AreEntryClones T.is_clone index.entries copy.entries };

    /// Clones of the values, under the same numbers. The places that are gone are copied too, so a place that was told
    /// is as good in the copy.
    ///
    /// # Errors
    ///
    /// [`AllocError`] where there is no memory for them.
    fn clone(&self) -> Result<Index<T>, AllocError> {
        Ok(Index {
            items: self.items.clone()?,
            count: self.count,
        })
    }
}

impl<T> IndexEntry<T> {
    ghost use Rattle.acc_index.specs.contracts.index.IndexEntry.{the_row};
    ghost use Rattle.acc_index.specs.Indexed.{with_own};

    /// Its value, which is there, to write.
    fn value_mut(&mut self) -> &mut T
        requires { IsSome self.old.value }
        ensures* writes_back { sem 𝓛 (Lends (the_row T.row) T.row self.entry result (with_own self.old)) }
        ensures value { self.old.value ≡ Some result.now }
    {
        match &mut self.value {
            Some(value) => value,
            None => unreachable!(),
        }
    }
}

impl<T> Model for Index<T> {
    ghost use Rattle.std.specs.Prelude.{◌≡◌, ◌*◌, ◌-◌, ◌≤◌, false, length, vec_len, vec_capacity};
    ghost use Rattle.acc_index.specs.Indexed.{IndexState, live_entries, AreEntriesRising, ends_gone};

    ghost Value = { IndexState T };

    ghost view = { λ i. record { entries = live_entries i.items.items; gone = vec_len i.items - i.count; room = vec_capacity i.items - vec_len i.items } };

    ghost invariant = { λ i. AreEntriesRising i.items.items × (ends_gone i.items.items ≡ false) × (i.count ≡ length (live_entries i.items.items)) × (vec_len i.items ≤ 2 * i.count) };
}

impl<T: Drop> Index<T> {
    ghost use Rattle.acc_index.specs.Lends.{LendsValue};

    /// No value. It needs no memory.
    pub fn new(alloc: Global) -> Index<T>
        ensures { result.entries ≡ [] }
    {
        Index {
            items: Vec::new(alloc),
            count: 0,
        }
    }

    /// That the numbers rise, and that no more places are kept for values that are gone than there are values. Nothing
    /// is done.
    pub fn laws(&self)
        ensures rising { IsIndexRising self.now.entries }
        ensures few { self.now.gone ≤ length self.now.entries }
    {
        let _ = &self.items;
    }

    /// How many values there are.
    pub fn len(&self) -> usize
        ensures { result ≡ length self.now.entries }
    {
        self.count
    }

    /// All places by rising number, those that are gone too.
    pub fn items(&self) -> &[IndexEntry<T>]
        ensures { live_entries result.now ≡ self.now.entries }
    {
        &self.items
    }

    /// Makes room for `count` more values. Where that room is missing, places that are gone are cleared away first, if
    /// they are a quarter of all or more. It is refused only where that room was missing, and they were fewer or not
    /// enough.
    pub fn reserve(&mut self, count: usize) -> Result<(), Fault>
        ensures entries { self.new.entries ≡ self.old.entries }
        ensures ok { OnOk result (count ≤ self.new.room) }
        ensures only { IfErr result (λ fault. fault ≡ Fault.Memory) }
        ensures needed { OnErr result (self.old.room < count) }
        ensures cleared { OnErr result ((3 * self.old.gone < length self.old.entries) ⊎ (self.old.room + self.old.gone < count)) }
        ensures room { self.old.room ≤ self.new.room }
    {
        if self.items.capacity() - self.items.len() < count {
            let quarter = self.items.len() / 4;
            clear_from(&mut self.items, self.count, quarter);
        }
        self.items.reserve(count)?;
        Ok(())
    }

    /// The value of a number, if it has one.
    pub fn get(&self, number: u64) -> Option<&T>
        ensures { MatchOption result (value_at number self.now.entries ≡ None) (λ v. value_at number self.now.entries ≡ Some v.now) }
    {
        value_in(&self.items, number, position_of(&self.items, number))
    }

    /// As [`Index::get`], but the number is looked for at a place first, which [`Index::place`] told.
    pub fn get_near(&self, number: u64, near: usize) -> Option<&T>
        ensures { MatchOption result (value_at number self.now.entries ≡ None) (λ v. value_at number self.now.entries ≡ Some v.now) }
    {
        value_in(
            &self.items,
            number,
            position_near(&self.items, number, near),
        )
    }

    /// The value of a number, which has one, to write. The number is looked for at a place first.
    pub fn value_mut_near(&mut self, number: u64, near: usize) -> &mut T
        requires { IsSome (value_at number self.old.entries) }
        ensures* writes_back { sem 𝓛 (LendsValue T.row self.entry number result) }
        ensures value { value_at number self.old.entries ≡ Some result.now }
    {
        let Some(at) = position_near(&self.items, number, near) else {
            unreachable!()
        };
        self.items[at].value_mut()
    }

    /// Where a number stands, for the calls that look there first. Nothing rests on it but their time.
    pub fn place(&self, number: u64) -> usize {
        position_of(&self.items, number).unwrap_or(0)
    }

    /// The greatest number, if there is a value.
    pub fn last(&self) -> Option<u64>
        ensures { result ≡ last_number self.now.entries }
    {
        last_in(&self.items)
    }

    /// Whether a number is above those of all values, so that [`Index::push`] may be handed it.
    fn is_above(&self, number: u64) -> bool
        ensures above { OnTrue result (AllByRecursion (λ e. e.0 < number) self.now.entries) }
        ensures not_above { result ≡ false → IfSome (last_number self.now.entries) (λ last. number ≤ last) }
    {
        self.laws();
        match self.last() {
            Some(last) => last < number,
            None => true,
        }
    }

    /// One value more, of a number above all, where there is room for it.
    pub fn push(&mut self, number: u64, value: T)
        requires above { AllByRecursion (λ e. e.0 < number) self.old.entries }
        requires room { 1 ≤ self.old.room }
        ensures entries { self.new.entries ≡ self.old.entries ++ (number, value) ∷ [] }
        ensures room { self.old.room ≤ self.new.room + 1 }
    {
        self.items.push_reserved(IndexEntry {
            number,
            value: Some(value),
        });
        self.count += 1;
    }

    /// One value more, of any number that has none, where there is room for it. Those of greater numbers are moved.
    pub fn insert(&mut self, number: u64, value: T)
        requires new { value_at number self.old.entries ≡ None }
        requires room { 1 ≤ self.old.room }
        ensures entries { self.new.entries ≡ with_value number value self.old.entries }
        ensures room { self.old.room ≤ self.new.room + 1 }
    {
        if self.is_above(number) {
            return self.push(number, value);
        }
        clear_away(&mut self.items);
        put_between(&mut self.items, number, value);
        self.count += 1;
    }

    /// Takes out the value of a number, which has one. The number is looked for at a place first.
    pub fn take_out_near(&mut self, number: u64, near: usize) -> T
        requires { IsSome (value_at number self.old.entries) }
        ensures value { value_at number self.old.entries ≡ Some result }
        ensures entries { self.new.entries ≡ without_number number self.old.entries }
        ensures room { self.old.room ≤ self.new.room }
    {
        let value = take_value(&mut self.items, number, near);
        self.count -= 1;
        trim(&mut self.items);
        clear_from(&mut self.items, self.count, self.count + 1);
        value
    }
}

/// The first and the last place at which a number can stand. The numbers rise by one at least from place to place. So
/// neither is farther from the first place, or from the last one, than the numbers are apart.
fn window<T>(items: &[IndexEntry<T>], number: u64) -> Option<(usize, usize)>
    requires { AreEntriesRising items.now }
    ensures some { IfSome result (λ w. (w.0 ≤ w.1) × (w.1 < length items.now)) }
    ensures within { IfSome result (λ w. (at : ℕ) → IsNumberAt items.now number at → (w.0 ≤ at) × (at ≤ w.1)) }
    ensures none { IfNone result (AllByRecursion (λ e. e.number ≡ number → ⊥) items.now) }
{
    let first = items.first()?.number;
    let last = items.last()?.number;
    if number < first || last < number {
        return None;
    }
    let top = items.len() - 1;
    let low = top.saturating_sub((last - number) as usize);
    let high = top.min((number - first) as usize);
    Some((low, high))
}

/// The place of a number, if it stands in a window, which is halved until one place is left.
fn position_within<T>(
    items: &[IndexEntry<T>],
    number: u64,
    low: usize,
    high: usize,
) -> Option<usize>
    requires rising { AreEntriesRising items.now }
    requires window { (low ≤ high) × (high < length items.now) }
    requires within { (at : ℕ) → IsNumberAt items.now number at → (low ≤ at) × (at ≤ high) }
    ensures found { IfSome result (IsNumberAt items.now number) }
    ensures none { IfNone result (AllByRecursion (λ e. e.number ≡ number → ⊥) items.now) }
{
    let mut from = low;
    let mut count = high - low + 1;
    'halving: while 1 < count {
        let half = count / 2;
        if items[from + half].number <= number {
            from += half;
        }
        count -= half;
    }
    if items[from].number == number {
        Some(from)
    } else {
        None
    }
}

/// The place of a number, if it stands there. Both ends of its window are looked at first.
fn position_of<T>(items: &[IndexEntry<T>], number: u64) -> Option<usize>
    requires { AreEntriesRising items.now }
    ensures found { IfSome result (IsNumberAt items.now number) }
    ensures none { IfNone result (AllByRecursion (λ e. e.number ≡ number → ⊥) items.now) }
{
    let (low, high) = window(items, number)?;
    if items[low].number == number {
        return Some(low);
    }
    if items[high].number == number {
        return Some(high);
    }
    position_within(items, number, low, high)
}

/// The place of a number, if it stands there. It is looked for at `near` first.
fn position_near<T>(items: &[IndexEntry<T>], number: u64, near: usize) -> Option<usize>
    requires { AreEntriesRising items.now }
    ensures found { IfSome result (IsNumberAt items.now number) }
    ensures none { IfNone result (AllByRecursion (λ e. e.number ≡ number → ⊥) items.now) }
{
    if near < items.len() && items[near].number == number {
        return Some(near);
    }
    position_of(items, number)
}

/// The value of a number, if it has a place and is not gone.
fn value_in<T>(items: &[IndexEntry<T>], number: u64, place: Option<usize>) -> Option<&T>
    requires rising { AreEntriesRising items.now }
    requires place { IfSome place (IsNumberAt items.now number) }
    requires no_place { IfNone place (AllByRecursion (λ e. e.number ≡ number → ⊥) items.now) }
    ensures { MatchOption result (value_at number (live_entries items.now) ≡ None) (λ v. value_at number (live_entries items.now) ≡ Some v.now) }
{
    let at = place?;
    items[at].value.as_ref()
}

/// The number of the last place, which is not gone, if there is one.
fn last_in<T>(items: &[IndexEntry<T>]) -> Option<u64>
    requires { ends_gone items.now ≡ false }
    ensures { result ≡ last_number (live_entries items.now) }
{
    Some(items.last()?.number)
}

/// Takes the value of a number out of its place, which is gone then. The number is looked for at `near` first.
fn take_value<T>(items: &mut [IndexEntry<T>], number: u64, near: usize) -> T
    requires rising { AreEntriesRising items.old }
    requires there { IsSome (value_at number (live_entries items.old)) }
    ensures rising { AreEntriesRising items.new }
    ensures value { value_at number (live_entries items.old) ≡ Some result }
    ensures entries { live_entries items.new ≡ without_number number (live_entries items.old) }
{
    let Some(at) = position_near(items, number, near) else {
        unreachable!()
    };
    let entry = &mut items[at];
    let Some(value) = entry.value.take() else {
        unreachable!()
    };
    value
}

/// Takes places that are gone off the end.
fn trim<T: Drop>(items: &mut Vec<IndexEntry<T>>)
    requires { AreEntriesRising items.old.items }
    ensures rising { AreEntriesRising items.new.items }
    ensures last { ends_gone items.new.items ≡ false }
    ensures entries { live_entries items.new.items ≡ live_entries items.old.items }
    ensures len { vec_len items.new ≤ vec_len items.old }
    ensures capacity { vec_capacity items.new ≡ vec_capacity items.old }
{
    while is_last_gone(items) {
        items.pop();
    }
}

/// There is a last place, and it is gone.
fn is_last_gone<T>(items: &[IndexEntry<T>]) -> bool
    ensures { result ≡ ends_gone items.now }
{
    match items.last() {
        Some(entry) => entry.value.is_none(),
        None => false,
    }
}

/// Takes out all places that are gone.
fn clear_away<T: Drop>(items: &mut Vec<IndexEntry<T>>)
    requires { AreEntriesRising items.old.items }
    ensures rising { AreEntriesRising items.new.items }
    ensures here { AllByRecursion (λ e. IsSome e.value) items.new.items }
    ensures entries { live_entries items.new.items ≡ live_entries items.old.items }
    ensures count { vec_len items.new ≡ length (live_entries items.old.items) }
    ensures len { vec_len items.new ≤ vec_len items.old }
    ensures capacity { vec_capacity items.new ≡ vec_capacity items.old }
{
    items.retain(|entry| entry.value.is_some());
}

/// Takes out all places that are gone, where they are `least` or more. `count` places are not gone.
fn clear_from<T: Drop>(items: &mut Vec<IndexEntry<T>>, count: usize, least: usize)
    requires rising { AreEntriesRising items.old.items }
    requires last { ends_gone items.old.items ≡ false }
    requires count { count ≡ length (live_entries items.old.items) }
    ensures rising { AreEntriesRising items.new.items }
    ensures last { ends_gone items.new.items ≡ false }
    ensures entries { live_entries items.new.items ≡ live_entries items.old.items }
    ensures len { vec_len items.new ≤ vec_len items.old }
    ensures count { count ≡ length (live_entries items.new.items) }
    ensures cleared { (vec_len items.new ≡ count) ⊎ ((vec_len items.old - count < least) × (vec_len items.new ≡ vec_len items.old)) }
    ensures capacity { vec_capacity items.new ≡ vec_capacity items.old }
{
    if least <= items.len() - count {
        clear_away(items);
    }
}

/// Puts the value of a number that has no place among places none of which is gone, where there is room for it.
fn put_between<T: Drop>(items: &mut Vec<IndexEntry<T>>, number: u64, value: T)
    requires rising { AreEntriesRising items.old.items }
    requires here { AllByRecursion (λ e. IsSome e.value) items.old.items }
    requires new { value_at number (live_entries items.old.items) ≡ None }
    requires room { vec_len items.old < vec_capacity items.old }
    ensures rising { AreEntriesRising items.new.items }
    ensures here { AllByRecursion (λ e. IsSome e.value) items.new.items }
    ensures entries { live_entries items.new.items ≡ with_value number value (live_entries items.old.items) }
    ensures len { vec_len items.new ≡ vec_len items.old + 1 }
    ensures capacity { vec_capacity items.old ≤ vec_capacity items.new }
{
    let at = items.partition_point(|entry| entry.number < number);
    let _ = items.insert(
        at,
        IndexEntry {
            number,
            value: Some(value),
        },
    );
}
