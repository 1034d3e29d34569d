//! How rows change.
ghost use Rattle.std.specs.Prelude.{◌≡◌, ◌+◌, ◌<◌, ◌≤◌, [], ◌∷◌, OnOk, OnErr, IfErr, Some, vec_len, vec_capacity, slice_get, slice_set as set, ℕ, List, length, map, ◌⊎◌, IsTrue, MatchBool};
ghost use Rattle.std.specs.Bool.{OnTrue};
ghost use Rattle.std.specs.List.{AllByRecursion, insert, remove};
ghost use Rattle.std.specs.VecDeque.{deque_len, deque_capacity};
ghost use Rattle.acc_ordered.specs.Listing.{KeyValue, KeysRise, keyed};
ghost use Rattle.acc_ordered.specs.Laid.{side_by_side, IsRow, IsWaiting, AreInRows, AreRows, AreHalfFull, AreOneShort};
ghost use Rattle.acc_ordered.specs.Spots.{index_of, IsTaken, IsInRow, HasPlace, IsCutInTwo, HasEntries, IsAmongOthers, FitTogether, AreApart, IsJoined};

use crate::keys::Key;
use crate::places::Place;
use crate::rows::{Row, WIDTH};
use acc_base::Fault;
use std::alloc::Global;
use std::collections::VecDeque;

/// Makes rows until `count` wait. There is place for them.
fn make_waiting<K: Key, T: Copy>(
    alloc: Global,
    spare: &mut Vec<Row<K, T>>,
    count: usize,
) -> Result<(), Fault>
    requires waiting { AllByRecursion IsWaiting spare.old.items }
    requires fewer { vec_len spare.old ≤ count }
    requires places { count ≤ vec_capacity spare.old }
    ensures waiting { AllByRecursion IsWaiting spare.new.items }
    ensures ok { OnOk result (count ≤ vec_len spare.new) }
    ensures only { IfErr result (λ fault. fault ≡ Fault.Memory) }
    ensures not_fewer { vec_len spare.old ≤ vec_len spare.new }
    ensures not_more { vec_len spare.new ≤ count }
    ensures capacity { vec_capacity spare.new ≡ vec_capacity spare.old }
{
    while spare.len() < count {
        let row = Row::new(alloc)?;
        spare.push_reserved(row);
    }
    Ok(())
}

/// Makes rows until `count` wait, and place for them among the others.
pub fn make_rows<K: Key, T: Copy>(
    alloc: Global,
    firsts: &mut VecDeque<K>,
    rows: &mut VecDeque<Row<K, T>>,
    spare: &mut Vec<Row<K, T>>,
    count: usize,
) -> Result<(), Fault>
    requires rows { AreRows K.number firsts.old rows.old spare.old }
    ensures rows { AreRows K.number firsts.new rows.new spare.new }
    ensures same { rows.new.items ≡ rows.old.items }
    ensures ok { OnOk result (count ≤ vec_len spare.new) }
    ensures spare { vec_len spare.old ≤ vec_len spare.new }
    ensures not_more { (most : ℕ) → vec_len spare.old ≤ most → count ≤ most → vec_len spare.new ≤ most }
    ensures only { IfErr result (λ fault. fault ≡ Fault.Memory) }
    ensures memory { OnErr result (vec_len spare.old < count) }
{
    if count <= spare.len() {
        return Ok(());
    }
    firsts.reserve(count)?;
    rows.reserve(count)?;
    spare.reserve(rows.len() + (count - spare.len()))?;
    make_waiting(alloc, spare, count)
}

/// The first entry, in a row that waited.
pub fn start<K: Key, T: Copy>(
    firsts: &mut VecDeque<K>,
    rows: &mut VecDeque<Row<K, T>>,
    spare: &mut Vec<Row<K, T>>,
    key: K,
    value: T,
)
    requires rows { AreRows K.number firsts.old rows.old spare.old }
    requires none { rows.old.items ≡ [] }
    requires room { 1 ≤ vec_len spare.old }
    ensures rows { AreRows K.number firsts.new rows.new spare.new }
    ensures entries { side_by_side rows.new.items ≡ keyed (K.number key) value ∷ [] }
    ensures half_full { AreHalfFull rows.new.items }
    ensures spare { vec_len spare.old ≤ vec_len spare.new + 1 }
    ensures total { deque_len rows.new + vec_len spare.new ≡ deque_len rows.old + vec_len spare.old }
{
    let mut row = spare.take_last();
    row.insert_at(0, key, value);
    rows.push_back_reserved(row);
    firsts.push_back_reserved(key);
}

/// Where to split a full row to which an entry comes at `at`. Behind all entries of the last row nearly all stay
/// together, so rows are nearly full after entries that come by rising keys. No row before others gets a small one
/// beside it, which might come and go with each entry, and would move the others.
fn cut_for(at: usize, is_last: bool) -> usize
    ensures half { 32 ≤ result }
    ensures not_all { result < 64 }
    ensures behind { at ≡ 64 → IsTrue is_last → result ≡ 63 }
    ensures middle { result ≡ 32 ⊎ (at ≡ 64) × IsTrue is_last }
{
    if at == WIDTH && is_last {
        WIDTH - 1
    } else {
        WIDTH / 2
    }
}

/// Moves the entries of a full row from `cut` on to a row that waited, which comes behind it.
fn split<K: Key, T: Copy>(
    firsts: &mut VecDeque<K>,
    rows: &mut VecDeque<Row<K, T>>,
    spare: &mut Vec<Row<K, T>>,
    row: usize,
    cut: usize,
)
    requires rows { AreRows K.number firsts.old rows.old spare.old }
    requires full { HasEntries rows.old.items row 64 }
    requires room { 1 ≤ vec_len spare.old }
    requires some { 0 < cut }
    requires not_all { cut < 64 }
    ensures rows { AreRows K.number firsts.new rows.new spare.new }
    ensures entries { side_by_side rows.new.items ≡ side_by_side rows.old.items }
    ensures cut { IsCutInTwo rows.old.items rows.new.items row cut }
    ensures spare { vec_len spare.old ≡ vec_len spare.new + 1 }
    ensures total { deque_len rows.new ≡ deque_len rows.old + 1 }
{
    let mut upper = spare.take_last();
    rows[row].cut(cut, &mut upper);
    let _ = firsts.insert(row + 1, upper.at(0).key);
    let _ = rows.insert(row + 1, upper);
}

/// Whether a row is full, and a place behind its entries may be the first one of the next row, which is not.
fn goes_on<K: Key, T: Copy>(rows: &VecDeque<Row<K, T>>, place: Place) -> bool
    requires { IsInRow rows.now.items place }
    ensures { OnTrue result (HasPlace rows.now.items (record { row = place.row + 1; at = 0 }) × (index_of rows.now.items (record { row = place.row + 1; at = 0 }) ≡ index_of rows.now.items place)) }
{
    if place.at < rows[place.row].len() {
        return false;
    }
    if place.row + 1 == rows.len() {
        return false;
    }
    rows[place.row + 1].len() < WIDTH
}

/// Where there is room for an entry of a place: there, or at the front of the next row, so that a walk in which entries
/// go and come back splits none; or else the row is split.
pub fn make_place<K: Key, T: Copy>(
    firsts: &mut VecDeque<K>,
    rows: &mut VecDeque<Row<K, T>>,
    spare: &mut Vec<Row<K, T>>,
    place: Place,
) -> Place
    requires rows { AreRows K.number firsts.old rows.old spare.old }
    requires within { IsInRow rows.old.items place }
    requires half_full { AreHalfFull rows.old.items }
    requires room { 1 ≤ vec_len spare.old }
    ensures rows { AreRows K.number firsts.new rows.new spare.new }
    ensures entries { side_by_side rows.new.items ≡ side_by_side rows.old.items }
    ensures number { index_of rows.new.items result ≡ index_of rows.old.items place }
    ensures place { HasPlace rows.new.items result }
    ensures half_full { AreHalfFull rows.new.items }
    ensures spare { vec_len spare.old ≤ vec_len spare.new + 1 }
    ensures total { deque_len rows.new + vec_len spare.new ≡ deque_len rows.old + vec_len spare.old }
{
    if rows[place.row].len() < WIDTH {
        return place;
    }
    if goes_on(rows, place) {
        return Place {
            row: place.row + 1,
            at: 0,
        };
    }
    let cut = cut_for(place.at, place.row + 1 == rows.len());
    split(firsts, rows, spare, place.row, cut);
    if place.at <= cut {
        place
    } else {
        Place {
            row: place.row + 1,
            at: place.at - cut,
        }
    }
}

/// Puts an entry at a place in a row that is not full.
pub fn put<K: Key, T: Copy>(
    firsts: &mut VecDeque<K>,
    rows: &mut VecDeque<Row<K, T>>,
    place: Place,
    key: K,
    value: T,
)
    requires in_rows { AreInRows (map K.number firsts.old.items) rows.old.items }
    requires place { HasPlace rows.old.items place }
    requires rising { KeysRise (insert (side_by_side rows.old.items) (index_of rows.old.items place) (keyed (K.number key) value)) }
    requires half_full { AreHalfFull rows.old.items }
    ensures in_rows { AreInRows (map K.number firsts.new.items) rows.new.items }
    ensures half_full { AreHalfFull rows.new.items }
    ensures entries { side_by_side rows.new.items ≡ insert (side_by_side rows.old.items) (index_of rows.old.items place) (keyed (K.number key) value) }
    ensures len { deque_len rows.new ≡ deque_len rows.old }
    ensures capacity { deque_capacity rows.new ≡ deque_capacity rows.old }
    ensures capacity_firsts { deque_capacity firsts.new ≡ deque_capacity firsts.old }
{
    let row = &mut rows[place.row];
    row.insert_at(place.at, key, value);
    firsts[place.row] = row.at(0).key;
}

/// Takes out the only entry of a row, which waits then.
fn take_row<K: Key, T: Copy>(
    firsts: &mut VecDeque<K>,
    rows: &mut VecDeque<Row<K, T>>,
    spare: &mut Vec<Row<K, T>>,
    row: usize,
)
    requires rows { AreRows K.number firsts.old rows.old spare.old }
    requires alone { HasEntries rows.old.items row 1 }
    requires half_full { AreHalfFull rows.old.items }
    ensures rows { AreRows K.number firsts.new rows.new spare.new }
    ensures entries { side_by_side rows.new.items ≡ remove (side_by_side rows.old.items) (index_of rows.old.items (record { row = row; at = 0 })) }
    ensures half_full { AreHalfFull rows.new.items }
    ensures spare { vec_len spare.old ≤ vec_len spare.new }
    ensures total { deque_len rows.new + vec_len spare.new ≡ deque_len rows.old + vec_len spare.old }
{
    let _ = firsts.remove(row);
    if let Some(mut empty) = rows.remove(row) {
        empty.clear();
        spare.push_reserved(empty);
    }
}

/// Takes out one of several entries of a row.
fn shorten<K: Key, T: Copy>(firsts: &mut VecDeque<K>, rows: &mut VecDeque<Row<K, T>>, place: Place)
    requires in_rows { AreInRows (map K.number firsts.old.items) rows.old.items }
    requires among { IsAmongOthers rows.old.items place }
    requires half_full { AreHalfFull rows.old.items }
    ensures in_rows { AreInRows (map K.number firsts.new.items) rows.new.items }
    ensures one_short { AreOneShort rows.new.items place.row }
    ensures entries { side_by_side rows.new.items ≡ remove (side_by_side rows.old.items) (index_of rows.old.items place) }
    ensures len { deque_len rows.new ≡ deque_len rows.old }
    ensures capacity { deque_capacity rows.new ≡ deque_capacity rows.old }
    ensures capacity_firsts { deque_capacity firsts.new ≡ deque_capacity firsts.old }
{
    let row = &mut rows[place.row];
    row.remove_at(place.at);
    firsts[place.row] = row.at(0).key;
}

/// Whether a row and the next have at most half as many entries as one has place for.
fn are_few<K: Key, T: Copy>(rows: &VecDeque<Row<K, T>>, row: usize) -> bool
    requires each { AllByRecursion IsRow rows.now.items }
    requires within { row < length rows.now.items }
    ensures { MatchBool result (FitTogether rows.now.items row) (AreApart rows.now.items row) }
{
    row + 1 < rows.len() && rows[row].len() + rows[row + 1].len() <= WIDTH / 2
}

/// Moves the entries of the next row to the end of a row. The next row waits then.
fn join<K: Key, T: Copy>(
    firsts: &mut VecDeque<K>,
    rows: &mut VecDeque<Row<K, T>>,
    spare: &mut Vec<Row<K, T>>,
    row: usize,
)
    requires rows { AreRows K.number firsts.old rows.old spare.old }
    requires few { FitTogether rows.old.items row }
    ensures rows { AreRows K.number firsts.new rows.new spare.new }
    ensures joined { IsJoined rows.old.items rows.new.items row }
    ensures spare { vec_len spare.old ≤ vec_len spare.new }
    ensures total { deque_len rows.new + vec_len spare.new ≡ deque_len rows.old + vec_len spare.old }
{
    let _ = firsts.remove(row + 1);
    if let Some(mut upper) = rows.remove(row + 1) {
        rows[row].append(&upper);
        upper.clear();
        spare.push_reserved(upper);
    }
}

/// Joins a row with one beside it, where both have few entries.
fn join_few<K: Key, T: Copy>(
    firsts: &mut VecDeque<K>,
    rows: &mut VecDeque<Row<K, T>>,
    spare: &mut Vec<Row<K, T>>,
    row: usize,
)
    requires rows { AreRows K.number firsts.old rows.old spare.old }
    requires within { row < deque_len rows.old }
    requires one_short { AreOneShort rows.old.items row }
    ensures rows { AreRows K.number firsts.new rows.new spare.new }
    ensures entries { side_by_side rows.new.items ≡ side_by_side rows.old.items }
    ensures half_full { AreHalfFull rows.new.items }
    ensures spare { vec_len spare.old ≤ vec_len spare.new }
    ensures total { deque_len rows.new + vec_len spare.new ≡ deque_len rows.old + vec_len spare.old }
{
    if are_few(rows, row) {
        join(firsts, rows, spare, row);
    } else if row > 0 && are_few(rows, row - 1) {
        join(firsts, rows, spare, row - 1);
    }
}

/// Takes out the entry at a place. Its row is joined with one beside it where both have few entries then.
pub fn take_out<K: Key, T: Copy>(
    firsts: &mut VecDeque<K>,
    rows: &mut VecDeque<Row<K, T>>,
    spare: &mut Vec<Row<K, T>>,
    place: Place,
)
    requires rows { AreRows K.number firsts.old rows.old spare.old }
    requires taken { IsTaken rows.old.items place }
    requires half_full { AreHalfFull rows.old.items }
    ensures rows { AreRows K.number firsts.new rows.new spare.new }
    ensures entries { side_by_side rows.new.items ≡ remove (side_by_side rows.old.items) (index_of rows.old.items place) }
    ensures half_full { AreHalfFull rows.new.items }
    ensures spare { vec_len spare.old ≤ vec_len spare.new }
    ensures total { deque_len rows.new + vec_len spare.new ≡ deque_len rows.old + vec_len spare.old }
{
    if rows[place.row].len() == 1 {
        take_row(firsts, rows, spare, place.row);
    } else {
        shorten(firsts, rows, place);
        join_few(firsts, rows, spare, place.row);
    }
}

/// Gives the entry at a place another value. Its key stays, so no entry moves.
pub fn write<K: Key, T: Copy>(rows: &mut VecDeque<Row<K, T>>, place: Place, value: T)
    requires { IsTaken rows.old.items place }
    ensures entries { (entry : KeyValue T) → slice_get (side_by_side rows.old.items) (index_of rows.old.items place) ≡ Some entry → side_by_side rows.new.items ≡ set (side_by_side rows.old.items) (index_of rows.old.items place) (record entry { value = value }) }
    ensures in_rows { (firsts : List ℕ) → AreInRows firsts rows.old.items → KeysRise (side_by_side rows.new.items) → AreInRows firsts rows.new.items }
    ensures half_full { AreHalfFull rows.old.items → AreHalfFull rows.new.items }
    ensures len { deque_len rows.new ≡ deque_len rows.old }
    ensures capacity { deque_capacity rows.new ≡ deque_capacity rows.old }
{
    rows[place.row].write_at(place.at, value);
}
