//! Where an entry stands, or would stand.
ghost use Rattle.std.specs.Bool.{OnTrue};
ghost use Rattle.std.specs.Prelude.{ℕ, List, ◌≡◌, ◌+◌, ◌^◌, ◌<◌, ◌≤◌, length, map, IsSome, slice_get, Some, IfSome};
ghost use Rattle.std.specs.List.{AllByRecursion};
ghost use Rattle.acc_ordered.specs.Listing.{KeyValue, KeysRise, at_key, seen};
ghost use Rattle.acc_ordered.specs.Laid.{side_by_side, IsRow, AreInRows};
ghost use Rattle.acc_ordered.specs.Spots.{index_of, get_before, IsTaken, IsRowAt, IsInRow, IsPlaceOf, IsOfKeyAt};

use crate::entries::{KeyValueRef, Neighbors};
use crate::keys::Key;
use crate::places::Place;
use crate::rows::Row;
use crate::search::count_firsts;
use acc_base::Steps;
use std::collections::VecDeque;

/// Where an entry of a key would be put: behind all entries of lower keys, in the row of the last of them. The search
/// takes no branch by a key, since such branches are unpredictable. Each halving of the list of rows is a step.
#[inline(never)]
pub fn place_of<K: Key, T: Copy>(
    firsts: &VecDeque<K>,
    rows: &VecDeque<Row<K, T>>,
    key: K,
    steps: &mut Steps,
) -> Place
    requires in_rows { AreInRows (map K.number firsts.now.items) rows.now.items }
    requires limit { steps.old ≤ 2 ^ 32 }
    ensures place { IsPlaceOf (K.number key) rows.now.items result }
    ensures not_fewer { steps.old ≤ steps.new }
    ensures steps { (d : ℕ) → length rows.now.items < 2 ^ d → steps.new ≤ steps.old + d }
{
    let behind = count_firsts(firsts, key, steps);
    if behind == 0 {
        return Place { row: 0, at: 0 };
    }
    let number = behind - 1;
    let at = rows[number].place(key);
    Place { row: number, at }
}

/// The last entry before a place in a row, if there is one.
#[inline(always)]
fn entry_before<'a, K: Key, T: Copy>(
    row: &'a Row<K, T>,
    place: Place,
) -> Option<KeyValueRef<'a, K, T>>
    requires bound { place.at ≤ length row.now }
    ensures { (rows : List (List (KeyValue T))) → IsRowAt rows place.row row.now → (place.at ≡ 0 → place.row ≡ 0) → seen K.number result ≡ get_before (side_by_side rows) (index_of rows place) }
{
    if place.at == 0 {
        return None;
    }
    Some(row.at(place.at - 1))
}

/// The first entry from a place in a row on, if there is one.
#[inline(always)]
fn entry_behind<'a, K: Key, T: Copy>(
    rows: &'a VecDeque<Row<K, T>>,
    row: &'a Row<K, T>,
    place: Place,
) -> Option<KeyValueRef<'a, K, T>>
    requires each { AllByRecursion IsRow rows.now.items }
    requires at { IsRowAt rows.now.items place.row row.now }
    requires bound { place.at ≤ length row.now }
    ensures { seen K.number result ≡ slice_get (side_by_side rows.now.items) (index_of rows.now.items place) }
{
    if place.at < row.len() {
        return Some(row.at(place.at));
    }
    if place.row + 1 == rows.len() {
        return None;
    }
    Some(rows[place.row + 1].at(0))
}

/// The first entry from a place on, if there is one.
#[inline]
pub fn entry_from<'a, K: Key, T: Copy>(
    rows: &'a VecDeque<Row<K, T>>,
    place: Place,
) -> Option<KeyValueRef<'a, K, T>>
    requires each { AllByRecursion IsRow rows.now.items }
    requires within { 0 < length rows.now.items → IsInRow rows.now.items place }
    ensures { seen K.number result ≡ slice_get (side_by_side rows.now.items) (index_of rows.now.items place) }
{
    if rows.is_empty() {
        return None;
    }
    entry_behind(rows, &rows[place.row], place)
}

/// The entries on both sides of a place, and where the one before it stands.
#[inline(always)]
pub fn neighbors<'a, K: Key, T: Copy>(
    rows: &'a VecDeque<Row<K, T>>,
    place: Place,
) -> Neighbors<'a, K, T>
    requires each { AllByRecursion IsRow rows.now.items }
    requires within { IsInRow rows.now.items place }
    requires first { place.at ≡ 0 → place.row ≡ 0 }
    ensures before { seen K.number result.before ≡ get_before (side_by_side rows.now.items) (index_of rows.now.items place) }
    ensures from { seen K.number result.from ≡ slice_get (side_by_side rows.now.items) (index_of rows.now.items place) }
{
    let row = &rows[place.row];
    Neighbors {
        before: entry_before(row, place),
        from: entry_behind(rows, row, place),
        place: Place {
            row: place.row,
            at: place.at.saturating_sub(1),
        },
    }
}

/// The entry that stands at a place, if one does.
#[inline]
pub fn entry_at<'a, K: Key, T: Copy>(
    rows: &'a VecDeque<Row<K, T>>,
    place: Place,
) -> Option<KeyValueRef<'a, K, T>>
    ensures taken { IfSome result (λ _. IsTaken rows.now.items place) }
    ensures entry { IfSome result (λ _. slice_get (side_by_side rows.now.items) (index_of rows.now.items place) ≡ seen K.number result) }
{
    if place.row >= rows.len() {
        return None;
    }
    let row = &rows[place.row];
    if place.at >= row.len() {
        return None;
    }
    Some(row.at(place.at))
}

/// Whether the entry of a key stands at a place.
#[inline]
pub fn stands_at<K: Key, T: Copy>(rows: &VecDeque<Row<K, T>>, key: K, place: Place) -> bool
    ensures { OnTrue result (IsOfKeyAt (K.number key) rows.now.items place) }
{
    let Some(found) = entry_at(rows, place) else {
        return false;
    };
    if found.key.is_below(key) || key.is_below(found.key) {
        return false;
    }
    true
}

/// Whether the entry before a place in a row has a lower key, or there is none.
#[inline(always)]
fn is_behind_lower<K: Key, T: Copy>(row: &Row<K, T>, key: K, place: Place) -> bool
    requires bound { place.at ≤ length row.now }
    ensures { OnTrue result ((rows : List (List (KeyValue T))) → IsRowAt rows place.row row.now → (place.at ≡ 0 → place.row ≡ 0) → (e : KeyValue T) → get_before (side_by_side rows) (index_of rows place) ≡ Some e → e.key < K.number key) }
{
    match entry_before(row, place) {
        Some(entry) => entry.key.is_below(key),
        None => true,
    }
}

/// Whether the entry from a place in a row on has no lower key, or there is none.
#[inline(always)]
fn is_before_others<K: Key, T: Copy>(
    rows: &VecDeque<Row<K, T>>,
    row: &Row<K, T>,
    key: K,
    place: Place,
) -> bool
    requires each { AllByRecursion IsRow rows.now.items }
    requires at { IsRowAt rows.now.items place.row row.now }
    requires bound { place.at ≤ length row.now }
    ensures { OnTrue result ((e : KeyValue T) → slice_get (side_by_side rows.now.items) (index_of rows.now.items place) ≡ Some e → K.number key ≤ e.key) }
{
    match entry_behind(rows, row, place) {
        Some(entry) => !entry.key.is_below(key),
        None => true,
    }
}

/// Whether an entry of a key would be put at a place.
#[inline]
fn fits<K: Key, T: Copy>(rows: &VecDeque<Row<K, T>>, key: K, place: Place) -> bool
    requires rising { KeysRise (side_by_side rows.now.items) }
    requires each { AllByRecursion IsRow rows.now.items }
    ensures { OnTrue result (IsPlaceOf (K.number key) rows.now.items place) }
{
    if place.row >= rows.len() || place.at == 0 && place.row > 0 {
        return false;
    }
    let row = &rows[place.row];
    if place.at > row.len() {
        return false;
    }
    is_behind_lower(row, key, place) && is_before_others(rows, row, key, place)
}

/// Where an entry of a key would be put. It is looked for first right behind a place, and then at it. The steps are those
/// of [`place_of`]; a look is none.
#[inline]
pub fn find_near<K: Key, T: Copy>(
    firsts: &VecDeque<K>,
    rows: &VecDeque<Row<K, T>>,
    key: K,
    near: Place,
    steps: &mut Steps,
) -> Place
    requires in_rows { AreInRows (map K.number firsts.now.items) rows.now.items }
    requires limit { steps.old ≤ 2 ^ 32 }
    ensures place { IsPlaceOf (K.number key) rows.now.items result }
    ensures not_fewer { steps.old ≤ steps.new }
    ensures steps { (d : ℕ) → length rows.now.items < 2 ^ d → steps.new ≤ steps.old + d }
{
    let behind = near.behind();
    if fits(rows, key, behind) {
        return behind;
    }
    if fits(rows, key, near) {
        return near;
    }
    place_of(firsts, rows, key, steps)
}

/// The place itself, or the first of the next row where it is behind all entries of its row.
#[inline]
pub fn ahead<K: Key, T: Copy>(rows: &VecDeque<Row<K, T>>, place: Place) -> Place
    requires each { AllByRecursion IsRow rows.now.items }
    requires within { IsInRow rows.now.items place }
    requires some { index_of rows.now.items place < length (side_by_side rows.now.items) }
    ensures taken { IsTaken rows.now.items result }
    ensures number { index_of rows.now.items result ≡ index_of rows.now.items place }
{
    if place.at < rows[place.row].len() {
        place
    } else {
        Place {
            row: place.row + 1,
            at: 0,
        }
    }
}

/// Where the entry of a key stands, which is there.
#[inline]
pub fn locate<K: Key, T: Copy>(
    firsts: &VecDeque<K>,
    rows: &VecDeque<Row<K, T>>,
    key: K,
    near: Place,
) -> Place
    requires in_rows { AreInRows (map K.number firsts.now.items) rows.now.items }
    requires there { IsSome (at_key (K.number key) (side_by_side rows.now.items)) }
    ensures taken { IsTaken rows.now.items result }
    ensures entry { slice_get (side_by_side rows.now.items) (index_of rows.now.items result) ≡ at_key (K.number key) (side_by_side rows.now.items) }
{
    if stands_at(rows, key, near) {
        return near;
    }
    ahead(rows, place_of(firsts, rows, key, &mut Steps::new()))
}
