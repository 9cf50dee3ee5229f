// Items in the order of time: those that can reach a key stand next to each other, and one pass
// over them sees it, without an index.
ghost use Rattle.std.specs.Prelude.{◌+◌, ◌<◌, ◌≤◌, ◌↔◌, length, map, take, IsTrue};
ghost use Rattle.tre_lanes.specs.Rows.{HasNone};
ghost use Rattle.tre_index.specs.Turn.{AreInTurn, AreInTurnTo, IsNoEarlier, IsEarly, IsLate, IsStretch, IsAround, IsFirst, AreNotLate};

use crate::row::{HasRow, Row, is_below};

/// Where items stand next to each other in a list.
#[derive(Clone, Copy)]
pub struct Stretch {
    /// The place of the first of them.
    pub from: usize,
    /// The place behind the last of them.
    pub to: usize,
}

/// How many of the first items stand in turn: none of them begins earlier than one before it, by
/// the first two lanes of their rows.
pub fn count_in_turn<T: HasRow>(items: &[T]) -> usize
    ensures within { result ≤ length items.now }
    ensures turn { AreInTurn (map T.row_of (take result items.now)) }
    ensures most { result < length items.now
        → AreInTurnTo (result + 1) (map T.row_of items.now) → ⊥ }
{
    for place in 1..items.len() {
        if !is_no_earlier(&items[place].row(), &items[place - 1].row()) {
            return place;
        }
    }
    items.len()
}

/// Whether no item begins earlier than one before it, by the first two lanes of their rows.
pub fn are_in_turn<T: HasRow>(items: &[T]) -> bool
    ensures { IsTrue result ↔ AreInTurn (map T.row_of items.now) }
{
    let count = count_in_turn(items);
    if count < items.len() {
        return false;
    }
    true
}

/// Where the items stand that can reach the key, by the first two lanes of their rows. The search
/// begins at the place `near`, and is short where they stand near it.
pub fn find_stretch<T: HasRow>(items: &[T], near: usize, key: &Row) -> Stretch
    requires { AreInTurn (map T.row_of items.now) }
    ensures { IsStretch (map T.row_of items.now) key.now result }
{
    let from = find_first(items, near, key);
    let to = find_late(items, from, items.len(), key);
    Stretch { from, to }
}

/// The place of the first item that doesn't begin too early to reach the key. The search begins at
/// the place `near`, and is short where it stands near it.
pub fn find_first<T: HasRow>(items: &[T], near: usize, key: &Row) -> usize
    requires { AreInTurn (map T.row_of items.now) }
    ensures { IsFirst (map T.row_of items.now) key.now result }
{
    let early = back_to_early(items, near, key);
    first_not_early(items, early, key)
}

// A place, at most `near`, before which each item is too early. Each step back is twice as long as
// the one before it, so a far place takes few of them.
fn back_to_early<T: HasRow>(items: &[T], near: usize, key: &Row) -> usize
    requires { AreInTurn (map T.row_of items.now) }
    ensures within { result ≤ length items.now }
    ensures none { HasNone (map T.row_of items.now) key.now 0 result }
{
    let mut place = near.min(items.len());
    let mut step: usize = 1;
    while place > 0 {
        if is_early(&items[place - 1].row(), key) {
            return place;
        }
        place = place.saturating_sub(step);
        step = step.saturating_mul(2);
    }
    0
}

// The first place from `from` on whose item is not too early.
fn first_not_early<T: HasRow>(items: &[T], from: usize, key: &Row) -> usize
    requires turn { AreInTurn (map T.row_of items.now) }
    requires within { from ≤ length items.now }
    requires none { HasNone (map T.row_of items.now) key.now 0 from }
    ensures { IsFirst (map T.row_of items.now) key.now result }
{
    let around = around_first(items, from, key);
    let mut from = around.from;
    let mut to = around.to;
    while from < to {
        let middle = from + (to - from) / 2;
        if is_early(&items[middle].row(), key) {
            from = middle + 1;
        } else {
            to = middle;
        }
    }
    from
}

// Two places, from `from` on, such that the first item that is not too early stands between them,
// or at the second of them. Each step is twice as long as the one before it.
fn around_first<T: HasRow>(items: &[T], from: usize, key: &Row) -> Stretch
    requires turn { AreInTurn (map T.row_of items.now) }
    requires within { from ≤ length items.now }
    requires none { HasNone (map T.row_of items.now) key.now 0 from }
    ensures { IsAround (map T.row_of items.now) key.now result.from result.to }
{
    let mut from = from;
    let mut step: usize = 1;
    while step <= items.len() - from {
        let to = from + step - 1;
        if !is_early(&items[to].row(), key) {
            return Stretch { from, to };
        }
        from = to + 1;
        step = step.saturating_mul(2);
    }
    Stretch {
        from,
        to: items.len(),
    }
}

/// The first place from `from` on whose item begins too late to reach the key, or the place `most`
/// behind `from`, where it comes before.
pub fn find_late<T: HasRow>(items: &[T], from: usize, most: usize, key: &Row) -> usize
    requires turn { AreInTurn (map T.row_of items.now) }
    requires within { from ≤ length items.now }
    ensures rising { from ≤ result }
    ensures within { result ≤ length items.now }
    ensures none { result < from + most
        → HasNone (map T.row_of items.now) key.now result (length items.now) }
    ensures near { AreNotLate (map T.row_of items.now) key.now from result }
{
    let end = items.len().min(from.saturating_add(most));
    for place in from..end {
        if is_late(&items[place].row(), key) {
            return place;
        }
    }
    end
}

fn is_no_earlier(row: &Row, before: &Row) -> bool
    ensures { IsTrue result ↔ IsNoEarlier row.now before.now }
{
    if is_late(before, row) {
        return false;
    }
    !is_early(row, before)
}

fn is_early(row: &Row, key: &Row) -> bool
    ensures { IsTrue result ↔ IsEarly row.now key.now }
{
    is_below(row[1], key[1])
}

fn is_late(row: &Row, key: &Row) -> bool
    ensures { IsTrue result ↔ IsLate row.now key.now }
{
    is_below(row[0], key[0])
}
