// Tests of tre_index.
ghost use Rattle.std.specs.Prelude.{◌<◌};

use std::alloc::{AllocError, Global};
use std::test::Fail;
use tre_index::{
    Row, RowIndex, ZoneIndex, are_in_turn, count_in_turn, find_stretch, key_after, key_before,
    key_meeting,
};
use tre_zone::Zone;

// How the rows stand, of which each is that of a stretch of three ticks.
#[derive(Clone, Copy)]
enum Order {
    Time,
    Reverse,
    Random,
}

// How many rows there are: so many that blocks of blocks of blocks are.
const ROWS: u64 = 601;

// The time at which the stretch at the place begins.
fn begin_at(order: Order, place: u64) -> u64
    requires { place < ROWS }
    ensures { result < ROWS }
{
    match order {
        Order::Time => place,
        Order::Reverse => ROWS - 1 - place,
        Order::Random => place * 77 % ROWS,
    }
}

fn rows(alloc: Global, order: Order) -> Result<Vec<Row>, AllocError> {
    let mut rows = Vec::new(alloc);
    for place in 0..ROWS {
        let begin = begin_at(order, place);
        rows.push(Zone::span(begin, begin + 3).row())?;
    }
    Ok(rows)
}

fn pushed(alloc: Global, rows: &[Row]) -> Result<RowIndex<Row>, AllocError> {
    let mut index = RowIndex::new(alloc);
    for row in rows {
        index.push(*row)?;
    }
    Ok(index)
}

// The first place from `from` on whose row is at least the key, by looking at each.
fn plain_next(rows: &[Row], from: usize, key: &Row) -> Option<usize> {
    for (place, row) in rows.iter().enumerate() {
        if place >= from && row.iter().zip(key).all(|(lane, least)| lane >= least) {
            return Some(place);
        }
    }
    None
}

// Whether the index finds in the rows what looking at each does, from many places on.
fn finds(index: &RowIndex<Row>, rows: &[Row]) -> bool {
    for begin in [0, 1, 300, 599, 600, 601] {
        let key = key_after(&Zone::span(begin, begin + 1));
        for from in [0, 1, 7, 8, 9, 63, 64, 65, 512, 600, 601] {
            if index.next_at_least(from, &key) != plain_next(rows, from, &key) {
                return false;
            }
        }
    }
    true
}

// Whether an index into which rows are pushed finds them.
fn finds_pushed(alloc: Global, order: Order) -> Result<bool, AllocError> {
    let rows = rows(alloc, order)?;
    let index = pushed(alloc, &rows)?;
    Ok(finds(&index, &rows))
}

// Whether an index of a list of rows finds them.
fn finds_listed(alloc: Global, order: Order) -> Result<bool, AllocError> {
    let rows = rows(alloc, order)?;
    let index = RowIndex::of_list(alloc, rows.clone()?)?;
    Ok(finds(&index, &rows))
}

#[test]
fn rows_in_any_order(rt: HostRuntime) -> Result<(), Fail> {
    for order in [Order::Time, Order::Reverse, Order::Random] {
        assert!(rt; finds_pushed(rt.alloc(), order)? && finds_listed(rt.alloc(), order)?);
    }
    Ok(())
}

// The stretches from 0 to 2, from 3 to 5 and from 6 to 8.
fn stretches(alloc: Global) -> Result<ZoneIndex, AllocError> {
    let mut index = ZoneIndex::new(alloc);
    index.push(Zone::span(0, 2))?;
    index.push(Zone::span(3, 5))?;
    index.push(Zone::span(6, 8))?;
    Ok(index)
}

// Whether the index finds the stretches that touch others.
fn finds_touching(index: &ZoneIndex) -> bool {
    let (early, late) = (Zone::span(1, 3), Zone::span(8, 9));
    index.next_at_least(1, &key_after(&early)) == Some(1)
        && index.next_at_least(2, &key_after(&early)).is_none()
        && index.next_at_least(0, &key_before(&late)) == Some(2)
        && index.next_at_least(0, &key_meeting(&Zone::span(7, 9))) == Some(2)
        && index
            .next_at_least(0, &key_meeting(&Zone::span(9, 10)))
            .is_none()
        && index.includes(&Zone::span(6, 7))
        && !index.includes(&early)
}

fn are_found(alloc: Global) -> Result<bool, AllocError> {
    let index = stretches(alloc)?;
    Ok(finds_touching(&index) && index.into_items().len() == 3)
}

#[test]
fn zones_that_touch(rt: HostRuntime) -> Result<(), Fail> {
    assert!(rt; are_found(rt.alloc())?);
    Ok(())
}

// Whether the rows stand in turn, and those from the one place up to the other reach the key.
fn has_stretch(rows: &[Row], near: usize, key: &Row, from: usize, to: usize) -> bool {
    if !are_in_turn(rows) {
        return false;
    }
    let stretch = find_stretch(rows, near, key);
    stretch.from == from && stretch.to == to
}

// Whether the stretches of rows in turn are found, from many places.
fn finds_stretches(rows: &[Row]) -> bool {
    let key = key_after(&Zone::span(10, 11));
    for near in [0, 7, 8, 9, 600, 700] {
        if !has_stretch(rows, near, &key, 8, 12) {
            return false;
        }
    }
    has_stretch(rows, 0, &key_after(&Zone::span(700, 701)), 601, 601)
}

// Whether no more rows stand in turn once an early one is pushed behind them.
fn counts_in_turn(rows: &mut Vec<Row>) -> Result<bool, AllocError> {
    rows.push(Zone::span(5, 6).row())?;
    Ok(count_in_turn(rows) == 601 && !are_in_turn(rows))
}

fn are_found_in_turn(alloc: Global) -> Result<bool, AllocError> {
    let mut rows = rows(alloc, Order::Time)?;
    Ok(finds_stretches(&rows) && counts_in_turn(&mut rows)?)
}

#[test]
fn found_stretch(rt: HostRuntime) -> Result<(), Fail> {
    assert!(rt; are_found_in_turn(rt.alloc())?);
    Ok(())
}
