ghost use Rattle.std.specs.Prelude.{◌≡◌, ◌+◌, ◌*◌, map, min, MatchOption};
ghost use Rattle.tre_lanes.specs.Rows.{HasNone, IsNext, FindsNext};
ghost use Rattle.tre_index.specs.Index.{IsUnder, IsIndex, FindsBlock};

use crate::level::{FAN, Level};
use crate::row::{HasRow, Row, reaches};

/// The first place from `from` on whose item's row reaches the key, by the levels above the items.
//
// Where a block begins, the levels above are asked before its items are looked at: so from the
// first place on a search goes straight to the top, and comes down where it finds something.
pub(crate) fn next_place<T: HasRow>(
    items: &[T],
    above: &[Level],
    from: usize,
    key: &Row,
) -> Option<usize>
    requires under { IsUnder (map T.row_of items.now) above.now }
    requires index { IsIndex above.now }
    ensures { FindsNext (map T.row_of items.now) key.now from result }
{
    let mut place = from;
    while place < items.len() {
        let block = place.div_ceil(FAN);
        if let Some(found) = first_between(items, place, block_start(block, items.len()), key) {
            return Some(found);
        }
        let Some(next) = next_block(above, block, key) else {
            return None;
        };
        place = block_end(next, items.len());
        if let Some(found) = first_between(items, block_start(next, items.len()), place, key) {
            return Some(found);
        }
    }
    None
}

/// The first place from `from` on whose bound, in the first level, reaches the key. With no level
/// any place may be above such a row.
//
// The loop is that of `next_place`, over bounds: a cycle of calls keeps to one type of items.
fn next_block(levels: &[Level], from: usize, key: &Row) -> Option<usize>
    requires { IsIndex levels.now }
    ensures { FindsBlock levels.now key.now from result }
{
    let Some((level, above)) = levels.split_first() else {
        return Some(from);
    };
    let bounds = level.rows();
    let mut place = from;
    while place < bounds.len() {
        let block = place.div_ceil(FAN);
        if let Some(found) = first_between(bounds, place, block_start(block, bounds.len()), key) {
            return Some(found);
        }
        let Some(next) = next_block(above, block, key) else {
            return None;
        };
        place = block_end(next, bounds.len());
        if let Some(found) = first_between(bounds, block_start(next, bounds.len()), place, key) {
            return Some(found);
        }
    }
    None
}

/// Where the block starts in a list of this length, or the length where it has no such block.
fn block_start(block: usize, len: usize) -> usize
    ensures { result ≡ min (block * FAN) len }
{
    if block <= len / FAN { block * FAN } else { len }
}

/// Where the block ends in a list of this length, or the length where it has no such block.
fn block_end(block: usize, len: usize) -> usize
    ensures { result ≡ min (block * FAN + FAN) len }
{
    if block < len / FAN {
        block * FAN + FAN
    } else {
        len
    }
}

/// The first place from `from` on whose item's row reaches the key: by looking at each.
#[inline(always)]
pub fn next_of_few<T: HasRow>(items: &[T], from: usize, key: &Row) -> Option<usize>
    ensures { FindsNext (map T.row_of items.now) key.now from result }
{
    first_between(items, from, items.len(), key)
}

/// The first place from `from` on, and before `to`, whose item's row reaches the key.
fn first_between<T: HasRow>(items: &[T], from: usize, to: usize, key: &Row) -> Option<usize>
    ensures { MatchOption result (HasNone (map T.row_of items.now) key.now from to)
        (IsNext (map T.row_of items.now) key.now from) }
{
    for place in from..to.min(items.len()) {
        if reaches(&items[place].row(), key) {
            return Some(place);
        }
    }
    None
}
