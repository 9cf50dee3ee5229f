ghost use Rattle.std.specs.Prelude.{◌≡◌, ◌++◌, [], ◌∷◌, map, OnOk, OnErr, IfOk, IfSome};
ghost use Rattle.tre_lanes.specs.Rows.{FindsNext};
ghost use Rattle.tre_index.specs.Index.{IsOnTop};

use crate::level::{FAN, Level, raise};
use crate::row::{HasRow, Row};
use crate::search::{next_of_few, next_place};
use std::alloc::{AllocError, Global};
use std::marker::Model;

/// Enough levels for the longest list.
const LEVELS_MAX: usize = 21;

/// A list of items, with bounds above their rows.
#[derive(Drop)]
pub struct RowIndex<T: HasRow> {
    items: Vec<T>,
    above: Vec<Level>,
}

impl<T: HasRow> Model for RowIndex<T> {
    ghost use Rattle.std.specs.Prelude.{List, map};
    ghost use Rattle.tre_index.specs.Index.{IsIndexOf};

    ghost Value = { List T };

    ghost view = { λ index. index.items.items };

    ghost invariant = { λ index. IsIndexOf (map T.row_of index.items.items) index.above.items };
}

impl<T: HasRow> RowIndex<T> {
    /// The index of no items.
    pub fn new(alloc: Global) -> RowIndex<T>
        ensures { result ≡ [] }
    {
        RowIndex {
            items: Vec::new(alloc),
            above: Vec::new(alloc),
        }
    }

    /// The index of these items, in their order.
    pub fn of_list(alloc: Global, items: Vec<T>) -> Result<RowIndex<T>, AllocError>
        ensures { IfOk result (λ index. index ≡ items.items) }
    {
        let mut index = RowIndex {
            items,
            above: Vec::new(alloc),
        };
        for _ in 0..LEVELS_MAX {
            if !index.grow()? {
                return Ok(index);
            }
        }
        Ok(index)
    }

    /// The items, in the order in which they were added.
    pub fn items(&self) -> &[T]
        ensures { result.now ≡ self.now }
    {
        &self.items
    }

    /// The first place, from `from` on, whose item's row is at least the key in every lane.
    #[inline]
    pub fn next_at_least(&self, from: usize, key: &Row) -> Option<usize>
        ensures { FindsNext (map T.row_of self.now) key.now from result }
    {
        if self.above.is_empty() {
            return next_of_few(&self.items, from, key);
        }
        next_place(&self.items, &self.above, from, key)
    }

    /// The items as a vector, in the order in which they were added.
    pub fn into_items(self) -> Vec<T>
        ensures { result.items ≡ self }
    {
        self.items
    }

    /// Adds an item at the end.
    pub fn push(&mut self, item: T) -> Result<(), AllocError>
        ensures ok { OnOk result (self.new ≡ self.old ++ item ∷ []) }
        ensures err { OnErr result (self.new ≡ self.old) }
    {
        self.grow()?;
        raise(&mut self.above, self.items.len() / FAN, &item.row())?;
        self.items.push(item)?;
        Ok(())
    }

    /// Puts one more level on top, where the topmost list is longer than a block, and says
    /// whether it was.
    #[inline(always)]
    fn grow(&mut self) -> Result<bool, AllocError>
        ensures { self.new ≡ self.old }
    {
        if self.items.len() <= FAN {
            return Ok(false);
        }
        let alloc = *self.items.allocator();
        match next_level(alloc, &self.items, &self.above)? {
            Some(top) => {
                self.above.push(top)?;
                Ok(true)
            }
            None => Ok(false),
        }
    }
}

/// One more level to put on top, where the topmost list is longer than a block.
fn next_level<T: HasRow>(
    alloc: Global,
    items: &[T],
    above: &[Level],
) -> Result<Option<Level>, AllocError>
    ensures { IfOk result (λ found. IfSome found (IsOnTop (map T.row_of items.now) above.now)) }
{
    match above.last() {
        Some(level) => Level::above_blocks(alloc, level.rows()),
        None => Level::above_blocks(alloc, items),
    }
}
