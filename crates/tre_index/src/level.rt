ghost use Rattle.std.specs.Prelude.{◌≡◌, ◌≤◌, length, map, OnOk, OnErr, IfOk, IfSome};
ghost use Rattle.tre_index.specs.Index.{IsIndex, IsAbove, Lifted, HasRoom, HasBound, AreRisen};

use crate::row::{HasRow, Row, upper};
use std::alloc::{AllocError, Global};
use std::marker::Model;

/// How many rows one bound is above.
pub(crate) const FAN: usize = 8;

/// Bounds, one above each block of the level below.
#[derive(Drop)]
pub(crate) struct Level {
    rows: Vec<Row>,
}

impl Model for Level {
    ghost use Rattle.std.specs.Prelude.{List, ℤ};

    ghost Value = { List (List ℤ) };

    ghost view = { λ level. level.rows.items };
}

impl Level {
    /// The bounds above these items.
    fn above<T: HasRow>(alloc: Global, items: &[T]) -> Result<Level, AllocError>
        ensures { IfOk result (IsAbove (map T.row_of items.now)) }
    {
        let mut level = Level {
            rows: Vec::new(alloc),
        };
        for (place, item) in items.iter().enumerate() {
            level.lift(place / FAN, &item.row())?;
        }
        Ok(level)
    }

    /// The bounds above these items, where there are more of them than a block has.
    pub(crate) fn above_blocks<T: HasRow>(
        alloc: Global,
        items: &[T],
    ) -> Result<Option<Level>, AllocError>
        ensures { IfOk result (λ found. IfSome found (IsAbove (map T.row_of items.now))) }
    {
        if items.len() <= FAN {
            return Ok(None);
        }
        let level = Level::above(alloc, items)?;
        Ok(Some(level))
    }

    /// The bounds.
    pub(crate) fn rows(&self) -> &[Row]
        ensures { result.now ≡ self.now }
    {
        &self.rows
    }

    /// Makes the bound at the place at least the row: the next place gets one of its own.
    fn lift(&mut self, place: usize, row: &Row) -> Result<(), AllocError>
        requires { place ≤ length self.old }
        ensures ok { OnOk result (Lifted self.old self.new place row.now) }
        ensures err { OnErr result (self.new ≡ self.old) }
    {
        if place < self.rows.len() {
            self.rows[place] = upper(&self.rows[place], row);
        } else {
            self.rows.push(*row)?;
        }
        Ok(())
    }
}

/// Makes the bound at the place, and all above it, at least the row.
pub(crate) fn raise(levels: &mut [Level], place: usize, row: &Row) -> Result<(), AllocError>
    requires index { IsIndex levels.old }
    requires room { HasRoom levels.old place }
    ensures index { IsIndex levels.new }
    ensures risen { AreRisen levels.old levels.new }
    ensures ok { OnOk result (HasBound levels.new place row.now) }
{
    let Some((level, above)) = levels.split_first_mut() else {
        return Ok(());
    };
    raise(above, place / FAN, row)?;
    level.lift(place, row)?;
    Ok(())
}
