//! An index over rows of eight keys: where is the next row that is at least a key in every lane?
//!
//! A [`RowIndex`] is a list of items, each with its row, and above it levels of bounds: the
//! lane-wise maxima of each block of eight rows, of each block of eight of those, and so on. A
//! query goes only into blocks whose bound reaches the key, so it is exact in whatever order the
//! items stand, and fast where near items have near rows. A [`ZoneIndex`] is one over zones; with
//! [`key_after`], [`key_before`] and [`key_meeting`] it finds those that a zone has to do with.
//!
//! ```
//! let mut index = RowIndex::new(alloc);
//! index.push([1, 6, 0, 7, 0, 7, 0, 0])?;
//! let place = index.next_at_least(0, &[1, 1, -1, 3, -1, 3, 0, 0]); // Some(0)
//! ```
#![tactic(auto)]

pub use row::{HasRow, Row};
pub use row_index::RowIndex;
pub use search::next_of_few;
pub use turn::{Stretch, are_in_turn, count_in_turn, find_first, find_late, find_stretch};
pub use zone_index::ZoneIndex;
pub use zone_keys::{key_after, key_before, key_meeting};

mod level;
mod row;
mod row_index;
mod search;
mod turn;
mod zone_index;
mod zone_keys;
