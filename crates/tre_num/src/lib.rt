//! Traces from columns of whole numbers, as a spreadsheet or a logger writes them.
//!
//! A [`Definition`] names a comparison of a column with a whole number, as `hot = temp >= 80`.
//! [`read_definitions`] reads a text of them, and what they say is in specs/Definitions.antt.
//! A [`ColumnsReader`] reads comma-separated rows: the first is the header, whose later fields name
//! the columns, and each row behind it is a segment, which lasts what its first field says. All who
//! read one table share a [`Needed`], and find the same fault in it. What the bytes say is
//! `rows_recording` of specs/Rows.antt; the records are those that the crate csv promises for the
//! bytes. [`read_rows`] does the same for bytes that lie in memory.
//!
//! ```text
//! dt,temp
//! 2,79
//! 3,80        read_rows gives (2 ticks, hot is false), (3 ticks, hot is true)
//! ```
#![tactic(auto)]

mod column;
mod columns;
mod definition;
mod definitions;
mod kept_bytes;
pub mod laws;
mod layout;
mod needed;
mod parts;
mod reader;
mod row;
mod rows;
mod table;
mod whole;

pub use definition::Definition;
pub use definitions::{add_definition, read_definitions};
pub use needed::Needed;
pub use reader::ColumnsReader;
pub use rows::read_rows;
