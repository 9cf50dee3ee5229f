//! Readers of formats whose bytes are parts between separators, such as lines or words.
//!
//! A [`PartReader`] says what one part says. [`Parts`] makes a reader of pieces of it: a part
//! that lies whole in a piece is read where it lies, and only one that a piece cuts is kept until
//! its end comes. Whole plain parts may be skimmed: read many at a time, up to the first that is
//! not plain or has a fault. The layers above rely on [`Parts`] being a `TraceReader` of the
//! format, however the bytes are cut. What the bytes of a format say is in specs/Format.antt.
//! [`find_name`], [`first_of`] and [`Marks`] read what parts of both formats have in common: names
//! of a pattern, bytes up to the first of a class, and the bytes of a class one after the other.
//!
//! ```text
//! let mut lines = Parts::new(alloc, LineReader { .. });
//! lines.feed(b"2 p\n3", &mut segments)?; // one segment; `3` is kept
//! ```
#![tactic(auto)]

mod byte_class;
pub mod laws;
mod marks;
mod names;
mod part_reader;
mod parts;
mod said;
mod skimmed;
mod spot;
mod walk;

pub use byte_class::{ByteClass, first_from, first_of};
pub use marks::Marks;
pub use names::find_name;
pub use part_reader::PartReader;
pub use parts::Parts;
pub use said::Said;
pub use skimmed::Skimmed;
pub use spot::Spot;

/// How many bytes a part may have.
pub const PART_MAX: usize = 65_536;
