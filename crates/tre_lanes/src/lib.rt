//! Kernels over lanes: the search for a row that covers a key, and the logic of words.
//!
//! [`first_cover`] finds the first of many rows of eight keys that is at least a given one in all
//! eight lanes. [`and_into`], [`or_into`] and [`not_into`] combine words of bits, eight words at a
//! time. Each call gives what its plain definition says, at every length, and takes no memory.
//!
//! ```
//! let rows = [[1, 6, 0, 7, 0, 7, 0, 0]];
//! let place = first_cover(&rows, &[1, 1, -1, 3, -1, 3, 0, 0]); // Some(0)
//! ```
#![tactic(auto)]

pub use rows::first_cover;
pub use words::{and_into, not_into, or_into};

mod rows;
mod words;
