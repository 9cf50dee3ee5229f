//! What the crates of tests share: zones and sets of zones by their printed lines, traces by
//! their lengths, and names.
//!
//! A test says what it wants as it is printed: [`has_line`] and [`has_lines`] compare a zone and a
//! set with lines, bound by bound, so a zone whose bounds are not the tightest differs from its
//! line. [`zone_of`], [`set_of`], [`trace_of`] and [`names_of`] make what is given to a call. A
//! line is read apart from the code that prints one. Of programs only `cases` uses this crate.
//!
//! ```
//! let set = set_of(alloc, &["[0,3) (0,3] (0,3]"])?;
//! let same = has_lines(&set, &["[0,3) (0,3] (0,3]"]); // true
//! ```
#![tactic(auto)]

pub use line::{has_line, zone_of};
pub use sets::{are_lines, has_lines, set_of};
pub use traces::{names_of, trace_of};

mod line;
mod sets;
mod traces;
