//! A made trace, matched whole and segment by segment, and a summary of both: a check of the
//! matcher on a machine, which needs no input.
//!
//! [`summary`] makes the first segments of a fixed trace and matches a pattern over them, once with
//! `matches` and once with a `Session`; [`fixed_pattern`] is the one that the program takes. The
//! layer above may rely on what its five lines say: how many zones hold exactly the matches, and
//! that both ways are alike at every probe.
//!
//! ```
//! let pattern = fixed_pattern(alloc)?;
//! let text = summary(alloc, pattern, 5)?; // segments 5, end 9, zones 2, held 2 of 4, alike 4 of 4
//! ```
#![tactic(auto)]

pub use made_run::{SEGMENTS_MAX, summary};
pub use pattern::fixed_pattern;

mod made;
mod made_run;
mod pattern;
mod tally;
mod told;
