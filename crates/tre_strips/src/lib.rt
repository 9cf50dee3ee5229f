//! The canonical strips of a set of pairs of times: a list of zones that depends on the pairs
//! alone.
//!
//! Over each begin the ends of the pairs are separate bars. Where neighbouring begins have the same
//! bars they make a strip, and [`strips`] gives one zone for each strip and each of its bars, in
//! the order in which they are printed. So two sets give equal lists exactly where they hold the
//! same pairs, however their zones overlap. No time is counted out: the call looks at the begins
//! where a zone begins or ends, or where two ends meet.
//!
//! ```
//! let list = strips(alloc, &set)?; // of [0,2) (0,2] (0,2] and [1,3) (1,3] (0,2], say
//! ```
#![tactic(auto)]

pub use canonical::strips;

mod bar;
mod begins;
mod canonical;
mod column;
pub mod laws;
mod profiles;
mod run;
mod strip_zone;
mod times;
mod trim;
