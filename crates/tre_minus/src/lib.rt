//! The difference of two sets of zones: what one holds and the other does not.
//!
//! [`minus`] takes the zones of one set away from those of another and gives a set of exactly the
//! pairs that are left, at every denominator. A zone loses a taken one by its six bounds: the pairs
//! that miss the first of them, those that meet it and miss the second, and so on, are zones that
//! share no pair. Only zones that share a pair are compared, by an index. What [`laws`] says of a
//! difference follows from what it holds alone.
//!
//! ```
//! let left = minus(alloc, &set, &taken)?;
//! ```
#![tactic(auto)]

pub use difference::minus;

mod cut;
mod difference;
pub mod laws;
mod side;
