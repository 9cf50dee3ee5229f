//! Residuals: of the matches of an expression those that began up to a time, for as long as they
//! may go on behind it.
//!
//! A [`Residual`] at a time stands for pairs of times whatever comes next in the trace. It is made
//! by constructors, each of which means what its form says and drops what can hold no pair.
//!
//! ```
//! let begun = Residual::pre(alloc, zones, residual)?;
//! let short = Residual::dur(alloc, begun, interval)?;
//! ```
#![tactic(auto)]

pub use residual::{Residual, composed};

pub mod laws;
mod residual;
