//! Marks: how far the matches of an expression have come, in the shape of the expression.
//!
//! A [`Mark`] at a time stands for the pairs of times of the matches that began up to then and go
//! on, whatever comes next in the trace. It has at most one node for each form of the expression,
//! and so never grows beyond it. [`Mark::start`] is where a match begins; the layer above advances
//! a mark over a piece of a trace.
//!
//! ```
//! let mark = Mark::start(alloc, expr, &zones, 0)?;
//! let nodes = mark.nodes(); // 3, of `p;q`
//! ```
#![tactic(auto)]

mod copy;
mod empty;
mod forms;
pub mod laws;
mod mark;
mod nothing;
mod start;

pub use copy::copied;
pub use forms::moments;
pub use mark::{Mark, Room};
