//! Derivatives: what one more piece of a trace makes of the matches that have begun.
//!
//! [`fresh`] gives the matches that begin in a piece and end as it ends or later. [`step`] reads a
//! piece with a residual: it tells the pairs that are known with the piece read, and gives what is
//! left of the residual. Both are exact for every trace that may come behind the piece. [`close`]
//! tells what a residual stands for where the trace has ended. [`advance`] reads a piece with a
//! pattern under way alone, in place, while pairs enter.
//!
//! What begins in a piece goes on as a node of tre_node, which `look` and `enter` take over the
//! next ones: this is done once for all expressions. A residual's other forms are followed through
//! here.
//!
//! ```
//! let begun = fresh(alloc, &expr, &piece)?;
//! let stepped = step(alloc, &begun, &next)?;
//! let last = close(alloc, &stepped.rest, end, events)?;
//! ```
#![tactic(auto)]

pub use beginning::fresh;
pub use closing::close;
pub use going::advance;
pub use stepped::Stepped;
pub use stepping::step;

mod beginning;
mod closing;
mod ending;
mod forms;
mod going;
mod sets;
mod stepped;
mod stepping;
