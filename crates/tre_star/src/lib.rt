//! Composition and closure of sets of zones.
//!
//! [`compose_sets`] gives the pairs of one set followed by one of another, as exact unions over the
//! zones, and [`closure`] those of any number of pairs of one set, one after another: it puts the
//! steps once before each zone that it has reached, and each only before what begins with the next
//! one where no other can follow; a step whose durations lie between two different ends has a power
//! limit, a zone of chains that spares it most of them. Each has a form that keeps to pairs up to a
//! longest duration, and looks at no other. The layer above may rely on all being exact at every
//! denominator, and on each call returning.
//!
//! ```
//! let twice = compose_sets(alloc, &set, &set)?;
//! let any = closure(alloc, &set, 0, 3)?; // holds (t,t) for each t from 0 to 3 too
//! ```
#![tactic(auto)]

pub use begins::{begins_of, leading_on};
pub use chains::{closure, closure_up_to, iteration_up_to};
pub use composition::{compose_sets, compose_sets_up_to};

mod begins;
mod chains;
mod composition;
mod gather_up_to;
mod limits;
mod one_way;
mod parts;
mod power_limit;
mod tails;
