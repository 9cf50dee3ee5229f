//! A pattern under way, over one piece of a trace after another.
//!
//! A [`Node`] has its part of the expression, and what has begun of it and goes on, whatever comes:
//! what began strictly before the present time, since what ends just there enters the next piece.
//! [`make`] makes one of which nothing has begun. For each piece [`look`] goes from the atoms up:
//! each node tells the matches inside the piece, and which pairs that had begun end in it. Then
//! [`enter`] goes down: what enters on the way begins the parts, and what they tell begins the
//! next.
//!
//! ```
//! let mut node = make(alloc, expr, None, true)?;
//! look(alloc, &mut node, &piece)?; // node.around().ended: what ends in the piece
//! ```
#![tactic(auto)]

mod chains;
mod closing;
mod combining;
mod combining_many;
mod copying;
mod entering;
mod forgetting;
mod holding;
mod joining;
mod looking;
mod making;
mod moments;
mod node;
mod outer;
mod pruning;
mod shortening;
mod stretches;
mod telling;
mod vectors;

pub use closing::close;
pub use entering::enter;
pub use holding::put_begun;
pub use looking::look;
pub use making::{idle, make};
pub use node::{Around, Node, Stretch};
