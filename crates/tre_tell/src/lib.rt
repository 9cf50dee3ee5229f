//! The matches of several patterns, told as one input comes: for each stretch a block, in which the
//! lines of each pattern stand behind its label, and at the end what that completes.
//!
//! [`tell_matches`] reads the input piece by piece, gives each stretch to a watch, for the names of
//! each pattern, and writes its block as soon as it is read. The layer above may rely on how a
//! telling ends (specs/Ends.antt) and on what then stands in the output (specs/Online.antt): what
//! is told of each pattern is what would be told of it alone (specs/Transcript.antt), and no block
//! is held back.
//!
//! ```text
//! let mut input = text_input(alloc, &patterns, 0, limit)?; // read for the names of each
//! tell_matches(alloc, &job, &patterns, &labels, &mut input, &mut source, &mut out)?;
//! ```
#![tactic(auto)]

mod block;
pub mod laws;
mod telling;
mod text;

pub use telling::tell_matches;
