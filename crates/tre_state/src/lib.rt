//! States, the Boolean conditions of a pattern, and the names of its propositions.
//!
//! The central type is `State`: a Boolean combination of propositions, which go by their numbers,
//! and `eval` gives its truth on a valuation. `Names` keeps the names of the propositions in the
//! order in which they were first seen, so that the place of a name is its number. The layers above
//! may rely on the tree that a state is seen as, on the list that `Names` is seen as, and on what a
//! name is. `front_len` counts the bytes of a class that stand in front, as those of a name.
//!
//! ```text
//! State::And(p, q).eval(0b11)     true where p is proposition 0 and q is proposition 1
//! ```
#![tactic(auto)]

pub use front::front_len;
pub use name::{RESERVED, continues_name, is_name, is_word, starts_name};
pub use names::{NAMES_MAX, NameFault, Names};
pub use sieve::{Sieve, lowest, without};
pub use state::State;

mod front;
mod name;
mod names;
mod sieve;
mod state;
