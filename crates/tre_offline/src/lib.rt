//! The matches of a pattern over a whole trace, as a set of zones.
//!
//! [`matches`] holds a pair of times exactly where the stretch between them is in the pattern's
//! expression, at every denominator, and none of its zones is included in another. It goes up the
//! expression once, and each operator is one exact call of the layers below: `;` composes, `|`
//! joins, `&` meets, `*` closes, `%` restricts. [`local`] is the same over one piece of a trace:
//! the two differ in their atoms alone. [`into_matches`] is that of a whole trace which is not
//! needed any more, [`matches_among`] looks for no longer matches than a set has pairs, and
//! [`run_matches`] keeps those of a literal in few bytes each.
//! [`matches_at_end`] decides what the end of a trace matches. The layers above may rely on every
//! pair, and on nothing of the order of the zones.
//!
//! ```
//! let zones = matches(alloc, &pattern, &trace)?;
//! let whole = zones.holds(0, trace.end(), 1);
//! ```
#![tactic(auto)]

pub use beginning::{begun, begun_among};
pub use closing::matches_at_end;
pub use matching::{into_matches, local, matches, matches_among, run_matches};

mod atoms;
mod beginning;
mod closing;
mod edged;
mod iterated;
mod lengths;
mod matching;
mod operators;
