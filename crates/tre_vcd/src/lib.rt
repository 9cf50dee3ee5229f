//! Value change dumps, as simulators write them (IEEE Std 1364-2005, clause 18).
//!
//! What the bytes of one say of a trace is in specs/VcdReading.antt: a definition that looks back
//! over the tokens. It is tried on whole files in proofs/Rows.antt.
//!
//! [`VcdReader`] reads them in pieces. It keeps the token that isn't ended yet, the open section
//! and scopes, the time, the identifiers of its propositions and events, and which of them are true
//! and have happened, and nothing else. A name may be defined by a test of a signal's value, or by
//! its changes ([`Needed::define`]); of an event that is one of changes it keeps the last
//! letters too, and those before this time. The layers above rely on the definition and on the
//! contract of a `TraceReader`.
//!
//! ```text
//! let needed = Rc::new(alloc, Needed::new(alloc))?;
//! let tokens = TokenReader::new(alloc, names, events, 0, None, &needed)?;
//! let mut reader = VcdReader::new(alloc, tokens);
//! reader.feed(b"$var wire 1 ! p $end $enddefinitions $end 1! #5", &mut segments)?;
//! reader.finish(&mut segments)?; // one segment of five ticks, on which p is true
//! ```
#![tactic(auto)]

mod bases;
mod brief;
mod changes;
mod command;
mod declaration;
mod declaring;
mod definitions;
mod found;
mod inside;
pub mod laws;
mod letters;
mod needed;
mod offer;
mod pairs;
mod past;
mod saying;
mod scale;
mod scopes;
mod side;
mod signals;
mod skim;
mod tests;
mod timescale;
mod token;
mod token_reader;
mod variable;
mod variables;
mod white;

pub use needed::Needed;
pub use token_reader::TokenReader;
use tre_parts::Parts;

/// Reads a value change dump in pieces, token by token.
pub type VcdReader = Parts<TokenReader>;
