//! Text traces: a line for each segment, with its length and the names of what is true on it. A
//! line that begins with `@` names events that happen where the next segment begins, or at the end.
//! Lengths are decimals, counted in the units of the reader's scale.
//!
//! [`TextReader`] reads them in pieces. It keeps the line that isn't ended yet, when the trace so
//! far ends and which events were said since, and nothing else. What the bytes of a text say is in
//! specs/TextReading.antt; the layers above rely on that and on the contract of a `TraceReader`.
//!
//! ```text
//! # two ticks of p, then three of p and q, where a happens as they begin
//! 2 p
//! @ a
//! 3 p q
//! ```
#![tactic(auto)]

mod field;
mod found;
mod known;
pub mod laws;
mod line;
mod line_end;
mod line_reader;
mod open_line;
mod skim;
mod word;

pub use line_reader::LineReader;
use tre_parts::Parts;

/// Reads a text trace in pieces, line by line.
pub type TextReader = Parts<LineReader>;
