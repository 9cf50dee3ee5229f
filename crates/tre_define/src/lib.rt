//! Definitions of names, as texts give them: what all of them are made of, and those of the signals
//! of a dump.
//!
//! A [`SignalDefinition`] names a test of a signal (`busy = tb.state == 3`, `idle = tb.bus has z`),
//! a bit of one (`ack = tb.data[3]`), how two compare (`full = tb.wr == tb.rd`) or the changes of
//! one (`moved = tb.data changes`). [`read_signals`] reads a text of them; what it says is in
//! specs/Signals.antt. A [`Part`] is some bits of a value, a [`Test`] compares their number with
//! another or looks for a letter, and [`compare_parts`] compares the numbers of two; what each says
//! of the letters of a value, as a dump writes them, is in specs/Values.antt. Definitions of
//! another kind can be read by the same rules, which are in specs/Texts.antt.
//!
//! ```text
//! let definitions = read_signals(alloc, "busy = tb.state[3:2] == 0b11")?;
//! let test = definitions[0].test_in(b"tb.state[3:0]", 4);   // of the two highest of four bits
//! test.passes(b"1101")                                     // true
//! ```
#![tactic(auto)]

mod behind;
mod comparison;
mod definition;
pub mod laws;
mod let_fault;
mod letters;
mod named;
mod number;
mod part;
mod pieces;
mod reads;
mod signals;
mod test;

pub use comparison::Comparison;
pub use definition::SignalDefinition;
pub use let_fault::LetFault;
pub use named::base_of;
pub use part::Part;
pub use pieces::{behind_equals, first_part, name_in, next_word, sign_in, skip_spaces, word_in};
pub use reads::Reads;
pub use signals::{add_signal, read_signals};
pub use test::{Asks, Test, compare_bits, compare_parts};
