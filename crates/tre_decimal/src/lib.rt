//! Decimals: whole numbers of units, as they are written in texts.
//!
//! At a scale K the unit is a K-th power of ten smaller than what is written: `1.25` at scale 3 is
//! 1250 units. [`read_units`] gives the number of units that a text is, [`push_units`] writes one,
//! and what is written is read back as it was ([`written_is_read`]). Nothing is rounded: a decimal
//! that isn't a whole number of units is refused. The layers above rely on `units_of` and
//! `number_text` of specs/Decimal.antt.
//!
//! ```text
//! read_units(b"0.50", 1)            // Some(5)
//! read_units(b"0.55", 1)            // None
//! push_units(&mut text, 5, 1)?;     // appends 0.5
//! ```
#![tactic(auto)]

mod laws;
mod read;
mod write;

pub use laws::{
    begins_with_a_digit, exact, last_digits_are_digits, one_number, whole_numbers, written_is_read,
};
pub use read::{read_digits, read_numeral, read_units};
pub use write::push_units;

/// The largest scale, at which a unit is 10^-9 of what is written.
pub const SCALE_MAX: u8 = 9;
