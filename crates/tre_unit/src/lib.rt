//! Units of time, by the names that dumps and people write.
//!
//! A [`TimeUnit`] is one of six, from a second down to a femtosecond. [`TimeUnit::named`] reads its
//! name, and [`TimeUnit::places`] says how many decimals of a second it is. What the layers above
//! rely on is `unit_named` and `places_of` of specs/Units.antt.
//!
//! ```text
//! TimeUnit::named(b"ns")            // Some(TimeUnit::Nanoseconds)
//! TimeUnit::Nanoseconds.places()    // 9: it is 10^-9 of a second
//! ```
#![tactic(auto)]

mod unit;

pub use unit::TimeUnit;
