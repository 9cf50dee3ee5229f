//! Tests of the language of patterns that no row of the program `cases` can say: of tre_decimal,
//! tre_state, tre_syntax, tre_parse and tre_show, by their public calls.
//!
//! What the contracts of these crates say holds of every pattern. The tests say whether that is
//! what was meant: numbers, names, and the shapes of patterns are compared with what an engineer
//! expects. Each module tests one crate. There is nothing here but tests.
#![tactic(auto)]

#[cfg(test)]
mod decimal;
#[cfg(test)]
mod meaning;
#[cfg(test)]
mod parser;
#[cfg(test)]
mod states;
#[cfg(test)]
mod texts;
