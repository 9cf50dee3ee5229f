//! Tests of traces: the crates from tre_io to the readers of all formats, by their public calls.
//!
//! What the contracts of these crates say holds of every input. The tests say whether that is what
//! was meant, where no row of the program `cases` can say it: what the calls of these crates answer
//! is compared with what was worked out by hand. Sources and sinks are tried in memory and over the
//! real system. Each module tests one crate. There is nothing here but tests.
#![tactic(auto)]

#[cfg(test)]
mod bytes;
#[cfg(test)]
mod define;
#[cfg(test)]
mod dumps;
#[cfg(test)]
mod feeding;
#[cfg(test)]
mod num;
#[cfg(test)]
mod parts;
#[cfg(test)]
mod segments;
#[cfg(test)]
mod texts;
