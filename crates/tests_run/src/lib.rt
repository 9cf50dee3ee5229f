//! Tests of runs that no row of the program `cases` can say: calls that fail in turn, and
//! devices of other kinds. Also of tre_words and tre_generate.
//!
//! The crate has nothing but tests, and uses what it tests by its public calls, so that those
//! crates are proved without them. `memory` runs over devices that fail where a test wants it.
#![tactic(auto)]

#[cfg(test)]
mod at_last_count;
#[cfg(test)]
mod failures;
#[cfg(test)]
mod jobs;
#[cfg(test)]
mod made_runs;
#[cfg(test)]
mod memory;
