//! Tests of the matcher that no row of the program `cases` can say: of tre_residual and
//! tre_derive, and of what sessions keep.
//!
//! The crate has nothing but tests, and uses what it tests by its public calls, so that those
//! crates are proved without them. Patterns are given by their texts, sets by their printed lines.
#![tactic(auto)]

#[cfg(test)]
mod derivatives;
#[cfg(test)]
mod forms;
#[cfg(test)]
mod given;
#[cfg(test)]
mod pieces;
#[cfg(test)]
mod reading;
#[cfg(test)]
mod residuals;
#[cfg(test)]
mod sessions;
