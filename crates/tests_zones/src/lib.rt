//! Tests of zones: the crates from tre_zone to tre_star, by their public calls.
//!
//! What the contracts of these crates say holds of every zone. The tests say whether that is what
//! was meant: the bounds of a zone are compared with those that were worked out by hand, and with
//! pairs that are counted out. Each module tests one crate. There is nothing here but tests.
#![tactic(auto)]

#[cfg(test)]
mod chains;
#[cfg(test)]
mod composition;
#[cfg(test)]
mod differences;
#[cfg(test)]
mod index;
#[cfg(test)]
mod lanes;
#[cfg(test)]
mod sets;
#[cfg(test)]
mod strips;
#[cfg(test)]
mod support;
#[cfg(test)]
mod touching;
#[cfg(test)]
mod zones;
