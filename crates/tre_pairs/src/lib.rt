//! Pairs of times, and relations over them.
//!
//! A pair of times is three whole numbers `a b n` with `n >= 1`, for the times `a/n` and `b/n` in
//! ticks: time is dense, and every fraction is there. The crate holds definitions and lemmas only:
//! the operators on relations over pairs (specs/Pairs.antt), and the laws that a relation may have,
//! which the operators keep (proofs/). It stands on nothing, names no zone and no trace, and every
//! layer above speaks of pairs in its words.
//!
//! ```text
//! Composed R S a b n     R from a/n to some moment, and S from that moment to b/n
//! ```
#![tactic(auto)]

/// The latest time that anything may name, in ticks.
pub const TIME_MAX: u64 = 1 << 40;
