//! The laws of a walk, of the forms of a pattern.
#![tactic(auto)]

/// Nothing.
pub const NOTHING: u64 = 0;
