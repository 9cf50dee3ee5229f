//! Sets of zones: finite unions, as lists in which no zone is included in another.
//!
//! A [`ZoneSet`] is seen as the list of its zones, and holds a pair of times exactly where one of
//! them does. [`ZoneSet::add`] keeps the list apart: a zone that a member includes is not added,
//! and the members that it includes go. That is for small sets: [`ZoneSet::of_zones`] makes a set
//! of many zones at once, by an index, and each call that makes a set gathers its zones for it.
//! Each holds exactly the pairs that it names. Where zones are known to share no pair,
//! [`ZoneSet::push_disjoint`] takes them in constant time.
//!
//! ```
//! let mut set = ZoneSet::new(alloc);
//! let added = set.add(Zone::span(0, 2))?; // true
//! let again = set.add(Zone::span(0, 1))?; // false: it is included
//! ```
#![tactic(auto)]

pub use zone_set::{ZoneSet, are_few, gather, index_of, is_short_pass};

mod cut;
mod merge;
mod near;
mod rise;
mod touching;
mod zone_set;
