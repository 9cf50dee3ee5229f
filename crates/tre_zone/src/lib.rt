//! Bounds, intervals of durations, and zones: sets of pairs of times `t <= t'` under six bounds.
//!
//! A [`Zone`] holds the pairs whose begin, end and duration each lie in a range, at every
//! denominator: time is dense. It is never empty, lies between 0 and [`TIME_MAX`], and each of its
//! bounds is the tightest that its pairs allow, so two zones are equal exactly where they hold the
//! same pairs, and one includes another exactly where its six keys are at least the other's. Each
//! call that makes a zone gives exactly the pairs that it names, and None exactly where there are
//! none. No call takes memory or divides.
//!
//! ```
//! let run = Zone::span(2, 5); // the pairs with 2 <= t < t' <= 5
//! let short = Interval::new(0, false, Some(1), true); // (0,1]
//! let inside = short.and_then(|i| run.within(&i)); // those that last at most 1
//! ```
#![tactic(auto)]

pub use bound::Bound;
pub use interval::Interval;
pub use latest::latest_end;
pub use tre_pairs::TIME_MAX;
pub use zone::Zone;
pub use zone_bounds::ZoneBounds;

mod bound;
mod interval;
mod latest;
pub mod laws;
mod longest;
mod united;
mod zone;
mod zone_bounds;
