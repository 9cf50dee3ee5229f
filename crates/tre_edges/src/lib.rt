//! The atoms of a pattern over a trace, each as a set of zones.
//!
//! [`literal`] holds exactly the stretches on which a state is true throughout, one zone for each
//! longest run, and [`literal_within`] those of them whose duration is in an interval;
//! [`run_parts`] holds those that begin or end at an edge, and [`run_set`] does so in few bytes for
//! each run; [`rises`] and [`falls`] hold exactly the instants at which it changes, one zone each;
//! [`events`] holds those at which an event happens; [`moments`] holds every moment. Their zones
//! stand in the order of time. There is no edge at time 0, and none at the end of the trace. Edges
//! and runs are found in the words of [`truth`], which says where the state holds, 64 segments at a
//! time.
//!
//! [`literal_in`], [`rise_in`], [`fall_in`], [`event_in`] and [`moments_in`] are the same over one
//! [`Piece`] of a trace: a segment with its begin and the valuation before it. Each gives one zone
//! at most, and takes no memory.
//!
//! ```
//! // p over the trace `3 p / 2 q / 4 p q`
//! let p = State::Prop(0);
//! let runs = literal(alloc, &p, &trace)?; // from 0 to 3 and from 5 to 9
//! let ups = rises(alloc, &p, &trace)?; // at 5
//! let downs = falls(alloc, &p, &trace)?; // at 3
//! ```
#![tactic(auto)]

mod all_moments;
mod each_run;
mod edged_runs;
mod edges;
mod event;
mod in_piece;
mod instants;
mod next_place;
mod part_within;
mod piece;
mod room;
mod run_edges;
mod run_sets;
mod runs;
mod span_within;
mod truth_words;

pub use all_moments::moments;
pub use edged_runs::{run_parts, run_set};
pub use edges::{falls, rises};
pub use event::{event_in, events, happens};
pub use in_piece::{fall_in, literal_in, moments_in, rise_in};
pub use piece::Piece;
pub use run_edges::RunEdges;
pub use run_sets::RunSet;
pub use runs::{literal, literal_within};
pub use truth_words::truth;
