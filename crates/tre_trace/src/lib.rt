//! Traces of Boolean signals: lists of segments on which every proposition keeps its value, with
//! the events at the begin of each and at the end of all.
//!
//! A [`Trace`] is seen as the list of its segments and the events at its end. Each segment is at
//! least one tick long and the last ends at `TIME_MAX` or earlier. A [`TraceReader`] reads one from
//! bytes that come in pieces: its contract says what the bytes say, however they are cut. The
//! layers above rely on these two. Beside the segments a trace keeps planes: the values of one
//! proposition, a bit a segment.
//!
//! ```text
//! let mut trace = Trace::new(alloc);
//! trace.push(Segment::plain(3, 0b01))?; // proposition 0 is true for three ticks
//! trace.set_last(0b10); // and event 1 happens where they end
//! let bits = trace.plane(0); // the one word 0b1
//! ```
#![tactic(auto)]

mod block;
mod fault;
pub mod laws;
mod plane;
mod planes;
mod reader;
mod segment;
mod trace;

pub use block::end_of;
pub use fault::{PushFault, TraceFault, TraceKind};
pub use planes::Planes;
pub use reader::{FED_MAX, TraceReader};
pub use segment::{Segment, generated};
pub use trace::{Start, Trace};
