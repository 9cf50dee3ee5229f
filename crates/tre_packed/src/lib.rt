//! A trace of four bytes a segment, and what it has in common with any other.
//!
//! [`Packed`] is seen as a `Trace` is, as the list of its segments and the events at its end, but
//! it doesn't keep them as segments: of each it keeps when it begins, as an offset in its block of
//! 64, of each proposition a bit, and its events where there are some. So it is filled piece by
//! piece, and no vector of all segments is made. [`AnyTrace`] is what matches are found by: places,
//! times and bits. The layers above may rely on both kinds giving the same answers.
//!
//! ```text
//! let mut trace = Packed::new(alloc);
//! trace.add(&[Segment::plain(3, 0b01), Segment::plain(2, 0b00)])?;
//! let fall = trace.start_from(Start { place: 0, time: 0 }, 1).time; // 3
//! ```
#![tactic(auto)]

mod any_trace;
mod blocks;
mod happening;
mod offsets;
mod packed;
mod said;

pub use any_trace::AnyTrace;
pub use packed::Packed;
