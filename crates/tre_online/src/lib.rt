//! Matching while the trace comes: a [`Session`] is given segments one by one, keeps none of them,
//! and tells after each what has become a match. A [`Watch`] has a session for each of several
//! patterns, and is given a segment for each at a time.
//!
//! The layers above may rely on what a session stands for and on what it tells: with the matches
//! so far, exactly the matches of the trace with the segment. Of an edge it tells only once the
//! segment behind it has come, and of an event at the end of the trace when it is closed. What a
//! watch tells of a pattern is what the session of that pattern alone would tell.
//!
//! ```
//! let mut session = Session::new(alloc, pattern)?;
//! session.segment(Segment::plain(2, 0b01))?; // proposition 0, for two ticks
//! let zones = session.told(); // what has become a match with it
//! session.close(0b10)?; // event 1 happens as the trace ends
//! let last_zones = session.told();
//! ```
#![tactic(auto)]

pub use refusal::want_of_memory;
pub use session::Session;
pub use watch::Watch;

mod refusal;
mod session;
mod told;
mod watch;
