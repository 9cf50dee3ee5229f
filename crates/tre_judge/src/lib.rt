//! What becomes of a check over a whole recording: a verdict, and the pairs of times that tell why.
//!
//! [`judge`] says it of a check of two patterns: the matches of the first are spared where one of
//! the second answers them, or where one may have begun that the recording's end cuts off.
//! [`judge_alone`] says it of a check of one, by how many zones its matches have. The layers above
//! may rely on `IsVerdict` and `Shown` (specs/Verdicts.antt), which say for every form what the
//! verdict is, and what is shown with it.
//!
//! ```text
//! // rise(req) |-> (!ack ; rise(ack)) % [0,4]
//! let judged = judge(alloc, Form::Follows, &request, trace, &answer, &other)?;
//! judged.verdict // Verdict::Failed
//! judged.shown   // the requests that are too late
//! ```
#![tactic(auto)]

mod judging;
pub mod laws;
mod verdict;

pub use judging::{Judged, judge, judge_alone};
pub use verdict::Verdict;
