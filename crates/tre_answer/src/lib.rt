//! What answers a request over an input: the zones of all matches at once, or a block of them for
//! each segment as the input comes.
//!
//! The central call is [`answer`]. It makes an input of the job's format, and writes what the job
//! asks for; how that ends and what then stands in the output is said in
//! specs/Ends.antt and in that of tre_tell, over a request, which is a job with its patterns and
//! what bytes say (specs/Request.antt of tre_tell, specs/Recorded.antt). Which pairs are wanted
//! stands in specs/Wanted.antt. The layer above makes requests of the words of a command line, and
//! knows no reader and no zone.
//!
//! ```text
//! let asked = Asked { patterns, labels }; // a label for each pattern, `job` from `read_words`
//! answer(alloc, asked, definitions, &job, &mut input, &mut out)?;
//! ```
#![tactic(auto)]

mod answering;
mod asked;
mod checks;
mod columns;
pub mod laws;
mod listed;
mod offline;
mod printing;
mod verdicts;

pub use answering::answer;
pub use asked::{Asked, Definitions};
