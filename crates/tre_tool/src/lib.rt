//! One run of Montre, from the words of a command line and the bytes of an input to the bytes of an
//! output.
//!
//! The central call is [`run_all`]: its clauses are the promise of a run, over any sources and
//! sinks. [`exit_code`] makes it over the system's own, and the program `montre` ends with what
//! that gives. What the words ask for stands in `tre_words`, a file of checks in `tre_watch`, and
//! [`Status`] is how a run ends, with its code and its line on standard error. What answers a
//! request over an input is `tre_answer`'s. What a pattern means stands in `tre_syntax`, what a
//! text spells in `tre_parse`, what bytes say of a trace in `tre_text`, `tre_vcd` and `tre_num`,
//! and what is told as an input comes in `tre_tell`.
//!
//! ```text
//! let status = run_all(alloc, &words, &mut checks, &mut input, &mut out, &mut err);
//! ```
#![tactic(auto)]

mod asked;
mod checks;
pub mod laws;
mod program;
mod report;
mod status;
mod whole_run;

pub use program::exit_code;
pub use report::tell_status;
pub use status::Status;
pub use tre_words::{Format, Job, LIMIT_MAX, Mode, Word, WordsFault, read_words};
pub use whole_run::run_all;
