//! What the words of a command line ask for.
//!
//! [`read_words`] reads the words after the program's name into a [`Job`]: what a run does, how its
//! input tells a trace, and the limits and texts of its options. What options are, and the text
//! among them, is `Types` of specs/Settings.antt, which words give which job, `GivesJob` of
//! specs/Job.antt, and what is true of each job, `IsJob` there. The crate `clap` reads the options,
//! and what it promises of them is the same ([`laws::job_by_clap`]). The first word decides:
//! `--generate` asks for a made run, `--watch` for a watch of the patterns of a file, and `--check`
//! for what becomes of the checks of a file, each with the options behind it; all other words are
//! the options of one pattern. Words give one job at most ([`laws::one_job`]), and all others are
//! `Usage`. The texts of a job are taken as they stand: no pattern, no definition and no file of
//! checks is read here.
//!
//! ```text
//! let job = read_words(alloc, &words)?;    // --scale 3 --normal "p;q"
//! job.scale                                // 3
//! job.mode                                 // Mode::Offline
//!
//! let job = read_words(alloc, &words)?;    // --watch --format vcd alarms.txt
//! job.mode                                 // Mode::Watch { file }, with the file `alarms.txt`
//! ```
#![tactic(auto)]

mod command_line;
mod job;
pub mod laws;
mod values;
mod words;

pub use job::{COUNT_MAX, Format, Job, LIMIT_MAX, Mode, Word, WordsFault};
pub use words::read_words;
