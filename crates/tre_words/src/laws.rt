//! Laws of the words of a command line, each as a function whose contract it is.

ghost use Rattle.std.specs.Prelude.{◌≡◌, ◌↔◌, ℕ, List, String, map, string_bytes};
ghost use Rattle.tre_words.specs.CommandLine.{ByClap};
ghost use Rattle.tre_words.specs.Job.{IsJob, GivesJob, GivesPlain};
ghost use Rattle.tre_words.specs.declared.job.Job.{Job};

use std::alloc::Global;

/// Words give one job at most.
pub fn one_job()
    ensures { (words : List (List ℕ)) (one other : Job) →
        GivesJob words one → GivesJob words other → one ≡ other }
{}

/// The numbers of a job that words give are within their limits, and what it has may stand
/// together.
pub fn given_is_job()
    ensures { (words : List (List ℕ)) (job : Job) → GivesJob words job → IsJob job }
{}

/// The job that options and a pattern's text give is what `clap` promises of these words, and where
/// it promises one, they give it. Words are texts here: of bytes that are none `clap` says
/// otherwise.
pub fn job_by_clap()
    ensures { (words : List (String Global)) (job : Job) →
        GivesPlain (map string_bytes words) job ↔ ByClap (map string_bytes words) job }
{}
