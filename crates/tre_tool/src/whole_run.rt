ghost use Rattle.std.specs.Prelude.{◌≡◌, ◌+◌, ℕ, IsTrue, IfSome, List, Some, false};
ghost use Rattle.tre_tell.specs.Ends.{ReadsInput};
ghost use Rattle.tre_feed.specs.Input.{TakesAtMost, input_told};
ghost use Rattle.tre_tell.specs.Outputs.{output_told};
ghost use Rattle.tre_tool.specs.Checks.{ChecksAreTold};
ghost use Rattle.tre_tool.specs.Parts.{status_of};
ghost use Rattle.tre_tool.specs.Request.{AsksForNothing};
ghost use Rattle.tre_tool.specs.Run.{Gives, ReadsChecks, ComesFirst, EndsAs, RunIsComplete, IsLineTold, IsFrontOf};
ghost use Rattle.tre_tool.specs.Status.{error_line};
ghost use Rattle.tre_watch.specs.declared.reader.TheConstants.{FILE_MAX};
ghost use Rattle.tre_words.specs.Job.{file_of};
ghost use Rattle.tre_words.specs.declared.job.Job.{Job};

use crate::asked::{Question, asked_by};
use crate::report::tell_status;
use crate::status::Status;
use std::alloc::Global;
use tre_answer::answer;
use tre_io::{Sink, Source};
use tre_words::read_words;

// Runs, and leaves it to the caller to tell how the run ended.
fn run_words<P: Source, S: Source, O: Sink>(
    alloc: Global,
    words: &[String],
    checks: &mut P,
    input: &mut S,
    out: &mut O,
) -> Result<u64, Status>
    requires checks { (P.told checks.old).opened ≡ false }
    requires input { (S.told input.old).opened ≡ false }
    ensures ends { EndsAs (Gives words.now) (input_told (P.told checks.old) (P.told checks.new))
        (input_told (S.told input.old) (S.told input.new))
        (output_told (O.told out.old) (O.told out.new)) (status_of result) }
    ensures untouched { AsksForNothing (Gives words.now)
        (ChecksAreTold (input_told (P.told checks.old) (P.told checks.new))) →
        (input.new ≡ input.old) × (out.new ≡ out.old) }
    ensures nothing_first { ComesFirst (status_of result) →
        (input.new ≡ input.old) × (out.new ≡ out.old) }
    ensures source_untouched { (job : Job) → Gives words.now job → ¬ ReadsInput job.mode →
        input.new ≡ input.old }
    ensures checks_untouched { ((job : Job) → Gives words.now job → ¬ ReadsChecks job.mode) →
        checks.new ≡ checks.old }
    ensures reads { (job : Job) → Gives words.now job → IsFrontOf (λ name. name ≡ job.input)
        (job.max_bytes + 1) (input_told (S.told input.old) (S.told input.new)) }
    ensures checks_by_name { (job : Job) (file : List ℕ) → Gives words.now job →
        file_of job.mode ≡ Some file → IsTrue (P.told checks.new).opened →
        IfSome (P.told checks.old).name (λ told. told ≡ file) }
    ensures checks_at_most { IsTrue (P.told checks.new).opened →
        TakesAtMost (FILE_MAX + 1) (P.told checks.old).file (P.told checks.new).left }
{
    let job = read_words(alloc, words)?;
    let question = asked_by(alloc, &job, checks)?;
    let Question { asked, definitions } = question;
    let failed = answer(alloc, &asked, definitions, &job, input, out)?;
    Ok(failed)
}

// The status of a run that ended so.
fn ending(ended: Result<u64, Status>) -> Status
    ensures { result ≡ status_of ended }
{
    match ended {
        Ok(0) => Status::Done,
        Ok(checks) => Status::Failed { checks },
        Err(status) => status,
    }
}

/// Matches the pattern in the words over the input that they name, writes the zones of all matches
/// to `out`, and tells `err` how the run ended. With `--minus` those of another pattern are taken
/// away, and with `--normal` the zones are the one list that their pairs have. With `--online` it
/// writes a block of zones for each segment as soon as that is complete, and at the end those that
/// events there complete; with `--watch` as the first word it does so for all patterns of a file
/// of checks, which it reads from `checks` before the input is opened; with `--check` as the first
/// word it reads such a file too, and writes what becomes of each of its checks over the whole
/// input; with `--show` it writes the pattern's text instead. With `--generate` as the first word
/// it reads no input, and writes the summary of a made trace.
///
/// The words are those after the program's name. What `ends` says of bytes holds where the sources
/// and the sinks tell their bytes; what it says of counts holds for every source and sink. A count
/// that stands at 2^64 - 1 can't rise, and counts as one that rose.
pub fn run_all<P: Source, S: Source, O: Sink, E: Sink>(
    alloc: Global,
    words: &[String],
    checks: &mut P,
    input: &mut S,
    out: &mut O,
    err: &mut E,
) -> Status
    requires checks { (P.told checks.old).opened ≡ false }
    requires input { (S.told input.old).opened ≡ false }

    // What the status means, what was written, and why the run ended so.
    ensures ends { EndsAs (Gives words.now) (input_told (P.told checks.old) (P.told checks.new))
        (input_told (S.told input.old) (S.told input.new))
        (output_told (O.told out.old) (O.told out.new)) result }

    // Where no fault was counted, what the words ask for and the input comes to decides it.
    ensures complete { RunIsComplete (Gives words.now)
        (input_told (P.told checks.old) (P.told checks.new))
        (input_told (S.told input.old) (S.told input.new))
        (output_told (O.told out.old) (O.told out.new)) result }

    // Words that ask for nothing, also by their file of checks, leave the input and the output as
    // they were. So does every run that says that they do.
    ensures untouched { AsksForNothing (Gives words.now)
        (ChecksAreTold (input_told (P.told checks.old) (P.told checks.new))) →
        (input.new ≡ input.old) × (out.new ≡ out.old) }
    ensures nothing_first { ComesFirst result → (input.new ≡ input.old) × (out.new ≡ out.old) }

    // A run that shows the pattern's text, or makes its trace, reads no input, and only one whose
    // words name a file of checks reads that.
    ensures source_untouched { (job : Job) → Gives words.now job → ¬ ReadsInput job.mode →
        input.new ≡ input.old }
    ensures checks_untouched { ((job : Job) → Gives words.now job → ¬ ReadsChecks job.mode) →
        checks.new ≡ checks.old }

    // Standard error is told the status.
    ensures error { IsLineTold (output_told (E.told err.old) (E.told err.new))
        (error_line result) }

    // An input that was opened is the one that the words name, and it is read to its end, or to one
    // byte past the limit. So is the file of checks.
    ensures input { (job : Job) → Gives words.now job → IsFrontOf (λ name. name ≡ job.input)
        (job.max_bytes + 1) (input_told (S.told input.old) (S.told input.new)) }
    ensures file { IsFrontOf (λ name. (job : Job) (file : List ℕ) → Gives words.now job →
        file_of job.mode ≡ Some file → name ≡ file) (FILE_MAX + 1)
        (input_told (P.told checks.old) (P.told checks.new)) }
{
    let status = ending(run_words(alloc, words, checks, input, out));
    let _ = tell_status(&status, err);
    status
}
