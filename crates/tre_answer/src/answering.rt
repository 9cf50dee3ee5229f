// From a request to the text that answers it.
ghost use Rattle.std.specs.Prelude.{◌≡◌, ◌≤◌, ◌<◌, ◌+◌, ◌++◌, codes, false, IsTrue, IfOk, IfSome, length, string_bytes};
ghost use Rattle.tre_answer.specs.Ends.{EndsOver};
ghost use Rattle.tre_answer.specs.Parts.{IsInputOf, done_with};
ghost use Rattle.tre_answer.specs.Request.{FitsJob, request_for, request_over};
ghost use Rattle.tre_decimal.specs.declared.TheConstants.{SCALE_MAX};
ghost use Rattle.tre_feed.specs.Input.{TakesAtMost, input_told};
ghost use Rattle.tre_feed.specs.Standing.{IsNew, recording_of};
ghost use Rattle.tre_show.specs.PatternText.{expression_text};
ghost use Rattle.tre_syntax.specs.Pattern.{pattern_tree, names_of};
ghost use Rattle.tre_tell.specs.Ends.{ReadsInput};
ghost use Rattle.tre_tell.specs.Outputs.{output_told};
ghost use Rattle.tre_words.specs.Job.{IsJob};

use crate::asked::{Asked, Definitions};
use crate::checks::{count_failed, find_checks};
use crate::columns::column_input;
use crate::offline::find_matches;
use crate::printing::{piece_room, write_matches};
use crate::verdicts::{verdict_room, write_verdicts};
use std::alloc::{AllocError, Global};
use tre_feed::{Fault, Input, dump_input, text_input, write_text};
use tre_generate::summary;
use tre_io::{Sink, Source};
use tre_show::pattern_text;
use tre_syntax::Pattern;
use tre_tell::tell_matches;
use tre_trace::TraceReader;
use tre_words::{Format, Job, Mode};

// So many checks failed, if the text was written.
fn done_with(failed: u64, written: Result<(), Fault>) -> Result<u64, Fault>
    ensures { result ≡ done_with failed written }
{
    match written {
        Ok(()) => Ok(failed),
        Err(fault) => Err(fault),
    }
}

// Writes what answers a job of which this is the input, read for the names of its patterns.
fn answer_by<S: Source, R: TraceReader + Drop, O: Sink>(
    alloc: Global,
    asked: &Asked,
    job: &Job,
    mut input: Input<R>,
    source: &mut S,
    out: &mut O,
) -> Result<u64, Fault>
    requires closed { (S.told source.old).opened ≡ false }
    requires job { IsJob job.now }
    requires reads { ReadsInput job.now.mode }
    requires fits { FitsJob job.now asked.now }
    requires input { IsInputOf R.names asked.now job.now input }
    requires new { IsNew R.terms R.represents R.names input }
    ensures ends { EndsOver
        (request_over job.now asked.now (recording_of R.recording R.terms input))
        (input_told (S.told source.old) (S.told source.new))
        (output_told (O.told out.old) (O.told out.new)) result }
    ensures bounded { IsTrue (S.told source.new).opened →
        TakesAtMost (job.now.max_bytes + 1) (S.told source.old).file (S.told source.new).left }
    ensures by_name { IsTrue (S.told source.new).opened →
        IfSome (S.told source.old).name (λ told. told ≡ job.now.input) }
{
    match &job.mode {
        Mode::Offline => {
            let found = find_matches(alloc, asked, job, input, source)?;
            let mut room = piece_room(alloc)?;
            let written = write_matches(&found.zones, found.end, job.scale, &mut room, out);
            done_with(0, written)
        }
        Mode::Check { .. } => {
            let found = find_checks(alloc, asked, job, input, source)?;
            let mut room = verdict_room(alloc, &found.all)?;
            let failed = count_failed(&found.all);
            let written = write_verdicts(&found.all, found.end, job.scale, &mut room, out);
            done_with(failed, written)
        }
        _ => {
            let told = tell_matches(
                alloc,
                job,
                &asked.patterns,
                &asked.labels,
                &mut input,
                source,
                out,
            );
            done_with(0, told)
        }
    }
}

// Writes what answers a job that reads its input, in its format.
fn answer_input<S: Source, O: Sink>(
    alloc: Global,
    asked: &Asked,
    definitions: Definitions,
    job: &Job,
    source: &mut S,
    out: &mut O,
) -> Result<u64, Fault>
    requires closed { (S.told source.old).opened ≡ false }
    requires job { IsJob job.now }
    requires reads { ReadsInput job.now.mode }
    requires fits { FitsJob job.now asked.now }
    ensures ends { EndsOver (request_for job.now definitions asked.now)
        (input_told (S.told source.old) (S.told source.new))
        (output_told (O.told out.old) (O.told out.new)) result }
    ensures bounded { IsTrue (S.told source.new).opened →
        TakesAtMost (job.now.max_bytes + 1) (S.told source.old).file (S.told source.new).left }
    ensures by_name { IsTrue (S.told source.new).opened →
        IfSome (S.told source.old).name (λ told. told ≡ job.now.input) }
{
    let limit = job.max_bytes as usize;
    match job.format {
        Format::Text => {
            let input = text_input(alloc, &asked.patterns, job.scale, limit)?;
            answer_by(alloc, asked, job, input, source, out)
        }
        Format::Vcd => {
            let signals = &definitions.signals;
            let input = dump_input(alloc, &asked.patterns, signals, job.scale, job.unit, limit)?;
            answer_by(alloc, asked, job, input, source, out)
        }
        Format::Csv => {
            let Definitions { columns, .. } = definitions;
            let input = column_input(alloc, &asked.patterns, columns, job.scale, limit)?;
            answer_by(alloc, asked, job, input, source, out)
        }
    }
}

// The text of the pattern, and a line end.
fn shown_text(alloc: Global, pattern: &Pattern, scale: u8) -> Result<String, AllocError>
    requires { scale ≤ SCALE_MAX }
    ensures { IfOk result (λ text. string_bytes text
        ≡ expression_text scale (names_of pattern.now) (pattern_tree pattern.now)
        ++ codes "\n") }
{
    let mut text = pattern_text(alloc, pattern, scale)?;
    text.push_str("\n")?;
    Ok(text)
}

/// Writes what answers a job with these patterns, for which the definitions say what names mean: at
/// once where all is known, or as the input comes.
///
/// The answer is how many checks failed; 0 where there are none.
///
/// A job that shows a pattern, or makes a trace of its own, has one pattern, and reads no input.
pub fn answer<S: Source, O: Sink>(
    alloc: Global,
    asked: &Asked,
    definitions: Definitions,
    job: &Job,
    source: &mut S,
    out: &mut O,
) -> Result<u64, Fault>
    requires closed { (S.told source.old).opened ≡ false }
    requires job { IsJob job.now }
    requires fits { FitsJob job.now asked.now }
    requires alone { (ReadsInput job.now.mode → ⊥) → length asked.now.patterns.items ≡ 1 }
    ensures ends { EndsOver (request_for job.now definitions asked.now)
        (input_told (S.told source.old) (S.told source.new))
        (output_told (O.told out.old) (O.told out.new)) result }
    ensures bounded { IsTrue (S.told source.new).opened →
        TakesAtMost (job.now.max_bytes + 1) (S.told source.old).file (S.told source.new).left }
    ensures by_name { IsTrue (S.told source.new).opened →
        IfSome (S.told source.old).name (λ told. told ≡ job.now.input) }
    ensures untouched { (ReadsInput job.now.mode → ⊥) → source.new ≡ source.old }
{
    match &job.mode {
        Mode::Show => {
            let text = shown_text(alloc, &asked.patterns[0], job.scale)?;
            done_with(0, write_text(text.as_str(), out))
        }
        Mode::Generate { count } => {
            let pattern = asked.patterns[0].try_clone(alloc)?;
            let text = summary(alloc, pattern, *count)?;
            done_with(0, write_text(text.as_str(), out))
        }
        _ => answer_input(alloc, asked, definitions, job, source, out),
    }
}
