// The words of the command line.
ghost use Rattle.std.specs.Prelude.{◌≡◌, ◌↔◌, map, string_bytes, IfOk, IsErrOf, Some, None, true, false, codes, option_map};
ghost use Rattle.clap.specs.Words.{found_of, rows_of};
ghost use Rattle.tre_words.specs.CommandLine.{found_in, FindsJob};
ghost use Rattle.tre_words.specs.Job.{begins_with, is_given, is_whole, job_over, made_count, made_job, DefinesFor, StandsTogether, MayStand, IsJob, MayReadFile, MayWatch, GivesPlain, GivesOver, GivesJob, GivesNoJob};
ghost use Rattle.tre_words.specs.declared.job.Format.TheVariants.{Csv};
ghost use Rattle.tre_words.specs.declared.job.Job.{Job};
ghost use Rattle.tre_words.specs.declared.job.Mode.TheVariants.{Watch, Check};

use crate::command_line::{is_given, parse_words, value_of};
use crate::job::{COUNT_MAX, Format, Job, LIMIT_DEFAULT, Mode, Word, WordsFault};
use crate::values::{job_in, number_written};
use clap::ArgMatches;
use std::alloc::{AllocError, Global};

// Whether the answer is one over the whole input.
fn is_whole(mode: &Mode) -> bool
    ensures { result ≡ is_whole mode.now }
{
    matches!(mode, Mode::Offline | Mode::Check { .. })
}

// Whether what the job has may stand together.
fn stands_together(job: &Job) -> bool
    ensures { result ≡ true ↔ StandsTogether job.now }
{
    let offline = matches!(job.mode, Mode::Offline);
    let columns = job.format == Format::Csv;
    if job.normal && !is_whole(&job.mode) || job.minus.is_some() && !offline {
        return false;
    }
    if job.max_zones.is_some() && !job.normal {
        return false;
    }
    if job.unit.is_some() && job.format != Format::Vcd {
        return false;
    }
    if columns {
        return job.minus.is_none();
    }
    job.lets.is_none() || job.format == Format::Vcd
}

// Whether names are defined only as the format has them.
fn defines_for(format: Format, matches: &ArgMatches) -> bool
    ensures { result ≡ true ↔ DefinesFor format (found_in (rows_of (found_of matches.now))) }
{
    if format != Format::Csv && value_of(matches, "let").is_some() {
        return false;
    }
    format == Format::Vcd || value_of(matches, "define").is_none()
}

// Whether what the values of the options say may stand so.
fn may_stand(matches: &ArgMatches, job: &Job) -> bool
    ensures { result ≡ true ↔ MayStand (found_in (rows_of (found_of matches.now))) job.now }
{
    if job.format == Format::Csv && is_given(matches, "online") {
        return false;
    }
    defines_for(job.format, matches) && stands_together(job)
}

// The job that the values of the options say, where it may stand so.
fn plain_job(alloc: Global, matches: &ArgMatches) -> Result<Job, WordsFault>
    ensures ok { IfOk result (λ job. FindsJob (rows_of (found_of matches.now)) job
        × MayStand (found_in (rows_of (found_of matches.now))) job) }
    ensures usage { IsErrOf result WordsFault.Usage → (job : Job) →
        FindsJob (rows_of (found_of matches.now)) job →
        ¬ MayStand (found_in (rows_of (found_of matches.now))) job }
{
    let job = job_in(alloc, matches)?;
    if !may_stand(matches, &job) {
        return Err(WordsFault::Usage);
    }
    Ok(job)
}

// Reads words that `clap` reads.
fn read_options(alloc: Global, words: &[String]) -> Result<Job, WordsFault>
    ensures ok { IfOk result (GivesPlain (map string_bytes words.now)) }
    ensures is_job { IfOk result IsJob }
    ensures usage { IsErrOf result WordsFault.Usage → (job : Job) →
        ¬ GivesPlain (map string_bytes words.now) job }
{
    let matches = parse_words(alloc, words)?;
    plain_job(alloc, &matches)
}

// Whether the job of the words behind `--watch` or `--check` may be over a file of checks.
fn may_read_file(plain: &Job) -> bool
    ensures { result ≡ true ↔ MayReadFile plain.now }
{
    if plain.expr.text() == "-" && plain.input.text() == "-" {
        return false;
    }
    plain.minus.is_none() && matches!(plain.mode, Mode::Offline)
}

// Whether it may be that of a watch.
fn may_watch(plain: &Job) -> bool
    ensures { result ≡ true ↔ MayWatch plain.now }
{
    may_read_file(plain) && plain.format != Format::Csv && !plain.normal
}

fn watch_job(alloc: Global, plain: Job) -> Result<Job, AllocError>
    ensures { IfOk result (λ job. job ≡ job_over Watch plain) }
{
    let expr = Word::new(alloc, "")?;
    Ok(Job {
        mode: Mode::Watch { file: plain.expr },
        expr,
        ..plain
    })
}

fn check_job(alloc: Global, plain: Job) -> Result<Job, AllocError>
    ensures { IfOk result (λ job. job ≡ job_over Check plain) }
{
    let expr = Word::new(alloc, "")?;
    Ok(Job {
        mode: Mode::Check { file: plain.expr },
        expr,
        ..plain
    })
}

// Reads the words behind `--watch`.
fn read_watch(alloc: Global, words: &[String]) -> Result<Job, WordsFault>
    ensures ok { IfOk result (GivesOver MayWatch Watch (map string_bytes words.now)) }
    ensures is_job { IfOk result IsJob }
    ensures usage { IsErrOf result WordsFault.Usage → (job : Job) →
        ¬ GivesOver MayWatch Watch (map string_bytes words.now) job }
{
    let plain = read_options(alloc, words)?;
    if !may_watch(&plain) {
        return Err(WordsFault::Usage);
    }
    let job = watch_job(alloc, plain)?;
    Ok(job)
}

// Reads the words behind `--check`.
fn read_check(alloc: Global, words: &[String]) -> Result<Job, WordsFault>
    ensures ok { IfOk result (GivesOver MayReadFile Check (map string_bytes words.now)) }
    ensures is_job { IfOk result IsJob }
    ensures usage { IsErrOf result WordsFault.Usage → (job : Job) →
        ¬ GivesOver MayReadFile Check (map string_bytes words.now) job }
{
    let plain = read_options(alloc, words)?;
    if !may_read_file(&plain) {
        return Err(WordsFault::Usage);
    }
    let job = check_job(alloc, plain)?;
    Ok(job)
}

// Whether the first word is this.
fn begins_with(words: &[String], word: &str) -> bool
    ensures { result ≡ begins_with word.now (map string_bytes words.now) }
{
    match words.first() {
        Some(first) => first.as_str() == word,
        None => false,
    }
}

// How many segments the words of a made run write, where they are two.
fn made_count(words: &[String]) -> Option<u64>
    ensures { result ≡ made_count (map string_bytes words.now) }
{
    if words.len() != 2 {
        return None;
    }
    number_written(1, COUNT_MAX, words[1].as_str())
}

fn made_job(alloc: Global, count: u64) -> Result<Job, AllocError>
    ensures { IfOk result (λ job. job ≡ made_job count) }
{
    let input = Word::new(alloc, "-")?;
    let expr = Word::new(alloc, "")?;
    Ok(Job {
        mode: Mode::Generate { count },
        format: Format::Text,
        input,
        max_bytes: LIMIT_DEFAULT,
        scale: 0,
        unit: None,
        normal: false,
        max_zones: None,
        minus: None,
        lets: None,
        expr,
    })
}

// Reads the words of a made run.
fn read_made_run(alloc: Global, words: &[String]) -> Result<Job, WordsFault>
    ensures ok { IfOk result (λ job.
        option_map made_job (made_count (map string_bytes words.now)) ≡ Some job) }
    ensures is_job { IfOk result IsJob }
    ensures usage { IsErrOf result WordsFault.Usage →
        made_count (map string_bytes words.now) ≡ None }
{
    let Some(count) = made_count(words) else {
        return Err(WordsFault::Usage);
    };
    let job = made_job(alloc, count)?;
    Ok(job)
}

/// Reads the words after the program's name, which are
/// `[--online] [--show] [--format text|vcd|csv] [--input NAME] [--max-bytes N] [--scale K]
/// [--normal] [--max-zones L] [--minus EXPR2] [--let TEXT] [--define TEXT] [--unit U] EXPR`, or
/// `--generate K`, or
/// `--watch [--format text|vcd] [--input NAME] [--max-bytes N] [--scale K] [--define TEXT]
/// [--unit U] FILE`, or
/// `--check [--format text|vcd|csv] [--input NAME] [--max-bytes N] [--scale K] [--normal]
/// [--max-zones L] [--let TEXT] [--define TEXT] [--unit U] FILE`.
pub fn read_words(alloc: Global, words: &[String]) -> Result<Job, WordsFault>
    ensures ok { IfOk result (GivesJob (map string_bytes words.now)) }
    ensures is_job { IfOk result IsJob }
    ensures usage { IsErrOf result WordsFault.Usage → GivesNoJob (map string_bytes words.now) }
{
    if begins_with(words, "--generate") {
        return read_made_run(alloc, words);
    }
    if begins_with(words, "--watch") {
        return read_watch(alloc, &words[1..]);
    }
    if begins_with(words, "--check") {
        return read_check(alloc, &words[1..]);
    }
    read_options(alloc, words)
}
