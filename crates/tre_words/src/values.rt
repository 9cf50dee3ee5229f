// What the values of the options say.
ghost use Rattle.std.specs.Prelude.{◌≡◌, ◌≤◌, ◌<◌, ◌^◌, ◌-◌, IfOk, IsErrOf, IfSome, Some, None, codes, option_and_then, option_map};
ghost use Rattle.std.specs.Option.{option_or};
ghost use Rattle.clap.specs.Words.{found_of, rows_of, first_of};
ghost use Rattle.tre_decimal.specs.declared.TheConstants.{SCALE_MAX};
ghost use Rattle.tre_unit.specs.Units.{unit_named};
ghost use Rattle.tre_words.specs.CommandLine.{found_in, FindsJob};
ghost use Rattle.tre_words.specs.Job.{mode_in, format_named, number_written};
ghost use Rattle.tre_words.specs.declared.job.Job.{Job};

use crate::command_line::{is_given, value_of};
use crate::job::{Format, Job, LIMIT_MAX, Mode, Word, WordsFault};
use clap::ArgMatches;
use std::alloc::{AllocError, Global};
use tre_decimal::{SCALE_MAX, read_numeral};
use tre_unit::TimeUnit;

fn mode_in(matches: &ArgMatches) -> Mode
    ensures { result ≡ mode_in (found_in (rows_of (found_of matches.now))) }
{
    if is_given(matches, "show") {
        return Mode::Show;
    }
    if is_given(matches, "online") {
        return Mode::Online;
    }
    Mode::Offline
}

fn format_named(text: &str) -> Option<Format>
    ensures { result ≡ format_named text.now }
{
    if text == "text" {
        return Some(Format::Text);
    }
    if text == "vcd" {
        return Some(Format::Vcd);
    }
    if text == "csv" {
        return Some(Format::Csv);
    }
    None
}

fn format_in(matches: &ArgMatches) -> Option<Format>
    ensures { result ≡ option_and_then format_named
        (first_of (codes "format") (rows_of (found_of matches.now))) }
{
    format_named(value_of(matches, "format")?)
}

// The number from `least` to `most` that the text writes.
pub(crate) fn number_written(least: u64, most: u64, text: &str) -> Option<u64>
    requires { most < 2 ^ 64 - 1 }
    ensures number { result ≡ number_written least most text.now }
    ensures within { IfSome result (λ number. number ≤ most) }
{
    let number = read_numeral(text.as_bytes())?;
    if number < least || number > most {
        return None;
    }
    Some(number)
}

fn limit_in(matches: &ArgMatches) -> Option<u64>
    ensures { result ≡ option_and_then (number_written 1 LIMIT_MAX)
        (first_of (codes "max-bytes") (rows_of (found_of matches.now))) }
{
    number_written(1, LIMIT_MAX, value_of(matches, "max-bytes")?)
}

fn scale_in(matches: &ArgMatches) -> Option<u8>
    ensures { result ≡ option_and_then (number_written 0 SCALE_MAX)
        (first_of (codes "scale") (rows_of (found_of matches.now))) }
{
    let scale = number_written(0, u64::from(SCALE_MAX), value_of(matches, "scale")?)?;
    Some(scale as u8)
}

// The unit of time, where the words give one; none where they give a word that is no unit.
fn unit_in(matches: &ArgMatches) -> Option<Option<TimeUnit>>
    ensures some { IfSome result (λ unit. option_map unit_named
        (first_of (codes "unit") (rows_of (found_of matches.now))) ≡ option_map Some unit) }
    ensures none { result ≡ None → option_map unit_named
        (first_of (codes "unit") (rows_of (found_of matches.now))) ≡ Some None }
{
    match value_of(matches, "unit") {
        Some(name) => match TimeUnit::named(name.as_bytes()) {
            Some(unit) => Some(Some(unit)),
            None => None,
        },
        None => Some(None),
    }
}

// The most zones, where the words limit them; none where the limit is no number that may be.
fn max_zones_in(matches: &ArgMatches) -> Option<Option<u64>>
    ensures some { IfSome result (λ most. option_map (number_written 0 LIMIT_MAX)
        (first_of (codes "max-zones") (rows_of (found_of matches.now))) ≡ option_map Some most) }
    ensures none { result ≡ None → option_map (number_written 0 LIMIT_MAX)
        (first_of (codes "max-zones") (rows_of (found_of matches.now))) ≡ Some None }
{
    match value_of(matches, "max-zones") {
        Some(text) => match number_written(0, LIMIT_MAX, text) {
            Some(most) => Some(Some(most)),
            None => None,
        },
        None => Some(None),
    }
}

// The value of an option that has none where it isn't given.
fn word_in(alloc: Global, matches: &ArgMatches, name: &str) -> Result<Option<Word>, AllocError>
    ensures { IfOk result (λ word. first_of name.now (rows_of (found_of matches.now)) ≡ word) }
{
    match value_of(matches, name) {
        Some(text) => Ok(Some(Word::new(alloc, text)?)),
        None => Ok(None),
    }
}

// The text of the definitions of names, by columns or by the signals of a dump.
fn lets_in(alloc: Global, matches: &ArgMatches) -> Result<Option<Word>, AllocError>
    ensures { IfOk result (λ word. option_or
        (first_of (codes "let") (rows_of (found_of matches.now)))
        (first_of (codes "define") (rows_of (found_of matches.now))) ≡ word) }
{
    match word_in(alloc, matches, "let")? {
        Some(text) => Ok(Some(text)),
        None => word_in(alloc, matches, "define"),
    }
}

// The job that the values of the options say, where they say one.
pub(crate) fn job_in(alloc: Global, matches: &ArgMatches) -> Result<Job, WordsFault>
    ensures ok { IfOk result (FindsJob (rows_of (found_of matches.now))) }
    ensures usage { IsErrOf result WordsFault.Usage →
        (job : Job) → FindsJob (rows_of (found_of matches.now)) job → ⊥ }
{
    let Some(format) = format_in(matches) else {
        return Err(WordsFault::Usage);
    };
    let Some(max_bytes) = limit_in(matches) else {
        return Err(WordsFault::Usage);
    };
    let Some(scale) = scale_in(matches) else {
        return Err(WordsFault::Usage);
    };
    let Some(max_zones) = max_zones_in(matches) else {
        return Err(WordsFault::Usage);
    };
    let Some(unit) = unit_in(matches) else {
        return Err(WordsFault::Usage);
    };
    let Some(input) = value_of(matches, "input") else {
        return Err(WordsFault::Usage);
    };
    let Some(expr) = value_of(matches, "EXPR") else {
        return Err(WordsFault::Usage);
    };
    let input = Word::new(alloc, input)?;
    let expr = Word::new(alloc, expr)?;
    let minus = word_in(alloc, matches, "minus")?;
    let lets = lets_in(alloc, matches)?;
    Ok(Job {
        mode: mode_in(matches),
        format,
        input,
        max_bytes,
        scale,
        unit,
        normal: is_given(matches, "normal"),
        max_zones,
        minus,
        lets,
        expr,
    })
}
