// The summary of a made trace.
ghost use Rattle.std.specs.Prelude.{◌≡◌, ◌++◌, ◌≤◌, string_bytes, IfOk, OnOk};
ghost use Rattle.tre_syntax.specs.Pattern.{pattern_tree};
ghost use Rattle.tre_offline.specs.MatchSet.{IsMatchSet};
ghost use Rattle.tre_trace.specs.Trace.{quiet};
ghost use Rattle.tre_generate.specs.Made.{made_trace};
ghost use Rattle.tre_generate.specs.Summary.{count_line, share_line, summary_text, IsSummary};

use crate::made::made_trace;
use crate::tally::{Tally, count_probes};
use crate::told::told_zones;
use std::alloc::{AllocError, Global};
use tre_decimal::push_units;
use tre_offline::matches;
use tre_syntax::{Pattern, beside};
use tre_trace::Trace;
use tre_zoneset::ZoneSet;

/// How many segments a made trace may have.
pub const SEGMENTS_MAX: u64 = 10_000;

/// Makes the first `count` segments of the made trace, matches the pattern over them, whole and
/// segment by segment, and compares both at a probe for each segment.
pub fn summary(alloc: Global, pattern: Pattern, count: u64) -> Result<String, AllocError>
    requires some { 1 ≤ count }
    requires limit { count ≤ SEGMENTS_MAX }
    ensures { IfOk result (λ text. IsSummary (pattern_tree pattern) count (string_bytes text)) }
{
    let (trace, pattern) = beside(made_trace(alloc, count), pattern)?;
    summary_of(alloc, pattern, &trace, count)
}

fn summary_of(
    alloc: Global,
    pattern: Pattern,
    trace: &Trace,
    count: u64,
) -> Result<String, AllocError>
    requires some { 1 ≤ count }
    requires limit { count ≤ SEGMENTS_MAX }
    requires made { trace.now ≡ quiet (made_trace count) }
    ensures { IfOk result (λ text. IsSummary (pattern_tree pattern) count (string_bytes text)) }
{
    let (whole, pattern) = beside(matches(alloc, &pattern, trace), pattern)?;
    compared(alloc, pattern, trace, &whole, count)
}

// The summary, once the whole trace is matched.
fn compared(
    alloc: Global,
    pattern: Pattern,
    trace: &Trace,
    whole: &ZoneSet,
    count: u64,
) -> Result<String, AllocError>
    requires some { 1 ≤ count }
    requires limit { count ≤ SEGMENTS_MAX }
    requires made { trace.now ≡ quiet (made_trace count) }
    requires matched { IsMatchSet whole.now (pattern_tree pattern) (quiet (made_trace count)) }
    ensures { IfOk result (λ text. IsSummary (pattern_tree pattern) count (string_bytes text)) }
{
    let told = told_zones(alloc, pattern, trace)?;
    let tally = count_probes(trace, whole, &told);
    let zones = whole.zones().len() as u64;
    summary_text(alloc, count, trace.end(), zones, &tally)
}

// The five lines.
fn summary_text(
    alloc: Global,
    count: u64,
    end: u64,
    zones: u64,
    tally: &Tally,
) -> Result<String, AllocError>
    ensures { IfOk result (λ text. string_bytes text
        ≡ summary_text count end zones tally.now.held tally.now.alike tally.now.probes) }
{
    let mut text = String::new(alloc);
    push_number_line(&mut text, "segments ", count)?;
    push_number_line(&mut text, "end ", end)?;
    push_number_line(&mut text, "zones ", zones)?;
    push_share_line(&mut text, "held ", tally.held, tally.probes)?;
    push_share_line(&mut text, "alike ", tally.alike, tally.probes)?;
    Ok(text)
}

fn push_number_line(text: &mut String, word: &str, value: u64) -> Result<(), AllocError>
    ensures { OnOk result (string_bytes text.new
        ≡ string_bytes text.old ++ count_line word.now value) }
{
    text.push_str(word)?;
    push_units(text, value, 0)?;
    text.push_str("\n")
}

fn push_share_line(text: &mut String, word: &str, part: u64, all: u64) -> Result<(), AllocError>
    ensures { OnOk result (string_bytes text.new
        ≡ string_bytes text.old ++ share_line word.now part all) }
{
    text.push_str(word)?;
    push_units(text, part, 0)?;
    text.push_str(" of ")?;
    push_units(text, all, 0)?;
    text.push_str("\n")
}
