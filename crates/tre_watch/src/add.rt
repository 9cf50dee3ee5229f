// What the lines of a file add, one after another.
ghost use Rattle.std.specs.Prelude.{◌≡◌, ◌≤◌, ℕ, List, [], ◌∷◌, ◌++◌, replicate, string_bytes, None, IfOk, MatchResult};
ghost use Rattle.std.specs.Str.{IsAscii};
ghost use Rattle.tre_decimal.specs.declared.TheConstants.{SCALE_MAX};
ghost use Rattle.tre_define.specs.declared.let_fault.LetFault.{LetFault};
ghost use Rattle.tre_state.specs.Name.{IsName};
ghost use Rattle.tre_state.specs.Names.{place_of};
ghost use Rattle.tre_watch.specs.declared.fault.WatchFault.{WatchFault};
ghost use Rattle.tre_watch.specs.Lines.{Says, check as a_check};
ghost use Rattle.tre_watch.specs.Outcome.{let_fault, may_stand};
ghost use Rattle.tre_watch.specs.Steps.{AddsDefinition, AddsPatterns, FindsPattern, IsFaultAt, LineLeads, LineStops, known_in, spelt_checks, texts_of};

use crate::checks::{Checks, Meanings};
use crate::fault::WatchFault;
use crate::form::Form;
use crate::line::{Check, Line, read_line};
use std::alloc::{AllocError, Global};
use tre_define::{LetFault, add_signal};
use tre_num::add_definition;
use tre_parse::{ParseFault, parse};
use tre_state::NAMES_MAX;
use tre_syntax::Pattern;

// Adds what the line says, if it says something. Verdicts may be asked for, or not.
pub(crate) fn add_line(
    alloc: Global,
    checks: &mut Checks,
    verdicts: bool,
    scale: u8,
    number: u64,
    line: &[u8],
) -> Result<(), WatchFault>
    requires { scale ≤ SCALE_MAX }
    ensures { MatchResult result
        (λ _. LineLeads verdicts scale number line.now (spelt_checks checks.old)
        (spelt_checks checks.new))
        (λ fault. LineStops verdicts scale number line.now (spelt_checks checks.old) fault) }
{
    match read_line(line) {
        Line::Silent => Ok(()),
        Line::Bad => Err(WatchFault::BadLine { line: number }),
        Line::Check(check) => add_check(alloc, checks, verdicts, scale, number, check),
        Line::Let(text) => add_let(alloc, &mut checks.meanings, number, text),
    }
}

// Adds a check that stands on the line of this number.
fn add_check(
    alloc: Global,
    checks: &mut Checks,
    verdicts: bool,
    scale: u8,
    number: u64,
    check: Check<'_>,
) -> Result<(), WatchFault>
    requires scale { scale ≤ SCALE_MAX }
    requires is_name { IsName check.name.now }
    ensures { (line : List ℕ) →
        Says line (a_check check.entry.form check.entry.name.now (texts_of check.entry)) →
        MatchResult result
        (λ _. LineLeads verdicts scale number line (spelt_checks checks.old)
        (spelt_checks checks.new))
        (λ fault. LineStops verdicts scale number line (spelt_checks checks.old) fault) }
{
    if !may_stand(check.form, verdicts) {
        return Err(WatchFault::BadLine { line: number });
    }
    if checks.names.len() >= NAMES_MAX {
        return Err(WatchFault::TooMany { line: number });
    }
    if checks.names.find(check.name).is_some() {
        return Err(WatchFault::Twice { line: number });
    }
    match add_patterns(alloc, &mut checks.patterns, scale, number, check) {
        Ok(()) => add_name(checks, check),
        Err(fault) => Err(fault),
    }
}

// A form that has a verdict stands only where verdicts are asked for.
fn may_stand(form: Form, verdicts: bool) -> bool
    ensures { result ≡ may_stand verdicts form }
{
    verdicts || !form.has_verdict()
}

// Adds the name and the form of a check whose patterns are there.
fn add_name(checks: &mut Checks, check: Check<'_>) -> Result<(), WatchFault>
    requires is_name { IsName check.name.now }
    requires absent { place_of checks.old.names check.name.now ≡ None }
    ensures { MatchResult result
        (λ _. (checks.new.names ≡ checks.old.names ++ check.entry.name.now ∷ [])
        × (checks.new.forms.items ≡ checks.old.forms.items ++ check.entry.form ∷ [])
        × (checks.new.patterns ≡ checks.old.patterns)
        × (checks.new.meanings ≡ checks.old.meanings))
        (λ fault. fault ≡ WatchFault.Memory) }
{
    match checks.names.number(check.name) {
        Ok(_) => push(&mut checks.forms, check.form),
        Err(_) => Err(WatchFault::Memory),
    }
}

// Adds the patterns of a check.
fn add_patterns(
    alloc: Global,
    patterns: &mut Vec<Pattern>,
    scale: u8,
    number: u64,
    check: Check<'_>,
) -> Result<(), WatchFault>
    requires { scale ≤ SCALE_MAX }
    ensures { AddsPatterns scale (texts_of check.entry) number patterns.old.items patterns.new.items
        result }
{
    match add_pattern(alloc, patterns, scale, number, check.first) {
        Ok(()) => {}
        Err(fault) => return Err(fault),
    }
    let Some((place, text)) = check.second else {
        return Ok(());
    };
    match shifted(alloc, place, text) {
        Ok(second) => add_pattern(alloc, patterns, scale, number, second.as_str()),
        Err(_) => Err(WatchFault::Memory),
    }
}

// Adds the pattern of a text on the line of this number.
fn add_pattern(
    alloc: Global,
    patterns: &mut Vec<Pattern>,
    scale: u8,
    number: u64,
    text: &str,
) -> Result<(), WatchFault>
    requires { scale ≤ SCALE_MAX }
    ensures { AddsPatterns scale (text.now ∷ []) number patterns.old.items patterns.new.items
        result }
{
    match pattern_of(alloc, scale, number, text) {
        Ok(pattern) => push(patterns, pattern),
        Err(fault) => Err(fault),
    }
}

// Whatever is added is let go in one way, where a pattern has one for each form of its expression.
fn push<T: Drop>(list: &mut Vec<T>, value: T) -> Result<(), WatchFault>
    ensures { MatchResult result
        (λ _. list.new.items ≡ list.old.items ++ value ∷ [])
        (λ fault. fault ≡ WatchFault.Memory) }
{
    match list.push(value) {
        Ok(()) => Ok(()),
        Err(_) => Err(WatchFault::Memory),
    }
}

// The text behind so many spaces.
fn shifted(alloc: Global, count: usize, text: &str) -> Result<String, AllocError>
    ensures { IfOk result (λ made. string_bytes made ≡ replicate count 32 ++ text.now) }
{
    let mut made = String::new(alloc);
    for _ in 0..count {
        made.push_str(" ")?;
    }
    made.push_str(text)?;
    Ok(made)
}

// The pattern of the text on the line of this number.
fn pattern_of(alloc: Global, scale: u8, number: u64, text: &str) -> Result<Pattern, WatchFault>
    requires { scale ≤ SCALE_MAX }
    ensures { FindsPattern scale text.now number result }
{
    match parse(alloc, text, scale) {
        Ok(pattern) => Ok(pattern),
        Err(fault) => Err(fault_at(number, fault)),
    }
}

fn fault_at(line: u64, fault: ParseFault) -> WatchFault
    ensures { IsFaultAt line fault result }
{
    match fault {
        ParseFault::Memory => WatchFault::Memory,
        _ => WatchFault::Pattern { line, fault },
    }
}

// Adds the definition of this text, which stands on the line of this number.
fn add_let(
    alloc: Global,
    meanings: &mut Meanings,
    number: u64,
    text: &str,
) -> Result<(), WatchFault>
    ensures { AddsDefinition text.now number (known_in meanings.old) (known_in meanings.new)
        result }
{
    let added = match meanings {
        Meanings::Nothing => return Err(WatchFault::BadLine { line: number }),
        Meanings::Signals(signals) => add_signal(alloc, signals, text.as_bytes()),
        Meanings::Columns(columns) => add_definition(alloc, columns, text.as_bytes()),
    };
    match added {
        Ok(()) => Ok(()),
        Err(fault) => Err(let_fault(number, fault)),
    }
}

fn let_fault(line: u64, fault: LetFault) -> WatchFault
    ensures { result ≡ let_fault line fault }
{
    match fault {
        LetFault::BadLet { .. } => WatchFault::BadLine { line },
        LetFault::Twice { .. } => WatchFault::Twice { line },
        LetFault::Memory => WatchFault::Memory,
    }
}
