ghost use Rattle.std.specs.Prelude.{◌≡◌, ◌+◌, ◌≤◌, ◌<◌, ◌↔◌, ◌⊎◌, IsTrue, length, drop, OnOk, IfErr, IfOk, MatchResult};
ghost use Rattle.std.specs.Char.{is_newline};
ghost use Rattle.std.specs.List.{slice_split};
ghost use Rattle.tre_decimal.specs.declared.TheConstants.{SCALE_MAX};
ghost use Rattle.tre_watch.specs.Outcome.{ComesTo, IsOutcome, IsOutcomeFrom, Outcome, faulty, is_enough, judged, no_checks, planned, watched};
ghost use Rattle.tre_watch.specs.Steps.{AnswersChecks, FitTogether, NeverMemoryInside, known_in, spelt_checks};
ghost use Rattle.tre_watch.specs.declared.fault.WatchFault.{WatchFault};

use crate::add::add_line;
use crate::checks::{Checks, Meanings};
use crate::fault::WatchFault;
use crate::form::Form;
use memchr::memchr;
use std::alloc::Global;
use tre_state::Names;

/// How many bytes a file may have.
pub const FILE_MAX: usize = 1_048_576;

/// The plan that the bytes of a file say, each of its patterns at the scale: checks that are to be
/// watched, all of them plain.
///
/// The first 1,048,577 bytes of a file are enough to be given, since more make no other answer.
pub fn read_plan(alloc: Global, bytes: &[u8], scale: u8) -> Result<Checks, WatchFault>
    requires { scale ≤ SCALE_MAX }
    ensures outcome { AnswersChecks (IsOutcome watched scale bytes.now) result }
    ensures only { (outcome : Outcome) → IsOutcome watched scale bytes.now outcome →
        AnswersChecks (λ answer. outcome ≡ answer) result }
    ensures never_memory { IfErr result NeverMemoryInside }
    ensures fit { IfOk result (λ checks. FitTogether (spelt_checks checks)) }
    ensures some { IfOk result (λ checks. 0 < length checks.names) }
{
    read_file(alloc, bytes, scale, false, Meanings::Nothing)
}

/// The checks that the bytes of a file say, each of its patterns at the scale, and at least one of
/// them with a verdict. Its definitions come behind those that are there, and count on all lines.
///
/// The first 1,048,577 bytes of a file are enough to be given, since more make no other answer.
pub fn read_checks(
    alloc: Global,
    bytes: &[u8],
    scale: u8,
    meanings: Meanings,
) -> Result<Checks, WatchFault>
    requires { scale ≤ SCALE_MAX }
    ensures outcome { AnswersChecks (IsOutcome (judged (known_in meanings)) scale bytes.now) result }
    ensures only { (outcome : Outcome) →
        IsOutcome (judged (known_in meanings)) scale bytes.now outcome →
        AnswersChecks (λ answer. outcome ≡ answer) result }
    ensures never_memory { IfErr result NeverMemoryInside }
    ensures fit { IfOk result (λ checks. FitTogether (spelt_checks checks)) }
    ensures some { IfOk result (λ checks. 0 < length checks.names) }
{
    read_file(alloc, bytes, scale, true, meanings)
}

// The checks that the bytes say. Verdicts are asked for, or not.
fn read_file(
    alloc: Global,
    bytes: &[u8],
    scale: u8,
    verdicts: bool,
    meanings: Meanings,
) -> Result<Checks, WatchFault>
    requires { scale ≤ SCALE_MAX }
    ensures outcome { AnswersChecks (ComesTo verdicts (known_in meanings) scale bytes.now) result }
    ensures only { (outcome : Outcome) →
        ComesTo verdicts (known_in meanings) scale bytes.now outcome →
        AnswersChecks (λ answer. outcome ≡ answer) result }
    ensures never_memory { IfErr result NeverMemoryInside }
    ensures fit { IfOk result (λ checks. FitTogether (spelt_checks checks)) }
    ensures some { IfOk result (λ checks. 0 < length checks.names) }
{
    if is_too_large(bytes) {
        return Err(WatchFault::TooLarge);
    }
    read_lines(alloc, bytes, scale, verdicts, meanings)
}

fn is_too_large(bytes: &[u8]) -> bool
    ensures { IsTrue result ↔ (FILE_MAX < length bytes.now) }
{
    bytes.len() > FILE_MAX
}

// The checks that the lines of the bytes say.
fn read_lines(
    alloc: Global,
    bytes: &[u8],
    scale: u8,
    verdicts: bool,
    meanings: Meanings,
) -> Result<Checks, WatchFault>
    requires small { length bytes.now ≤ FILE_MAX }
    requires scale { scale ≤ SCALE_MAX }
    ensures outcome { AnswersChecks (IsOutcomeFrom verdicts scale (no_checks (known_in meanings)) 1
        (slice_split is_newline bytes.now)) result }
    ensures never_memory { IfErr result NeverMemoryInside }
    ensures fit { IfOk result (λ checks. FitTogether (spelt_checks checks)) }
    ensures some { IfOk result (λ checks. 0 < length checks.names) }
{
    let mut checks = Checks {
        names: Names::new(alloc),
        forms: Vec::new(alloc),
        patterns: Vec::new(alloc),
        meanings,
    };
    match add_lines(alloc, &mut checks, scale, verdicts, bytes) {
        Ok(()) => Ok(checks),
        Err(fault) => Err(fault),
    }
}

// Adds what the lines of the bytes say.
fn add_lines(
    alloc: Global,
    checks: &mut Checks,
    scale: u8,
    verdicts: bool,
    bytes: &[u8],
) -> Result<(), WatchFault>
    requires small { length bytes.now ≤ FILE_MAX }
    requires scale { scale ≤ SCALE_MAX }
    requires fit { FitTogether (spelt_checks checks.old) }
    ensures outcome { MatchResult result
        (λ _. IsOutcomeFrom verdicts scale (spelt_checks checks.old) 1
        (slice_split is_newline bytes.now) (planned (spelt_checks checks.new)))
        (λ fault. (fault ≡ WatchFault.Memory)
        ⊎ IsOutcomeFrom verdicts scale (spelt_checks checks.old) 1
        (slice_split is_newline bytes.now) (faulty fault)) }
    ensures never_memory { IfErr result NeverMemoryInside }
    ensures fit { OnOk result (FitTogether (spelt_checks checks.new)) }
    ensures some { OnOk result (0 < length checks.new.names) }
{
    let mut rest = bytes;
    let mut number = 1;
    while let Some(end) = memchr(b'\n', rest) {
        add_line(alloc, checks, verdicts, scale, number, &rest[..end])?;
        rest = behind_line(rest, end);
        number += 1;
    }
    add_line(alloc, checks, verdicts, scale, number, rest)?;
    if !is_enough(&checks.forms, verdicts) {
        return Err(WatchFault::Empty);
    }
    Ok(())
}

// What stands behind a line that ends at this place.
fn behind_line(rest: &[u8], end: usize) -> &[u8]
    requires { end < length rest.now }
    ensures { result.now ≡ drop (end + 1) rest.now }
{
    &rest[end + 1..]
}

// Whether there is a check, and one with a verdict where these are asked for.
fn is_enough(forms: &[Form], verdicts: bool) -> bool
    ensures { result ≡ is_enough verdicts forms.now }
{
    forms.iter().any(|form| form.has_verdict() || !verdicts)
}
