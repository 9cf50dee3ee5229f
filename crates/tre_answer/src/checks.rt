// What becomes of checks over a whole input.
ghost use Rattle.std.specs.Prelude.{◌≡◌, ◌≤◌, ◌<◌, ◌+◌, [], ◌∷◌, true, false, drop, get_or, length, map, IsTrue, IfErr, IfOk, IfSome, OnOk};
ghost use Rattle.tre_answer.specs.Ends.{has_checks};
ghost use Rattle.tre_answer.specs.Findings.{AreFindings, IsJudgedSo, failed_in, findings_text, is_failed, zones_in};
ghost use Rattle.tre_answer.specs.Listed.{listed_zones};
ghost use Rattle.tre_answer.specs.Parts.{IsFoundFor, IsInputOf, IsLimitFault, IsRuling, StopsAs};
ghost use Rattle.tre_answer.specs.Printing.{finding_of};
ghost use Rattle.tre_answer.specs.Request.{FitsJob, request_over, sought_in};
ghost use Rattle.tre_feed.specs.Input.{TakesAtMost, input_told};
ghost use Rattle.tre_feed.specs.Standing.{IsNew, recording_of};
ghost use Rattle.tre_syntax.specs.Pattern.{pattern_tree};
ghost use Rattle.tre_syntax.specs.PatternTree.{PatternTree};
ghost use Rattle.tre_trace.specs.Trace.{Timeline, end_of, quiet};
ghost use Rattle.tre_watch.specs.Forms.{patterns_in, patterns_of};
ghost use Rattle.tre_words.specs.Job.{IsJob};

use crate::asked::Asked;
use crate::listed::Listed;
use crate::offline::{listed_matches, zones_for};
use std::alloc::{AllocError, Global};
use tre_feed::{Fault, Input};
use tre_io::Source;
use tre_judge::{Verdict, judge, judge_alone};
use tre_offline::into_matches;
use tre_packed::{AnyTrace, Packed};
use tre_show::Zones;
use tre_syntax::Pattern;
use tre_trace::TraceReader;
use tre_watch::Form;
use tre_words::Job;
use tre_zoneset::ZoneSet;

/// A check's name, its verdict, and the zones that are shown with it.
#[derive(Drop)]
pub struct Checked {
    pub name: String,
    pub verdict: Verdict,
    pub zones: Listed,
}

/// What became of all checks, and where the recording ends.
#[derive(Drop)]
pub struct Checks {
    pub all: Vec<Checked>,
    pub end: u64,
}

// A verdict, and the zones that are shown with it.
#[derive(Drop)]
struct Ruling {
    verdict: Verdict,
    zones: Listed,
}

/// The checks of a job over its input, with no more zones than there may be.
pub fn find_checks<S: Source, R: TraceReader + Drop>(
    alloc: Global,
    asked: &Asked,
    job: &Job,
    input: Input<R>,
    source: &mut S,
) -> Result<Checks, Fault>
    requires closed { (S.told source.old).opened ≡ false }
    requires job { IsJob job.now }
    requires checks { has_checks job.now.mode ≡ true }
    requires fits { FitsJob job.now asked.now }
    requires input { IsInputOf R.names asked.now job.now input }
    requires new { IsNew R.terms R.represents R.names input }
    ensures found { IfOk result (λ found. IsFoundFor (failed_in (map finding_of found.all.items))
        (request_over job.now asked.now (recording_of R.recording R.terms input))
        (input_told (S.told source.old) (S.told source.new))
        (findings_text job.now.scale (map finding_of found.all.items) found.end)) }
    ensures stops { IfErr result (StopsAs
        (request_over job.now asked.now (recording_of R.recording R.terms input))
        (input_told (S.told source.old) (S.told source.new))) }
    ensures bounded { IsTrue (S.told source.new).opened →
        TakesAtMost (job.now.max_bytes + 1) (S.told source.old).file (S.told source.new).left }
    ensures by_name { IsTrue (S.told source.new).opened →
        IfSome (S.told source.old).name (λ told. told ≡ job.now.input) }
{
    let traces = input.read_traces(alloc, job.input.text(), source)?;
    let found = checks_over(alloc, asked, traces, job.normal)?;
    limit_zones(&found.all, job.max_zones)?;
    Ok(found)
}

/// How many checks failed.
pub fn count_failed(checks: &[Checked]) -> u64
    ensures { result ≡ failed_in (map finding_of checks.now) }
{
    let mut failed = 0;
    for checked in checks {
        if has_failed(checked) {
            failed += 1;
        }
    }
    failed
}

fn has_failed(checked: &Checked) -> bool
    ensures { result ≡ is_failed checked.now.verdict }
{
    matches!(checked.verdict, Verdict::Failed)
}

// How many zones all of them have together, if a number says it.
fn count_zones(checks: &[Checked]) -> Option<u64>
    ensures { IfSome result (λ zones. zones ≡ zones_in (map finding_of checks.now)) }
{
    let mut zones: u64 = 0;
    for checked in checks {
        zones = zones.checked_add(checked.zones.count() as u64)?;
    }
    Some(zones)
}

// Refuses more zones than there may be. No memory has more than a number says.
fn limit_zones(checks: &[Checked], most: Option<u64>) -> Result<(), Fault>
    ensures few { OnOk result
        (IfSome most (λ most. zones_in (map finding_of checks.now) ≤ most)) }
    ensures fault { IfErr result (IsLimitFault (zones_in (map finding_of checks.now)) most) }
{
    let Some(most) = most else {
        return Ok(());
    };
    match count_zones(checks) {
        None => Err(Fault::Memory),
        Some(zones) if zones > most => Err(Fault::TooManyZones { zones }),
        Some(_) => Ok(()),
    }
}

// What becomes of the checks over these traces, and where those end.
fn checks_over(
    alloc: Global,
    asked: &Asked,
    traces: Vec<Packed>,
    normal: bool,
) -> Result<Checks, AllocError>
    requires labels { length asked.now.labels.items ≡ length asked.now.patterns.items }
    requires forms { patterns_in asked.now.forms.items ≡ length asked.now.patterns.items }
    requires some { 0 < length asked.now.patterns.items }
    requires count { length traces.items ≡ length asked.now.patterns.items }
    ensures found { IfOk result (λ found. AreFindings normal asked.now.forms.items
        (sought_in asked.now) traces.items (map finding_of found.all.items)) }
    ensures end { IfOk result (λ found.
        found.end ≡ end_of 0 (get_or traces.items 0 (quiet [])).segments) }
{
    let end = traces[0].end();
    let all = check_all(alloc, asked, traces, normal)?;
    Ok(Checks { all, end })
}

// What becomes of each check, one after another. Its traces go as soon as it is judged.
fn check_all(
    alloc: Global,
    asked: &Asked,
    traces: Vec<Packed>,
    normal: bool,
) -> Result<Vec<Checked>, AllocError>
    requires labels { length asked.now.labels.items ≡ length asked.now.patterns.items }
    requires forms { patterns_in asked.now.forms.items ≡ length asked.now.patterns.items }
    requires count { length traces.items ≡ length asked.now.patterns.items }
    ensures { IfOk result (λ all. AreFindings normal asked.now.forms.items (sought_in asked.now)
        traces.items (map finding_of all.items)) }
{
    let mut left = traces;
    let mut all = Vec::new(alloc);
    let mut place = 0;
    for form in &asked.forms {
        let ruling = rule(alloc, *form, &asked.patterns[place..], &mut left, normal)?;
        all.push(named(alloc, &asked.labels[place], ruling)?)?;
        place += patterns_of(*form);
    }
    Ok(all)
}

fn named(alloc: Global, name: &str, ruling: Ruling) -> Result<Checked, AllocError>
    ensures { IfOk result (λ checked. finding_of checked ≡ record {
      name = name.now;
      verdict = ruling.verdict;
      zones = listed_zones ruling.zones;
    }) }
{
    let name = String::from_str(alloc, name)?;
    let Ruling { verdict, zones } = ruling;
    Ok(Checked {
        name,
        verdict,
        zones,
    })
}

// How many patterns a check of this form has.
fn patterns_of(form: Form) -> usize
    ensures { result ≡ patterns_of form }
{
    match form {
        Form::Same | Form::Follows => 2,
        _ => 1,
    }
}

// The ruling on the check whose patterns these begin with. Its traces are taken.
fn rule(
    alloc: Global,
    form: Form,
    patterns: &[Pattern],
    traces: &mut Vec<Packed>,
    normal: bool,
) -> Result<Ruling, AllocError>
    requires patterns { patterns_of form ≤ length patterns.now }
    requires traces { patterns_of form ≤ length traces.old.items }
    ensures ruling { IfOk result (λ ruling. IsRuling normal form patterns.now traces.old.items
        ruling.verdict (listed_zones ruling.zones)) }
    ensures taken { OnOk result (traces.new.items ≡ drop (patterns_of form) traces.old.items) }
{
    let trace = traces.remove(0);
    if patterns_of(form) == 1 {
        return rule_alone(alloc, form, &patterns[..1], trace, normal);
    }
    let other = traces.remove(0);
    rule_both(alloc, form, &patterns[..2], trace, &other, normal)
}

// The ruling on a check of one pattern.
fn rule_alone(
    alloc: Global,
    form: Form,
    patterns: &[Pattern],
    trace: Packed,
    normal: bool,
) -> Result<Ruling, AllocError>
    requires one { length patterns.now ≡ 1 }
    requires form { patterns_of form ≡ 1 }
    ensures { IfOk result (λ ruling. (pattern : Pattern) → pattern ≡ get_or patterns.now 0 pattern
        → (second : PatternTree) (other : Timeline)
        → IsJudgedSo normal form (pattern_tree pattern) trace second other
        ruling.verdict (listed_zones ruling.zones)) }
{
    match form {
        Form::Found => rule_found(alloc, &patterns[0], trace, normal),
        _ => {
            let zones = listed_matches(alloc, patterns, trace, &[], normal)?;
            let verdict = judge_alone(form, zones.count());
            Ok(Ruling { verdict, zones })
        }
    }
}

// The ruling on whether the pattern has a match: nothing is shown.
fn rule_found(
    alloc: Global,
    pattern: &Pattern,
    trace: Packed,
    normal: bool,
) -> Result<Ruling, AllocError>
    ensures { IfOk result (λ ruling. (second : PatternTree) (other : Timeline)
        → IsJudgedSo normal Form.Found (pattern_tree pattern.now) trace second other
        ruling.verdict (listed_zones ruling.zones)) }
{
    let matches = into_matches(alloc, pattern, trace)?;
    let verdict = judge_alone(Form::Found, matches.zones().len());
    let none = zones_for(alloc, ZoneSet::new(alloc), normal)?;
    Ok(Ruling {
        verdict,
        zones: Listed::Zones(none),
    })
}

// The ruling on a check of two patterns.
fn rule_both(
    alloc: Global,
    form: Form,
    patterns: &[Pattern],
    trace: Packed,
    other: &Packed,
    normal: bool,
) -> Result<Ruling, AllocError>
    requires both { length patterns.now ≡ 2 }
    requires form { patterns_of form ≡ 2 }
    ensures { IfOk result (λ ruling. IsRuling normal form patterns.now (trace ∷ other.now ∷ [])
        ruling.verdict (listed_zones ruling.zones)) }
{
    let judged = judge(alloc, form, &patterns[0], trace, &patterns[1], other)?;
    let zones = zones_for(alloc, judged.shown, normal)?;
    Ok(Ruling {
        verdict: judged.verdict,
        zones: Listed::Zones(zones),
    })
}
