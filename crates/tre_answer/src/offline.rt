// The matches over a whole input, told at once.
ghost use Rattle.std.specs.Prelude.{◌≡◌, ◌≤◌, ◌<◌, ◌+◌, ℕ, List, [], ◌∷◌, false, get_or, IsTrue, IfOk, IfErr, IfSome, IsSomeAnd, OnOk, length};
ghost use Rattle.tre_answer.specs.Listed.{AreWantedZones, listed_zones};
ghost use Rattle.tre_answer.specs.Parts.{IsFoundFor, IsInputOf, StopsAs};
ghost use Rattle.tre_answer.specs.Request.{FitsJob, request_over};
ghost use Rattle.tre_answer.specs.Wanted.{AreZonesOf, IsWanted, MatchesSome};
ghost use Rattle.tre_feed.specs.Input.{TakesAtMost, input_told};
ghost use Rattle.tre_feed.specs.Standing.{IsNew, recording_of};
ghost use Rattle.tre_pairs.specs.Except.{Except};
ghost use Rattle.tre_show.specs.Line.{offline_text};
ghost use Rattle.tre_tell.specs.Sought.{sought_by};
ghost use Rattle.tre_trace.specs.Trace.{end_of, quiet};
ghost use Rattle.tre_words.specs.Job.{IsJob};
ghost use Rattle.tre_zone.specs.ZoneList.{HoldExactly, SetHolds};
ghost use Rattle.tre_zoneset.specs.ZoneSet.{IsZoneSet};

use crate::asked::Asked;
use crate::listed::Listed;
use std::alloc::{AllocError, Global};
use tre_feed::{Fault, Input};
use tre_io::Source;
use tre_minus::minus;
use tre_offline::{into_matches, matches_among, run_matches};
use tre_packed::{AnyTrace, Packed};
use tre_show::laws::later_rise;
use tre_show::{Zones, in_printed_order};
use tre_strips::strips;
use tre_syntax::Pattern;
use tre_trace::TraceReader;
use tre_words::{Job, Mode};
use tre_zone::Zone;
use tre_zoneset::ZoneSet;

/// What is printed of the matches that are wanted of an input, and where it ends.
#[derive(Drop)]
pub struct Matches {
    pub zones: Listed,
    pub end: u64,
}

// The matches of the first pattern over its trace that are matches of none of the others, each over
// its own. The first trace goes as soon as its matches need it no more.
fn wanted_matches(
    alloc: Global,
    patterns: &[Pattern],
    first: Packed,
    others: &[Packed],
) -> Result<ZoneSet, AllocError>
    requires { length patterns.now ≡ length others.now + 1 }
    ensures { IfOk result (λ set. (labels : List (List ℕ)) →
        length labels ≡ length patterns.now →
        HoldExactly set (IsWanted (sought_by labels patterns.now) (first ∷ others.now))) }
{
    let set = into_matches(alloc, &patterns[0], first)?;
    let left = without_others(alloc, set, &patterns[1..], others)?;
    Ok(left)
}

// What is left of a set without the matches of these patterns, each over its trace.
fn without_others(
    alloc: Global,
    set: ZoneSet,
    patterns: &[Pattern],
    traces: &[Packed],
) -> Result<ZoneSet, AllocError>
    requires count { length traces.now ≡ length patterns.now }
    ensures { IfOk result (λ left. (labels : List (List ℕ)) →
        length labels ≡ length patterns.now →
        HoldExactly left
        (Except (SetHolds set) (MatchesSome (sought_by labels patterns.now) traces.now))) }
{
    let mut left = set;
    for place in 0..patterns.len() {
        let others = matches_among(alloc, &patterns[place], &traces[place], &left)?;
        left = minus(alloc, &left, &others)?;
    }
    Ok(left)
}

// The zones that are printed of them.
fn wanted_zones(
    alloc: Global,
    patterns: &[Pattern],
    first: Packed,
    others: &[Packed],
    normal: bool,
) -> Result<Listed, AllocError>
    requires { length patterns.now ≡ length others.now + 1 }
    ensures { IfOk result (λ zones.
        AreWantedZones normal patterns.now (first ∷ others.now) (listed_zones zones)) }
{
    let set = wanted_matches(alloc, patterns, first, others)?;
    let zones = zones_for(alloc, set, normal)?;
    Ok(Listed::Zones(zones))
}

/// The same, as runs where they are kept so: the matches of one pattern, unless the canonical zones
/// are wanted.
pub fn listed_matches(
    alloc: Global,
    patterns: &[Pattern],
    first: Packed,
    others: &[Packed],
    normal: bool,
) -> Result<Listed, AllocError>
    requires { length patterns.now ≡ length others.now + 1 }
    ensures { IfOk result (λ zones.
        AreWantedZones normal patterns.now (first ∷ others.now) (listed_zones zones)) }
{
    if patterns.len() > 1 || normal {
        return wanted_zones(alloc, patterns, first, others, normal);
    }
    match run_matches(alloc, &patterns[0], first)? {
        Ok(runs) => {
            // For the proof: the calls say how the zones stand.
            let _count = runs.len();
            later_rise();
            Ok(Listed::Runs(runs))
        }
        Err(first) => wanted_zones(alloc, patterns, first, others, normal),
    }
}

// The zones that are printed of the matches that are wanted, and where the first trace ends.
fn printed_matches(
    alloc: Global,
    patterns: &[Pattern],
    traces: Vec<Packed>,
    normal: bool,
) -> Result<Matches, AllocError>
    requires some { 0 < length patterns.now }
    requires count { length traces.items ≡ length patterns.now }
    ensures zones { IfOk result (λ found.
        AreWantedZones normal patterns.now traces.items (listed_zones found.zones)) }
    ensures end { IfOk result (λ found.
        found.end ≡ end_of 0 (get_or traces.items 0 (quiet [])).segments) }
{
    let mut traces = traces;
    let first = traces.remove(0);
    let end = first.end();
    let zones = listed_matches(alloc, patterns, first, &traces, normal)?;
    Ok(Matches { zones, end })
}

/// The zones that a job asks for of a set: the canonical ones, or those of the set as they are.
pub fn zones_for(alloc: Global, set: ZoneSet, normal: bool) -> Result<Vec<Zone>, AllocError>
    ensures zones { IfOk result (λ zones. AreZonesOf normal (SetHolds set) zones.items) }
    ensures set { OnOk result (IsZoneSet set) }
{
    if normal {
        // For the proof: the call says what a set is.
        let _zones = set.zones();
        let zones = strips(alloc, &set)?;
        return Ok(zones);
    }
    Ok(in_printed_order(set.into_zones()))
}

// Refuses more zones than there may be.
fn check_count(zones: &Listed, most: Option<u64>) -> Result<(), Fault>
    ensures few { OnOk result (IfSome most (λ most. length (listed_zones zones.now) ≤ most)) }
    ensures fault { IfErr result (λ fault.
        fault ≡ Fault.TooManyZones (length (listed_zones zones.now))) }
    ensures over { IfErr result (λ _.
        IsSomeAnd most (λ most. most < length (listed_zones zones.now))) }
{
    match most {
        None => Ok(()),
        Some(most) => {
            let zones = zones.count() as u64;
            if zones > most {
                return Err(Fault::TooManyZones { zones });
            }
            Ok(())
        }
    }
}

/// The matches that are wanted over the job's input, no more of them than there may be.
pub fn find_matches<S: Source, R: TraceReader + Drop>(
    alloc: Global,
    asked: &Asked,
    job: &Job,
    input: Input<R>,
    source: &mut S,
) -> Result<Matches, Fault>
    requires closed { (S.told source.old).opened ≡ false }
    requires job { IsJob job.now }
    requires offline { job.now.mode ≡ Mode.Offline }
    requires fits { FitsJob job.now asked.now }
    requires input { IsInputOf R.names asked.now job.now input }
    requires new { IsNew R.terms R.represents R.names input }
    ensures found { IfOk result (λ found. IsFoundFor 0
        (request_over job.now asked.now (recording_of R.recording R.terms input))
        (input_told (S.told source.old) (S.told source.new))
        (offline_text job.now.scale (listed_zones found.zones) found.end)) }
    ensures stops { IfErr result (StopsAs
        (request_over job.now asked.now (recording_of R.recording R.terms input))
        (input_told (S.told source.old) (S.told source.new))) }
    ensures bounded { IsTrue (S.told source.new).opened →
        TakesAtMost (job.now.max_bytes + 1) (S.told source.old).file (S.told source.new).left }
    ensures by_name { IsTrue (S.told source.new).opened →
        IfSome (S.told source.old).name (λ told. told ≡ job.now.input) }
{
    let traces = input.read_traces(alloc, job.input.text(), source)?;
    let found = printed_matches(alloc, &asked.patterns, traces, job.normal)?;
    check_count(&found.zones, job.max_zones)?;
    Ok(found)
}
