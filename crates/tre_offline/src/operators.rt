// The operators of expressions, each on the matches of its parts: on those of them that last at
// most `longest`, and of its own those alone. Where there is no longest, these are all. The last
// part comes as it was looked for, and is opened here, so that it is dropped in one place.
ghost use Rattle.std.specs.Prelude.{◌≡◌, ◌≤◌, ◌↔◌, ℕ, Option, IfOk};
ghost use Rattle.tre_pairs.specs.Pairs.{Lasting};
ghost use Rattle.tre_pairs.specs.declared.TheConstants.{TIME_MAX};
ghost use Rattle.tre_syntax.specs.Meaning.{MatchesRest};
ghost use Rattle.tre_syntax.specs.PatternTree.{PatternTree, sequence, alternation, intersection, repetition, restriction};
ghost use Rattle.tre_syntax.specs.Rest.{Rest};
ghost use Rattle.tre_trace.specs.Trace.{end_of};
ghost use Rattle.tre_zone.specs.Interval.{LastsWithin};
ghost use Rattle.tre_zone.specs.Longest.{LastsUpTo, IsLongest};
ghost use Rattle.tre_zone.specs.ZoneList.{HoldExactly};
ghost use Rattle.tre_offline.specs.Lengths.{LastUpTo};

use std::alloc::{AllocError, Global};
use tre_star::{closure_up_to, compose_sets_up_to, iteration_up_to};
use tre_zone::Interval;
use tre_zoneset::ZoneSet;

/// The short ones of all matches of an expression.
pub fn shortened(
    all: Result<ZoneSet, AllocError>,
    longest: Option<u64>,
) -> Result<ZoneSet, AllocError>
    requires { IsLongest longest }
    ensures { IfOk result (λ zones. (tree : PatternTree) (rest : Rest)
        → IfOk all (λ found. HoldExactly found (MatchesRest tree rest))
        → HoldExactly zones (Lasting (LastsUpTo longest) (MatchesRest tree rest))) }
{
    let all = all?;
    all.up_to(longest)
}

/// The matches of a sequence, of those of its parts.
pub fn followed(
    alloc: Global,
    first: &ZoneSet,
    second: Result<ZoneSet, AllocError>,
    longest: Option<u64>,
) -> Result<ZoneSet, AllocError>
    requires { IsLongest longest }
    ensures { IfOk result (λ zones. (left right : PatternTree) (rest : Rest)
        → HoldExactly first.now (Lasting (LastsUpTo longest) (MatchesRest left rest))
        → IfOk second (λ found.
        HoldExactly found (Lasting (LastsUpTo longest) (MatchesRest right rest)))
        → HoldExactly zones
        (Lasting (LastsUpTo longest) (MatchesRest (sequence left right) rest))) }
{
    let second = second?;
    // For the proof: the calls say that both are sets of zones.
    let _first = first.zones();
    let _second = second.zones();
    compose_sets_up_to(alloc, first, &second, longest)
}

/// The matches of an alternation, of those of its parts: with parts cut to any longest duration.
pub fn joined(mut one: ZoneSet, other: Result<ZoneSet, AllocError>) -> Result<ZoneSet, AllocError>
    ensures { IfOk result (λ zones. (longest : Option ℕ) (left right : PatternTree) (rest : Rest)
        → HoldExactly one (Lasting (LastsUpTo longest) (MatchesRest left rest))
        → IfOk other (λ found.
        HoldExactly found (Lasting (LastsUpTo longest) (MatchesRest right rest)))
        → HoldExactly zones
        (Lasting (LastsUpTo longest) (MatchesRest (alternation left right) rest))) }
{
    let other = other?;
    one.join(&other)?;
    Ok(one)
}

/// The matches of an intersection, of those of its parts, in either order: the other part may be
/// cut to an `inner` longest duration that the first set keeps within.
pub fn met(one: &ZoneSet, other: &ZoneSet) -> Result<ZoneSet, AllocError>
    ensures { IfOk result (λ zones.
        (longest inner : Option ℕ) (left right : PatternTree) (rest : Rest)
        → LastUpTo inner one.now
        → HoldExactly one.now (Lasting (LastsUpTo longest) (MatchesRest left rest))
        → HoldExactly other.now (Lasting (LastsUpTo inner) (MatchesRest right rest))
        → HoldExactly zones
        (Lasting (LastsUpTo longest) (MatchesRest (intersection left right) rest))
        × HoldExactly zones
        (Lasting (LastsUpTo longest) (MatchesRest (intersection right left) rest))) }
{
    one.meet(other)
}

/// The matches of a repetition, of those of its part, over a rest from `begin` to `end`.
pub fn repeated(
    alloc: Global,
    step: Result<ZoneSet, AllocError>,
    begin: u64,
    end: u64,
    longest: Option<u64>,
) -> Result<ZoneSet, AllocError>
    requires order { begin ≤ end }
    requires limit { end ≤ TIME_MAX }
    requires longest { IsLongest longest }
    ensures { IfOk result (λ zones. (tree : PatternTree) (rest : Rest)
        → begin ≡ rest.start → end ≡ end_of rest.start rest.segments
        → IfOk step (λ found.
        HoldExactly found (Lasting (LastsUpTo longest) (MatchesRest tree rest)))
        → HoldExactly zones (Lasting (LastsUpTo longest) (MatchesRest (repetition tree) rest))) }
{
    let step = step?;
    // For the proof: the call says that it is a set of zones.
    let _step = step.zones();
    closure_up_to(alloc, &step, begin, end, longest)
}

/// The matches of an expression one or more times, of those of it once, over a rest from `begin` to
/// `end`.
pub fn iterated(
    alloc: Global,
    step: Result<ZoneSet, AllocError>,
    begin: u64,
    end: u64,
    longest: Option<u64>,
) -> Result<ZoneSet, AllocError>
    requires order { begin ≤ end }
    requires limit { end ≤ TIME_MAX }
    requires longest { IsLongest longest }
    ensures { IfOk result (λ zones. (tree : PatternTree) (rest : Rest)
        → begin ≡ rest.start → end ≡ end_of rest.start rest.segments
        → IfOk step (λ found.
        HoldExactly found (Lasting (LastsUpTo longest) (MatchesRest tree rest)))
        → HoldExactly zones
        (Lasting (LastsUpTo longest) (MatchesRest (sequence tree (repetition tree)) rest))) }
{
    let step = step?;
    // For the proof: the call says that it is a set of zones.
    let _step = step.zones();
    iteration_up_to(alloc, &step, begin, end, longest)
}

/// The matches of a restriction to the interval, of those of its part: its part may be cut to an
/// `inner` longest duration that is the longest for all durations in the interval.
pub fn restricted(
    all: Result<ZoneSet, AllocError>,
    interval: &Interval,
) -> Result<ZoneSet, AllocError>
    ensures { IfOk result (λ zones. (inner longest : Option ℕ) (tree : PatternTree) (rest : Rest)
        → ((d n : ℕ) → LastsWithin interval.now d n → LastsUpTo inner d n ↔ LastsUpTo longest d n)
        → IfOk all (λ found. HoldExactly found (Lasting (LastsUpTo inner) (MatchesRest tree rest)))
        → HoldExactly zones
        (Lasting (LastsUpTo longest) (MatchesRest (restriction tree interval.now) rest))) }
{
    let all = all?;
    all.into_within(interval)
}
