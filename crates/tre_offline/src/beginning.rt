// What has begun of an expression and isn't over where a trace ends.
ghost use Rattle.std.specs.Prelude.{◌≡◌, ◌≤◌, ◌↔◌, ℕ, IfOk};
ghost use Rattle.tre_pairs.specs.Pairs.{Composed, Either, Lasting};
ghost use Rattle.tre_pairs.specs.declared.TheConstants.{TIME_MAX};
ghost use Rattle.tre_syntax.specs.Begun.{AtomHasBegun, BegunRest, HasBegun};
ghost use Rattle.tre_syntax.specs.Expr.{tree_of};
ghost use Rattle.tre_syntax.specs.Meaning.{MatchesRest};
ghost use Rattle.tre_syntax.specs.Pattern.{pattern_tree};
ghost use Rattle.tre_syntax.specs.PatternTree.{Atom, PatternTree, NumbersBelow, restriction};
ghost use Rattle.tre_syntax.specs.Rest.{Rest, AtomMatches};
ghost use Rattle.tre_trace.specs.Trace.{end_of};
ghost use Rattle.tre_zone.specs.Interval.{IsBelowHigh, LastsWithin};
ghost use Rattle.tre_zone.specs.Longest.{LastsUpTo, IsLongest};
ghost use Rattle.tre_zone.specs.Zone.{IsInstantBetween};
ghost use Rattle.tre_zone.specs.ZoneList.{HoldExactly, SetHolds};
ghost use Rattle.tre_offline.specs.MatchSet.{HaveBegunAmong};

use crate::atoms::Atoms;
use crate::lengths::longest_for;
use crate::matching::matches_of;
use std::alloc::{AllocError, Global};
use tre_packed::AnyTrace;
use tre_star::compose_sets_up_to;
use tre_state::NAMES_MAX;
use tre_syntax::{Expr, Pattern};
use tre_zone::{Interval, Zone};
use tre_zoneset::ZoneSet;

/// The stretches up to the end of the trace that may be the begin of a match, as far as the parts
/// of the pattern tell.
///
/// It goes as deep as the expression does.
pub fn begun<T: AnyTrace>(
    alloc: Global,
    pattern: &Pattern,
    trace: &T,
) -> Result<ZoneSet, AllocError>
    ensures { IfOk result (λ zones.
        HoldExactly zones (HasBegun (pattern_tree pattern.now) (T.timeline trace.now))) }
{
    begun_of(alloc, pattern.expr(), &trace, None)
}

/// The same, as far as they can be pairs of the set: no longer ones are looked for than it has.
///
/// It goes as deep as the expression does.
pub fn begun_among<T: AnyTrace>(
    alloc: Global,
    pattern: &Pattern,
    trace: &T,
    set: &ZoneSet,
) -> Result<ZoneSet, AllocError>
    ensures { IfOk result (λ zones.
        HaveBegunAmong zones (pattern_tree pattern.now) (T.timeline trace.now) set.now) }
{
    let longest = longest_for(set, pattern.expr());
    begun_of(alloc, pattern.expr(), &trace, longest)
}

// Those that last at most `longest`: all, where there is none.
fn begun_of<A: Atoms>(
    alloc: Global,
    expr: &Expr,
    atoms: &A,
    longest: Option<u64>,
) -> Result<ZoneSet, AllocError>
    requires names { NumbersBelow NAMES_MAX (tree_of expr.now) }
    requires longest { IsLongest longest }
    ensures { IfOk result (λ zones. HoldExactly zones
        (Lasting (LastsUpTo longest) (BegunRest (tree_of expr.now) (A.rest atoms.now)))) }
{
    match expr {
        Expr::Lit(state) => held_to_end(atoms.literal(alloc, state), atoms.end(), longest),
        Expr::Eps => the_end(alloc, atoms.end()),
        Expr::Rise(_) => the_end(alloc, atoms.end()),
        Expr::Fall(_) => the_end(alloc, atoms.end()),
        Expr::Event(_) => the_end(alloc, atoms.end()),
        Expr::Seq(left, right) => {
            let first = matches_of(alloc, left, atoms, longest)?;
            let last = begun_of(alloc, right, atoms, longest);
            let through = led_on(alloc, &first, last, longest)?;
            let early = begun_of(alloc, left, atoms, longest)?;
            either_of(early, &through)
        }
        Expr::Alt(left, right) => {
            let one = begun_of(alloc, left, atoms, longest)?;
            let other = begun_of(alloc, right, atoms, longest)?;
            either_of(one, &other)
        }
        Expr::Meet(left, right) => {
            let one = begun_of(alloc, left, atoms, longest)?;
            let other = begun_of(alloc, right, atoms, longest)?;
            one.meet(&other)
        }
        Expr::Star(step) => {
            let first = matches_of(alloc, expr, atoms, longest)?;
            let last = begun_of(alloc, step, atoms, longest);
            let turns = led_on(alloc, &first, last, longest)?;
            with_end(turns, atoms.end())
        }
        Expr::Within(all, interval) => {
            let below = below_high(interval);
            let all = begun_of(alloc, all, atoms, below.up_to(longest))?;
            all.into_within(&below)
        }
    }
}

// Of what an atom matches that which lasts to the end, and the end itself.
fn held_to_end(
    all: Result<ZoneSet, AllocError>,
    end: u64,
    longest: Option<u64>,
) -> Result<ZoneSet, AllocError>
    requires limit { end ≤ TIME_MAX }
    requires longest { IsLongest longest }
    ensures { IfOk result (λ zones. (x : Atom) (rest : Rest)
        → end ≡ end_of rest.start rest.segments
        → IfOk all (λ found. HoldExactly found (AtomMatches rest x))
        → HoldExactly zones (Lasting (LastsUpTo longest) (AtomHasBegun rest x))) }
{
    let all = all?;
    let there = all.ending_at(end)?;
    let mut found = there.up_to(longest)?;
    found.add(Zone::instants(end, end))?;
    Ok(found)
}

// The end itself.
fn the_end(alloc: Global, end: u64) -> Result<ZoneSet, AllocError>
    requires { end ≤ TIME_MAX }
    ensures { IfOk result (λ zones. HoldExactly zones (IsInstantBetween end end)) }
{
    let mut found = ZoneSet::new(alloc);
    found.add(Zone::instants(end, end))?;
    Ok(found)
}

// What is found, and the end itself.
fn with_end(mut found: ZoneSet, end: u64) -> Result<ZoneSet, AllocError>
    requires { end ≤ TIME_MAX }
    ensures { IfOk result (λ zones.
        HoldExactly zones (Either (SetHolds found) (IsInstantBetween end end))) }
{
    found.add(Zone::instants(end, end))?;
    Ok(found)
}

// Matches of one expression, and behind them what has begun of another.
fn led_on(
    alloc: Global,
    first: &ZoneSet,
    last: Result<ZoneSet, AllocError>,
    longest: Option<u64>,
) -> Result<ZoneSet, AllocError>
    requires { IsLongest longest }
    ensures { IfOk result (λ zones. (left right : PatternTree) (rest : Rest)
        → HoldExactly first.now (Lasting (LastsUpTo longest) (MatchesRest left rest))
        → IfOk last (λ found.
        HoldExactly found (Lasting (LastsUpTo longest) (BegunRest right rest)))
        → HoldExactly zones
        (Lasting (LastsUpTo longest) (Composed (MatchesRest left rest) (BegunRest right rest)))) }
{
    let last = last?;
    // For the proof: the calls say that both are sets of zones.
    let _first = first.zones();
    let _last = last.zones();
    compose_sets_up_to(alloc, first, &last, longest)
}

// The pairs of both sets.
fn either_of(mut one: ZoneSet, other: &ZoneSet) -> Result<ZoneSet, AllocError>
    ensures { IfOk result (λ zones.
        HoldExactly zones (Either (SetHolds one) (SetHolds other.now))) }
{
    one.join(other)?;
    Ok(one)
}

// The durations that aren't too long for the interval.
fn below_high(interval: &Interval) -> Interval
    ensures { (d n : ℕ) → LastsWithin result d n ↔ IsBelowHigh interval.now d n }
{
    match Interval::new(0, true, interval.high(), interval.high_weak()) {
        Some(below) => below,
        None => unreachable!(),
    }
}
