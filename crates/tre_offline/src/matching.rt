// The matches of an expression, from those of its parts.
ghost use Rattle.std.specs.Prelude.{◌≡◌, IfErr, IfOk, IfSome};
ghost use Rattle.tre_pairs.specs.Pairs.{Lasting};
ghost use Rattle.tre_syntax.specs.Expr.{tree_of};
ghost use Rattle.tre_syntax.specs.Meaning.{Matches, MatchesRest};
ghost use Rattle.tre_syntax.specs.Pattern.{pattern_tree};
ghost use Rattle.tre_syntax.specs.PatternTree.{NumbersBelow};
ghost use Rattle.tre_syntax.specs.Rest.{whole};
ghost use Rattle.tre_zone.specs.Longest.{LastsUpTo, IsLongest};
ghost use Rattle.tre_zone.specs.ZoneList.{HoldExactly};
ghost use Rattle.tre_edges.specs.Piece.{rest_of_piece};
ghost use Rattle.tre_edges.specs.RunSets.{zones_of};
ghost use Rattle.tre_offline.specs.MatchSet.{IsMatchSet, AreMatchesAmong};

use crate::atoms::Atoms;
use crate::edged::{edged, unlimited};
use crate::iterated::{comes_last, is_eps, is_iterated, repeats, spans};
use crate::lengths::{goes_first, is_repetition, longest_beside, longest_for};
use crate::operators::{followed, iterated, joined, met, repeated, restricted, shortened};
use std::alloc::{AllocError, Global};
use tre_edges::{Piece, RunSet, run_set};
use tre_packed::{AnyTrace, Packed};
use tre_state::NAMES_MAX;
use tre_syntax::{Expr, Pattern};
use tre_zoneset::ZoneSet;

/// The matches of the pattern's expression over the whole trace.
///
/// It goes as deep as the expression does, which is at most as deep as a pattern has nodes.
pub fn matches<T: AnyTrace>(
    alloc: Global,
    pattern: &Pattern,
    trace: &T,
) -> Result<ZoneSet, AllocError>
    ensures { IfOk result (λ zones.
        IsMatchSet zones (pattern_tree pattern.now) (T.timeline trace.now)) }
{
    let zones = matches_of(alloc, pattern.expr(), &trace, None)?;
    // For the proof: the call says that no zone includes another, and that their bounds are tight.
    let _zones = zones.zones();
    Ok(zones)
}

/// The same of a trace that is not needed any more: it goes as soon as the last atom was found in
/// it, so it doesn't stand beside what the operators make then.
///
/// It goes as deep as the expression does.
pub fn into_matches<T: AnyTrace + Drop>(
    alloc: Global,
    pattern: &Pattern,
    trace: T,
) -> Result<ZoneSet, AllocError>
    ensures { IfOk result (λ zones.
        IsMatchSet zones (pattern_tree pattern.now) (T.timeline trace)) }
{
    let zones = last_matches_of(alloc, pattern.expr(), trace, None)?;
    // For the proof: the call says that no zone includes another, and that their bounds are tight.
    let _zones = zones.zones();
    Ok(zones)
}

/// The matches over the whole trace in few bytes each, where the expression is a literal, with its
/// edges or with none, that may last however long. Where it is not, or where a place of the trace
/// takes more than four bytes, the trace as it was.
pub fn run_matches(
    alloc: Global,
    pattern: &Pattern,
    trace: Packed,
) -> Result<Result<RunSet, Packed>, AllocError>
    ensures runs { IfOk result (λ found. IfOk found (λ runs.
        HoldExactly (zones_of runs) (Matches (pattern_tree pattern.now) trace))) }
    ensures trace { IfOk result (λ found. IfErr found (λ left. left ≡ trace)) }
{
    if trace.count() > u32::MAX as usize {
        return Ok(Err(trace));
    }
    match unlimited(pattern.expr()) {
        Some(it) => {
            let runs = run_set(alloc, it.state, trace, it.edges)?;
            Ok(Ok(runs))
        }
        None => Ok(Err(trace)),
    }
}

/// The matches of the pattern's expression over the whole trace, as far as they can be pairs of the
/// set: no longer ones are looked for than it has.
///
/// It goes as deep as the expression does.
pub fn matches_among<T: AnyTrace>(
    alloc: Global,
    pattern: &Pattern,
    trace: &T,
    set: &ZoneSet,
) -> Result<ZoneSet, AllocError>
    ensures { IfOk result (λ zones.
        AreMatchesAmong zones (pattern_tree pattern.now) (T.timeline trace.now) set.now) }
{
    let longest = longest_for(set, pattern.expr());
    matches_of(alloc, pattern.expr(), &trace, longest)
}

/// The matches of the expression inside one piece of a trace: those that begin and end within it,
/// with the edge at its begin known, and none at its end.
///
/// It goes as deep as the expression does.
pub fn local(alloc: Global, expr: &Expr, piece: &Piece) -> Result<ZoneSet, AllocError>
    requires { NumbersBelow NAMES_MAX (tree_of expr.now) }
    ensures { IfOk result (λ zones.
        HoldExactly zones (MatchesRest (tree_of expr.now) (rest_of_piece piece.now))) }
{
    matches_of(alloc, expr, piece, None)
}

// The matches of the expression, where it is a literal with its edges, and where they are found at
// once.
fn edged_matches<A: Atoms>(
    alloc: Global,
    expr: &Expr,
    atoms: &A,
) -> Result<Option<ZoneSet>, AllocError>
    requires { NumbersBelow NAMES_MAX (tree_of expr.now) }
    ensures { IfOk result (λ found. IfSome found (λ zones.
        HoldExactly zones (MatchesRest (tree_of expr.now) (A.rest atoms.now)))) }
{
    match edged(expr) {
        Some(it) => atoms.run_parts(alloc, it.state, it.edges, it.interval),
        None => Ok(None),
    }
}

// The matches of the expression that last at most `longest`: all, where there is none. Each
// operator makes its set of those of its parts.
pub(crate) fn matches_of<A: Atoms>(
    alloc: Global,
    expr: &Expr,
    atoms: &A,
    longest: Option<u64>,
) -> Result<ZoneSet, AllocError>
    requires names { NumbersBelow NAMES_MAX (tree_of expr.now) }
    requires longest { IsLongest longest }
    ensures { IfOk result (λ zones. HoldExactly zones
        (Lasting (LastsUpTo longest) (MatchesRest (tree_of expr.now) (A.rest atoms.now)))) }
{
    if let Some(found) = edged_matches(alloc, expr, atoms)? {
        return shortened(Ok(found), longest);
    }
    match expr {
        Expr::Eps => shortened(atoms.moments(alloc), longest),
        Expr::Lit(state) => shortened(atoms.literal(alloc, state), longest),
        Expr::Rise(state) => shortened(atoms.rises(alloc, state), longest),
        Expr::Fall(state) => shortened(atoms.falls(alloc, state), longest),
        Expr::Event(number) => shortened(atoms.events(alloc, *number), longest),
        Expr::Seq(left, right) => {
            if is_iterated(left, right) {
                return matches_of(alloc, left, atoms, longest);
            }
            if repeats(right, left) {
                let step = matches_of(alloc, left, atoms, longest);
                return iterated(alloc, step, atoms.begin(), atoms.end(), longest);
            }
            if let Expr::Seq(begin, middle) = &**left {
                if comes_last(middle, right) {
                    let first = matches_of(alloc, begin, atoms, longest)?;
                    let second = matches_of(alloc, middle, atoms, longest)?;
                    let third = matches_of(alloc, right, atoms, longest);
                    let behind = followed(alloc, &second, third, longest);
                    return followed(alloc, &first, behind, longest);
                }
            }
            let first = matches_of(alloc, left, atoms, longest)?;
            let second = matches_of(alloc, right, atoms, longest);
            followed(alloc, &first, second, longest)
        }
        Expr::Alt(left, right) => {
            if is_repetition(left) && is_eps(right) {
                return matches_of(alloc, left, atoms, longest);
            }
            let one = matches_of(alloc, left, atoms, longest)?;
            let other = matches_of(alloc, right, atoms, longest);
            joined(one, other)
        }
        Expr::Meet(left, right) => {
            if goes_first(right, left) {
                let other = matches_of(alloc, right, atoms, longest)?;
                let inner = longest_beside(&other, left, longest);
                let one = matches_of(alloc, left, atoms, inner)?;
                return met(&other, &one);
            }
            let one = matches_of(alloc, left, atoms, longest)?;
            let inner = longest_beside(&one, right, longest);
            let other = matches_of(alloc, right, atoms, inner)?;
            met(&one, &other)
        }
        Expr::Star(step) => {
            if is_repetition(step) {
                return matches_of(alloc, step, atoms, longest);
            }
            if let Expr::Seq(once, more) = &**step {
                if repeats(more, once) {
                    return matches_of(alloc, more, atoms, longest);
                }
            }
            if let Expr::Alt(once, none) = &**step {
                if is_eps(none) {
                    if is_repetition(once) {
                        return matches_of(alloc, once, atoms, longest);
                    }
                    let once = matches_of(alloc, once, atoms, longest);
                    return repeated(alloc, once, atoms.begin(), atoms.end(), longest);
                }
            }
            if spans(step) {
                let moments = shortened(atoms.moments(alloc), longest)?;
                let step = matches_of(alloc, step, atoms, longest);
                return joined(moments, step);
            }
            let step = matches_of(alloc, step, atoms, longest);
            repeated(alloc, step, atoms.begin(), atoms.end(), longest)
        }
        Expr::Within(all, interval) => {
            if let Expr::Lit(state) = &**all {
                let within = atoms.literal_within(alloc, state, interval);
                return shortened(within, longest);
            }
            let inner = interval.up_to(longest);
            let all = matches_of(alloc, all, atoms, inner);
            restricted(all, interval)
        }
    }
}

// The same over a whole trace that is not needed any more. Of an operator's two parts the second is
// the last that looks at it.
fn last_matches_of<T: AnyTrace + Drop>(
    alloc: Global,
    expr: &Expr,
    trace: T,
    longest: Option<u64>,
) -> Result<ZoneSet, AllocError>
    requires names { NumbersBelow NAMES_MAX (tree_of expr.now) }
    requires longest { IsLongest longest }
    ensures { IfOk result (λ zones. HoldExactly zones
        (Lasting (LastsUpTo longest) (MatchesRest (tree_of expr.now) (whole (T.timeline trace))))) }
{
    if let Some(found) = edged_matches(alloc, expr, &&trace)? {
        return shortened(Ok(found), longest);
    }
    match expr {
        Expr::Seq(left, right) => {
            if is_iterated(left, right) {
                return last_matches_of(alloc, left, trace, longest);
            }
            if repeats(right, left) {
                let begin = Atoms::begin(&&trace);
                let end = Atoms::end(&&trace);
                let step = last_matches_of(alloc, left, trace, longest);
                return iterated(alloc, step, begin, end, longest);
            }
            if let Expr::Seq(begin, middle) = &**left {
                if comes_last(middle, right) {
                    let first = matches_of(alloc, begin, &&trace, longest)?;
                    let second = matches_of(alloc, middle, &&trace, longest)?;
                    let third = last_matches_of(alloc, right, trace, longest);
                    let behind = followed(alloc, &second, third, longest);
                    return followed(alloc, &first, behind, longest);
                }
            }
            let first = matches_of(alloc, left, &&trace, longest)?;
            let second = last_matches_of(alloc, right, trace, longest);
            followed(alloc, &first, second, longest)
        }
        Expr::Alt(left, right) => {
            if is_repetition(left) && is_eps(right) {
                return last_matches_of(alloc, left, trace, longest);
            }
            let one = matches_of(alloc, left, &&trace, longest)?;
            let other = last_matches_of(alloc, right, trace, longest);
            joined(one, other)
        }
        Expr::Meet(left, right) => {
            if goes_first(right, left) {
                let other = matches_of(alloc, right, &&trace, longest)?;
                let inner = longest_beside(&other, left, longest);
                let last = last_matches_of(alloc, left, trace, inner)?;
                return met(&other, &last);
            }
            let one = matches_of(alloc, left, &&trace, longest)?;
            let inner = longest_beside(&one, right, longest);
            let other = last_matches_of(alloc, right, trace, inner)?;
            met(&one, &other)
        }
        Expr::Star(step) => {
            if is_repetition(step) {
                return last_matches_of(alloc, step, trace, longest);
            }
            if let Expr::Seq(once, more) = &**step {
                if repeats(more, once) {
                    return last_matches_of(alloc, more, trace, longest);
                }
            }
            if let Expr::Alt(once, none) = &**step {
                if is_eps(none) {
                    if is_repetition(once) {
                        return last_matches_of(alloc, once, trace, longest);
                    }
                    let begin = Atoms::begin(&&trace);
                    let end = Atoms::end(&&trace);
                    let once = last_matches_of(alloc, once, trace, longest);
                    return repeated(alloc, once, begin, end, longest);
                }
            }
            if spans(step) {
                let moments = shortened(Atoms::moments(&&trace, alloc), longest)?;
                let step = last_matches_of(alloc, step, trace, longest);
                return joined(moments, step);
            }
            let begin = Atoms::begin(&&trace);
            let end = Atoms::end(&&trace);
            let step = last_matches_of(alloc, step, trace, longest);
            repeated(alloc, step, begin, end, longest)
        }
        Expr::Within(all, interval) => {
            if let Expr::Lit(_) = &**all {
                return matches_of(alloc, expr, &&trace, longest);
            }
            let inner = interval.up_to(longest);
            let all = last_matches_of(alloc, all, trace, inner);
            restricted(all, interval)
        }
        _ => matches_of(alloc, expr, &&trace, longest),
    }
}
