//! The laws of the cut: where a trace is cut in two, its matches are those of the front, those of
//! the back, and those that cross the cut; and what crosses comes from the parts of the expression.
//!
//! Each function does nothing: its contract is a law, and holds of every expression, every rest of
//! a trace and every pair of times. The cut is where the front ends, and the valuation that holds
//! last over the front is the one before the back, so that an edge at the cut is one of the back.
//! An event at the cut is one of the back too.

ghost use Rattle.std.specs.Prelude.{◌*◌, ◌<◌, ◌≤◌, ◌↔◌, ℕ};
ghost use Rattle.tre_pairs.specs.Cuts.{IsMoment, JoinedAt, Passing};
ghost use Rattle.tre_pairs.specs.Pairs.{Composed, Either, Both, Lasting};
ghost use Rattle.tre_state.specs.StateTree.{StateTree};
ghost use Rattle.tre_syntax.specs.Cut.{CutRest, HasLongParts, time_of, uncut, MatchesBefore, MatchesBehind, MatchesAcross};
ghost use Rattle.tre_syntax.specs.Meaning.{MatchesRest};
ghost use Rattle.tre_syntax.specs.PatternTree.{PatternTree, atom, empty, literal, rise, fall, event, sequence, alternation, intersection, repetition, restriction};
ghost use Rattle.tre_zone.specs.Interval.{IntervalEnds, LastsWithin};

/// A match of the whole is one of the front, or one of the back, or one that crosses the cut. One
/// that ends before the cut is of the front, and one that begins at the cut or behind it is of the
/// back.
pub fn parts()
    ensures all { (tree : PatternTree) (cut : CutRest) (a b n : ℕ) → HasLongParts cut → 0 < n →
        MatchesRest tree (uncut cut) a b n ↔
        Either (MatchesBefore tree cut)
        (Either (MatchesBehind tree cut) (MatchesAcross tree cut)) a b n }
    ensures before { (tree : PatternTree) (cut : CutRest) (a b n : ℕ) → b < time_of cut * n →
        MatchesRest tree (uncut cut) a b n → MatchesBefore tree cut a b n }
    ensures behind { (tree : PatternTree) (cut : CutRest) (a b n : ℕ) →
        HasLongParts cut → 0 < n → time_of cut * n ≤ a →
        MatchesRest tree (uncut cut) a b n → MatchesBehind tree cut a b n }
{}

/// The only moment that crosses the cut is the cut.
pub fn moments()
    ensures { (cut : CutRest) (a b n : ℕ) →
        MatchesAcross (atom empty) cut a b n ↔ IsMoment (time_of cut) a b n }
{}

/// The only edge that crosses the cut is one of the back, at the cut.
pub fn edges()
    ensures rise { (state : StateTree) (cut : CutRest) (a b n : ℕ) → HasLongParts cut → 0 < n →
        MatchesAcross (atom (rise state)) cut a b n ↔
        Both (IsMoment (time_of cut)) (MatchesBehind (atom (rise state)) cut) a b n }
    ensures fall { (state : StateTree) (cut : CutRest) (a b n : ℕ) → HasLongParts cut → 0 < n →
        MatchesAcross (atom (fall state)) cut a b n ↔
        Both (IsMoment (time_of cut)) (MatchesBehind (atom (fall state)) cut) a b n }
{}

/// The only event that crosses the cut is one of the back, at the cut.
pub fn events()
    ensures { (number : ℕ) (cut : CutRest) (a b n : ℕ) → HasLongParts cut → 0 < n →
        MatchesAcross (atom (event number)) cut a b n ↔
        Both (IsMoment (time_of cut)) (MatchesBehind (atom (event number)) cut) a b n }
{}

/// A literal crosses the cut where it holds up to the cut, or begins there, and holds from the cut
/// on, or ends there, and some time passes.
pub fn literals()
    ensures { (state : StateTree) (cut : CutRest) (a b n : ℕ) → HasLongParts cut → 0 < n →
        MatchesAcross (atom (literal state)) cut a b n ↔
        Passing (JoinedAt (time_of cut)
        (Either (MatchesBefore (atom (literal state)) cut) (IsMoment (time_of cut)))
        (Either (MatchesBehind (atom (literal state)) cut) (IsMoment (time_of cut)))) a b n }
{}

/// A sequence crosses the cut where its first part crosses and the second is behind the cut, or the
/// first is before the cut and the second crosses.
pub fn sequences()
    ensures { (left right : PatternTree) (cut : CutRest) (a b n : ℕ) →
        HasLongParts cut → 0 < n →
        MatchesAcross (sequence left right) cut a b n ↔
        Either (Composed (MatchesAcross left cut) (MatchesBehind right cut))
        (Composed (MatchesBefore left cut) (MatchesAcross right cut)) a b n }
{}

/// An alternation crosses the cut where one of the two does.
pub fn alternations()
    ensures { (left right : PatternTree) (cut : CutRest) (a b n : ℕ) →
        MatchesAcross (alternation left right) cut a b n ↔
        Either (MatchesAcross left cut) (MatchesAcross right cut) a b n }
{}

/// An intersection crosses the cut where both do.
pub fn intersections()
    ensures { (left right : PatternTree) (cut : CutRest) (a b n : ℕ) →
        MatchesAcross (intersection left right) cut a b n ↔
        Both (MatchesAcross left cut) (MatchesAcross right cut) a b n }
{}

/// A repetition crosses the cut as the moment of the cut, or by one repetition that crosses, after
/// repetitions before the cut and followed by repetitions behind it.
pub fn repetitions()
    ensures { (tree : PatternTree) (cut : CutRest) (a b n : ℕ) → HasLongParts cut → 0 < n →
        MatchesAcross (repetition tree) cut a b n ↔
        Either (IsMoment (time_of cut)) (Composed (MatchesBefore (repetition tree) cut)
        (Composed (MatchesAcross tree cut) (MatchesBehind (repetition tree) cut))) a b n }
{}

/// A restriction crosses the cut where what it restricts does, with its duration in the interval.
pub fn restrictions()
    ensures { (tree : PatternTree) (ends : IntervalEnds) (cut : CutRest) (a b n : ℕ) →
        MatchesAcross (restriction tree ends) cut a b n ↔
        Lasting (LastsWithin ends) (MatchesAcross tree cut) a b n }
{}

/// What crosses speaks of times too, and not of the numbers that name them.
pub fn scaling()
    ensures { (tree : PatternTree) (cut : CutRest) (k a b n : ℕ) → 0 < k →
        MatchesAcross tree cut a b n ↔ MatchesAcross tree cut (k * a) (k * b) (k * n) }
{}
