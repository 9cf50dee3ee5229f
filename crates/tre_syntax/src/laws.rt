//! The laws of the meaning. Each function does nothing: its contract is a law, and holds of every
//! expression, trace and pair of times.

ghost use Rattle.std.specs.Prelude.{◌+◌, ◌*◌, ◌<◌, ◌≤◌, ◌↔◌, [], ◌∷◌, ◌++◌, ℕ, Option, List};
ghost use Rattle.tre_pairs.specs.Cuts.{IsMoment};
ghost use Rattle.tre_state.specs.StateTree.{StateTree, HoldsOn};
ghost use Rattle.tre_syntax.specs.AtTheEnd.{MatchesAtEnd};
ghost use Rattle.tre_pairs.specs.Leads.{Leads};
ghost use Rattle.tre_pairs.specs.Pairs.{Either};
ghost use Rattle.tre_syntax.specs.Begun.{BegunRest};
ghost use Rattle.tre_syntax.specs.Cut.{CutRest, HasLongParts, MatchesAcross, front_of, time_of, uncut};
ghost use Rattle.tre_syntax.specs.FirstUse.{AreInOrderOfUse};
ghost use Rattle.tre_syntax.specs.Meaning.{Matches, MatchesRest};
ghost use Rattle.tre_syntax.specs.Neighbours.{IsBetweenNeighbours, IsThroughout, IsWhereHappens};
ghost use Rattle.tre_syntax.specs.PatternTree.{PatternTree, atom, empty, literal, rise, fall, event, sequence, alternation, repetition, numbers_of, IsNumbered};
ghost use Rattle.tre_syntax.specs.Rest.{Rest, rest_of, prefixed};
ghost use Rattle.tre_syntax.specs.declared.name_kind.NameKind.{NameKind};
ghost use Rattle.tre_trace.specs.Segments.{segment_with, plain_segment};
ghost use Rattle.tre_trace.specs.Trace.{Timeline, timeline_of, quiet, end_of, IsTrace};
ghost use Rattle.tre_trace.specs.declared.segment.Segment.{Segment};

/// A literal matches where some time passes, within the trace, and its state is true on each
/// segment that has a moment strictly between the two times.
pub fn literals()
    ensures { (state : StateTree) (trace : Timeline) (a b n : ℕ) →
        Matches (atom (literal state)) trace a b n ↔
        IsThroughout (HoldsOn state) trace.segments a b n }
{}

/// An edge stands where two neighbouring segments meet and the state changes. So a trace has none
/// at its start, and none at its end.
pub fn edges()
    ensures rise { (state : StateTree) (trace : Timeline) (a b n : ℕ) →
        Matches (atom (rise state)) trace a b n ↔
        IsBetweenNeighbours (λ val. ¬ HoldsOn state val) (HoldsOn state) trace.segments a b n }
    ensures fall { (state : StateTree) (trace : Timeline) (a b n : ℕ) →
        Matches (atom (fall state)) trace a b n ↔
        IsBetweenNeighbours (HoldsOn state) (λ val. ¬ HoldsOn state val) trace.segments a b n }
    ensures rise_inside { (state : StateTree) (trace : Timeline) (a b n : ℕ) →
        0 < n → IsTrace trace.segments → Matches (atom (rise state)) trace a b n →
        (0 < a) × (b < end_of 0 trace.segments * n) }
    ensures fall_inside { (state : StateTree) (trace : Timeline) (a b n : ℕ) →
        0 < n → IsTrace trace.segments → Matches (atom (fall state)) trace a b n →
        (0 < a) × (b < end_of 0 trace.segments * n) }
{}

/// An event is matched where a segment begins with it, or where the trace ends with it. So it may
/// stand at the start of a trace and at its end, where no edge is.
pub fn events()
    ensures { (number : ℕ) (trace : Timeline) (a b n : ℕ) →
        Matches (atom (event number)) trace a b n ↔ IsWhereHappens number trace a b n }
{}

/// Where a trace ends, an expression matches that one moment or nothing, whatever held before it.
pub fn at_the_end()
    ensures { (tree : PatternTree) (start : ℕ) (before : Option ℕ) (last a b n : ℕ) → 0 < n →
        MatchesRest tree (rest_of start before (timeline_of [] last)) a b n ↔
        (IsMoment start a b n × MatchesAtEnd last tree) }
{}

/// The meaning speaks of times, and not of the numbers that name them: `(a,b,n)` and `(ka,kb,kn)`
/// are one pair of times.
pub fn scaling()
    ensures rest { (tree : PatternTree) (rest : Rest) (k a b n : ℕ) → 0 < k →
        MatchesRest tree rest a b n ↔ MatchesRest tree rest (k * a) (k * b) (k * n) }
    ensures whole { (tree : PatternTree) (trace : Timeline) (k a b n : ℕ) → 0 < k →
        Matches tree trace a b n ↔ Matches tree trace (k * a) (k * b) (k * n) }
{}

/// A match begins no later than it ends, and lies within the rest.
pub fn bounds()
    ensures begin { (tree : PatternTree) (rest : Rest) (a b n : ℕ) →
        MatchesRest tree rest a b n → rest.start * n ≤ a }
    ensures order { (tree : PatternTree) (rest : Rest) (a b n : ℕ) →
        MatchesRest tree rest a b n → a ≤ b }
    ensures end { (tree : PatternTree) (rest : Rest) (a b n : ℕ) → MatchesRest tree rest a b n →
        b ≤ end_of rest.start rest.segments * n }
{}

/// It makes no difference how three, one after the other, are grouped.
pub fn grouping()
    ensures { (first second third : PatternTree) (rest : Rest) (a b n : ℕ) →
        MatchesRest (sequence (sequence first second) third) rest a b n ↔
        MatchesRest (sequence first (sequence second third)) rest a b n }
{}

/// A repetition is a moment, or a match and then a repetition. To repeat it once more adds nothing.
pub fn repeating()
    ensures steps { (tree : PatternTree) (rest : Rest) (a b n : ℕ) →
        MatchesRest (repetition tree) rest a b n ↔
        MatchesRest (alternation (atom empty) (sequence tree (repetition tree))) rest a b n }
    ensures nested { (tree : PatternTree) (rest : Rest) (a b n : ℕ) →
        MatchesRest (repetition (repetition tree)) rest a b n ↔
        MatchesRest (repetition tree) rest a b n }
{}

/// Where a segment is cut in two with the same valuation, and its events stay at its begin, the
/// meaning is unchanged.
pub fn splitting()
    ensures rest { (tree : PatternTree) (start : ℕ) (before : Option ℕ)
        (front back : List Segment) (first second val ev last a b n : ℕ) →
        let one = front ++ segment_with (first + second) val ev ∷ back in
        let two = front ++ segment_with first val ev ∷ plain_segment second val ∷ back in
        MatchesRest tree (rest_of start before (timeline_of one last)) a b n ↔
        MatchesRest tree (rest_of start before (timeline_of two last)) a b n }
    ensures whole { (tree : PatternTree) (front back : List Segment)
        (first second val ev last a b n : ℕ) →
        let one = front ++ segment_with (first + second) val ev ∷ back in
        let two = front ++ segment_with first val ev ∷ plain_segment second val ∷ back in
        Matches tree (timeline_of one last) a b n ↔ Matches tree (timeline_of two last) a b n }
{}

/// A match over segments with no event at their end stays a match whatever follows them: segments,
/// events at the end, or both.
pub fn growing()
    ensures rest { (tree : PatternTree) (start : ℕ) (before : Option ℕ)
        (u : List Segment) (next : Timeline) (a b n : ℕ) →
        MatchesRest tree (rest_of start before (quiet u)) a b n →
        MatchesRest tree (rest_of start before (prefixed u next)) a b n }
    ensures whole { (tree : PatternTree) (u : List Segment) (next : Timeline) (a b n : ℕ) →
        Matches tree (quiet u) a b n → Matches tree (prefixed u next) a b n }
{}

/// A match that ends before what follows some segments begins is a match without it. One that ends
/// just as it begins needn't be: an edge or an event there is known only once it is.
pub fn cutting_off()
    ensures rest { (tree : PatternTree) (start : ℕ) (before : Option ℕ)
        (u : List Segment) (next : Timeline) (a b n : ℕ) →
        b < end_of start u * n →
        MatchesRest tree (rest_of start before (prefixed u next)) a b n →
        MatchesRest tree (rest_of start before (quiet u)) a b n }
    ensures whole { (tree : PatternTree) (u : List Segment) (next : Timeline) (a b n : ℕ) →
        b < end_of 0 u * n →
        Matches tree (prefixed u next) a b n → Matches tree (quiet u) a b n }
{}

/// What comes late had begun: a match that begins no later than a cut, and ends no earlier, has
/// begun over what is before the cut; and what has begun over the whole had begun there. Events at
/// the cut don't count as known before it.
pub fn late_had_begun()
    ensures matched { (tree : PatternTree) (cut : CutRest) (a b n : ℕ) → HasLongParts cut → 0 < n →
        MatchesAcross tree cut a b n → BegunRest tree (front_of cut) a (time_of cut * n) n }
    ensures begun { (tree : PatternTree) (cut : CutRest) (a b n : ℕ) → HasLongParts cut → 0 < n →
        a ≤ time_of cut * n → BegunRest tree (uncut cut) a b n →
        BegunRest tree (front_of cut) a (time_of cut * n) n }
{}

/// A failure is final: what may match, or lead on, when a recording has gone on, already might
/// where it was cut, of pairs up to there. So what neither matches nor has begun never comes to.
pub fn failures_are_final()
    ensures same { (tree : PatternTree) (cut : CutRest) (a b n : ℕ) → HasLongParts cut → 0 < n →
        a ≤ b → b ≤ time_of cut * n →
        Either (MatchesRest tree (uncut cut)) (BegunRest tree (uncut cut)) a b n →
        Either (MatchesRest tree (front_of cut)) (BegunRest tree (front_of cut)) a b n }
    ensures follows { (tree : PatternTree) (cut : CutRest) (b n : ℕ) → HasLongParts cut → 0 < n →
        b ≤ time_of cut * n →
        Leads (Either (MatchesRest tree (uncut cut)) (BegunRest tree (uncut cut))) b n →
        Leads (Either (MatchesRest tree (front_of cut)) (BegunRest tree (front_of cut))) b n }
{}

/// The numbers of an expression's propositions, or of its events, are in the order of their first
/// use where they are those below the count, and each stands only behind all smaller ones.
pub fn numbering()
    ensures { (kind : NameKind) (tree : PatternTree) (count : ℕ) →
        IsNumbered kind tree count ↔ AreInOrderOfUse count (numbers_of kind tree) }
{}
