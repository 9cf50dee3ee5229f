// One pass over the runs of a state, and what is kept of each.
ghost use Rattle.std.specs.Prelude.{◌≡◌, ◌≢◌, ◌+◌, ◌≤◌, ◌<◌, ◌↔◌, [], IfSome, IsTrue, OnOk, length};
ghost use Rattle.tre_pairs.specs.Pairs.{Either, Lasting};
ghost use Rattle.tre_pairs.specs.declared.TheConstants.{TIME_MAX};
ghost use Rattle.tre_state.specs.StateTree.{StateTree};
ghost use Rattle.tre_syntax.specs.Rest.{whole};
ghost use Rattle.tre_trace.specs.Planes.{words_for};
ghost use Rattle.tre_zone.specs.ZoneList.{SetHolds, HoldExactly};
ghost use Rattle.tre_edges.specs.Ends.{EndBefore};
ghost use Rattle.tre_edges.specs.RunPlaces.{IsRunOf, trace_words};
ghost use Rattle.tre_edges.specs.RunParts.{HasEdges, IsFoundPart, IsPart, IsRunPart, LastsIn};
ghost use Rattle.tre_edges.specs.StateWords.{AreTruthOf};

use crate::next_place::next_place;
use crate::run_edges::RunEdges;
use std::alloc::AllocError;
use tre_packed::AnyTrace;
use tre_trace::Start;

/// What keeps the parts of runs, one run behind the other.
pub(crate) trait KeepsParts {
    ghost use Rattle.std.specs.Prelude.{length, List, Option};
    ghost use Rattle.tre_zone.specs.Interval.{IntervalEnds};
    ghost use Rattle.tre_zone.specs.declared.zone_bounds.ZoneBounds.{ZoneBounds};
    ghost use Rattle.tre_edges.specs.RunPlaces.{TraceWords};
    ghost use Rattle.tre_edges.specs.declared.run_edges.RunEdges.{RunEdges};

    /// The zones of what was kept.
    ghost kept: { Self → List ZoneBounds };
    /// Which edges the parts begin and end at.
    ghost edges: { Self → RunEdges };
    /// How long they may last, where not all are kept.
    ghost interval: { Self → Option IntervalEnds };
    /// Of which words over which trace they have to be runs, where that is known.
    ghost runs_of: { Self → Option TraceWords };
    /// How they stand, besides: what each run that is kept leaves as it is.
    ghost stands: { Self → Type 0 };

    fn edges(&self) -> RunEdges
        ensures { result ≡ edges self.now };

    /// Keeps those of a run between the two.
    fn keep(&mut self, from: Start, to: Start) -> Result<(), AllocError>
        requires ended { EndBefore from.time (kept self.old) }
        requires rising { from.time < to.time }
        requires limit { to.time ≤ TIME_MAX }
        requires run { IfSome (runs_of self.old) (λ all. IsRunOf all from to) }
        requires stands { stands self.old }
        ensures held { OnOk result (HoldExactly (kept self.new) (Either (SetHolds (kept self.old))
            (Lasting (LastsIn (interval self.old))
            (IsPart (edges self.old) from.time to.time)))) }
        ensures ended { OnOk result (EndBefore (to.time + 1) (kept self.new)) }
        ensures edges { edges self.new ≡ edges self.old }
        ensures interval { interval self.new ≡ interval self.old }
        ensures runs_of { runs_of self.new ≡ runs_of self.old }
        ensures stands { OnOk result (stands self.new) };
}

/// Keeps the parts of each longest run of places whose bit is 1, in the order of time.
pub(crate) fn each_run<T: AnyTrace, K: KeepsParts>(
    words: &[u64],
    trace: &T,
    keeper: &mut K,
) -> Result<(), AllocError>
    requires none { K.kept keeper.old ≡ [] }
    requires size { length words.now ≡ words_for (length (T.timeline trace.now).segments) }
    requires runs_of { IfSome (K.runs_of keeper.old) (λ all.
        all ≡ trace_words (T.timeline trace.now) words.now) }
    requires stands { K.stands keeper.old }
    ensures held { (state : StateTree) →
        AreTruthOf state (T.timeline trace.now).segments words.now →
        OnOk result (HoldExactly (K.kept keeper.new) (Lasting (LastsIn (K.interval keeper.old))
        (IsRunPart (K.edges keeper.old) state (whole (T.timeline trace.now))))) }
    ensures edges { OnOk result (K.edges keeper.new ≡ K.edges keeper.old) }
    ensures runs_of { OnOk result (K.runs_of keeper.new ≡ K.runs_of keeper.old) }
    ensures stands { OnOk result (K.stands keeper.new) }
{
    let count = trace.count();
    let edges = keeper.edges();
    // All runs that begin before `at` were looked at, and times were added up as far as `seen`.
    let mut at = 0;
    let mut seen = Start { place: 0, time: 0 };
    while at < count {
        let begin = next_place(words, true, at, count);
        let end = next_place(words, false, begin, count);
        let from = trace.start_from(seen, begin);
        seen = trace.start_from(from, end);
        let found = has_edges(edges, begin, end, count);
        keep_found(keeper, found, from, seen)?;
        at = end + 1;
    }
    Ok(())
}

// Whether a run from the place `begin` to `end` has these edges: there is none at the begin of a
// trace of so many segments, and none at its end.
#[inline(always)]
fn has_edges(edges: RunEdges, begin: usize, end: usize, count: usize) -> bool
    ensures { IsTrue result ↔ HasEdges edges begin end count }
{
    (begin > 0 || !edges.rise) && (end < count || !edges.fall)
}

// Keeps the parts of the run between the two, where it has some segment and was found to have its
// edges.
#[inline(always)]
fn keep_found<K: KeepsParts>(
    keeper: &mut K,
    found: bool,
    from: Start,
    to: Start,
) -> Result<(), AllocError>
    requires ended { EndBefore from.time (K.kept keeper.old) }
    requires none { from.place ≡ to.place → from.time ≡ to.time }
    requires some { from.place ≢ to.place → from.time < to.time }
    requires limit { to.time ≤ TIME_MAX }
    requires run { from.place ≢ to.place →
        IfSome (K.runs_of keeper.old) (λ all. IsRunOf all from to) }
    requires stands { K.stands keeper.old }
    ensures held { OnOk result (HoldExactly (K.kept keeper.new) (Either
        (SetHolds (K.kept keeper.old)) (Lasting (LastsIn (K.interval keeper.old))
        (IsFoundPart found (K.edges keeper.old) from.time to.time)))) }
    ensures ended { OnOk result (EndBefore (to.time + 1) (K.kept keeper.new)) }
    ensures edges { K.edges keeper.new ≡ K.edges keeper.old }
    ensures interval { K.interval keeper.new ≡ K.interval keeper.old }
    ensures runs_of { K.runs_of keeper.new ≡ K.runs_of keeper.old }
    ensures stands { OnOk result (K.stands keeper.new) }
{
    if !found || from.place == to.place {
        return Ok(());
    }
    keeper.keep(from, to)
}
