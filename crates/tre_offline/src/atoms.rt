// What the atoms of an expression match, over what is still to come of a trace.
ghost use Rattle.std.specs.Prelude.{◌≡◌, ◌<◌, ◌≤◌, IfOk, IfSome};
ghost use Rattle.tre_pairs.specs.Pairs.{Lasting};
ghost use Rattle.tre_pairs.specs.declared.TheConstants.{TIME_MAX};
ghost use Rattle.tre_state.specs.State.{tree_of};
ghost use Rattle.tre_state.specs.StateTree.{NumbersBelow};
ghost use Rattle.tre_syntax.specs.PatternTree as pattern;
ghost use Rattle.tre_syntax.specs.PatternTree.{Atom};
ghost use Rattle.tre_syntax.specs.Rest.{Rest, whole, AtomMatches};
ghost use Rattle.tre_trace.specs.Trace.{end_of};
ghost use Rattle.tre_zone.specs.Interval.{LastsWithin};
ghost use Rattle.tre_zone.specs.Zone.{GivesZone};
ghost use Rattle.tre_zone.specs.ZoneList.{HoldExactly};
ghost use Rattle.tre_edges.specs.Piece.{rest_of_piece};
ghost use Rattle.tre_edges.specs.RunParts.{IsRunPart, LastsIn};

use std::alloc::{AllocError, Global};
use tre_edges::{
    Piece, RunEdges, event_in, events, fall_in, falls, literal, literal_in, literal_within,
    moments, moments_in, rise_in, rises, run_parts,
};
use tre_packed::AnyTrace;
use tre_state::{NAMES_MAX, State};
use tre_zone::{Interval, Zone};
use tre_zoneset::ZoneSet;

/// A trace, or a part of one: it has a begin and an end, and the matches of each atom over it.
pub trait Atoms {
    /// What is still to come of a trace, and what was just before.
    ghost rest: { Self → Rest };

    fn begin(&self) -> u64
        ensures { result ≡ (rest self.now).start };

    fn end(&self) -> u64
        ensures end { result ≡ end_of (rest self.now).start (rest self.now).segments }
        ensures order { (rest self.now).start ≤ result }
        ensures limit { result ≤ TIME_MAX };

    /// The matches of `eps`: every moment from the begin to the end.
    fn moments(&self, alloc: Global) -> Result<ZoneSet, AllocError>
        ensures { IfOk result (λ zones.
            HoldExactly zones (AtomMatches (rest self.now) pattern.empty)) };

    /// The matches of the state as a literal.
    fn literal(&self, alloc: Global, state: &State) -> Result<ZoneSet, AllocError>
        requires { NumbersBelow NAMES_MAX (tree_of state.now) }
        ensures { IfOk result (λ zones.
            HoldExactly zones
            (AtomMatches (rest self.now) (pattern.literal (tree_of state.now)))) };

    /// Those of them whose duration is in the interval.
    fn literal_within(
        &self,
        alloc: Global,
        state: &State,
        interval: &Interval,
    ) -> Result<ZoneSet, AllocError>
        requires { NumbersBelow NAMES_MAX (tree_of state.now) }
        ensures { IfOk result (λ zones.
            HoldExactly zones (Lasting (LastsWithin interval.now)
            (AtomMatches (rest self.now) (pattern.literal (tree_of state.now))))) };

    /// The matches of the state as a literal that begin and end at these edges. Where there is an
    /// interval, those alone whose duration is in it. None where they are not found at once.
    fn run_parts(
        &self,
        alloc: Global,
        state: &State,
        edges: RunEdges,
        interval: Option<Interval>,
    ) -> Result<Option<ZoneSet>, AllocError>
        requires { NumbersBelow NAMES_MAX (tree_of state.now) }
        ensures { IfOk result (λ found. IfSome found (λ zones.
            HoldExactly zones (Lasting (LastsIn interval)
            (IsRunPart edges (tree_of state.now) (rest self.now))))) };

    /// The instants at which the state becomes true.
    fn rises(&self, alloc: Global, state: &State) -> Result<ZoneSet, AllocError>
        requires { NumbersBelow NAMES_MAX (tree_of state.now) }
        ensures { IfOk result (λ zones.
            HoldExactly zones (AtomMatches (rest self.now) (pattern.rise (tree_of state.now)))) };

    /// The instants at which the state becomes false.
    fn falls(&self, alloc: Global, state: &State) -> Result<ZoneSet, AllocError>
        requires { NumbersBelow NAMES_MAX (tree_of state.now) }
        ensures { IfOk result (λ zones.
            HoldExactly zones (AtomMatches (rest self.now) (pattern.fall (tree_of state.now)))) };

    /// The instants at which the event of this number happens.
    fn events(&self, alloc: Global, number: u8) -> Result<ZoneSet, AllocError>
        requires { number < NAMES_MAX }
        ensures { IfOk result (λ zones.
            HoldExactly zones (AtomMatches (rest self.now) (pattern.event number))) };
}

impl<T: AnyTrace> Atoms for &T {
    ghost rest = { λ trace. whole (T.timeline trace.now) };

    fn begin(&self) -> u64 {
        0
    }

    fn end(&self) -> u64 {
        AnyTrace::end(*self)
    }

    fn moments(&self, alloc: Global) -> Result<ZoneSet, AllocError> {
        moments(alloc, *self)
    }

    fn literal(&self, alloc: Global, state: &State) -> Result<ZoneSet, AllocError> {
        literal(alloc, state, *self)
    }

    fn literal_within(
        &self,
        alloc: Global,
        state: &State,
        interval: &Interval,
    ) -> Result<ZoneSet, AllocError> {
        literal_within(alloc, state, *self, interval)
    }

    fn run_parts(
        &self,
        alloc: Global,
        state: &State,
        edges: RunEdges,
        interval: Option<Interval>,
    ) -> Result<Option<ZoneSet>, AllocError> {
        let zones = run_parts(alloc, state, *self, edges, interval)?;
        Ok(Some(zones))
    }

    fn rises(&self, alloc: Global, state: &State) -> Result<ZoneSet, AllocError> {
        rises(alloc, state, *self)
    }

    fn falls(&self, alloc: Global, state: &State) -> Result<ZoneSet, AllocError> {
        falls(alloc, state, *self)
    }

    fn events(&self, alloc: Global, number: u8) -> Result<ZoneSet, AllocError> {
        events(alloc, number, *self)
    }
}

impl Atoms for Piece {
    ghost rest = { λ piece. rest_of_piece piece };

    fn begin(&self) -> u64 {
        self.begin
    }

    fn end(&self) -> u64 {
        self.begin + self.segment.len
    }

    fn moments(&self, alloc: Global) -> Result<ZoneSet, AllocError> {
        set_of(alloc, Some(moments_in(self)))
    }

    fn literal(&self, alloc: Global, state: &State) -> Result<ZoneSet, AllocError> {
        set_of(alloc, literal_in(state, self))
    }

    fn literal_within(
        &self,
        alloc: Global,
        state: &State,
        interval: &Interval,
    ) -> Result<ZoneSet, AllocError> {
        let all = self.literal(alloc, state)?;
        all.into_within(interval)
    }

    fn run_parts(
        &self,
        _alloc: Global,
        _state: &State,
        _edges: RunEdges,
        _interval: Option<Interval>,
    ) -> Result<Option<ZoneSet>, AllocError> {
        Ok(None)
    }

    fn rises(&self, alloc: Global, state: &State) -> Result<ZoneSet, AllocError> {
        set_of(alloc, rise_in(state, self))
    }

    fn falls(&self, alloc: Global, state: &State) -> Result<ZoneSet, AllocError> {
        set_of(alloc, fall_in(state, self))
    }

    fn events(&self, alloc: Global, number: u8) -> Result<ZoneSet, AllocError> {
        set_of(alloc, event_in(number, self))
    }
}

// The set of the zone that was found, empty where there is none.
fn set_of(alloc: Global, found: Option<Zone>) -> Result<ZoneSet, AllocError>
    ensures { IfOk result (λ zones. (atom : Atom) (rest : Rest)
        → GivesZone found (AtomMatches rest atom) → HoldExactly zones (AtomMatches rest atom)) }
{
    let mut zones = ZoneSet::new(alloc);
    zones.add_found(found)?;
    Ok(zones)
}
