// The stretches of a trace on which a state holds, from its edges on or up to them, as a set.
ghost use Rattle.std.specs.Prelude.{◌≡◌, ◌<◌, ◌^◌, IfOk, length};
ghost use Rattle.tre_pairs.specs.Pairs.{Lasting};
ghost use Rattle.tre_state.specs.State.{tree_of};
ghost use Rattle.tre_state.specs.StateTree.{StateTree, NumbersBelow};
ghost use Rattle.tre_syntax.specs.Rest.{whole};
ghost use Rattle.tre_trace.specs.Planes.{words_for};
ghost use Rattle.tre_zone.specs.ZoneList.{HoldExactly};
ghost use Rattle.tre_edges.specs.RunParts.{IsRunPart, LastsIn};
ghost use Rattle.tre_edges.specs.RunPlaces.{AreRunPlaces, runs_at, trace_words};
ghost use Rattle.tre_edges.specs.RunSets.{zones_of};
ghost use Rattle.tre_edges.specs.RunsInTime.{zones_in};
ghost use Rattle.tre_edges.specs.StateWords.{AreTruthOf};

use crate::each_run::{KeepsParts, each_run};
use crate::part_within::part_within;
use crate::room::room_for_runs;
use crate::run_edges::RunEdges;
use crate::run_sets::{PlaceKeeper, RunSet};
use crate::truth_words::truth;
use std::alloc::{AllocError, Global};
use tre_packed::{AnyTrace, Packed};
use tre_state::{NAMES_MAX, State};
use tre_trace::Start;
use tre_zone::Interval;
use tre_zoneset::ZoneSet;

/// The stretches on which the state holds throughout, and that begin and end at these edges: one
/// zone at most for each longest run, in the order of time. Where there is an interval, those alone
/// whose duration is in it.
pub fn run_parts<T: AnyTrace>(
    alloc: Global,
    state: &State,
    trace: &T,
    edges: RunEdges,
    interval: Option<Interval>,
) -> Result<ZoneSet, AllocError>
    requires { NumbersBelow NAMES_MAX (tree_of state.now) }
    ensures { IfOk result (λ zones. HoldExactly zones (Lasting (LastsIn interval)
        (IsRunPart edges (tree_of state.now) (whole (T.timeline trace.now))))) }
{
    let words = truth(alloc, state, trace)?;
    let zones = room_for_runs(alloc, &words)?;
    let mut parts = Parts {
        zones,
        edges,
        interval,
    };
    each_run(&words, trace, &mut parts)?;
    Ok(parts.zones)
}

/// All of them, however long they last, in few bytes for each run beside the trace.
pub fn run_set(
    alloc: Global,
    state: &State,
    trace: Packed,
    edges: RunEdges,
) -> Result<RunSet, AllocError>
    requires names { NumbersBelow NAMES_MAX (tree_of state.now) }
    requires few { length trace.segments < 2 ^ 32 }
    ensures { IfOk result (λ set. HoldExactly (zones_of set)
        (IsRunPart edges (tree_of state.now) (whole trace))) }
{
    let words = truth(alloc, state, &trace)?;
    let places = places_of(alloc, &trace, &words, edges)?;
    Ok(RunSet {
        trace,
        words,
        places,
        edges,
    })
}

// The place of the first segment of each of them, where these words say where the state holds.
fn places_of(
    alloc: Global,
    trace: &Packed,
    words: &[u64],
    edges: RunEdges,
) -> Result<Vec<u32>, AllocError>
    requires size { length words.now ≡ words_for (length trace.now.segments) }
    requires few { length trace.now.segments < 2 ^ 32 }
    ensures placed { IfOk result (λ places.
        AreRunPlaces (trace_words trace.now words.now) places.items) }
    ensures held { (state : StateTree) → AreTruthOf state trace.now.segments words.now
        → IfOk result (λ places.
        HoldExactly (zones_in edges (runs_at (trace_words trace.now words.now) places.items))
        (IsRunPart edges state (whole trace.now))) }
{
    let mut keeper = PlaceKeeper::new(alloc, trace, words, edges)?;
    each_run(words, trace, &mut keeper)?;
    Ok(keeper.places)
}

// The zones of parts, and which parts are kept.
#[derive(Drop)]
struct Parts {
    zones: ZoneSet,
    edges: RunEdges,
    interval: Option<Interval>,
}

impl KeepsParts for Parts {
    ghost use Rattle.std.specs.Prelude.{None, ⊤};

    ghost kept = { λ parts. parts.zones };

    ghost edges = { λ parts. parts.edges };

    ghost interval = { λ parts. parts.interval };

    ghost runs_of = { λ parts. None };

    ghost stands = { λ parts. ⊤ };

    #[inline(always)]
    fn edges(&self) -> RunEdges {
        self.edges
    }

    #[inline(always)]
    fn keep(&mut self, from: Start, to: Start) -> Result<(), AllocError> {
        match part_within(from.time, to.time, self.edges, &self.interval) {
            Some(zone) => self.zones.push_disjoint(zone),
            None => Ok(()),
        }
    }
}
