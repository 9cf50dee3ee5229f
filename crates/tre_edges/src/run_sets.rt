// Parts of runs in few bytes each.
ghost use Rattle.std.specs.Prelude.{◌≡◌, ◌<◌, ◌^◌, [], IfOk, length};
ghost use Rattle.tre_trace.specs.Planes.{words_for};
ghost use Rattle.tre_zone.specs.ZoneList.{AreTight};
ghost use Rattle.tre_zoneset.specs.ZoneSet.{IsZoneSet};
ghost use Rattle.tre_edges.specs.RunPlaces.{AreRunPlaces, trace_words};
ghost use Rattle.tre_edges.specs.RunsInTime.{BeginLater};

use crate::each_run::KeepsParts;
use crate::next_place::next_place;
use crate::part_within::part_of_run;
use crate::room::run_count;
use crate::run_edges::RunEdges;
use std::alloc::{AllocError, Global};
use tre_packed::{AnyTrace, Packed};
use tre_trace::Start;
use tre_zone::Zone;

// A longest stretch on which a state holds, in ticks.
#[derive(Clone, Copy)]
pub(crate) struct Run {
    pub(crate) begin: u64,
    pub(crate) end: u64,
}

/// The parts of runs that begin and end at the same edges: a set of zones, one for each run, that
/// takes four bytes a zone beside the trace. The zones are in the order of time.
#[derive(Drop)]
pub struct RunSet {
    pub(crate) trace: Packed,
    // Where the state holds.
    pub(crate) words: Vec<u64>,
    // Of the first segment of each run.
    pub(crate) places: Vec<u32>,
    pub(crate) edges: RunEdges,
    ghost placed: { AreRunPlaces (trace_words trace words.items) places.items },
}

impl RunSet {
    ghost use Rattle.std.specs.Prelude.{get_or};
    ghost use Rattle.tre_edges.specs.RunPlaces.{runs_at};
    ghost use Rattle.tre_edges.specs.RunSets.{zones_of};
    ghost use Rattle.tre_edges.specs.declared.run_sets.Run.{Run};
    ghost use Rattle.tre_zone.specs.declared.zone_bounds.ZoneBounds.{ZoneBounds};

    /// How many zones there are.
    pub fn len(&self) -> usize
        ensures count { result ≡ length (zones_of self.now) }
        ensures set { IsZoneSet (zones_of self.now) }
        ensures tight { AreTight (zones_of self.now) }
        ensures order { BeginLater (zones_of self.now) }
    {
        self.places.len()
    }

    /// The zone at the place.
    pub fn zone(&self, place: usize) -> Zone
        requires { place < length (zones_of self.now) }
        ensures { (other : ZoneBounds) → result ≡ get_or (zones_of self.now) place other }
    {
        let run = self.run(place);
        part_of_run(run.begin, run.end, self.edges)
    }

    // The run at the place: it ends at the next segment on which the state doesn't hold.
    fn run(&self, place: usize) -> Run
        requires { place < length self.now.places.items }
        ensures { (other : Run) →
            result ≡ get_or (runs_at (trace_words self.now.trace self.now.words.items)
            self.now.places.items) place other }
    {
        let first = self.places[place] as usize;
        let end = next_place(&self.words, false, first, self.trace.count());
        let from = self.trace.start_from(Start { place: 0, time: 0 }, first);
        let to = self.trace.start_from(from, end);
        Run {
            begin: from.time,
            end: to.time,
        }
    }
}

// Keeps runs by their places. They are those of the words over the trace.
#[derive(Drop)]
pub(crate) struct PlaceKeeper<'a> {
    pub(crate) trace: &'a Packed,
    pub(crate) words: &'a [u64],
    pub(crate) places: Vec<u32>,
    pub(crate) edges: RunEdges,
    ghost placed: { AreRunPlaces (trace_words trace.now words.now) places.items },
    ghost few: { length trace.now.segments < 2 ^ 32 },
}

impl<'a> PlaceKeeper<'a> {
    ghost use Rattle.tre_edges.specs.RunSets.{zones_kept};

    // No runs, with room for all.
    pub(crate) fn new(
        alloc: Global,
        trace: &'a Packed,
        words: &'a [u64],
        edges: RunEdges,
    ) -> Result<PlaceKeeper<'a>, AllocError>
        requires size { length words.now ≡ words_for (length trace.now.segments) }
        requires few { length trace.now.segments < 2 ^ 32 }
        ensures none { IfOk result (λ keeper. zones_kept keeper ≡ []) }
        ensures edges { IfOk result (λ keeper. keeper.edges ≡ edges) }
        ensures trace { IfOk result (λ keeper. keeper.trace.now ≡ trace.now) }
        ensures words { IfOk result (λ keeper. keeper.words.now ≡ words.now) }
    {
        let places = Vec::with_capacity(alloc, run_count(words))?;
        Ok(PlaceKeeper {
            trace,
            words,
            places,
            edges,
        })
    }
}

impl<'a> KeepsParts for PlaceKeeper<'a> {
    ghost use Rattle.std.specs.Prelude.{None, Some, ⊤};
    ghost use Rattle.tre_edges.specs.RunSets.{zones_kept};

    ghost kept = { λ keeper. zones_kept keeper };

    ghost edges = { λ keeper. keeper.edges };

    ghost interval = { λ keeper. None };

    ghost runs_of = { λ keeper. Some (trace_words keeper.trace.now keeper.words.now) };

    ghost stands = { λ keeper. ⊤ };

    fn edges(&self) -> RunEdges {
        self.edges
    }

    fn keep(&mut self, from: Start, _to: Start) -> Result<(), AllocError> {
        self.places.push(from.place as u32)?;
        Ok(())
    }
}
