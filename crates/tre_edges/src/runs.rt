// The stretches of a trace on which a state holds.
ghost use Rattle.std.specs.Prelude.{IfOk};
ghost use Rattle.tre_pairs.specs.Pairs.{Lasting};
ghost use Rattle.tre_state.specs.State.{tree_of};
ghost use Rattle.tre_state.specs.StateTree.{NumbersBelow};
ghost use Rattle.tre_syntax.specs.PatternTree as pattern;
ghost use Rattle.tre_syntax.specs.Rest.{whole, AtomMatches};
ghost use Rattle.tre_zone.specs.Interval.{LastsWithin};
ghost use Rattle.tre_zone.specs.ZoneList.{HoldExactly};
ghost use Rattle.tre_edges.specs.Runs.{AreRuns};

use crate::each_run::{KeepsParts, each_run};
use crate::edged_runs::run_parts;
use crate::room::room_for_runs;
use crate::run_edges::RunEdges;
use crate::truth_words::truth;
use std::alloc::{AllocError, Global};
use tre_packed::AnyTrace;
use tre_state::{NAMES_MAX, State};
use tre_trace::Start;
use tre_zone::{Interval, Zone};
use tre_zoneset::ZoneSet;

/// The stretches on which the state holds throughout, one zone for each longest run of segments on
/// which it is true, in the order of time. None of them is an instant.
pub fn literal<T: AnyTrace>(alloc: Global, state: &State, trace: &T) -> Result<ZoneSet, AllocError>
    requires { NumbersBelow NAMES_MAX (tree_of state.now) }
    ensures matches { IfOk result (λ zones.
        HoldExactly zones
        (AtomMatches (whole (T.timeline trace.now)) (pattern.literal (tree_of state.now)))) }
    ensures runs { IfOk result (λ zones. AreRuns 0 zones) }
{
    let words = truth(alloc, state, trace)?;
    let zones = room_for_runs(alloc, &words)?;
    let mut whole = WholeRuns { zones };
    each_run(&words, trace, &mut whole)?;
    Ok(whole.zones)
}

/// The stretches of [`literal`] whose duration is in the interval, one zone at most for each
/// longest run, in the order of time.
pub fn literal_within<T: AnyTrace>(
    alloc: Global,
    state: &State,
    trace: &T,
    interval: &Interval,
) -> Result<ZoneSet, AllocError>
    requires { NumbersBelow NAMES_MAX (tree_of state.now) }
    ensures { IfOk result (λ zones. HoldExactly zones (Lasting (LastsWithin interval.now)
        (AtomMatches (whole (T.timeline trace.now)) (pattern.literal (tree_of state.now))))) }
{
    let anywhere = RunEdges {
        rise: false,
        fall: false,
    };
    let zones = run_parts(alloc, state, trace, anywhere, Some(*interval))?;
    Ok(zones)
}

// The zones of whole runs.
#[derive(Drop)]
struct WholeRuns {
    zones: ZoneSet,
}

impl KeepsParts for WholeRuns {
    ghost use Rattle.std.specs.Prelude.{None};
    ghost use Rattle.tre_edges.specs.RunParts.{anywhere};

    ghost kept = { λ whole. whole.zones };

    ghost edges = { λ whole. anywhere };

    ghost interval = { λ whole. None };

    ghost runs_of = { λ whole. None };

    ghost stands = { λ whole. AreRuns 0 whole.zones };

    #[inline(always)]
    fn edges(&self) -> RunEdges {
        RunEdges {
            rise: false,
            fall: false,
        }
    }

    #[inline(always)]
    fn keep(&mut self, from: Start, to: Start) -> Result<(), AllocError> {
        self.zones.push_disjoint(Zone::span(from.time, to.time))
    }
}
