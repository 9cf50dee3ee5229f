// The instants at which a state changes.
ghost use Rattle.std.specs.Prelude.{IfOk};
ghost use Rattle.tre_state.specs.State.{tree_of};
ghost use Rattle.tre_state.specs.StateTree.{NumbersBelow};
ghost use Rattle.tre_syntax.specs.PatternTree.{rise, fall};
ghost use Rattle.tre_syntax.specs.Rest.{whole, AtomMatches};
ghost use Rattle.tre_zone.specs.ZoneList.{HoldExactly};
ghost use Rattle.tre_edges.specs.Instants.{AreInstants};
ghost use Rattle.tre_edges.specs.Truth.{ComesTo};

use crate::instants::add_instant;
use crate::next_place::next_place;
use crate::room::room_for_runs;
use crate::truth_words::truth;
use std::alloc::{AllocError, Global};
use tre_packed::AnyTrace;
use tre_state::{NAMES_MAX, State};
use tre_trace::Start;
use tre_zoneset::ZoneSet;

/// The instants at which the state becomes true, one zone each, in the order of time.
pub fn rises<T: AnyTrace>(alloc: Global, state: &State, trace: &T) -> Result<ZoneSet, AllocError>
    requires { NumbersBelow NAMES_MAX (tree_of state.now) }
    ensures matches { IfOk result (λ zones.
        HoldExactly zones
        (AtomMatches (whole (T.timeline trace.now)) (rise (tree_of state.now)))) }
    ensures instants { IfOk result (λ zones. AreInstants 0 zones) }
{
    changes(alloc, state, trace, true)
}

/// The instants at which the state becomes false, one zone each, in the order of time.
pub fn falls<T: AnyTrace>(alloc: Global, state: &State, trace: &T) -> Result<ZoneSet, AllocError>
    requires { NumbersBelow NAMES_MAX (tree_of state.now) }
    ensures matches { IfOk result (λ zones.
        HoldExactly zones
        (AtomMatches (whole (T.timeline trace.now)) (fall (tree_of state.now)))) }
    ensures instants { IfOk result (λ zones. AreInstants 0 zones) }
{
    changes(alloc, state, trace, false)
}

// The instants at which the state comes to this truth.
fn changes<T: AnyTrace>(
    alloc: Global,
    state: &State,
    trace: &T,
    becomes: bool,
) -> Result<ZoneSet, AllocError>
    requires { NumbersBelow NAMES_MAX (tree_of state.now) }
    ensures matches { IfOk result (λ zones.
        HoldExactly zones (ComesTo becomes (tree_of state.now) (whole (T.timeline trace.now)))) }
    ensures instants { IfOk result (λ zones. AreInstants 0 zones) }
{
    let words = truth(alloc, state, trace)?;
    let count = trace.count();
    let mut zones = room_for_runs(alloc, &words)?;
    // All edges before the place `at` are in, and the one there is none. Times were added up as far
    // as `seen`.
    let mut at = 0;
    let mut seen = Start { place: 0, time: 0 };
    while at < count {
        let other = next_place(&words, !becomes, at, count);
        let turn = next_place(&words, becomes, other, count);
        seen = trace.start_from(seen, turn);
        add_instant(&mut zones, seen.time, turn < count)?;
        at = turn + 1;
    }
    Ok(zones)
}
