// The instants at which an event happens.
ghost use Rattle.std.specs.Prelude.{◌≡◌, ◌↔◌, ◌<◌, IsTrue, IfOk};
ghost use Rattle.std.specs.Int.{bit_at};
ghost use Rattle.tre_syntax.specs.PatternTree.{event};
ghost use Rattle.tre_syntax.specs.Rest.{whole, AtomMatches};
ghost use Rattle.tre_zone.specs.Zone.{GivesZone};
ghost use Rattle.tre_zone.specs.ZoneList.{HoldExactly};
ghost use Rattle.tre_edges.specs.Instants.{AreInstants};
ghost use Rattle.tre_edges.specs.Piece.{rest_of_piece};

use crate::instants::{add_instant, instant_of};
use crate::next_place::next_place;
use crate::piece::Piece;
use std::alloc::{AllocError, Global};
use tre_packed::AnyTrace;
use tre_state::NAMES_MAX;
use tre_trace::Start;
use tre_zone::Zone;
use tre_zoneset::ZoneSet;

/// The instants at which the event of this number happens, one zone each, in the order of time: at
/// the begin of a segment, or at the end of the trace.
pub fn events<T: AnyTrace>(alloc: Global, number: u8, trace: &T) -> Result<ZoneSet, AllocError>
    requires { number < NAMES_MAX }
    ensures matches { IfOk result (λ zones.
        HoldExactly zones (AtomMatches (whole (T.timeline trace.now)) (event number))) }
    ensures instants { IfOk result (λ zones. AreInstants 0 zones) }
{
    let words = trace.event_plane(alloc, number)?;
    let count = trace.count();
    let mut zones = ZoneSet::new(alloc);
    // All events before the place `at` are in. Times were added up as far as `seen`.
    let mut at = next_place(&words, true, 0, count);
    let mut seen = Start { place: 0, time: 0 };
    while at < count {
        seen = trace.start_from(seen, at);
        add_instant(&mut zones, seen.time, true)?;
        at = next_place(&words, true, at + 1, count);
    }
    add_instant(
        &mut zones,
        trace.end(),
        happens(number, trace.last_events()),
    )?;
    Ok(zones)
}

/// The begin of the piece, where the event of this number happens there. What happens at its end
/// belongs to what comes next.
pub fn event_in(number: u8, piece: &Piece) -> Option<Zone>
    requires { number < NAMES_MAX }
    ensures { GivesZone result (AtomMatches (rest_of_piece piece.now) (event number)) }
{
    instant_of(piece.begin, happens(number, piece.segment.ev))
}

/// Whether the event of this number is among these, bit i of which is that of event i.
pub fn happens(number: u8, events: u64) -> bool
    requires { number < NAMES_MAX }
    ensures { IsTrue result ↔ (bit_at events number ≡ 1) }
{
    events >> number & 1 == 1
}
