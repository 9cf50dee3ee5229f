// The zone of a bar over a strip of begins.
ghost use Rattle.std.specs.Prelude.{◌≡◌, ℕ, ◌^◌, ◌+◌, ◌*◌, ◌≤◌, ◌<◌, ◌↔◌, [], ◌∷◌, cond, min, pos, OnOk};
ghost use Rattle.tre_zone.specs.Bound.{Meets, IsValueWithin};
ghost use Rattle.tre_zone.specs.Zone.{GivesZone};
ghost use Rattle.tre_strips.specs.Bar.{place_of};
ghost use Rattle.tre_strips.specs.Found.{IsInPart, Pushes};

use crate::bar::{Bar, BarEnd};
use std::alloc::AllocError;
use tre_pairs::TIME_MAX;
use tre_zone::{Bound, Zone, ZoneBounds};

/// The begins of a strip: those between two times, and these two where it takes them.
#[derive(Clone, Copy)]
pub(crate) struct Begins {
    pub(crate) from: u64,
    pub(crate) takes_from: bool,
    pub(crate) until: u64,
    pub(crate) takes_until: bool,
}

/// Adds the zone of each of the bars.
#[inline(always)]
pub(crate) fn push_strip(
    found: &mut Vec<Zone>,
    begins: &Begins,
    bars: &[Bar],
) -> Result<(), AllocError>
    ensures { OnOk result (Pushes begins.now bars.now found.old.items found.new.items) }
{
    for bar in bars {
        push_zone(found, begins, bar)?;
    }
    Ok(())
}

// Adds the zone of the bar.
fn push_zone(found: &mut Vec<Zone>, begins: &Begins, bar: &Bar) -> Result<(), AllocError>
    ensures { OnOk result (Pushes begins.now (bar.now ∷ []) found.old.items found.new.items) }
{
    if let Some(zone) = zone_of(begins, bar) {
        // For the proof: the call says that the zone is canonical.
        let _bounds = zone.bounds();
        found.push(zone)?;
    }
    Ok(())
}

// The pairs that begin in the strip and end on the bar, None where there is none.
fn zone_of(begins: &Begins, bar: &Bar) -> Option<Zone>
    ensures { GivesZone result (IsInPart begins.now bar.now) }
{
    let low = BarEnd {
        ticks: begins.from,
        moves: false,
        after: !begins.takes_from,
    };
    let high = BarEnd {
        ticks: begins.until,
        moves: false,
        after: begins.takes_until,
    };
    Zone::new(&ZoneBounds {
        begin_low: low_bound(&low, false),
        begin_high: high_bound(&high, false),
        end_low: low_bound(&bar.low, false),
        end_high: high_bound(&bar.high, false),
        dur_low: low_bound(&bar.low, true),
        dur_high: high_bound(&bar.high, true),
    })
}

// The bound that a low end puts on an end, or on a duration where it moves; else none.
fn low_bound(end: &BarEnd, moves: bool) -> Bound
    ensures value { IsValueWithin (2 ^ 42) result }
    ensures meaning { (a b n : ℕ) → 0 < n → a ≤ b → b ≤ TIME_MAX * n
        → Meets result (cond moves a 0) b n
        ↔ (end.now.moves ≡ moves → place_of end.now a n ≤ 2 * b) }
{
    if end.moves != moves {
        return Bound::weak(0);
    }
    if end.after {
        Bound::strict(-shown(end))
    } else {
        Bound::weak(-shown(end))
    }
}

// The bound that a high end puts on an end, or on a duration where it moves; else none.
fn high_bound(end: &BarEnd, moves: bool) -> Bound
    ensures value { IsValueWithin (2 ^ 42) result }
    ensures meaning { (a b n : ℕ) → 0 < n → a ≤ b → b ≤ TIME_MAX * n
        → Meets result b (cond moves a 0) n
        ↔ (end.now.moves ≡ moves → 2 * b < place_of end.now a n) }
{
    if end.moves != moves {
        return Bound::weak(TIME_MAX as i64);
    }
    if end.after {
        Bound::weak(shown(end))
    } else {
        Bound::strict(shown(end))
    }
}

// The ticks of the end, or the first past all times where they are more.
fn shown(end: &BarEnd) -> i64
    ensures { result ≡ pos (min end.now.ticks (TIME_MAX + 1)) }
{
    end.ticks.min(TIME_MAX + 1) as i64
}
