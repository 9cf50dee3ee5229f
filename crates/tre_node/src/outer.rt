// What had led to where a restriction or an intersection began, as zones that ended before the
// present time.
ghost use Rattle.std.specs.Prelude.{◌≡◌, ◌≤◌, ◌≤ℤ◌, pos, IsTrue, OnOk, ◌^◌};
ghost use Rattle.tre_pairs.specs.Before.{Before};
ghost use Rattle.tre_pairs.specs.declared.TheConstants.{TIME_MAX};
ghost use Rattle.tre_zone.specs.Zone.{ZoneHolds, GivesZone, AreKeysWithin};
ghost use Rattle.tre_zone.specs.Bound.{IsKeyWithin};
ghost use Rattle.tre_node.specs.Outer.{early_of, EndsAround};

use tre_pairs::TIME_MAX;
use tre_zone::{Bound, Zone, ZoneBounds};

/// The pairs of the zone that end before the time, None where there is none.
#[inline(always)]
pub fn ending_before(zone: &Zone, time: u64) -> Option<Zone>
    requires { time ≤ TIME_MAX }
    ensures { GivesZone result (Before time (ZoneHolds zone.now)) }
{
    let bounds = zone.bounds();
    let end = Bound::strict(time as i64);
    if bounds.end_high.key() <= end.key() {
        return Some(*zone);
    }
    if bounds.end_low.plus(&end).key() < 1 {
        return None;
    }
    Some(Zone::from_canonical(&early_of(&bounds, &end)))
}

// The bounds of the pairs that end before what is bounded.
#[inline(always)]
fn early_of(bounds: &ZoneBounds, end: &Bound) -> ZoneBounds
    requires keys { AreKeysWithin (2 ^ 42) bounds.now }
    requires end { IsKeyWithin (2 ^ 45) end.now }
    ensures { result ≡ early_of bounds.now end.now }
{
    ZoneBounds {
        begin_low: bounds.begin_low,
        begin_high: bounds.begin_high.tighter(&bounds.dur_low.plus(end)),
        end_low: bounds.end_low,
        end_high: *end,
        dur_low: bounds.dur_low,
        dur_high: bounds.dur_high.tighter(&end.plus(&bounds.begin_low)),
    }
}
