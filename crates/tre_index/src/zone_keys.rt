//! Keys of the rows that a zone has to do with: whatever zone has a row that does not reach such a
//! key can be passed over.

ghost use Rattle.std.specs.Prelude.{◌≡◌, ◌^◌, pos, ◌-ℤ◌};
ghost use Rattle.tre_zone.specs.Bound.{IsKeyWithin};
ghost use Rattle.tre_pairs.specs.Pairs.{Both, Composed};
ghost use Rattle.tre_zone.specs.Zone.{HasNoPair, IsCanonical, ZoneHolds, row_of};
ghost use Rattle.tre_zone.specs.declared.zone_bounds.ZoneBounds.{ZoneBounds};
ghost use Rattle.tre_lanes.specs.Rows.{Reaches};
ghost use Rattle.tre_index.specs.ZoneKeys.{after_of, before_of, meeting_of};

use crate::row::Row;
use tre_zone::{Bound, Zone};

/// Below each key that a zone can have.
const LOWEST: i64 = -(1 << 50);

/// The key of the zones that can follow this one: they begin where some pair of it ends.
pub fn key_after(zone: &Zone) -> Row
    ensures key { result ≡ after_of zone.now }
    ensures others { (other : ZoneBounds) → IsCanonical other → (Reaches (row_of other) result → ⊥)
        → HasNoPair (Composed (ZoneHolds zone.now) (ZoneHolds other)) }
{
    let bounds = zone.bounds();
    [
        facing(&bounds.end_high),
        facing(&bounds.end_low),
        LOWEST,
        LOWEST,
        LOWEST,
        LOWEST,
        LOWEST,
        LOWEST,
    ]
}

/// The key of the zones that this one can follow: they end where some pair of it begins.
pub fn key_before(zone: &Zone) -> Row
    ensures key { result ≡ before_of zone.now }
    ensures others { (other : ZoneBounds) → IsCanonical other → (Reaches (row_of other) result → ⊥)
        → HasNoPair (Composed (ZoneHolds other) (ZoneHolds zone.now)) }
{
    let bounds = zone.bounds();
    [
        LOWEST,
        LOWEST,
        facing(&bounds.begin_high),
        facing(&bounds.begin_low),
        LOWEST,
        LOWEST,
        LOWEST,
        LOWEST,
    ]
}

/// The key of the zones that can share a pair with this one: all six ranges meet.
pub fn key_meeting(zone: &Zone) -> Row
    ensures key { result ≡ meeting_of zone.now }
    ensures others { (other : ZoneBounds) → IsCanonical other → (Reaches (row_of other) result → ⊥)
        → HasNoPair (Both (ZoneHolds zone.now) (ZoneHolds other)) }
{
    let bounds = zone.bounds();
    [
        facing(&bounds.begin_high),
        facing(&bounds.begin_low),
        facing(&bounds.end_high),
        facing(&bounds.end_low),
        facing(&bounds.dur_high),
        facing(&bounds.dur_low),
        0,
        0,
    ]
}

/// The least key that the bound on the other side may have, so that some difference meets both.
fn facing(bound: &Bound) -> i64
    requires { IsKeyWithin (2 ^ 42) bound.now }
    ensures { result ≡ pos 1 -ℤ bound.now }
{
    1 - bound.key()
}
