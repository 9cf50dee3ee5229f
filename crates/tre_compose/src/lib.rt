//! The composition of two zones: a pair of the first, and then a pair of the second.
//!
//! [`compose`] gives exactly the pairs `(t,t')` for which some moment `m` has `(t,m)` in the first
//! zone and `(m,t')` in the second, and None exactly where there are none. Time is dense: the
//! moment may be a fraction, and where there is one at all, there is one at twice the denominator
//! of the pair. A call takes no memory, and is a fixed number of additions and comparisons of keys.
//!
//! ```
//! let unit = Zone::span(0, 1);
//! let same = compose(&unit, &unit); // (0,1) is in it, by way of 1/2
//! ```
#![tactic(auto)]

ghost use Rattle.std.specs.Prelude.{◌≡◌, ℕ, ◌<◌, ◌^◌, ◌↔◌, IsTrue, IfSome};
ghost use Rattle.std.specs.Int.{int_min};
ghost use Rattle.tre_pairs.specs.Pairs.{Composed};
ghost use Rattle.tre_zone.specs.Bound.{sum_of, IsKeyWithin};
ghost use Rattle.tre_zone.specs.Zone.{ZoneHolds, GivesZone, IsZoneOf, AreKeysWithin};
ghost use Rattle.tre_compose.specs.Begins.{BeginsOf};
ghost use Rattle.tre_compose.specs.Composition.{HasHalfway, Touch, composed_of};

use tre_zone::{Bound, Zone, ZoneBounds};

/// The pairs `(t,t')` for which some `m` has `(t,m)` in `first` and `(m,t')` in `second`, None
/// where there is none.
#[inline(always)]
pub fn compose(first: &Zone, second: &Zone) -> Option<Zone>
    ensures pairs { GivesZone result (Composed (ZoneHolds first.now) (ZoneHolds second.now)) }
    ensures halfway { IfSome result (λ zone.
        (a b n : ℕ) → 0 < n → ZoneHolds zone a b n → HasHalfway first.now second.now a b n) }
{
    let before = first.bounds();
    let after = second.bounds();
    if touch(&before, &after) {
        Some(Zone::from_canonical(&composed(&before, &after)))
    } else {
        None
    }
}

/// The instants at which pairs of the zone begin.
pub fn begins(zone: &Zone) -> Zone
    ensures { IsZoneOf result (BeginsOf (ZoneHolds zone.now)) }
{
    let bounds = zone.bounds();
    let zero = Bound::weak(0);
    Zone::from_canonical(&ZoneBounds {
        begin_low: bounds.begin_low,
        begin_high: bounds.begin_high,
        end_low: bounds.begin_low,
        end_high: bounds.begin_high,
        dur_low: zero,
        dur_high: zero,
    })
}

// Whether some pair of the first ends where one of the second begins: the two ranges of the moment
// overlap.
fn touch(first: &ZoneBounds, second: &ZoneBounds) -> bool
    requires first { AreKeysWithin (2 ^ 42) first.now }
    requires second { AreKeysWithin (2 ^ 42) second.now }
    ensures { IsTrue result ↔ Touch first.now second.now }
{
    first.end_low.plus(&second.begin_high).key() >= 1
        && second.begin_low.plus(&first.end_high).key() >= 1
}

// The shortest ways between the times 0, `t` and `t'` by way of the moment between them.
fn composed(first: &ZoneBounds, second: &ZoneBounds) -> ZoneBounds
    requires first { AreKeysWithin (2 ^ 42) first.now }
    requires second { AreKeysWithin (2 ^ 42) second.now }
    ensures { result ≡ composed_of first.now second.now }
{
    let begin_low = no_looser(&first.begin_low, &second.begin_low, &first.dur_high);
    let begin_high = no_looser(&first.begin_high, &first.dur_low, &second.begin_high);
    let end_low = no_looser(&second.end_low, &first.end_low, &second.dur_low);
    let end_high = no_looser(&second.end_high, &second.dur_high, &first.end_high);
    let shortest = first.dur_low.plus(&second.dur_low);
    let longest = second.dur_high.plus(&first.dur_high);
    ZoneBounds {
        begin_low,
        begin_high,
        end_low,
        end_high,
        dur_low: no_looser(&shortest, &begin_high, &end_low),
        dur_high: no_looser(&longest, &end_high, &begin_low),
    }
}

// The direct bound, or the sum of the two others where that is tighter.
fn no_looser(direct: &Bound, left: &Bound, right: &Bound) -> Bound
    requires left { IsKeyWithin (2 ^ 50) left.now }
    requires right { IsKeyWithin (2 ^ 50) right.now }
    ensures bound { result ≡ int_min direct.now (sum_of left.now right.now) }
    ensures key { IsKeyWithin (2 ^ 42) direct.now
        → IsKeyWithin (2 ^ 42) left.now
        → IsKeyWithin (2 ^ 42) right.now
        → IsKeyWithin (2 ^ 44) result }
{
    direct.tighter(&left.plus(right))
}
