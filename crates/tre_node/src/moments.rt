// Zones that end or begin at one moment: most that a piece meets do, and then little is to be
// worked out.
ghost use Rattle.std.specs.Prelude.{◌≡◌, ◌^◌, IfSome, IsTrue};
ghost use Rattle.tre_pairs.specs.Pairs.{Composed};
ghost use Rattle.tre_zone.specs.Zone.{ZoneHolds, GivesZone, AreKeysWithin};
ghost use Rattle.tre_node.specs.Moments.{AreMomentsBefore, MeetAtMoment, followed_at};

use tre_compose::compose;
use tre_zone::{Bound, Zone, ZoneBounds};

/// The pairs of the first zone, each followed by one of the second, None where there is none.
#[inline(always)]
pub fn followed(first: &Zone, second: &Zone) -> Option<Zone>
    ensures { GivesZone result (Composed (ZoneHolds first.now) (ZoneHolds second.now)) }
{
    let before = first.bounds();
    let after = second.bounds();
    if are_moments_before(&before, &after) {
        return Some(*second);
    }
    if meet_at_moment(&before, &after) {
        return Some(Zone::from_canonical(&followed_at(&before, &after)));
    }
    compose(first, second)
}

// Whether the first is one of moments, and has all at which the second begins.
#[inline(always)]
fn are_moments_before(first: &ZoneBounds, second: &ZoneBounds) -> bool
    ensures { IsTrue result → AreMomentsBefore first.now second.now }
{
    first.dur_high.key() <= 1
        && second.begin_low.key() <= first.begin_low.key()
        && second.begin_high.key() <= first.begin_high.key()
}

// Whether the first ends at one moment, and the second begins then.
#[inline(always)]
fn meet_at_moment(first: &ZoneBounds, second: &ZoneBounds) -> bool
    requires { AreKeysWithin (2 ^ 42) first.now }
    ensures { IsTrue result → MeetAtMoment first.now second.now }
{
    first.end_low.key() == second.begin_low.key()
        && first.end_high.key() == second.begin_high.key()
        && first.end_low.plus(&first.end_high).key() == 1
}

// The bounds of both, one after the other.
#[inline(always)]
fn followed_at(first: &ZoneBounds, second: &ZoneBounds) -> ZoneBounds
    requires first { AreKeysWithin (2 ^ 42) first.now }
    requires second { AreKeysWithin (2 ^ 42) second.now }
    ensures { result ≡ followed_at first.now second.now }
{
    ZoneBounds {
        begin_low: first.begin_low,
        begin_high: first.begin_high,
        end_low: second.end_low,
        end_high: second.end_high,
        dur_low: first.dur_low.plus(&second.dur_low),
        dur_high: second.dur_high.plus(&first.dur_high),
    }
}
