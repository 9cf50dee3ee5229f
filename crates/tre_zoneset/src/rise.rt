// Zones of which each rises behind the one before it, as what loops over time find: of such no zone
// includes another, and one pass sees it.
ghost use Rattle.std.specs.Prelude.{◌≡◌, ◌↔◌, ◌<ℤ◌, IsTrue};
ghost use Rattle.tre_zone.specs.ZoneList.{AreApart, IsApartFrom};
ghost use Rattle.tre_zoneset.specs.Rise.{IsLess, IsHigher, Rises, IsBehind};
ghost use Rattle.tre_zoneset.specs.ZoneSet.{IsZoneSet};

use tre_zone::{Bound, Zone, ZoneBounds};

/// By which high bounds zones rise, where by their low bounds each begins later than the one before
/// it, or begins alike and ends later.
#[derive(Clone, Copy)]
enum High {
    /// Each begins later, or begins alike and ends later.
    Begin,
    /// Each ends later, or ends alike and lasts longer: so do chains of more and more steps.
    End,
}

/// Whether each zone rises behind the one before it. Such zones are apart as they stand.
pub(crate) fn all_rise(zones: &[Zone]) -> bool
    ensures { IsTrue result → IsZoneSet zones.now }
{
    all_rise_by(High::Begin, zones) || all_rise_by(High::End, zones)
}

/// Whether none of the zones includes another: by looking at each two.
pub(crate) fn all_apart(zones: &[Zone]) -> bool
    ensures { IsTrue result → IsZoneSet zones.now }
{
    for place in 0..zones.len() {
        // For the proof: the call says that the zone is canonical.
        let _bounds = zones[place].bounds();
        if !is_apart_from(&zones[place], &zones[..place]) {
            return false;
        }
    }
    true
}

// Whether the zone includes none of the others, and none of them includes it.
fn is_apart_from(zone: &Zone, others: &[Zone]) -> bool
    ensures { IsTrue result → IsApartFrom zone.now others.now }
{
    for other in others {
        if !are_apart(zone, other) {
            return false;
        }
    }
    true
}

fn are_apart(one: &Zone, other: &Zone) -> bool
    ensures { IsTrue result ↔ AreApart one.now other.now }
{
    !one.includes(other) && !other.includes(one)
}

fn all_rise_by(high: High, zones: &[Zone]) -> bool
    ensures { IsTrue result → IsZoneSet zones.now }
{
    let mut before = None;
    for zone in zones {
        let bounds = zone.bounds();
        if !is_behind(high, &before, &bounds) {
            return false;
        }
        before = Some(bounds);
    }
    true
}

// Whether the zone rises behind the one before it, if there is one.
fn is_behind(high: High, before: &Option<ZoneBounds>, zone: &ZoneBounds) -> bool
    ensures { IsTrue result → IsBehind high before.now zone.now }
{
    match before {
        Some(before) => rises(high, before, zone),
        None => true,
    }
}

fn rises(high: High, before: &ZoneBounds, zone: &ZoneBounds) -> bool
    ensures { IsTrue result → Rises high before.now zone.now }
{
    is_less(
        &zone.begin_low,
        &zone.end_low,
        &before.begin_low,
        &before.end_low,
    ) && is_higher(high, before, zone)
}

fn is_higher(high: High, before: &ZoneBounds, zone: &ZoneBounds) -> bool
    ensures { IsTrue result → IsHigher high before.now zone.now }
{
    match high {
        High::Begin => is_less(
            &before.begin_high,
            &before.end_high,
            &zone.begin_high,
            &zone.end_high,
        ),
        High::End => is_less(
            &before.end_high,
            &before.dur_high,
            &zone.end_high,
            &zone.dur_high,
        ),
    }
}

// Whether the first two are less than the next two: by the first of each, or by the second.
fn is_less(first: &Bound, second: &Bound, next_first: &Bound, next_second: &Bound) -> bool
    ensures { IsTrue result → IsLess first.now second.now next_first.now next_second.now }
{
    is_below(first, next_first) || is_same(first, next_first) && is_below(second, next_second)
}

fn is_below(one: &Bound, other: &Bound) -> bool
    ensures { IsTrue result ↔ (one.now <ℤ other.now) }
{
    one.key() < other.key()
}

fn is_same(one: &Bound, other: &Bound) -> bool
    ensures { IsTrue result ↔ (one.now ≡ other.now) }
{
    one.key() == other.key()
}
