// When the pairs of zones begin.
ghost use Rattle.std.specs.Prelude.{◌≡◌, ◌<◌, ◌≤◌, length, drop, slice_index_or};
ghost use Rattle.tre_zone.specs.Zone.{IsCanonical};
ghost use Rattle.tre_zone.specs.declared.zone_bounds.ZoneBounds.{ZoneBounds};
ghost use Rattle.tre_strips.specs.Sweep.{begin_of, last_begin_of, BeginInTurn, PairsBeginFrom, BeginsBehind, SameBehind};

use tre_pairs::TIME_MAX;
use tre_zone::Zone;

/// The time from which on pairs of the zone begin.
pub(crate) fn first_begin(zone: &Zone) -> u64
    ensures { result ≡ begin_of zone.now }
{
    let bounds = zone.bounds();
    bounds.begin_low.value().unsigned_abs()
}

/// The place of the first of the waiting zones that begins behind the time, or of the end.
pub(crate) fn first_waiting(zones: &[Zone], waiting: usize, time: u64) -> usize
    requires { waiting ≤ length zones.now }
    ensures rising { waiting ≤ result }
    ensures count { result ≤ length zones.now }
    ensures behind { (zone : ZoneBounds) → result < length zones.now
        → time < begin_of (slice_index_or zones.now result zone) }
{
    for place in waiting..zones.len() {
        if first_begin(&zones[place]) > time {
            return place;
        }
    }
    zones.len()
}

/// The first time at which a zone from the place on begins, or the first past all times.
pub(crate) fn next_begin(zones: &[Zone], place: usize, time: u64) -> u64
    requires turn { BeginInTurn zones.now }
    requires limit { time ≤ TIME_MAX }
    requires count { place ≤ length zones.now }
    requires behind { (zone : ZoneBounds) → place < length zones.now
        → time < begin_of (slice_index_or zones.now place zone) }
    ensures later { time < result }
    ensures first { PairsBeginFrom result (drop place zones.now) }
{
    if place < zones.len() {
        first_begin(&zones[place])
    } else {
        TIME_MAX + 1
    }
}

/// Drops the zones in which nothing begins behind the time.
pub(crate) fn close_zones(zones: &mut Vec<Zone>, time: u64)
    ensures { SameBehind time zones.old.items zones.new.items }
{
    zones.retain(|zone| begins_behind(zone, time));
}

// Whether pairs of the zone may begin behind the time.
fn begins_behind(zone: &Zone, time: u64) -> bool
    ensures { BeginsBehind time result zone.now }
{
    last_begin(zone) > time
}

/// The time up to which pairs of the zone begin.
pub(crate) fn last_begin(zone: &Zone) -> u64
    ensures last { result ≡ last_begin_of zone.now }
    ensures canonical { IsCanonical zone.now }
{
    let bounds = zone.bounds();
    bounds.begin_high.value().unsigned_abs()
}
