// Zones in order: the earlier begin first, and then the wider zone. Two lists in order make one in
// order by merging them, and need no sort.
ghost use Rattle.std.specs.Prelude.{◌≤◌, IfOk, OnOk, List, length, take};
ghost use Rattle.tre_pairs.specs.Pairs.{Either};
ghost use Rattle.tre_zone.specs.ZoneList.{SetHolds, HoldExactly};
ghost use Rattle.tre_zone.specs.declared.zone_bounds.ZoneBounds.{ZoneBounds};

use std::alloc::{AllocError, Global};
use tre_zone::Zone;

/// The zones of both lists, in order where each of these is.
pub(crate) fn merged(alloc: Global, one: &[Zone], other: &[Zone]) -> Result<Vec<Zone>, AllocError>
    ensures { IfOk result (λ zones.
        HoldExactly zones.items (Either (SetHolds one.now) (SetHolds other.now))) }
{
    let mut zones = Vec::with_capacity(alloc, one.len().saturating_add(other.len()))?;
    let mut place = 0;
    for zone in one {
        place = add_earlier(&mut zones, zone, other, place)?;
        zones.push(*zone)?;
    }
    zones.extend_from_slice(&other[place..])?;
    Ok(zones)
}

// Adds those of the others, from the place on, that come before the zone. Gives the place of the
// first that doesn't.
fn add_earlier(
    zones: &mut Vec<Zone>,
    zone: &Zone,
    others: &[Zone],
    place: usize,
) -> Result<usize, AllocError>
    requires { place ≤ length others.now }
    ensures within { IfOk result (λ end. end ≤ length others.now) }
    ensures held { IfOk result (λ end. (start : List ZoneBounds)
        → HoldExactly zones.old.items (Either (SetHolds start) (SetHolds (take place others.now)))
        → HoldExactly zones.new.items (Either (SetHolds start) (SetHolds (take end others.now)))) }
{
    let mut end = place;
    while end < others.len() && comes_before(&others[end], zone) {
        zones.push(others[end])?;
        end += 1;
    }
    Ok(end)
}

/// The zones in order.
pub(crate) fn in_order(zones: Vec<Zone>) -> Vec<Zone>
    ensures { HoldExactly result.items (SetHolds zones.items) }
{
    let mut zones = zones;
    if !are_in_order(&zones) {
        zones.sort_unstable_by_key(|zone| order_of(zone));
    }
    zones
}

// By this zones are sorted.
fn order_of(zone: &Zone) -> [i64; 6] {
    let row = zone.row();
    [!row[0], !row[1], !row[2], !row[3], !row[4], !row[5]]
}

fn are_in_order(zones: &[Zone]) -> bool {
    for place in 1..zones.len() {
        if comes_before(&zones[place], &zones[place - 1]) {
            return false;
        }
    }
    true
}

// Whether the one zone has to stand before the other. Most begin at different times, and then this
// is seen by one key.
#[inline(always)]
fn comes_before(one: &Zone, other: &Zone) -> bool {
    let key = one.bounds().begin_low.key();
    let next = other.bounds().begin_low.key();
    key > next || key == next && one.row() > other.row()
}
