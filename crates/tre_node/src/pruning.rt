// Lists without zones that others include.
ghost use Rattle.std.specs.Prelude.{◌+◌, ◌<◌, ◌≤◌, ◌⊎◌, Any, IsTrue, OnOk, length, take, drop};
ghost use Rattle.tre_zone.specs.Zone.{Includes};
ghost use Rattle.tre_zone.specs.ZoneList.{SetHolds, HoldExactly};

use std::alloc::{AllocError, Global};
use std::mem;
use tre_zone::Zone;
use tre_zoneset::ZoneSet;

// Up to so many zones are looked at two by two.
const FEW: usize = 24;

/// Leaves out zones that others include. Those that stay keep their order, where they are few.
#[inline(always)]
pub fn prune(alloc: Global, zones: &mut Vec<Zone>) -> Result<(), AllocError>
    ensures { OnOk result (HoldExactly zones.new.items (SetHolds zones.old.items)) }
{
    if zones.len() < 2 {
        return Ok(());
    }
    prune_more(alloc, zones)
}

fn prune_more(alloc: Global, zones: &mut Vec<Zone>) -> Result<(), AllocError>
    ensures { OnOk result (HoldExactly zones.new.items (SetHolds zones.old.items)) }
{
    if FEW < zones.len() {
        return prune_many(alloc, zones);
    }
    prune_few(zones);
    Ok(())
}

fn prune_few(zones: &mut Vec<Zone>)
    ensures { HoldExactly zones.new.items (SetHolds zones.old.items) }
{
    let mut place = 0;
    while place < zones.len() {
        place = prune_at(zones, place);
    }
}

// The zone at the place goes where another one includes it. Returns the place of the one behind it.
#[inline(always)]
fn prune_at(zones: &mut Vec<Zone>, place: usize) -> usize
    requires { place < length zones.old.items }
    ensures held { HoldExactly zones.new.items (SetHolds zones.old.items) }
    ensures fewer { length zones.new.items + place < length zones.old.items + result }
    ensures within { result ≤ length zones.new.items }
{
    let zone = zones[place];
    if is_gone(&zone, zones, place) {
        zones.remove(place);
        return place;
    }
    place + 1
}

// Whether one before the place or behind it includes the zone.
#[inline(always)]
fn is_gone(zone: &Zone, zones: &[Zone], place: usize) -> bool
    requires { place < length zones.now }
    ensures { IsTrue result → Any (λ other. Includes other zone.now) (take place zones.now)
        ⊎ Any (λ other. Includes other zone.now) (drop (place + 1) zones.now) }
{
    is_included(zone, &zones[..place]) || is_included(zone, &zones[place + 1..])
}

#[inline(always)]
fn is_included(zone: &Zone, others: &[Zone]) -> bool
    ensures { IsTrue result → Any (λ other. Includes other zone.now) others.now }
{
    others.iter().any(|other| other.includes(zone))
}

fn prune_many(alloc: Global, zones: &mut Vec<Zone>) -> Result<(), AllocError>
    ensures { OnOk result (HoldExactly zones.new.items (SetHolds zones.old.items)) }
{
    let all = mem::replace(zones, Vec::new(alloc));
    let set = ZoneSet::of_zones(alloc, all)?;
    *zones = set.into_zones();
    Ok(())
}
