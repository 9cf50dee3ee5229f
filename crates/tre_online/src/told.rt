ghost use Rattle.std.specs.Prelude.{◌≡◌, ◌++◌, OnOk};
ghost use Rattle.tre_zone.specs.ZoneList.{SetHolds, AreCanonical, HoldExactly};
ghost use Rattle.tre_zoneset.specs.ZoneSet.{IsZoneSet, Without};
ghost use Rattle.tre_online.specs.Told.{WasTold, IsNew};

use std::alloc::{AllocError, Global};
use std::mem;
use tre_index::ZoneIndex;
use tre_zone::Zone;
use tre_zoneset::{ZoneSet, are_few, index_of};

/// For the proof: each of the zones is one by its bounds. It changes nothing.
#[inline(always)]
pub fn known(zones: &[Zone])
    ensures { AreCanonical zones.now }
{
    for zone in zones {
        let _bounds = zone.bounds();
    }
}

/// Puts these in place of what was told.
#[inline(always)]
pub fn put_told(told: &mut Vec<Zone>, ended: &[Zone], inside: &[Zone]) -> Result<(), AllocError>
    ensures { OnOk result (told.new.items ≡ ended.now ++ inside.now) }
{
    told.clear();
    told.extend_from_slice(ended)?;
    told.extend_from_slice(inside)?;
    Ok(())
}

/// Leaves those of the zones that no other includes.
#[inline(always)]
pub fn keep_apart(alloc: Global, zones: &mut Vec<Zone>) -> Result<(), AllocError>
    ensures same { OnOk result (HoldExactly zones.new.items (SetHolds zones.old.items)) }
    ensures set { OnOk result (IsZoneSet zones.new.items) }
{
    if zones.len() < 2 {
        known(zones);
        return Ok(());
    }
    let found = mem::replace(zones, Vec::new(alloc));
    let set = ZoneSet::of_zones(alloc, found)?;
    // For the proof: the call says that it is a set of zones.
    let _set = set.zones();
    *zones = set.into_zones();
    Ok(())
}

/// Drops the zones that a zone of `earlier` includes.
#[inline(always)]
pub fn drop_told(alloc: Global, zones: &mut Vec<Zone>, earlier: &[Zone]) -> Result<(), AllocError>
    ensures { OnOk result (Without (WasTold earlier.now) zones.old.items zones.new.items) }
{
    if are_few(earlier) {
        drop_beside(zones, earlier);
        return Ok(());
    }
    let index = index_of(alloc, earlier)?;
    drop_among(zones, &index);
    Ok(())
}

// By looking at each zone of `earlier`.
#[inline(always)]
fn drop_beside(zones: &mut Vec<Zone>, earlier: &[Zone])
    ensures { Without (WasTold earlier.now) zones.old.items zones.new.items }
{
    zones.retain(|zone| is_beside(zone, earlier));
}

// By an index over them.
fn drop_among(zones: &mut Vec<Zone>, earlier: &ZoneIndex)
    ensures { Without (WasTold earlier.now) zones.old.items zones.new.items }
{
    zones.retain(|zone| is_among(zone, earlier));
}

// Whether no zone of `earlier` includes the zone.
#[inline(always)]
fn is_beside(zone: &Zone, earlier: &[Zone]) -> bool
    ensures { IsNew earlier.now zone.now result }
{
    !earlier.iter().any(|other| other.includes(zone))
}

fn is_among(zone: &Zone, earlier: &ZoneIndex) -> bool
    ensures { IsNew earlier.now zone.now result }
{
    !earlier.includes(zone)
}
