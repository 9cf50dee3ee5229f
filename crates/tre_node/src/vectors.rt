// Small operations on lists of zones, in vectors that stay.
ghost use Rattle.std.specs.Prelude.{◌≡◌, ◌↔◌, ◌++◌, [], IsTrue, OnOk};
ghost use Rattle.tre_pairs.specs.Pairs.{Composed, Either};
ghost use Rattle.tre_zone.specs.Held.{Held, IsSetOf};
ghost use Rattle.tre_zone.specs.Zone.{ZoneHolds};
ghost use Rattle.tre_zone.specs.ZoneList.{SetHolds, AreCanonical, HoldExactly};

use crate::moments::followed;
use std::alloc::AllocError;
use tre_zone::Zone;
use tre_zoneset::gather;

/// For the proof: each of the zones is one by its bounds. It changes nothing.
pub fn known(zones: &[Zone])
    ensures { AreCanonical zones.now }
{
    for zone in zones {
        let _bounds = zone.bounds();
    }
}

/// Whether there is no zone: mostly there is none.
#[inline(always)]
pub fn is_none(zones: &[Zone]) -> bool
    ensures { IsTrue result ↔ (zones.now ≡ []) }
{
    zones.is_empty()
}

/// Puts the zones behind those that were found: mostly they are few.
#[inline(always)]
pub fn put_behind(found: &mut Vec<Zone>, zones: &[Zone]) -> Result<(), AllocError>
    ensures { OnOk result (found.new.items ≡ found.old.items ++ zones.now) }
{
    for zone in zones {
        found.push(*zone)?;
    }
    Ok(())
}

/// Adds the pairs of the first zones, each followed by one of the second.
#[inline(always)]
pub fn gather_behind(found: &mut Vec<Zone>, first: &[Zone], second: &Zone) -> Result<(), AllocError>
    ensures { OnOk result (HoldExactly found.new.items
        (Either (SetHolds found.old.items)
        (Composed (SetHolds first.now) (ZoneHolds second.now)))) }
{
    for one in first {
        gather(found, followed(one, second))?;
    }
    Ok(())
}

/// The same of several zones.
#[inline(always)]
pub fn gather_each(found: &mut Vec<Zone>, first: &[Zone], second: &[Zone]) -> Result<(), AllocError>
    ensures { OnOk result (HoldExactly found.new.items
        (Either (SetHolds found.old.items)
        (Composed (SetHolds first.now) (SetHolds second.now)))) }
{
    for other in second {
        gather_behind(found, first, other)?;
    }
    Ok(())
}

/// The same, whatever the zones are.
#[inline(always)]
pub fn put_each(found: &mut Vec<Zone>, first: &[Zone], second: &[Zone]) -> Result<(), AllocError>
    ensures { OnOk result (IsSetOf found.new.items
        (Either (Held found.old.items) (Composed (Held first.now) (Held second.now)))) }
{
    known(first);
    known(second);
    gather_each(found, first, second)
}
