// Sets of zones.
ghost use Rattle.std.specs.Prelude.{IfOk};
ghost use Rattle.tre_pairs.specs.Pairs.{Either};
ghost use Rattle.tre_zone.specs.ZoneList.{SetHolds, HoldExactly};

use std::alloc::{AllocError, Global};
use tre_zone::Zone;
use tre_zoneset::ZoneSet;

/// The pairs of one of the two sets.
pub fn of_either(mut one: ZoneSet, other: &ZoneSet) -> Result<ZoneSet, AllocError>
    ensures { IfOk result (λ zones.
        HoldExactly zones (Either (SetHolds one) (SetHolds other.now))) }
{
    one.join(other)?;
    Ok(one)
}

/// The pairs of the zones.
pub fn set_of(alloc: Global, zones: &[Zone]) -> Result<ZoneSet, AllocError>
    ensures { IfOk result (λ set. HoldExactly set (SetHolds zones.now)) }
{
    let mut list = Vec::new(alloc);
    list.extend_from_slice(zones)?;
    ZoneSet::of_zones(alloc, list)
}
