ghost use Rattle.std.specs.Prelude.{IfOk};
ghost use Rattle.tre_compose.specs.Begins.{BeginsOf};
ghost use Rattle.tre_pairs.specs.Leads.{LeadsOn};
ghost use Rattle.tre_pairs.specs.Pairs.{Both};
ghost use Rattle.tre_zone.specs.ZoneList.{SetHolds, HoldExactly};

use crate::composition::compose_sets;
use std::alloc::{AllocError, Global};
use tre_compose::begins;
use tre_zone::Zone;
use tre_zoneset::ZoneSet;

/// The instants at which pairs of the set begin.
pub fn begins_of(alloc: Global, set: &ZoneSet) -> Result<ZoneSet, AllocError>
    ensures { IfOk result (λ found. HoldExactly found (BeginsOf (SetHolds set.now))) }
{
    let found = begins_in(alloc, set.zones())?;
    ZoneSet::of_zones(alloc, found)
}

/// The pairs of a set that end where pairs of another begin.
pub fn leading_on(alloc: Global, set: &ZoneSet, other: &ZoneSet) -> Result<ZoneSet, AllocError>
    ensures { IfOk result (λ found.
        HoldExactly found (Both (SetHolds set.now) (LeadsOn (SetHolds other.now)))) }
{
    let begins = begins_of(alloc, other)?;
    // For the proof: the calls say that both are sets of zones.
    let _set = set.zones();
    let _begins = begins.zones();
    compose_sets(alloc, set, &begins)
}

// The same of zones, as zones.
fn begins_in(alloc: Global, zones: &[Zone]) -> Result<Vec<Zone>, AllocError>
    ensures { IfOk result (λ found. HoldExactly found.items (BeginsOf (SetHolds zones.now))) }
{
    let mut found = Vec::new(alloc);
    for zone in zones {
        found.push(begins(zone))?;
    }
    Ok(found)
}
