// The same of many zones, by the index that sets of zones have.
ghost use Rattle.std.specs.Prelude.{IfOk, OnOk};
ghost use Rattle.tre_pairs.specs.Pairs.{Composed, Both};
ghost use Rattle.tre_zone.specs.Held.{Held, IsSetOf};
ghost use Rattle.tre_zone.specs.ZoneList.{SetHolds, HoldExactly};

use crate::vectors::put_behind;
use std::alloc::{AllocError, Global};
use tre_mark::copied;
use tre_star::compose_sets;
use tre_zone::Zone;
use tre_zoneset::ZoneSet;

// So many pairs of zones are looked at two by two.
const FEW: usize = 64;

/// Whether there are more pairs of zones than are looked at two by two.
#[inline(always)]
pub fn are_many(first: &[Zone], second: &[Zone]) -> bool {
    FEW < first.len().saturating_mul(second.len())
}

/// The pairs of the first list, each followed by one of the second, in place of what was found.
pub fn compose_many(
    alloc: Global,
    found: &mut Vec<Zone>,
    first: &[Zone],
    second: &[Zone],
) -> Result<(), AllocError>
    ensures { OnOk result (IsSetOf found.new.items (Composed (Held first.now) (Held second.now))) }
{
    let one = set_of(alloc, first)?;
    let other = set_of(alloc, second)?;
    put_composed(alloc, found, &one, &other)
}

fn put_composed(
    alloc: Global,
    found: &mut Vec<Zone>,
    first: &ZoneSet,
    second: &ZoneSet,
) -> Result<(), AllocError>
    ensures { OnOk result (IsSetOf found.new.items (Composed (Held first.now) (Held second.now))) }
{
    // For the proof: the calls say that these are sets of zones.
    let _first = first.zones();
    let _second = second.zones();
    let all = compose_sets(alloc, first, second)?;
    found.clear();
    put_behind(found, all.zones())?;
    Ok(())
}

/// The pairs of both, in place of what was found.
pub fn meet_many(
    alloc: Global,
    found: &mut Vec<Zone>,
    one: &[Zone],
    other: &[Zone],
) -> Result<(), AllocError>
    ensures { OnOk result (IsSetOf found.new.items (Both (Held one.now) (Held other.now))) }
{
    let first = set_of(alloc, one)?;
    let second = set_of(alloc, other)?;
    put_common(found, &first, &second)
}

fn put_common(found: &mut Vec<Zone>, first: &ZoneSet, second: &ZoneSet) -> Result<(), AllocError>
    ensures { OnOk result (IsSetOf found.new.items (Both (Held first.now) (Held second.now))) }
{
    let all = first.meet(second)?;
    found.clear();
    put_behind(found, all.zones())?;
    Ok(())
}

fn set_of(alloc: Global, zones: &[Zone]) -> Result<ZoneSet, AllocError>
    ensures { IfOk result (λ set. HoldExactly set (SetHolds zones.now)) }
{
    let all = copied(alloc, zones)?;
    ZoneSet::of_zones(alloc, all)
}
