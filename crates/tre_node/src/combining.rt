// What lists of zones make together, in place of what was found and without zones that others
// include.
ghost use Rattle.std.specs.Prelude.{◌≡◌, ◌↔◌, ◌⊎◌, [], IsTrue, OnOk};
ghost use Rattle.tre_pairs.specs.Pairs.{Composed, Either, Both, Lasting};
ghost use Rattle.tre_zone.specs.Held.{Held, IsSetOf};
ghost use Rattle.tre_zone.specs.Interval.{LastsWithin};
ghost use Rattle.tre_zone.specs.Zone.{ZoneHolds};
ghost use Rattle.tre_zone.specs.ZoneList.{SetHolds, HoldExactly};

use crate::combining_many::{are_many, compose_many, meet_many};
use crate::pruning::prune;
use crate::vectors::{is_none, put_behind, put_each};
use std::alloc::{AllocError, Global};
use tre_zone::{Interval, Zone};
use tre_zoneset::gather;

/// The pairs of one list and of the other.
pub fn unite_anew(
    alloc: Global,
    found: &mut Vec<Zone>,
    one: &[Zone],
    other: &[Zone],
) -> Result<(), AllocError>
    ensures { OnOk result (IsSetOf found.new.items (Either (Held one.now) (Held other.now))) }
{
    found.clear();
    put_behind(found, one)?;
    put_behind(found, other)?;
    if is_one_none(one, other) {
        return Ok(());
    }
    prune(alloc, found)
}

/// The pairs of the first list, each followed by one of the second.
pub fn compose_anew(
    alloc: Global,
    found: &mut Vec<Zone>,
    first: &[Zone],
    second: &[Zone],
) -> Result<(), AllocError>
    ensures { OnOk result (IsSetOf found.new.items (Composed (Held first.now) (Held second.now))) }
{
    if is_one_none(first, second) {
        found.clear();
        return Ok(());
    }
    compose_some(alloc, found, first, second)
}

fn compose_some(
    alloc: Global,
    found: &mut Vec<Zone>,
    first: &[Zone],
    second: &[Zone],
) -> Result<(), AllocError>
    ensures { OnOk result (IsSetOf found.new.items (Composed (Held first.now) (Held second.now))) }
{
    if are_many(first, second) {
        return compose_many(alloc, found, first, second);
    }
    found.clear();
    put_each(found, first, second)?;
    prune(alloc, found)
}

// Whether there is no zone in one of the lists: mostly there is none in either.
#[inline(always)]
fn is_one_none(one: &[Zone], other: &[Zone]) -> bool
    ensures { IsTrue result ↔ ((one.now ≡ []) ⊎ (other.now ≡ [])) }
{
    is_none(one) || is_none(other)
}

/// The same beside others.
pub fn compose_beside(
    alloc: Global,
    found: &mut Vec<Zone>,
    others: &[Zone],
    first: &[Zone],
    second: &[Zone],
) -> Result<(), AllocError>
    ensures { OnOk result (IsSetOf found.new.items
        (Either (Held others.now) (Composed (Held first.now) (Held second.now)))) }
{
    if is_one_none(first, second) {
        found.clear();
        return put_behind(found, others);
    }
    beside_some(alloc, found, others, first, second)
}

fn beside_some(
    alloc: Global,
    found: &mut Vec<Zone>,
    others: &[Zone],
    first: &[Zone],
    second: &[Zone],
) -> Result<(), AllocError>
    ensures { OnOk result (IsSetOf found.new.items
        (Either (Held others.now) (Composed (Held first.now) (Held second.now)))) }
{
    found.clear();
    put_behind(found, others)?;
    put_each(found, first, second)?;
    prune(alloc, found)
}

/// The pairs of both.
pub fn meet_anew(
    alloc: Global,
    found: &mut Vec<Zone>,
    one: &[Zone],
    other: &[Zone],
) -> Result<(), AllocError>
    ensures { OnOk result (IsSetOf found.new.items (Both (Held one.now) (Held other.now))) }
{
    if is_one_none(one, other) {
        found.clear();
        return Ok(());
    }
    meet_some(alloc, found, one, other)
}

fn meet_some(
    alloc: Global,
    found: &mut Vec<Zone>,
    one: &[Zone],
    other: &[Zone],
) -> Result<(), AllocError>
    ensures { OnOk result (IsSetOf found.new.items (Both (Held one.now) (Held other.now))) }
{
    if are_many(one, other) {
        return meet_many(alloc, found, one, other);
    }
    found.clear();
    gather_meets(found, one, other)?;
    prune(alloc, found)
}

// Adds what the zones have in common with the others, two by two.
fn gather_meets(found: &mut Vec<Zone>, zones: &[Zone], others: &[Zone]) -> Result<(), AllocError>
    ensures { OnOk result (HoldExactly found.new.items
        (Either (SetHolds found.old.items) (Both (SetHolds zones.now) (SetHolds others.now)))) }
{
    for zone in zones {
        gather_meet(found, zone, others)?;
    }
    Ok(())
}

fn gather_meet(found: &mut Vec<Zone>, zone: &Zone, others: &[Zone]) -> Result<(), AllocError>
    ensures { OnOk result (HoldExactly found.new.items
        (Either (SetHolds found.old.items) (Both (ZoneHolds zone.now) (SetHolds others.now)))) }
{
    for other in others {
        gather(found, zone.meet(other))?;
    }
    Ok(())
}

/// The pairs whose duration is in the interval.
pub fn restrict_anew(
    alloc: Global,
    found: &mut Vec<Zone>,
    zones: &[Zone],
    interval: &Interval,
) -> Result<(), AllocError>
    ensures { OnOk result
        (IsSetOf found.new.items (Lasting (LastsWithin interval.now) (Held zones.now))) }
{
    if is_none(zones) {
        found.clear();
        return Ok(());
    }
    restrict_some(alloc, found, zones, interval)
}

fn restrict_some(
    alloc: Global,
    found: &mut Vec<Zone>,
    zones: &[Zone],
    interval: &Interval,
) -> Result<(), AllocError>
    ensures { OnOk result
        (IsSetOf found.new.items (Lasting (LastsWithin interval.now) (Held zones.now))) }
{
    found.clear();
    gather_within(found, zones, interval)?;
    prune(alloc, found)
}

// Adds the pairs of the zones whose duration is in the interval.
#[inline(always)]
fn gather_within(
    found: &mut Vec<Zone>,
    zones: &[Zone],
    interval: &Interval,
) -> Result<(), AllocError>
    ensures { OnOk result (HoldExactly found.new.items (Either (SetHolds found.old.items)
        (Lasting (LastsWithin interval.now) (SetHolds zones.now)))) }
{
    for zone in zones {
        gather(found, zone.within(interval))?;
    }
    Ok(())
}
