ghost use Rattle.std.specs.Prelude.{◌≡◌, [], map, IfOk, IfSome, OnOk};
ghost use Rattle.tre_lanes.specs.Rows.{FindsNext};
ghost use Rattle.tre_pairs.specs.Pairs.{Either};
ghost use Rattle.tre_pairs.specs.Except.{Except};
ghost use Rattle.tre_zone.specs.Zone.{ZoneHolds, row_of};
ghost use Rattle.tre_zone.specs.ZoneList.{SetHolds, AreCanonical, HoldExactly};
ghost use Rattle.tre_index.specs.Turn.{AreInTurn};
ghost use Rattle.tre_minus.specs.Parts.{IsCompared, Together};

use crate::cut::{Part, take_away};
use std::alloc::{AllocError, Global};
use tre_index::{Row, ZoneIndex, are_in_turn, find_stretch, key_meeting, next_of_few};
use tre_zone::Zone;
use tre_zoneset::{ZoneSet, index_of};

/// The pairs that `set` holds and `taken` does not.
pub fn minus(alloc: Global, set: &ZoneSet, taken: &ZoneSet) -> Result<ZoneSet, AllocError>
    ensures { IfOk result (λ left.
        HoldExactly left (Except (SetHolds set.now) (SetHolds taken.now))) }
{
    let found = zones_left(alloc, set.zones(), taken.zones())?;
    let left = ZoneSet::of_zones(alloc, found)?;
    Ok(left)
}

// Where a zone meets more than so many of those to be taken away, an index finds them.
const FEW_TAKEN: usize = 32;

// Whether each zone meets a few of the others alone. What is left of a zone goes over all that it
// meets once for each of its parts.
fn are_short_stretches(zones: &[Zone], others: &[Zone]) -> bool
    requires { AreInTurn (map row_of others.now) }
{
    let mut near = 0;
    for zone in zones {
        let stretch = find_stretch(others, near, &key_meeting(zone));
        if stretch.to - stretch.from > FEW_TAKEN {
            return false;
        }
        near = stretch.from;
    }
    true
}

// Zones of what is left of the zones.
fn zones_left(alloc: Global, zones: &[Zone], taken: &[Zone]) -> Result<Vec<Zone>, AllocError>
    requires { AreCanonical taken.now }
    ensures { IfOk result (λ found.
        HoldExactly found.items (Except (SetHolds zones.now) (SetHolds taken.now))) }
{
    if are_in_turn(taken) && are_short_stretches(zones, taken) {
        return left_in_turn(alloc, zones, taken);
    }
    left_by_index(alloc, zones, taken)
}

// The same where the taken ones stand in the order of time, in one pass over both. One stack of
// parts serves all zones.
fn left_in_turn(alloc: Global, zones: &[Zone], taken: &[Zone]) -> Result<Vec<Zone>, AllocError>
    requires turn { AreInTurn (map row_of taken.now) }
    requires taken { AreCanonical taken.now }
    ensures { IfOk result (λ found.
        HoldExactly found.items (Except (SetHolds zones.now) (SetHolds taken.now))) }
{
    let mut found = Vec::new(alloc);
    let mut parts = Vec::new(alloc);
    let mut near = 0;
    for zone in zones {
        near = leave_near(&mut found, &mut parts, zone, taken, near)?;
    }
    Ok(found)
}

// Adds zones of what is left of the zone to those found: of the taken ones it looks at those around
// the place `near` that begin when it does. Gives the place of the first of them.
fn leave_near(
    found: &mut Vec<Zone>,
    parts: &mut Vec<Part>,
    zone: &Zone,
    taken: &[Zone],
    near: usize,
) -> Result<usize, AllocError>
    requires turn { AreInTurn (map row_of taken.now) }
    requires taken { AreCanonical taken.now }
    requires none { parts.old.items ≡ [] }
    ensures held { OnOk result (HoldExactly found.new.items (Either (SetHolds found.old.items)
        (Except (ZoneHolds zone.now) (SetHolds taken.now)))) }
    ensures none { OnOk result (parts.new.items ≡ []) }
{
    let stretch = find_stretch(taken, near, &key_meeting(zone));
    parts.push(Part {
        zone: *zone,
        from: 0,
    })?;
    compare_all(found, parts, &taken[stretch.from..stretch.to], &None)?;
    Ok(stretch.from)
}

// The same in any order, by an index over the taken ones.
fn left_by_index(alloc: Global, zones: &[Zone], taken: &[Zone]) -> Result<Vec<Zone>, AllocError>
    requires { AreCanonical taken.now }
    ensures { IfOk result (λ found.
        HoldExactly found.items (Except (SetHolds zones.now) (SetHolds taken.now))) }
{
    let index = Some(index_of(alloc, taken)?);
    let mut found = Vec::new(alloc);
    let mut parts = Vec::new(alloc);
    for zone in zones {
        parts.push(Part {
            zone: *zone,
            from: 0,
        })?;
        compare_all(&mut found, &mut parts, taken, &index)?;
    }
    Ok(found)
}

// Adds zones of what is left of the parts to those found: by the index over the taken zones, where
// there is one.
fn compare_all(
    found: &mut Vec<Zone>,
    parts: &mut Vec<Part>,
    taken: &[Zone],
    index: &Option<ZoneIndex>,
) -> Result<(), AllocError>
    requires taken { AreCanonical taken.now }
    requires index { IfSome index.now (λ items. items ≡ taken.now) }
    ensures held { OnOk result (HoldExactly found.new.items
        (Together taken.now found.old.items parts.old.items)) }
    ensures none { OnOk result (parts.new.items ≡ []) }
{
    while let Some(part) = parts.pop() {
        compare(found, parts, &part, taken, index)?;
    }
    Ok(())
}

// Takes the next zone away from the part that may share a pair with it. Without one it is found.
fn compare(
    found: &mut Vec<Zone>,
    parts: &mut Vec<Part>,
    part: &Part,
    taken: &[Zone],
    index: &Option<ZoneIndex>,
) -> Result<(), AllocError>
    requires taken { AreCanonical taken.now }
    requires index { IfSome index.now (λ items. items ≡ taken.now) }
    ensures { OnOk result (IsCompared taken.now part.now found.old.items parts.old.items
        found.new.items parts.new.items) }
{
    match next_of(taken, index, part.from, &key_meeting(&part.zone)) {
        Some(next) => {
            take_away(parts, &part.zone, &taken[next], next + 1)?;
            Ok(())
        }
        None => {
            found.push(part.zone)?;
            Ok(())
        }
    }
}

// The place of the first zone from `from` on whose row reaches the key: by the index, or by looking
// at each.
#[inline(always)]
fn next_of(taken: &[Zone], index: &Option<ZoneIndex>, from: usize, key: &Row) -> Option<usize>
    requires { IfSome index.now (λ items. items ≡ taken.now) }
    ensures { FindsNext (map row_of taken.now) key.now from result }
{
    match index {
        Some(index) => index.next_at_least(from, key),
        None => next_of_few(taken, from, key),
    }
}
