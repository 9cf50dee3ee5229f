// Zones that touch, as those that end at one time do: each stretch of them is one zone.
ghost use Rattle.std.specs.Prelude.{IfOk, OnOk, IfSome};
ghost use Rattle.tre_pairs.specs.Pairs.{Either};
ghost use Rattle.tre_zone.specs.Zone.{ZoneHolds, IsZoneOf};
ghost use Rattle.tre_zone.specs.ZoneList.{SetHolds, HoldExactly};

use crate::rise::all_rise;
use crate::zone_set::ZoneSet;
use std::alloc::{AllocError, Global};
use tre_zone::Zone;

impl ZoneSet {
    /// `of_zones`, with one zone for zones that touch and are one together. Of zones that all end
    /// at one time it is one for each stretch of starts.
    pub fn of_touching(alloc: Global, zones: Vec<Zone>) -> Result<ZoneSet, AllocError>
        ensures { IfOk result (λ set. HoldExactly set (SetHolds zones.items)) }
    {
        let zones = by_begin(zones);
        if !some_may_touch(&zones) {
            return ZoneSet::of_zones(alloc, zones);
        }
        let united = all_united(alloc, &zones)?;
        ZoneSet::of_zones(alloc, united)
    }

    /// The pairs of either set, as `of_touching` makes one of its zones.
    pub fn of_both(alloc: Global, one: &ZoneSet, other: &ZoneSet) -> Result<ZoneSet, AllocError>
        ensures { IfOk result (λ set.
            HoldExactly set (Either (SetHolds one.now) (SetHolds other.now))) }
    {
        let mut zones = Vec::from_slice(alloc, one.zones())?;
        zones.extend_from_slice(other.zones())?;
        ZoneSet::of_touching(alloc, zones)
    }
}

// The zones, the earlier begin first.
fn by_begin(zones: Vec<Zone>) -> Vec<Zone>
    ensures { HoldExactly result.items (SetHolds zones.items) }
{
    let mut zones = zones;
    if !all_rise(&zones) {
        zones.sort_unstable_by_key(|zone| begin_order(zone));
    }
    zones
}

fn begin_order(zone: &Zone) -> i64 {
    !zone.bounds().begin_low.key()
}

// Whether a zone may be one with the zone before it.
fn some_may_touch(zones: &[Zone]) -> bool {
    for i in 1..zones.len() {
        if may_touch(&zones[i - 1], &zones[i]) {
            return true;
        }
    }
    false
}

// The zones, each as one with those before it where it touches them.
fn all_united(alloc: Global, zones: &[Zone]) -> Result<Vec<Zone>, AllocError>
    ensures { IfOk result (λ united. HoldExactly united.items (SetHolds zones.now)) }
{
    let mut united = Vec::new(alloc);
    for zone in zones {
        push_united(&mut united, zone)?;
    }
    Ok(united)
}

// Adds the zone to a list, as one with the last of it where the two touch.
fn push_united(united: &mut Vec<Zone>, zone: &Zone) -> Result<(), AllocError>
    ensures { OnOk result (HoldExactly united.new.items
        (Either (SetHolds united.old.items) (ZoneHolds zone.now))) }
{
    match united.pop() {
        Some(last) => {
            push_both(united, &last, zone)?;
            Ok(())
        }
        None => {
            united.push(*zone)?;
            Ok(())
        }
    }
}

// Adds two zones to a list, as one where they touch.
fn push_both(united: &mut Vec<Zone>, last: &Zone, zone: &Zone) -> Result<(), AllocError>
    ensures { OnOk result (HoldExactly united.new.items
        (Either (SetHolds united.old.items) (Either (ZoneHolds last.now) (ZoneHolds zone.now)))) }
{
    match as_one(last, zone) {
        Some(whole) => {
            united.push(whole)?;
            Ok(())
        }
        None => {
            united.push(*last)?;
            united.push(*zone)?;
            Ok(())
        }
    }
}

// The zone of both where they touch.
fn as_one(one: &Zone, other: &Zone) -> Option<Zone>
    ensures { IfSome result (λ whole.
        IsZoneOf whole (Either (ZoneHolds one.now) (ZoneHolds other.now))) }
{
    if may_touch(one, other) {
        one.united(other)
    } else {
        None
    }
}

// Whether two zones, the first of which begins no later, leave no gap between their begins, and
// end or last alike. By the keys alone: mostly they don't, and this says so at once.
fn may_touch(one: &Zone, other: &Zone) -> bool {
    let one = one.bounds();
    let other = other.bounds();
    if one.begin_high.key().saturating_add(other.begin_low.key()) < 1 {
        return false;
    }
    one.end_low == other.end_low && one.end_high == other.end_high
        || one.dur_low == other.dur_low && one.dur_high == other.dur_high
}
