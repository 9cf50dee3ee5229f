// Zones that begin together, each without what the one before it holds: where many over one begin
// have ends that join to few bars, few of them are open at a time.
ghost use Rattle.std.specs.Prelude.{◌≡◌, ℕ, ◌^◌, ◌⊎◌, ◌↔◌, ◌-ℤ◌, ◌≤ℤ◌, pos, IsTrue, IfOk, OnOk};
ghost use Rattle.tre_zone.specs.Bound.{IsKeyWithin};
ghost use Rattle.tre_zone.specs.Zone.{GivesZone, Covers};
ghost use Rattle.tre_zone.specs.ZoneList.{SetHolds, AreCanonical, HoldExactly};
ghost use Rattle.tre_zoneset.specs.ZoneSet.{FoundHolds};
ghost use Rattle.tre_strips.specs.Trim.{Trims, TrimsBehind, IsEarlyHeld, Early, Late, bounds_by};

use crate::begins::{first_begin, last_begin};
use std::alloc::{AllocError, Global};
use tre_zone::{Bound, Zone, ZoneBounds};

/// The zones, each without what one before it holds too.
pub(crate) fn trimmed(alloc: Global, zones: &[Zone]) -> Result<Vec<Zone>, AllocError>
    ensures held { IfOk result (λ kept. HoldExactly kept.items (SetHolds zones.now)) }
    ensures canonical { IfOk result (λ kept. AreCanonical kept.items) }
{
    // Mostly they stand in this order, and no copy has to be made.
    if are_in_order(zones) {
        return each_trimmed(alloc, zones);
    }
    let mut sorted = Vec::from_slice(alloc, zones)?;
    sorted.sort_unstable_by_key(|zone| [first_begin(zone), last_begin(zone)]);
    each_trimmed(alloc, &sorted)
}

// Whether none of the zones begins before the one in front of it, nor begins with it and stops
// beginning before it.
fn are_in_order(zones: &[Zone]) -> bool {
    for place in 1..zones.len() {
        if comes_behind(&zones[place - 1], &zones[place]) {
            return false;
        }
    }
    true
}

fn comes_behind(one: &Zone, other: &Zone) -> bool {
    let begin = first_begin(one);
    let other_begin = first_begin(other);
    if begin == other_begin {
        last_begin(one) > last_begin(other)
    } else {
        begin > other_begin
    }
}

// Each zone without what the one before it holds.
fn each_trimmed(alloc: Global, zones: &[Zone]) -> Result<Vec<Zone>, AllocError>
    ensures held { IfOk result (λ kept. HoldExactly kept.items (SetHolds zones.now)) }
    ensures canonical { IfOk result (λ kept. AreCanonical kept.items) }
{
    let mut kept = Vec::with_capacity(alloc, zones.len())?;
    let mut before = None;
    for zone in zones {
        push_found(&mut kept, rest_of(zone, &before))?;
        before = Some(*zone);
    }
    Ok(kept)
}

// Adds the zone that was found, if there is one.
fn push_found(kept: &mut Vec<Zone>, found: Option<Zone>) -> Result<(), AllocError>
    ensures held { OnOk result ((a b n : ℕ) → SetHolds kept.new.items a b n
        ↔ (SetHolds kept.old.items a b n ⊎ FoundHolds found a b n)) }
    ensures canonical { OnOk result (AreCanonical kept.old.items → AreCanonical kept.new.items) }
{
    if let Some(zone) = found {
        // For the proof: the call says that the zone is canonical.
        let _bounds = zone.bounds();
        kept.push(zone)?;
    }
    Ok(())
}

// What the zone holds more than the one before it, where that is simply what begins behind all of
// this one; else the zone.
fn rest_of(zone: &Zone, before: &Option<Zone>) -> Option<Zone>
    ensures { Trims zone.now before.now result }
{
    match before {
        Some(other) => rest_behind(zone, other),
        None => Some(*zone),
    }
}

fn rest_behind(zone: &Zone, other: &Zone) -> Option<Zone>
    ensures { TrimsBehind zone.now other.now result }
{
    // Zones that begin apart have nothing in common, and no other need be made.
    if first_begin(zone) > last_begin(other) {
        return Some(*zone);
    }
    let last = other.bounds().begin_high;
    if is_early_held(zone, other, &last) {
        late(zone, &last)
    } else {
        Some(*zone)
    }
}

// Whether the other holds the pairs of the zone that begin by the bound.
fn is_early_held(zone: &Zone, other: &Zone, last: &Bound) -> bool
    requires { IsKeyWithin (2 ^ 42) last.now }
    ensures { IsTrue result → IsEarlyHeld zone.now other.now last.now }
{
    if covers_early(other, zone, last) {
        return true;
    }
    match early(zone, last) {
        Some(early) => other.includes(&early),
        None => true,
    }
}

// Whether the six keys alone tell that the other holds them: then no zone has to be made of them.
fn covers_early(other: &Zone, zone: &Zone, last: &Bound) -> bool
    ensures { IsTrue result ↔ Covers other.now (bounds_by zone.now last.now) }
{
    are_looser(&other.bounds(), &zone.bounds(), last)
}

fn are_looser(outer: &ZoneBounds, inner: &ZoneBounds, last: &Bound) -> bool
    ensures { IsTrue result ↔ Covers outer.now (bounds_by inner.now last.now) }
{
    is_looser(&outer.begin_low, &inner.begin_low)
        && is_looser(&outer.begin_high, last)
        && is_looser(&outer.end_low, &inner.end_low)
        && is_looser(&outer.end_high, &inner.end_high)
        && is_looser(&outer.dur_low, &inner.dur_low)
        && is_looser(&outer.dur_high, &inner.dur_high)
}

// Whether what meets the second bound meets the first.
fn is_looser(one: &Bound, other: &Bound) -> bool
    ensures { IsTrue result ↔ (other.now ≤ℤ one.now) }
{
    other.key() <= one.key()
}

// The pairs of the zone that begin by the bound.
fn early(zone: &Zone, last: &Bound) -> Option<Zone>
    requires { IsKeyWithin (2 ^ 42) last.now }
    ensures { GivesZone result (Early zone.now last.now) }
{
    let bounds = zone.bounds();
    Zone::new(&ZoneBounds {
        begin_low: bounds.begin_low,
        begin_high: bounds.begin_high.tighter(last),
        end_low: bounds.end_low,
        end_high: bounds.end_high,
        dur_low: bounds.dur_low,
        dur_high: bounds.dur_high,
    })
}

// The pairs of the zone that begin behind the bound.
fn late(zone: &Zone, last: &Bound) -> Option<Zone>
    requires { IsKeyWithin (2 ^ 42) last.now }
    ensures { GivesZone result (Late zone.now last.now) }
{
    let bounds = zone.bounds();
    Zone::new(&ZoneBounds {
        begin_low: bounds.begin_low.tighter(&behind(last)),
        begin_high: bounds.begin_high,
        end_low: bounds.end_low,
        end_high: bounds.end_high,
        dur_low: bounds.dur_low,
        dur_high: bounds.dur_high,
    })
}

// The low bound on begins behind all that meet the high one.
fn behind(last: &Bound) -> Bound
    requires { IsKeyWithin (2 ^ 42) last.now }
    ensures { result ≡ pos 1 -ℤ last.now }
{
    if last.is_weak() {
        Bound::strict(-last.value())
    } else {
        Bound::weak(-last.value())
    }
}
