// What is left of a list of zones from a place on, by bounds that take all of it in. Where nothing
// of that would be new, none of the zones has to be looked at.
ghost use Rattle.std.specs.Prelude.{◌≡◌, ℕ, ◌+◌, ◌^◌, ◌<◌, ◌≤◌, ◌≤ℤ◌, List, length, slice_index_or, IsTrue, IfOk};
ghost use Rattle.tre_pairs.specs.Pairs.{Composed, Lasting};
ghost use Rattle.tre_zone.specs.Bound.{IsKeyWithin};
ghost use Rattle.tre_zone.specs.Longest.{LastsUpTo, IsLongest};
ghost use Rattle.tre_zone.specs.Zone.{ZoneHolds, Covers, AreKeysWithin};
ghost use Rattle.tre_zone.specs.ZoneList.{SetHolds, AreCanonical};
ghost use Rattle.tre_zone.specs.declared.zone_bounds.ZoneBounds.{ZoneBounds};
ghost use Rattle.tre_zoneset.specs.ZoneSet.{FoundHolds};
ghost use Rattle.tre_star.specs.Tails.{TakesIn, AreTails};

use crate::chains::composed_up_to;
use std::alloc::{AllocError, Global};
use tre_zone::{Bound, Zone, ZoneBounds};

/// The bounds that take in the last zone, then those of the last two, and so on.
pub(crate) fn tails_of(alloc: Global, zones: &[Zone]) -> Result<Vec<ZoneBounds>, AllocError>
    ensures { IfOk result (λ tails. AreTails (length zones.now) tails.items zones.now) }
{
    let mut tails = Vec::with_capacity(alloc, zones.len())?;
    for count in 0..zones.len() {
        let zone = zones[zones.len() - 1 - count].bounds();
        let tail = tail_with(&tails, &zone);
        tails.push(tail)?;
    }
    Ok(tails)
}

/// Whether all compositions of the zone with zones that the bounds take in, as far as they last at
/// most `longest`, are seen to be held already.
pub(crate) fn is_held(found: &[Zone], zone: &Zone, rest: &ZoneBounds, longest: Option<u64>) -> bool
    requires keys { AreKeysWithin (2 ^ 42) rest.now }
    requires longest { IsLongest longest }
    ensures { IsTrue result → (zones : List ZoneBounds) → AreCanonical zones
        → TakesIn rest.now zones → (a b n : ℕ) → 0 < n → a ≤ b
        → Lasting (LastsUpTo longest) (Composed (ZoneHolds zone.now) (SetHolds zones)) a b n
        → SetHolds found.now a b n }
{
    match Zone::new(rest) {
        Some(rest) => is_among(found, &composed_up_to(zone, &rest, longest)),
        None => true,
    }
}

// Whether one of the zones includes the one that was found, or none was.
fn is_among(zones: &[Zone], found: &Option<Zone>) -> bool
    ensures { IsTrue result → (a b n : ℕ) → 0 < n → a ≤ b → FoundHolds found.now a b n
        → SetHolds zones.now a b n }
{
    match found {
        Some(zone) => is_included(zones, zone),
        None => true,
    }
}

fn is_included(zones: &[Zone], zone: &Zone) -> bool
    ensures { IsTrue result → (a b n : ℕ) → 0 < n → a ≤ b → ZoneHolds zone.now a b n
        → SetHolds zones.now a b n }
{
    for other in zones {
        if other.includes(zone) {
            return true;
        }
    }
    false
}

// The bounds that take in the zone too, beside what the last of the others does.
fn tail_with(tails: &[ZoneBounds], zone: &ZoneBounds) -> ZoneBounds
    ensures own { Covers result zone.now }
    ensures before { (k : ℕ) (d : ZoneBounds) → length tails.now ≡ k + 1
        → Covers result (slice_index_or tails.now k d) }
    ensures keys { (limit : ℕ) → AreKeysWithin limit zone.now
        → ((k : ℕ) (d : ZoneBounds) → length tails.now ≡ k + 1
        → AreKeysWithin limit (slice_index_or tails.now k d))
        → AreKeysWithin limit result }
{
    let count = tails.len();
    if count == 0 {
        return *zone;
    }
    looser(tail_at(tails, count - 1), zone)
}

/// The bounds at the place.
#[inline(always)]
pub(crate) fn tail_at(tails: &[ZoneBounds], place: usize) -> &ZoneBounds
    requires { place < length tails.now }
    ensures { (d : ZoneBounds) → result.now ≡ slice_index_or tails.now place d }
{
    &tails[place]
}

// The looser bound of each two.
fn looser(one: &ZoneBounds, other: &ZoneBounds) -> ZoneBounds
    ensures first { Covers result one.now }
    ensures second { Covers result other.now }
    ensures keys { (limit : ℕ) → AreKeysWithin limit one.now → AreKeysWithin limit other.now
        → AreKeysWithin limit result }
{
    ZoneBounds {
        begin_low: looser_bound(&one.begin_low, &other.begin_low),
        begin_high: looser_bound(&one.begin_high, &other.begin_high),
        end_low: looser_bound(&one.end_low, &other.end_low),
        end_high: looser_bound(&one.end_high, &other.end_high),
        dur_low: looser_bound(&one.dur_low, &other.dur_low),
        dur_high: looser_bound(&one.dur_high, &other.dur_high),
    }
}

fn looser_bound(one: &Bound, other: &Bound) -> Bound
    ensures first { one.now ≤ℤ result }
    ensures second { other.now ≤ℤ result }
    ensures keys { (limit : ℕ) → IsKeyWithin limit one.now → IsKeyWithin limit other.now
        → IsKeyWithin limit result }
{
    if one.key() < other.key() {
        *other
    } else {
        *one
    }
}
