// The zones that no other includes, by looking back: of zones in the order of their begins few
// stand where they could include one another.
ghost use Rattle.std.specs.Prelude.{ℕ, ◌+◌, ◌≡◌, ◌++◌, ◌∷◌, [], true, Ok, Any, MatchOption, MatchBool, IsTrue, IfOk, IfSome, OnOk, ◌<ℤ◌, ◌<◌, length, slice_index_or};
ghost use Rattle.tre_pairs.specs.Pairs.{Either};
ghost use Rattle.tre_zone.specs.Zone.{ZoneHolds, Includes};
ghost use Rattle.tre_zone.specs.declared.zone_bounds.ZoneBounds.{ZoneBounds};
ghost use Rattle.tre_zone.specs.ZoneList.{SetHolds, IsApartFrom, AreCanonical, HoldExactly};
ghost use Rattle.tre_zoneset.specs.declared.near.Reach.{Reach};
ghost use Rattle.tre_zoneset.specs.Near.{IsWithin, AreReached, IsReachedTo};

use crate::zone_set::ZoneSet;
use std::alloc::{AllocError, Global};
use tre_zone::{Zone, ZoneBounds};

/// How far the begins of zones reach, up to one of them: the least key of the bounds from below,
/// and the greatest of those from above.
#[derive(Clone, Copy)]
pub(crate) struct Reach {
    pub low: i64,
    pub high: i64,
}

/// Those of the zones that no other includes, None where too many would be looked at for them, or
/// where one includes another that stands before it.
pub(crate) fn thin_near(
    alloc: Global,
    zones: &[Zone],
    looks: usize,
) -> Result<Option<ZoneSet>, AllocError>
    ensures { IfOk result (λ found.
        IfSome found (λ kept. HoldExactly kept (SetHolds zones.now))) }
{
    let mut kept = ZoneSet::new(alloc);
    let mut reaches = Vec::new(alloc);
    let mut left = looks;
    for zone in zones {
        if !keep_near(&mut kept, &mut reaches, zone, &mut left)? {
            return Ok(None);
        }
    }
    Ok(Some(kept))
}

// Keeps the zone too, where no kept one includes it. Says whether it could tell.
fn keep_near(
    kept: &mut ZoneSet,
    reaches: &mut Vec<Reach>,
    zone: &Zone,
    left: &mut usize,
) -> Result<bool, AllocError>
    requires { AreReached kept.old reaches.old.items }
    ensures held { result ≡ Ok true → HoldExactly kept.new
        (Either (SetHolds kept.old) (ZoneHolds zone.now)) }
    ensures reached { OnOk result (AreReached kept.new reaches.new.items) }
{
    match look_back(kept.zones(), reaches, zone, left) {
        Some(true) => Ok(true),
        Some(false) => {
            push_reach(reaches, zone)?;
            kept.push_apart(*zone)?;
            Ok(true)
        }
        None => Ok(false),
    }
}

// Adds how far the begins reach with this zone.
fn push_reach(reaches: &mut Vec<Reach>, zone: &Zone) -> Result<(), AllocError>
    ensures { OnOk result (IsReachedTo reaches.old.items zone.now reaches.new.items) }
{
    let reach = reach_with(reaches, &zone.bounds());
    reaches.push(reach)?;
    Ok(())
}

// How far the begins reach with this zone.
fn reach_with(reaches: &[Reach], zone: &ZoneBounds) -> Reach
    ensures own { IsWithin result zone.now }
    ensures before { (k : ℕ) (r : Reach) (other : ZoneBounds) → length reaches.now ≡ k + 1
        → IsWithin (slice_index_or reaches.now k r) other → IsWithin result other }
{
    let own = Reach {
        low: zone.begin_low.key(),
        high: zone.begin_high.key(),
    };
    let count = reaches.len();
    if count == 0 {
        return own;
    }
    wider(&reach_at(reaches, count - 1), &own)
}

#[inline(always)]
fn reach_at(reaches: &[Reach], place: usize) -> Reach
    requires { place < length reaches.now }
    ensures { (r : Reach) → result ≡ slice_index_or reaches.now place r }
{
    reaches[place]
}

// The reach that takes in both.
fn wider(one: &Reach, other: &Reach) -> Reach
    ensures first { (zone : ZoneBounds) → IsWithin one.now zone → IsWithin result zone }
    ensures second { (zone : ZoneBounds) → IsWithin other.now zone → IsWithin result zone }
{
    Reach {
        low: one.low.min(other.low),
        high: one.high.max(other.high),
    }
}

// Whether a kept zone includes this one, where it is seen; false says that it is apart from all.
fn look_back(kept: &[Zone], reaches: &[Reach], zone: &Zone, left: &mut usize) -> Option<bool>
    requires canonical { AreCanonical kept.now }
    requires reached { AreReached kept.now reaches.now }
    ensures { MatchOption result (Unit {0}) (λ included. MatchBool included
        (Any (λ member. Includes member zone.now) kept.now) (IsApartFrom zone.now kept.now)) }
{
    let bounds = zone.bounds();
    let mut place = kept.len();
    while place > 0 {
        place -= 1;
        if is_beyond(reaches, place, &bounds) {
            return Some(false);
        }
        let member = &kept[place];
        if member.includes(zone) {
            return Some(true);
        }
        if *left == 0 || zone.includes(member) {
            return None;
        }
        *left -= 1;
    }
    Some(false)
}

// Whether a zone with these bounds is apart from all that begin within the reach at the place.
#[inline(always)]
fn is_beyond(reaches: &[Reach], place: usize, zone: &ZoneBounds) -> bool
    requires { place < length reaches.now }
    ensures { (r : Reach) → IsTrue result
        → (zone.now.begin_low <ℤ (slice_index_or reaches.now place r).low)
        × ((slice_index_or reaches.now place r).high <ℤ zone.now.begin_high) }
{
    let reach = reach_at(reaches, place);
    zone.begin_low.key() < reach.low && reach.high < zone.begin_high.key()
}
