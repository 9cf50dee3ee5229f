// What leads to where a restriction or an intersection begins: pairs that ended before the present
// time, as few zones as are easily found.
ghost use Rattle.std.specs.Prelude.{◌≡◌, ◌+◌, ◌*◌, ◌<◌, ◌≤◌, ◌≤ℤ◌, ◌+ℤ◌, ◌^◌, [], ◌∷◌, pos, ℕ, Option, All, IfSome, IfOk, IsTrue, MatchBool, MatchOption, OnOk, length};
ghost use Rattle.tre_pairs.specs.Before.{Before};
ghost use Rattle.tre_pairs.specs.Pairs.{Either};
ghost use Rattle.tre_pairs.specs.declared.TheConstants.{TIME_MAX};
ghost use Rattle.tre_zone.specs.Bound.{IsKeyWithin};
ghost use Rattle.tre_zone.specs.Held.{Held};
ghost use Rattle.tre_zone.specs.Zone.{ZoneHolds, IsZoneOf, AreKeysWithin};
ghost use Rattle.tre_zone.specs.ZoneList.{SetHolds, HoldExactly};
ghost use Rattle.tre_node.specs.IsNode.{IsInReach};
ghost use Rattle.tre_node.specs.Outer.{EndsFromTick, EndsBeforeTick, GivesEarly, IsOutOfReach, Joins, JoinsAll, JoinsAt, Keeps, KeepsInReach};

use crate::outer::ending_before;
use crate::vectors::put_behind;
use std::alloc::{AllocError, Global};
use std::mem;
use tre_pairs::TIME_MAX;
use tre_zone::{Bound, Zone, ZoneBounds};
use tre_zoneset::ZoneSet;

// How many old zones are looked at for each that enters.
const NEAR: usize = 16;

/// A zone that has two, and the place of the one of them in its list.
#[derive(Clone, Copy)]
struct Joined {
    place: usize,
    whole: Zone,
}

/// The pairs that end before the time join the others, as far as something may end behind them at
/// the time or later that lasts up to the reach. `most` is how many zones there may be before all
/// are joined anew; `aux` is room.
pub fn lead_on(
    alloc: Global,
    outer: &mut Vec<Zone>,
    aux: &mut Vec<Zone>,
    most: &mut usize,
    entering: &[Zone],
    reach: Option<u64>,
    time: u64,
) -> Result<(), AllocError>
    requires { time ≤ TIME_MAX }
    ensures { OnOk result (Keeps reach time outer.old.items
        (Either (Held outer.old.items) (Before time (Held entering.now))) outer.new.items) }
{
    let old = outer.len();
    put_early(outer, entering, reach, time)?;
    put_again(outer, aux, old)?;
    if outer.len() <= *most {
        return Ok(());
    }
    unite(alloc, outer)?;
    keep_in_reach(outer, reach, time);
    *most = outer.len().saturating_mul(2).saturating_add(NEAR);
    Ok(())
}

// The zones join the others, each as far as it ends before the time and is in reach.
fn put_early(
    outer: &mut Vec<Zone>,
    entering: &[Zone],
    reach: Option<u64>,
    time: u64,
) -> Result<(), AllocError>
    requires { time ≤ TIME_MAX }
    ensures { OnOk result (Keeps reach time outer.old.items
        (Either (Held outer.old.items) (Before time (Held entering.now))) outer.new.items) }
{
    let mut at = first_place(outer.len(), entering.len());
    for zone in entering {
        at = put_early_zone(outer, zone, reach, time, at)?;
    }
    Ok(())
}

// Where the first zone is looked for: one alone among the last, many in their order.
#[inline(always)]
fn first_place(old: usize, entering: usize) -> usize {
    if 1 < entering {
        return 0;
    }
    old.saturating_sub(NEAR)
}

#[inline(always)]
fn put_early_zone(
    outer: &mut Vec<Zone>,
    zone: &Zone,
    reach: Option<u64>,
    time: u64,
    at: usize,
) -> Result<usize, AllocError>
    requires { time ≤ TIME_MAX }
    ensures { OnOk result (Keeps reach time outer.old.items
        (Either (Held outer.old.items) (Before time (Held (zone.now ∷ [])))) outer.new.items) }
{
    match early_in_reach(zone, reach, time) {
        Some(early) => put_near(outer, &early, at),
        None => Ok(at),
    }
}

// The pairs that end before the time, if something may still count behind them.
#[inline(always)]
fn early_in_reach(zone: &Zone, reach: Option<u64>, time: u64) -> Option<Zone>
    requires { time ≤ TIME_MAX }
    ensures { GivesEarly reach time zone.now result }
{
    match ending_before(zone, time) {
        Some(early) => only_in_reach(early, reach, time),
        None => None,
    }
}

#[inline(always)]
fn only_in_reach(zone: Zone, reach: Option<u64>, time: u64) -> Option<Zone>
    ensures { MatchOption result (IsOutOfReach time reach zone)
        (λ same. (same ≡ zone) × IsInReach time reach zone) }
{
    if is_in_reach(&zone, reach, time) {
        return Some(zone);
    }
    None
}

// Whether something may still count that begins where the last pairs of the zone end.
#[inline(always)]
fn is_in_reach(zone: &Zone, reach: Option<u64>, time: u64) -> bool
    ensures { MatchBool result (IsInReach time reach zone.now) (IsOutOfReach time reach zone.now) }
{
    match reach {
        Some(high) => ends_from(zone, time.saturating_sub(high)),
        None => true,
    }
}

// Whether some pair of the zone ends in the tick before the time or later.
#[inline(always)]
fn ends_from(zone: &Zone, time: u64) -> bool
    ensures { MatchBool result (EndsFromTick time zone.now) (EndsBeforeTick time zone.now) }
{
    if time <= zone.latest_end() {
        return true;
    }
    false
}

/// The zones stay behind which something may still end at the time or later that lasts up to the
/// reach. They stay in order.
pub fn keep_in_reach(outer: &mut Vec<Zone>, reach: Option<u64>, time: u64)
    ensures { KeepsInReach reach time outer.old.items outer.new.items }
{
    if outer.is_empty() {
        return;
    }
    outer.retain(|zone| is_in_reach(zone, reach, time));
}

// What was put behind the old zones is put once more: one of those may have grown since.
fn put_again(outer: &mut Vec<Zone>, aux: &mut Vec<Zone>, old: usize) -> Result<(), AllocError>
    ensures { OnOk result (JoinsAll outer.old.items [] outer.new.items) }
{
    if old == 0 || outer.len() <= old {
        return Ok(());
    }
    aux.clear();
    put_behind(aux, &outer[old..])?;
    outer.truncate(old);
    put_all_near(outer, aux)
}

fn put_all_near(outer: &mut Vec<Zone>, zones: &[Zone]) -> Result<(), AllocError>
    ensures { OnOk result (JoinsAll outer.old.items zones.now outer.new.items) }
{
    let mut at = 0;
    for zone in zones {
        at = put_near(outer, zone, at)?;
    }
    Ok(())
}

// The zone joins one of the old ones near the place, or stands behind them. Says where the next is
// looked for: both lists are in one order mostly.
fn put_near(outer: &mut Vec<Zone>, zone: &Zone, at: usize) -> Result<usize, AllocError>
    ensures { OnOk result (Joins outer.old.items zone.now outer.new.items) }
{
    if let Some(joined) = near(outer, zone, at) {
        outer[joined.place] = joined.whole;
        return Ok(joined.place);
    }
    outer.push(*zone)?;
    Ok(at)
}

// The first zone from the place on that is one with this one.
fn near(outer: &[Zone], zone: &Zone, at: usize) -> Option<Joined>
    ensures { IfSome result (JoinsAt outer.now zone.now) }
{
    let mut place = at;
    let mut left = NEAR.min(outer.len());
    while 0 < left {
        place = wrapped(place, outer.len());
        if let Some(whole) = whole_of(&outer[place], zone) {
            return Some(Joined { place, whole });
        }
        place += 1;
        left -= 1;
    }
    None
}

// The place, or the first where it is none.
#[inline(always)]
fn wrapped(place: usize, count: usize) -> usize
    requires { 0 < count }
    ensures { result < count }
{
    if place < count {
        return place;
    }
    0
}

// The zone of both, where there is one.
#[inline(always)]
fn whole_of(one: &Zone, other: &Zone) -> Option<Zone>
    ensures { IfSome result (λ whole.
        IsZoneOf whole (Either (ZoneHolds one.now) (ZoneHolds other.now))) }
{
    if one.includes(other) {
        return Some(*one);
    }
    if !may_be_one(one, other) {
        return None;
    }
    one.united(other)
}

// Whether two zones may be one together: there is no gap between their begins, their ends or their
// durations.
#[inline(always)]
fn may_be_one(one: &Zone, other: &Zone) -> bool {
    let before = one.bounds();
    let after = other.bounds();
    touch(&before, &after) && touch(&after, &before)
}

#[inline(always)]
fn touch(one: &ZoneBounds, other: &ZoneBounds) -> bool
    requires one { AreKeysWithin (2 ^ 42) one.now }
    requires other { AreKeysWithin (2 ^ 42) other.now }
{
    leave_no_gap(&one.begin_high, &other.begin_low)
        && leave_no_gap(&one.end_high, &other.end_low)
        && leave_no_gap(&one.dur_high, &other.dur_low)
}

#[inline(always)]
fn leave_no_gap(high: &Bound, low: &Bound) -> bool
    requires high { IsKeyWithin (2 ^ 42) high.now }
    requires low { IsKeyWithin (2 ^ 42) low.now }
{
    1 <= high.key() + low.key()
}

fn unite(alloc: Global, zones: &mut Vec<Zone>) -> Result<(), AllocError>
    ensures { OnOk result (HoldExactly zones.new.items (SetHolds zones.old.items)) }
{
    let all = mem::replace(zones, Vec::new(alloc));
    let set = ZoneSet::of_touching(alloc, all)?;
    *zones = set.into_zones();
    Ok(())
}
