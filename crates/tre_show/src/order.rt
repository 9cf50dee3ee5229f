// The zones of a set, in the order in which they are printed.
ghost use Rattle.std.specs.Prelude.{◌≡◌, ◌<◌, ℕ, neg_ℤ, ◌^◌, ◌↔◌, length, IfOk, IsTrue, IsPermutation};
ghost use Rattle.std.specs.Ordering.{int_cmp, is_lt, ordering_then};
ghost use Rattle.tre_zone.specs.Bound.{IsKeyWithin};
ghost use Rattle.tre_zone.specs.ZoneList.{SetHolds, IsApart, AreCanonical, AreTight};
ghost use Rattle.tre_zoneset.specs.ZoneSet.{IsZoneSet};
ghost use Rattle.tre_show.specs.Order.{sort_key, compare_lines, IsRising};

use std::alloc::{AllocError, Global};
use std::cmp::Ordering;
use tre_zone::{Bound, Zone};
use tre_zoneset::ZoneSet;

fn negated(bound: &Bound) -> i64
    requires { IsKeyWithin (2 ^ 42) bound.now }
    ensures { result ≡ neg_ℤ bound.now }
{
    -bound.key()
}

// The numbers by which lines are ordered, from the first.
fn sort_key(zone: &Zone) -> [i64; 6]
    ensures { result ≡ sort_key zone.now }
{
    let bounds = zone.bounds();
    [
        negated(&bounds.begin_low),
        bounds.begin_high.key(),
        negated(&bounds.end_low),
        bounds.end_high.key(),
        negated(&bounds.dur_low),
        bounds.dur_high.key(),
    ]
}

fn copy_of(alloc: Global, zones: &[Zone]) -> Result<Vec<Zone>, AllocError>
    ensures { IfOk result (λ copy. copy.items ≡ zones.now) }
{
    zones.to_vec(alloc)
}

/// The zones in rising order of their lines, in the place where they stand. What no two of them
/// include of each other they don't include in another order either.
pub fn in_printed_order(zones: Vec<Zone>) -> Vec<Zone>
    ensures same { IsPermutation zones.items result.items }
    ensures held { (a b n : ℕ) → SetHolds result.items a b n ↔ SetHolds zones.items a b n }
    ensures set { IsZoneSet zones.items → IsZoneSet result.items }
    ensures tight { IsZoneSet zones.items → AreTight result.items }
    ensures rising { IsRising result.items }
{
    let mut zones = zones;
    sort(&mut zones);
    zones
}

// Mostly the zones stand in this order, or near their places.
fn sort(zones: &mut [Zone])
    ensures same { IsPermutation zones.old zones.new }
    ensures rising { IsRising zones.new }
{
    move_near(zones);
    if !are_rising(zones) {
        sort_far(zones);
    }
}

fn sort_far(zones: &mut [Zone])
    ensures same { IsPermutation zones.old zones.new }
    ensures rising { IsRising zones.new }
{
    zones.sort_unstable_by_key(
        |zone: &Zone| -> [i64; 6]
            ensures { result ≡ sort_key zone.now }
        { sort_key(zone) },
    );
}

/// How many moves for each zone are no dearer than a sort.
const MOVES_PER_ZONE: usize = 8;

// Moves each zone before those in front of it that come behind it, as long as few are moved.
fn move_near(zones: &mut [Zone])
    ensures { IsPermutation zones.old zones.new }
{
    let mut left = zones.len().saturating_mul(MOVES_PER_ZONE);
    for place in 1..zones.len() {
        let moves = move_forward(zones, place);
        if left < moves {
            return;
        }
        left -= moves;
    }
}

// Moves the zone before those in front of it that come behind it. Says how many these are.
fn move_forward(zones: &mut [Zone], place: usize) -> usize
    requires { place < length zones.old }
    ensures { IsPermutation zones.old zones.new }
{
    let mut at = place;
    while at > 0 && comes_before(&zones[at], &zones[at - 1]) {
        zones.swap(at - 1, at);
        at -= 1;
    }
    place - at
}

/// Whether the line of no zone comes behind that of the next, so that they stand in the order in
/// which they are printed.
pub fn are_rising(zones: &[Zone]) -> bool
    ensures { IsTrue result → IsRising zones.now }
{
    for place in 1..zones.len() {
        if comes_before(&zones[place], &zones[place - 1]) {
            return false;
        }
    }
    true
}

// Whether the line of the one zone comes before that of the other.
#[inline(always)]
fn comes_before(one: &Zone, other: &Zone) -> bool
    ensures { result ≡ is_lt (compare_lines one.now other.now) }
{
    match compare(one, other) {
        Ordering::Less => true,
        Ordering::Equal | Ordering::Greater => false,
    }
}

// The first of the three ranges that differs decides.
#[inline(always)]
fn compare(one: &Zone, other: &Zone) -> Ordering
    ensures { result ≡ compare_lines one.now other.now }
{
    let zone = one.bounds();
    let next = other.bounds();
    match compare_ranges(
        &zone.begin_low,
        &zone.begin_high,
        &next.begin_low,
        &next.begin_high,
    ) {
        Ordering::Equal => {}
        unequal => return unequal,
    }
    match compare_ranges(&zone.end_low, &zone.end_high, &next.end_low, &next.end_high) {
        Ordering::Equal => {}
        unequal => return unequal,
    }
    compare_ranges(&zone.dur_low, &zone.dur_high, &next.dur_low, &next.dur_high)
}

// Of two ranges that of the smaller low end comes first, or else that of the smaller high end.
#[inline(always)]
fn compare_ranges(low: &Bound, high: &Bound, other_low: &Bound, other_high: &Bound) -> Ordering
    ensures { result ≡ ordering_then (int_cmp other_low.now low.now)
        (int_cmp high.now other_high.now) }
{
    match other_low.key().cmp(&low.key()) {
        Ordering::Equal => high.key().cmp(&other_high.key()),
        unequal => unequal,
    }
}

/// The zones of the set in rising order of their lines.
pub fn printed_order(alloc: Global, set: &ZoneSet) -> Result<Vec<Zone>, AllocError>
    ensures same { IfOk result (λ zones. IsPermutation set.now zones.items) }
    ensures held { IfOk result (λ zones.
        (a b n : ℕ) → SetHolds zones.items a b n ↔ SetHolds set.now a b n) }
    ensures apart { IfOk result (λ zones. IsApart zones.items) }
    ensures canonical { IfOk result (λ zones. AreCanonical zones.items) }
    ensures tight { IfOk result (λ zones. AreTight zones.items) }
    ensures rising { IfOk result (λ zones. IsRising zones.items) }
{
    let zones = copy_of(alloc, set.zones())?;
    Ok(in_printed_order(zones))
}
