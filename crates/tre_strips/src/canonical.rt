// The list of the strips.
ghost use Rattle.std.specs.Prelude.{◌≡◌, ◌^◌, ◌↔◌, neg_ℤ, Contains, List, [], IfOk, IsTrue, OnOk};
ghost use Rattle.std.specs.List.Sorted.{IsStrictlySortedBy};
ghost use Rattle.std.specs.declared.cmp.Ordering.TheVariants.{Less};
ghost use Rattle.tre_zone.specs.Bound.{IsKeyWithin};
ghost use Rattle.tre_zone.specs.ZoneList.{SetHolds, AreCanonical, HoldExactly};
ghost use Rattle.tre_zone.specs.declared.zone_bounds.ZoneBounds.{ZoneBounds};
ghost use Rattle.tre_strips.specs.Listed.{line_key, compare_lines, AreListed};
ghost use Rattle.tre_strips.specs.Strips.{AreStrips};
ghost use Rattle.tre_strips.specs.Spun.{HaveSamePairs, AreFound, IsSpun};
ghost use Rattle.tre_strips.specs.Sweep.{begin_of, BeginInTurn, IsSwept};

use crate::begins::first_begin;
use crate::column::{Column, Sweep};
use crate::run::Run;
use crate::trim::trimmed;
use std::alloc::{AllocError, Global};
use std::cmp::Ordering;
use tre_pairs::TIME_MAX;
use tre_zone::{Bound, Zone};
use tre_zoneset::ZoneSet;

/// The canonical strips of what the set holds, in the order in which they are printed: a list that
/// is the same for every set that holds the same pairs.
pub fn strips(alloc: Global, set: &ZoneSet) -> Result<Vec<Zone>, AllocError>
    ensures strips { IfOk result (λ zones. AreStrips (SetHolds set.now) zones.items) }
    ensures listed { IfOk result (λ zones. AreListed zones.items) }
    ensures held { IfOk result (λ zones. HoldExactly zones.items (SetHolds set.now)) }
{
    let fewer = trimmed(alloc, set.zones())?;
    let zones = in_turn(fewer);
    let found = strips_of(alloc, &zones)?;
    Ok(in_order(found))
}

// The zones in the order of their first begins.
fn in_turn(zones: Vec<Zone>) -> Vec<Zone>
    requires { AreCanonical zones.items }
    ensures turn { BeginInTurn result.items }
    ensures same { HaveSamePairs zones.items result.items }
{
    let mut sorted = zones;
    sorted.sort_unstable_by_key(
        |zone: &Zone| -> u64
            ensures { result ≡ begin_of zone.now }
        { first_begin(zone) },
    );
    sorted
}

// The strips of zones in the order of their first begins.
fn strips_of(alloc: Global, zones: &[Zone]) -> Result<Vec<Zone>, AllocError>
    requires { BeginInTurn zones.now }
    ensures { IfOk result (λ found. (set : List ZoneBounds) → AreCanonical set
        → HaveSamePairs set zones.now → AreFound set found.items) }
{
    let mut found = Vec::with_capacity(alloc, zones.len())?;
    add_strips(alloc, zones, &mut found)?;
    Ok(found)
}

// Adds them to an empty list: in one pass over the columns, the first of which begins a run.
fn add_strips(alloc: Global, zones: &[Zone], found: &mut Vec<Zone>) -> Result<(), AllocError>
    requires turn { BeginInTurn zones.now }
    requires none { found.old.items ≡ [] }
    ensures { OnOk result ((set : List ZoneBounds) → AreCanonical set
        → HaveSamePairs set zones.now → AreFound set found.new.items) }
{
    let mut sweep = Sweep::new(alloc);
    let mut column = Column::new(alloc);
    sweep.next_column(alloc, zones, &mut column)?;
    let mut run = Run::first(alloc, found, &mut column)?;
    spin(alloc, zones, found, &mut sweep, &mut column, &mut run)
}

// The same behind the first column, in which the run begins.
fn spin(
    alloc: Global,
    zones: &[Zone],
    found: &mut Vec<Zone>,
    sweep: &mut Sweep,
    column: &mut Column,
    run: &mut Run,
) -> Result<(), AllocError>
    requires turn { BeginInTurn zones.now }
    requires swept { IsSwept zones.now sweep.old.open_zones.items sweep.old.waiting
        sweep.old.time }
    ensures { OnOk result ((set : List ZoneBounds) → AreCanonical set
        → HaveSamePairs set zones.now
        → IsSpun set run.old.bars.items run.old.from run.old.takes_from found.old.items
        sweep.old.time
        → AreFound set found.new.items) }
{
    while sweep.time <= TIME_MAX {
        sweep.next_column(alloc, zones, column)?;
        run.next(alloc, found, column)?;
    }
    Ok(())
}

// The zones in the order in which they are printed, each once.
fn in_order(found: Vec<Zone>) -> Vec<Zone>
    ensures order { IsStrictlySortedBy compare_lines result.items }
    ensures same { (zone : ZoneBounds) → Contains result.items zone ↔ Contains found.items zone }
{
    // Mostly they are found in this order.
    if are_rising(&found) {
        return found;
    }
    let mut zones = found;
    zones.sort_unstable_by_key(
        |zone: &Zone| -> [i64; 6]
            ensures { result ≡ line_key zone.now }
        { line_key(zone) },
    );
    zones.dedup_by_key(
        |zone: &mut Zone| -> [i64; 6]
            ensures key { result ≡ line_key zone.old }
            ensures same { zone.new ≡ zone.old }
        { line_key(zone) },
    );
    zones
}

// Whether the line of each zone comes before that of the next.
fn are_rising(zones: &[Zone]) -> bool
    ensures { IsTrue result → IsStrictlySortedBy compare_lines zones.now }
{
    for place in 1..zones.len() {
        if !comes_first(&zones[place - 1], &zones[place]) {
            return false;
        }
    }
    true
}

fn comes_first(one: &Zone, other: &Zone) -> bool
    ensures { IsTrue result → compare_lines one.now other.now ≡ Less }
{
    match line_key(one).cmp(&line_key(other)) {
        Ordering::Less => true,
        Ordering::Equal | Ordering::Greater => false,
    }
}

// The numbers by which lines are ordered, from the first.
fn line_key(zone: &Zone) -> [i64; 6]
    ensures { result ≡ line_key zone.now }
{
    let bounds = zone.bounds();
    [
        negated(&bounds.begin_low),
        bounds.begin_high.key(),
        negated(&bounds.end_low),
        bounds.end_high.key(),
        negated(&bounds.dur_low),
        bounds.dur_high.key(),
    ]
}

fn negated(bound: &Bound) -> i64
    requires { IsKeyWithin (2 ^ 42) bound.now }
    ensures { result ≡ neg_ℤ bound.now }
{
    -bound.key()
}
