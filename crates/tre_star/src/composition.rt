ghost use Rattle.std.specs.Prelude.{List, length, map, take, ◌++◌, OnOk, IfOk, IfSome};
ghost use Rattle.tre_pairs.specs.Pairs.{Either, Composed, Lasting};
ghost use Rattle.tre_zone.specs.Longest.{LastsUpTo, IsLongest};
ghost use Rattle.tre_zone.specs.Zone.{ZoneHolds, row_of};
ghost use Rattle.tre_zone.specs.ZoneList.{SetHolds, AreCanonical, HoldExactly};
ghost use Rattle.tre_zone.specs.declared.zone_bounds.ZoneBounds.{ZoneBounds};
ghost use Rattle.tre_index.specs.Turn.{AreInTurn};
ghost use Rattle.tre_star.specs.Tails.{AreTails};

use crate::gather_up_to::gather_up_to;
use crate::tails::{is_held, tail_at, tails_of};
use std::alloc::{AllocError, Global};
use tre_compose::compose;
use tre_index::{ZoneIndex, count_in_turn, find_first, find_late, key_after};
use tre_zone::{Zone, ZoneBounds};
use tre_zoneset::{ZoneSet, are_few, index_of};

/// So many zones are looked at before it is asked whether the rest would bring something new.
const FEW_AT_ONCE: usize = 16;

/// The pairs `(t,t')` for which some `m` has `(t,m)` in `first` and `(m,t')` in `second`.
pub fn compose_sets(alloc: Global, first: &ZoneSet, second: &ZoneSet) -> Result<ZoneSet, AllocError>
    ensures { IfOk result (λ set.
        HoldExactly set (Composed (SetHolds first.now) (SetHolds second.now))) }
{
    compose_sets_up_to(alloc, first, second, None)
}

/// Those of the pairs of [`compose_sets`] that last at most `longest`.
pub fn compose_sets_up_to(
    alloc: Global,
    first: &ZoneSet,
    second: &ZoneSet,
    longest: Option<u64>,
) -> Result<ZoneSet, AllocError>
    requires { IsLongest longest }
    ensures { IfOk result (λ set. HoldExactly set
        (Lasting (LastsUpTo longest) (Composed (SetHolds first.now) (SetHolds second.now)))) }
{
    let found = compositions_of(alloc, first.zones(), second.zones(), longest)?;
    ZoneSet::of_zones(alloc, found)
}

// The compositions of the first zones with the second ones, two by two, as far as they last at most
// `longest`.
fn compositions_of(
    alloc: Global,
    first: &[Zone],
    second: &[Zone],
    longest: Option<u64>,
) -> Result<Vec<Zone>, AllocError>
    requires seconds { AreCanonical second.now }
    requires longest { IsLongest longest }
    ensures { IfOk result (λ found. HoldExactly found.items
        (Lasting (LastsUpTo longest) (Composed (SetHolds first.now) (SetHolds second.now)))) }
{
    let turned = count_in_turn(second);
    if are_few(&second[turned..]) {
        return compose_in_turn(alloc, first, &second[..turned], &second[turned..], longest);
    }
    compose_by_index(alloc, first, second, longest)
}

// The compositions of the first zones with those that stand in the order of time, in one pass over
// both, and with a few others, by looking at each.
//
// The others are looked at first. So the instants of a closure, which come last in it, give each
// zone before it is lengthened, and what is found rises.
fn compose_in_turn(
    alloc: Global,
    first: &[Zone],
    second: &[Zone],
    others: &[Zone],
    longest: Option<u64>,
) -> Result<Vec<Zone>, AllocError>
    requires turn { AreInTurn (map row_of second.now) }
    requires seconds { AreCanonical second.now }
    requires longest { IsLongest longest }
    ensures { IfOk result (λ found. HoldExactly found.items (Lasting (LastsUpTo longest)
        (Composed (SetHolds first.now) (SetHolds (second.now ++ others.now))))) }
{
    let mut found = Vec::with_capacity(alloc, first.len())?;
    let mut pass = Pass {
        near: 0,
        tails: None,
    };
    for zone in first {
        gather_followed(&mut found, &mut pass, zone, second, others, longest)?;
    }
    Ok(found)
}

// What a pass over the second zones keeps from one of the first to the next.
#[derive(Drop)]
struct Pass {
    /// The place of the first that the last one could be followed by.
    near: usize,
    /// The bounds of what is left of the second ones from each place on, once it was asked for
    /// them.
    tails: Option<Vec<ZoneBounds>>,
}

// Adds the compositions of the zone with the others, and with the second ones, to a list, as far as
// they last at most `longest`. Of the second ones it looks at those near where the pass is.
fn gather_followed(
    found: &mut Vec<Zone>,
    pass: &mut Pass,
    zone: &Zone,
    second: &[Zone],
    others: &[Zone],
    longest: Option<u64>,
) -> Result<(), AllocError>
    requires tails { IfSome pass.old.tails
        (λ known. AreTails (length second.now) known.items second.now) }
    requires turn { AreInTurn (map row_of second.now) }
    requires seconds { AreCanonical second.now }
    requires longest { IsLongest longest }
    ensures tails { OnOk result (IfSome pass.new.tails
        (λ known. AreTails (length second.now) known.items second.now)) }
    ensures held { OnOk result (HoldExactly found.new.items
        (Either (SetHolds found.old.items) (Lasting (LastsUpTo longest)
        (Composed (ZoneHolds zone.now) (SetHolds (second.now ++ others.now)))))) }
{
    gather_each(found, zone, others, longest)?;
    gather_near(found, pass, zone, second, longest)
}

// Adds the compositions of the zone with the second ones to a list, as far as they last at most
// `longest`: with a few that stand near where the pass is, and with more where these do not hold
// all that the rest would give.
fn gather_near(
    found: &mut Vec<Zone>,
    pass: &mut Pass,
    zone: &Zone,
    second: &[Zone],
    longest: Option<u64>,
) -> Result<(), AllocError>
    requires tails { IfSome pass.old.tails
        (λ known. AreTails (length second.now) known.items second.now) }
    requires turn { AreInTurn (map row_of second.now) }
    requires seconds { AreCanonical second.now }
    requires longest { IsLongest longest }
    ensures tails { OnOk result (IfSome pass.new.tails
        (λ known. AreTails (length second.now) known.items second.now)) }
    ensures held { OnOk result (HoldExactly found.new.items
        (Either (SetHolds found.old.items)
        (Lasting (LastsUpTo longest) (Composed (ZoneHolds zone.now) (SetHolds second.now))))) }
{
    let key = key_after(zone);
    let begun = found.len();
    let from = find_first(second, pass.near, &key);
    let to = find_late(second, from, FEW_AT_ONCE, &key);
    pass.near = from;
    gather_each(found, zone, &second[from..to], longest)?;
    if to - from < FEW_AT_ONCE {
        return Ok(());
    }
    make_tails(&mut pass.tails, second, *found.allocator())?;
    match &pass.tails {
        Some(tails) => gather_on(found, tails, zone, second, begun, to, longest),
        None => gather_each(found, zone, &second[to..], longest),
    }
}

// Makes the bounds of what is left of the second ones, where they are not there yet.
fn make_tails(
    tails: &mut Option<Vec<ZoneBounds>>,
    second: &[Zone],
    alloc: Global,
) -> Result<(), AllocError>
    requires { IfSome tails.old
        (λ known. AreTails (length second.now) known.items second.now) }
    ensures { OnOk result (IfSome tails.new
        (λ known. AreTails (length second.now) known.items second.now)) }
{
    if tails.is_some() {
        return Ok(());
    }
    let made = tails_of(alloc, second)?;
    *tails = Some(made);
    Ok(())
}

// The same with the second ones from a place on: with more and more of them, until the list holds
// what all that are left would give. The compositions of this zone begin at `begun` in it.
fn gather_on(
    found: &mut Vec<Zone>,
    tails: &[ZoneBounds],
    zone: &Zone,
    second: &[Zone],
    begun: usize,
    from: usize,
    longest: Option<u64>,
) -> Result<(), AllocError>
    requires tails { AreTails (length second.now) tails.now second.now }
    requires turn { AreInTurn (map row_of second.now) }
    requires seconds { AreCanonical second.now }
    requires longest { IsLongest longest }
    ensures { OnOk result ((start : List ZoneBounds)
        → HoldExactly found.old.items (Either (SetHolds start) (Lasting (LastsUpTo longest)
        (Composed (ZoneHolds zone.now) (SetHolds (take from second.now)))))
        → HoldExactly found.new.items (Either (SetHolds start) (Lasting (LastsUpTo longest)
        (Composed (ZoneHolds zone.now) (SetHolds second.now))))) }
{
    let key = key_after(zone);
    let mut place = from;
    let mut most = FEW_AT_ONCE;
    while place < second.len() {
        let rest = tail_at(tails, second.len() - 1 - place);
        if is_held(&found[begun.min(found.len())..], zone, rest, longest) {
            return Ok(());
        }
        let to = find_late(second, place, most, &key);
        gather_each(found, zone, &second[place..to], longest)?;
        if to - place < most {
            return Ok(());
        }
        place = to;
        most = most.saturating_mul(2);
    }
    Ok(())
}

/// Adds the compositions of the zone with each of the second ones to a list, as far as they last at
/// most `longest`: by looking at each.
#[inline(always)]
pub(crate) fn gather_each(
    found: &mut Vec<Zone>,
    zone: &Zone,
    second: &[Zone],
    longest: Option<u64>,
) -> Result<(), AllocError>
    requires { IsLongest longest }
    ensures { OnOk result (HoldExactly found.new.items
        (Either (SetHolds found.old.items)
        (Lasting (LastsUpTo longest) (Composed (ZoneHolds zone.now) (SetHolds second.now))))) }
{
    for next in second {
        gather_up_to(found, compose(zone, next), longest)?;
    }
    Ok(())
}

// The same in any order, by an index over the second zones.
fn compose_by_index(
    alloc: Global,
    first: &[Zone],
    second: &[Zone],
    longest: Option<u64>,
) -> Result<Vec<Zone>, AllocError>
    requires seconds { AreCanonical second.now }
    requires longest { IsLongest longest }
    ensures { IfOk result (λ found. HoldExactly found.items
        (Lasting (LastsUpTo longest) (Composed (SetHolds first.now) (SetHolds second.now)))) }
{
    let seconds = index_of(alloc, second)?;
    let mut found = Vec::new(alloc);
    for zone in first {
        gather_after(&mut found, zone, &seconds, longest)?;
    }
    Ok(found)
}

// Adds the compositions of the zone with each of those that can follow it to a list, as far as they
// last at most `longest`.
fn gather_after(
    found: &mut Vec<Zone>,
    zone: &Zone,
    seconds: &ZoneIndex,
    longest: Option<u64>,
) -> Result<(), AllocError>
    requires seconds { AreCanonical seconds.now }
    requires longest { IsLongest longest }
    ensures { OnOk result (HoldExactly found.new.items
        (Either (SetHolds found.old.items)
        (Lasting (LastsUpTo longest) (Composed (ZoneHolds zone.now) (SetHolds seconds.now))))) }
{
    let key = key_after(zone);
    let items = seconds.items();
    let count = items.len();
    let mut place = 0;
    while place < count {
        match seconds.next_at_least(place, &key) {
            Some(next) => {
                gather_up_to(found, compose(zone, &items[next]), longest)?;
                place = next + 1;
            }
            None => return Ok(()),
        }
    }
    Ok(())
}
