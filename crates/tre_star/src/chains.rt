ghost use Rattle.std.specs.Prelude.{◌≡◌, ◌≤◌, IfSome, OnOk, IfOk};
ghost use Rattle.tre_pairs.specs.Pairs.{Either, Both, Composed, Lasting, Chain};
ghost use Rattle.tre_zone.specs.Longest.{LastsUpTo, IsLongest};
ghost use Rattle.tre_zone.specs.Zone.{ZoneHolds, IsInstantBetween, HasNoPair, GivesZone};
ghost use Rattle.tre_zone.specs.ZoneList.{SetHolds, AreCanonical, HoldExactly};
ghost use Rattle.tre_zoneset.specs.ZoneSet.{FoundHolds};
ghost use Rattle.tre_star.specs.Growth.{HasGrown};
ghost use Rattle.tre_star.specs.Limits.{AreLimits, ChainsWithin};

use crate::limits::Limits;
use crate::one_way::{chains_one_way, is_single, lead_on};
use crate::parts::{last_begins, part_end};
use crate::power_limit::steps_of;
use std::alloc::{AllocError, Global};
use tre_compose::compose;
use tre_index::{ZoneIndex, key_before};
use tre_pairs::TIME_MAX;
use tre_zone::Zone;
use tre_zoneset::{ZoneSet, are_few, index_of};

/// The pairs that any number of pairs of `steps`, one after another, lead through, to an end from
/// `from` to `to`. Without a step these are the instants `(t,t)`.
pub fn closure(alloc: Global, steps: &ZoneSet, from: u64, to: u64) -> Result<ZoneSet, AllocError>
    requires rising { from ≤ to }
    requires limit { to ≤ TIME_MAX }
    ensures { IfOk result (λ set.
        HoldExactly set (Chain (SetHolds steps.now) (IsInstantBetween from to))) }
{
    closure_up_to(alloc, steps, from, to, None)
}

/// Those of the pairs of [`closure`] that last at most `longest`: no longer one is looked at.
pub fn closure_up_to(
    alloc: Global,
    steps: &ZoneSet,
    from: u64,
    to: u64,
    longest: Option<u64>,
) -> Result<ZoneSet, AllocError>
    requires rising { from ≤ to }
    requires limit { to ≤ TIME_MAX }
    requires longest { IsLongest longest }
    ensures { IfOk result (λ set. HoldExactly set (Lasting (LastsUpTo longest)
        (Chain (SetHolds steps.now) (IsInstantBetween from to)))) }
{
    let mut chains = iteration_up_to(alloc, steps, from, to, longest)?;
    chains.add(Zone::instants(from, to))?;
    Ok(chains)
}

/// The pairs that one pair of `steps` or more, one after another, lead through, to an end from
/// `from` to `to`, as far as they last at most `longest`: those of [`closure_up_to`] but for the
/// instants that no step is.
pub fn iteration_up_to(
    alloc: Global,
    steps: &ZoneSet,
    from: u64,
    to: u64,
    longest: Option<u64>,
) -> Result<ZoneSet, AllocError>
    requires rising { from ≤ to }
    requires limit { to ≤ TIME_MAX }
    requires longest { IsLongest longest }
    ensures { IfOk result (λ set. HoldExactly set (Lasting (LastsUpTo longest)
        (Composed (SetHolds steps.now) (Chain (SetHolds steps.now) (IsInstantBetween from to))))) }
{
    let steps = steps_of(alloc, steps.zones())?;
    let limits = Limits { from, to, longest };
    chains_in_parts(alloc, &steps, &limits)
}

// The chains of one step or more within the limits, part by part of steps that do not touch.
fn chains_in_parts(alloc: Global, steps: &[Zone], limits: &Limits) -> Result<ZoneSet, AllocError>
    requires steps { AreCanonical steps.now }
    requires limits { AreLimits limits.now }
    ensures { IfOk result (λ set.
        HoldExactly set (ChainsWithin limits.now (SetHolds steps.now))) }
{
    let begins = last_begins(alloc, steps)?;
    let mut chains = ZoneSet::new(alloc);
    let mut start = 0;
    while start < steps.len() {
        let end = part_end(steps, &begins, start);
        add_part(alloc, &mut chains, &steps[start..end], limits)?;
        start = end;
    }
    Ok(chains)
}

// Adds the chains of one part, which share no pair with those that are there. A single step that
// can't follow itself is looked at alone.
fn add_part(
    alloc: Global,
    chains: &mut ZoneSet,
    steps: &[Zone],
    limits: &Limits,
) -> Result<(), AllocError>
    requires steps { AreCanonical steps.now }
    requires limits { AreLimits limits.now }
    requires apart { HasNoPair
        (Both (SetHolds chains.old) (ChainsWithin limits.now (SetHolds steps.now))) }
    ensures { OnOk result (HoldExactly chains.new
        (Either (SetHolds chains.old) (ChainsWithin limits.now (SetHolds steps.now)))) }
{
    if is_single(steps) {
        let instants = Zone::instants(limits.from, limits.to);
        let found = composed_up_to(&steps[0], &instants, limits.longest);
        return push_found(chains, found);
    }
    let part = chains_of_part(alloc, steps, limits)?;
    chains.join_disjoint(&part)
}

// Adds the zone that was found, if there is one: it shares no pair with those that are there.
fn push_found(chains: &mut ZoneSet, found: Option<Zone>) -> Result<(), AllocError>
    requires { HasNoPair (Both (SetHolds chains.old) (FoundHolds found)) }
    ensures { OnOk result
        (HoldExactly chains.new (Either (SetHolds chains.old) (FoundHolds found))) }
{
    match found {
        Some(zone) => chains.push_disjoint(zone),
        None => Ok(()),
    }
}

/// The composition of the two as far as it lasts at most `longest`.
pub(crate) fn composed_up_to(first: &Zone, second: &Zone, longest: Option<u64>) -> Option<Zone>
    requires { IsLongest longest }
    ensures { GivesZone result
        (Lasting (LastsUpTo longest) (Composed (ZoneHolds first.now) (ZoneHolds second.now))) }
{
    match compose(first, second) {
        Some(zone) => zone.up_to(longest),
        None => None,
    }
}

// The same of the steps of one part.
fn chains_of_part(alloc: Global, steps: &[Zone], limits: &Limits) -> Result<ZoneSet, AllocError>
    requires steps { AreCanonical steps.now }
    requires limits { AreLimits limits.now }
    ensures { IfOk result (λ set.
        HoldExactly set (ChainsWithin limits.now (SetHolds steps.now))) }
{
    let found = chains_found(alloc, steps, limits)?;
    ZoneSet::of_zones(alloc, found)
}

// The zones of the chains of one step or more within the limits.
fn chains_found(alloc: Global, steps: &[Zone], limits: &Limits) -> Result<Vec<Zone>, AllocError>
    requires steps { AreCanonical steps.now }
    requires limits { AreLimits limits.now }
    ensures { IfOk result (λ chains.
        HoldExactly chains.items (ChainsWithin limits.now (SetHolds steps.now))) }
{
    if lead_on(steps) {
        return chains_one_way(alloc, steps, limits);
    }
    let index = index_of_many(alloc, steps)?;
    chains_of(alloc, steps, &index, limits)
}

// An index over the steps, None where they are few: then each of them is looked at.
fn index_of_many(alloc: Global, steps: &[Zone]) -> Result<Option<ZoneIndex>, AllocError>
    ensures { IfOk result (λ found. IfSome found (λ index. index ≡ steps.now)) }
{
    if are_few(steps) {
        return Ok(None);
    }
    let index = index_of(alloc, steps)?;
    Ok(Some(index))
}

// The zones of the chains of one step or more within the limits. The list of what was reached is
// also that of what is still to do: before its zones from `place` on no step has been put yet.
//
// The instants may begin and end at any time, so with them in the list each search would come down
// to them.
fn chains_of(
    alloc: Global,
    steps: &[Zone],
    index: &Option<ZoneIndex>,
    limits: &Limits,
) -> Result<Vec<Zone>, AllocError>
    requires steps { AreCanonical steps.now }
    requires index { IfSome index.now (λ items. items ≡ steps.now) }
    requires limits { AreLimits limits.now }
    ensures { IfOk result (λ chains.
        HoldExactly chains.items (ChainsWithin limits.now (SetHolds steps.now))) }
{
    let instants = Zone::instants(limits.from, limits.to);
    // For the proof: the call says that the zone is canonical.
    let _bounds = instants.bounds();
    let mut reached = ZoneIndex::new(alloc);
    add_before(&mut reached, &instants, steps, index, limits.longest)?;
    let mut place = 0;
    while place < reached.items().len() {
        let items = reached.items();
        let zone = items[place];
        add_before(&mut reached, &zone, steps, index, limits.longest)?;
        place += 1;
    }
    Ok(reached.into_items())
}

// Adds the compositions of each of the steps that can come before the zone with it, as far as they
// last at most `longest`: by the index over the steps, where there is one.
fn add_before(
    reached: &mut ZoneIndex,
    zone: &Zone,
    steps: &[Zone],
    index: &Option<ZoneIndex>,
    longest: Option<u64>,
) -> Result<(), AllocError>
    requires reached { AreCanonical reached.old }
    requires steps { AreCanonical steps.now }
    requires index { IfSome index.now (λ items. items ≡ steps.now) }
    requires longest { IsLongest longest }
    ensures held { OnOk result (HoldExactly reached.new (Either (SetHolds reached.old)
        (Lasting (LastsUpTo longest) (Composed (SetHolds steps.now) (ZoneHolds zone.now))))) }
    ensures grown { OnOk result (HasGrown reached.old reached.new) }
{
    match index {
        Some(index) => add_found_before(reached, zone, index, longest),
        None => add_each_before(reached, zone, steps, longest),
    }
}

// The same by looking at those of the steps that the index finds.
fn add_found_before(
    reached: &mut ZoneIndex,
    zone: &Zone,
    steps: &ZoneIndex,
    longest: Option<u64>,
) -> Result<(), AllocError>
    requires reached { AreCanonical reached.old }
    requires steps { AreCanonical steps.now }
    requires longest { IsLongest longest }
    ensures held { OnOk result (HoldExactly reached.new (Either (SetHolds reached.old)
        (Lasting (LastsUpTo longest) (Composed (SetHolds steps.now) (ZoneHolds zone.now))))) }
    ensures grown { OnOk result (HasGrown reached.old reached.new) }
{
    let key = key_before(zone);
    let items = steps.items();
    let count = items.len();
    let mut place = 0;
    while place < count {
        match steps.next_at_least(place, &key) {
            Some(next) => {
                add_found(reached, compose(&items[next], zone), longest)?;
                place = next + 1;
            }
            None => return Ok(()),
        }
    }
    Ok(())
}

// The same by looking at each of the steps.
fn add_each_before(
    reached: &mut ZoneIndex,
    zone: &Zone,
    steps: &[Zone],
    longest: Option<u64>,
) -> Result<(), AllocError>
    requires reached { AreCanonical reached.old }
    requires longest { IsLongest longest }
    ensures held { OnOk result (HoldExactly reached.new (Either (SetHolds reached.old)
        (Lasting (LastsUpTo longest) (Composed (SetHolds steps.now) (ZoneHolds zone.now))))) }
    ensures grown { OnOk result (HasGrown reached.old reached.new) }
{
    for step in steps {
        add_found(reached, compose(step, zone), longest)?;
    }
    Ok(())
}

// Adds the pairs of the zone that was found that last at most `longest`, if there are any.
#[inline(always)]
fn add_found(
    reached: &mut ZoneIndex,
    found: Option<Zone>,
    longest: Option<u64>,
) -> Result<(), AllocError>
    requires reached { AreCanonical reached.old }
    requires longest { IsLongest longest }
    ensures held { OnOk result (HoldExactly reached.new
        (Either (SetHolds reached.old) (Lasting (LastsUpTo longest) (FoundHolds found)))) }
    ensures grown { OnOk result (HasGrown reached.old reached.new) }
{
    let Some(zone) = found else {
        return Ok(());
    };
    let Some(short) = zone.up_to(longest) else {
        return Ok(());
    };
    add_new(reached, &short)
}

// Adds a zone, where none of those reached includes it.
fn add_new(reached: &mut ZoneIndex, zone: &Zone) -> Result<(), AllocError>
    requires { AreCanonical reached.old }
    ensures held { OnOk result
        (HoldExactly reached.new (Either (SetHolds reached.old) (ZoneHolds zone.now))) }
    ensures grown { OnOk result (HasGrown reached.old reached.new) }
{
    // For the proof: the call says that the zone is canonical.
    let _bounds = zone.bounds();
    if reached.includes(zone) {
        return Ok(());
    }
    reached.push(*zone)?;
    Ok(())
}
