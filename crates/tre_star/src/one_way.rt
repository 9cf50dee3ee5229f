// The chains of steps of which each can be followed by the next one alone: from the last step to
// the first, without an index.
ghost use Rattle.std.specs.Prelude.{◌≡◌, ◌<◌, ◌++◌, length, map, IsTrue, IfOk, OnOk};
ghost use Rattle.tre_pairs.specs.Pairs.{Either, Composed, Lasting};
ghost use Rattle.tre_zone.specs.Longest.{LastsUpTo, IsLongest};
ghost use Rattle.tre_zone.specs.Zone.{ZoneHolds, row_of};
ghost use Rattle.tre_zone.specs.ZoneList.{SetHolds, AreCanonical, HoldExactly};
ghost use Rattle.tre_index.specs.Turn.{AreInTurn};
ghost use Rattle.tre_star.specs.Limits.{AreLimits, ChainsWithin};
ghost use Rattle.tre_star.specs.OneWay.{LeadsOn, LeadOn};

use crate::composition::gather_each;
use crate::gather_up_to::gather_up_to;
use crate::limits::Limits;
use std::alloc::{AllocError, Global};
use std::mem::swap;
use tre_compose::compose;
use tre_index::{are_in_turn, find_stretch, key_after};
use tre_zone::Zone;

/// Whether each step can be followed by the next one alone, and so none by itself.
pub(crate) fn lead_on(steps: &[Zone]) -> bool
    requires { AreCanonical steps.now }
    ensures { IsTrue result → LeadOn steps.now }
{
    if !are_in_turn(steps) {
        return false;
    }
    each_leads_on(steps)
}

/// Whether there is one step alone, and it can't follow itself.
pub(crate) fn is_single(steps: &[Zone]) -> bool
    requires { AreCanonical steps.now }
    ensures { IsTrue result → (length steps.now ≡ 1) × LeadOn steps.now }
{
    steps.len() == 1 && lead_on(steps)
}

fn each_leads_on(steps: &[Zone]) -> bool
    requires turn { AreInTurn (map row_of steps.now) }
    requires canonical { AreCanonical steps.now }
    ensures { IsTrue result → LeadOn steps.now }
{
    for place in 0..steps.len() {
        if !leads_on(steps, place) {
            return false;
        }
    }
    true
}

fn leads_on(steps: &[Zone], place: usize) -> bool
    requires turn { AreInTurn (map row_of steps.now) }
    requires canonical { AreCanonical steps.now }
    requires within { place < length steps.now }
    ensures { IsTrue result → LeadsOn steps.now place }
{
    let stretch = find_stretch(steps, place, &key_after(&steps[place]));
    if stretch.from <= place {
        return false;
    }
    if place + 2 < stretch.to {
        return false;
    }
    true
}

/// The chains of one step or more within the limits, mostly in the order of their begins.
pub(crate) fn chains_one_way(
    alloc: Global,
    steps: &[Zone],
    limits: &Limits,
) -> Result<Vec<Zone>, AllocError>
    requires steps { AreCanonical steps.now }
    requires ways { LeadOn steps.now }
    requires limits { AreLimits limits.now }
    ensures { IfOk result (λ chains.
        HoldExactly chains.items (ChainsWithin limits.now (SetHolds steps.now))) }
{
    let mut chains = chains_from_last(alloc, steps, limits)?;
    chains.reverse();
    Ok(chains)
}

// The same from the last step to the first. The chains that begin with a step are the step itself,
// and the step before each chain that begins with the next one.
fn chains_from_last(alloc: Global, steps: &[Zone], limits: &Limits) -> Result<Vec<Zone>, AllocError>
    requires steps { AreCanonical steps.now }
    requires ways { LeadOn steps.now }
    requires limits { AreLimits limits.now }
    ensures { IfOk result (λ chains.
        HoldExactly chains.items (ChainsWithin limits.now (SetHolds steps.now))) }
{
    let instants = Zone::instants(limits.from, limits.to);
    let mut found = Vec::with_capacity(alloc, steps.len())?;
    let mut last = Vec::new(alloc);
    let mut next = Vec::new(alloc);
    let mut left = steps.len();
    while left > 0 {
        left -= 1;
        begin_with(&mut next, &steps[left], &last, &instants, limits.longest)?;
        add_all(&mut found, &next)?;
        swap(&mut last, &mut next);
    }
    Ok(found)
}

// Writes the chains that begin with the step: before those that begin with the next one, and the
// step itself.
fn begin_with(
    chains: &mut Vec<Zone>,
    step: &Zone,
    last: &[Zone],
    instants: &Zone,
    longest: Option<u64>,
) -> Result<(), AllocError>
    requires { IsLongest longest }
    ensures { OnOk result (HoldExactly chains.new.items (Either
        (Lasting (LastsUpTo longest) (Composed (ZoneHolds step.now) (SetHolds last.now)))
        (Lasting (LastsUpTo longest) (Composed (ZoneHolds step.now) (ZoneHolds instants.now))))) }
{
    chains.clear();
    gather_each(chains, step, last, longest)?;
    gather_up_to(chains, compose(step, instants), longest)?;
    Ok(())
}

fn add_all(found: &mut Vec<Zone>, more: &[Zone]) -> Result<(), AllocError>
    ensures all { OnOk result (found.new.items ≡ found.old.items ++ more.now) }
    ensures canonical { OnOk result (AreCanonical more.now) }
{
    for zone in more {
        // For the proof: the call says that the zone is canonical.
        let _bounds = zone.bounds();
        found.push(*zone)?;
    }
    Ok(())
}
