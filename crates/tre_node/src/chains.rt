// What a repetition matches between two times.
ghost use Rattle.std.specs.Prelude.{◌≤◌, IfSome, IsTrue, OnOk};
ghost use Rattle.tre_pairs.specs.Pairs.{Chain};
ghost use Rattle.tre_zone.specs.Held.{Held, IsSetOf};
ghost use Rattle.tre_zone.specs.Zone.{IsInstantBetween, Includes};
ghost use Rattle.tre_mark.specs.Marked.{EndBetween};
ghost use Rattle.tre_pairs.specs.declared.TheConstants.{TIME_MAX};
ghost use Rattle.tre_node.specs.Telling.{LeadsNoFurther};

use crate::pruning::prune;
use crate::vectors::put_behind;
use std::alloc::{AllocError, Global};
use tre_compose::compose;
use tre_mark::copied;
use tre_star::closure;
use tre_zone::Zone;
use tre_zoneset::ZoneSet;

/// The chains of any number of steps between two times, in place of what was there.
pub fn chain_anew(
    alloc: Global,
    chains: &mut Vec<Zone>,
    steps: &[Zone],
    from: u64,
    to: u64,
) -> Result<(), AllocError>
    requires rising { from ≤ to }
    requires limit { to ≤ TIME_MAX }
    requires between { EndBetween from to steps.now }
    ensures { OnOk result (IsSetOf chains.new.items (Chain (Held steps.now)
        (IsInstantBetween from to))) }
{
    if lead_no_further(steps) {
        return put_steps(alloc, chains, steps, from, to);
    }
    let all = copied(alloc, steps)?;
    let set = ZoneSet::of_zones(alloc, all)?;
    put_closure(alloc, chains, &set, from, to)
}

// Whether two steps lead no further than one: that is seen of one zone, or of none.
#[inline(always)]
fn lead_no_further(steps: &[Zone]) -> bool
    ensures { IsTrue result → LeadsNoFurther steps.now }
{
    match steps {
        [] => true,
        [step] => is_over(step, compose(step, step)),
        _ => false,
    }
}

// Whether there is nothing but what the step includes.
#[inline(always)]
fn is_over(step: &Zone, twice: Option<Zone>) -> bool
    ensures { IsTrue result → IfSome twice (Includes step.now) }
{
    match twice {
        Some(twice) => step.includes(&twice),
        None => true,
    }
}

// No step, or one.
fn put_steps(
    alloc: Global,
    chains: &mut Vec<Zone>,
    steps: &[Zone],
    from: u64,
    to: u64,
) -> Result<(), AllocError>
    requires rising { from ≤ to }
    requires limit { to ≤ TIME_MAX }
    requires over { LeadsNoFurther steps.now }
    requires between { EndBetween from to steps.now }
    ensures { OnOk result (IsSetOf chains.new.items (Chain (Held steps.now)
        (IsInstantBetween from to))) }
{
    chains.clear();
    put_behind(chains, steps)?;
    chains.push(Zone::instants(from, to))?;
    prune(alloc, chains)
}

fn put_closure(
    alloc: Global,
    chains: &mut Vec<Zone>,
    steps: &ZoneSet,
    from: u64,
    to: u64,
) -> Result<(), AllocError>
    requires rising { from ≤ to }
    requires limit { to ≤ TIME_MAX }
    ensures { OnOk result (IsSetOf chains.new.items (Chain (Held steps.now)
        (IsInstantBetween from to))) }
{
    // For the proof: the call says that it is a set of zones.
    let _steps = steps.zones();
    let any = closure(alloc, steps, from, to)?;
    chains.clear();
    put_behind(chains, any.zones())
}
