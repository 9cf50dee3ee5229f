ghost use Rattle.std.specs.Prelude.{◌≡◌, ◌+◌, ◌*◌, ◌^◌, ◌<◌, ◌≤◌, ◌≤ℤ◌, neg_ℤ, pos, IfSome, IfOk, OnOk, List, [], ◌∷◌, ◌++◌};
ghost use Rattle.tre_zone.specs.Bound.{value_of, weakness_of, sum_of, IsKeyWithin};
ghost use Rattle.tre_zone.specs.Zone.{AreKeysWithin};
ghost use Rattle.tre_zone.specs.declared.zone_bounds.ZoneBounds.{ZoneBounds};
ghost use Rattle.tre_star.specs.Powers.{AreChainsOf, AreStepsOf, IsLimit};

use std::alloc::{AllocError, Global};
use tre_pairs::TIME_MAX;
use tre_zone::{Bound, Zone, ZoneBounds};

/// A zone of pairs that the pairs of `zone`, one after another, lead through: where its durations
/// lie between two different ends, so many of them in a row may last for anything from then on.
/// None where no such pair fits into the times that can be named.
///
/// No clause says that it is found: the closure is exact with any zone of chains as one more step,
/// and with none. This one spares it most of its work.
pub fn power_limit(zone: &Zone) -> Option<Zone>
    ensures { IfSome result (λ limit. AreChainsOf limit zone.now) }
{
    let bounds = zone.bounds();
    let least = least_of(&bounds.dur_low);
    let most = most_of(&bounds.dur_high);
    if most <= least {
        return None;
    }
    let fewest = fewest_steps(least, most);
    let total = u128::from(fewest) * u128::from(least);
    if total > u128::from(TIME_MAX) {
        return None;
    }
    Zone::new(&limit_of(&bounds, total as u64))
}

/// The zones, and the power limit of each that does not include its own.
pub fn steps_of(alloc: Global, zones: &[Zone]) -> Result<Vec<Zone>, AllocError>
    ensures { IfOk result (λ steps. AreStepsOf steps.items zones.now) }
{
    let mut steps = Vec::new(alloc);
    for zone in zones {
        add_step(&mut steps, zone)?;
    }
    Ok(steps)
}

// The number of steps from which on one more may last less than they do.
fn fewest_steps(least: u64, most: u64) -> u64
    requires rising { least < most }
    requires limit { most ≤ 2 ^ 42 }
    ensures some { 0 < result }
    ensures limit { result ≤ 2 ^ 42 }
    ensures overlap { (result + 1) * least < result * most }
{
    least / (most - least) + 1
}

// The least duration that a bound from below on it admits.
fn least_of(low: &Bound) -> u64
    requires rising { low.now ≤ℤ pos 1 }
    requires key { IsKeyWithin (2 ^ 42) low.now }
    ensures value { value_of low.now ≡ neg_ℤ (pos result) }
    ensures limit { result ≤ 2 ^ 42 }
{
    low.value().unsigned_abs()
}

// The most duration that a bound from above on it admits.
fn most_of(high: &Bound) -> u64
    requires rising { pos 0 ≤ℤ value_of high.now }
    requires key { IsKeyWithin (2 ^ 42) high.now }
    ensures value { value_of high.now ≡ pos result }
    ensures limit { result ≤ 2 ^ 42 }
{
    high.value().unsigned_abs()
}

// The bounds of the pairs of that duration and more from which and to which steps of the zone lead.
fn limit_of(bounds: &ZoneBounds, total: u64) -> ZoneBounds
    requires keys { AreKeysWithin (2 ^ 42) bounds.now }
    requires rising { bounds.now.dur_low ≤ℤ pos 1 }
    requires limit { total ≤ TIME_MAX }
    ensures { IsLimit total result bounds.now }
{
    let free = Bound::weak(TIME_MAX as i64);
    ZoneBounds {
        begin_low: fitting(&bounds.begin_low, &bounds.end_low, &bounds.dur_low),
        begin_high: free,
        end_low: Bound::weak(0),
        end_high: fitting(&bounds.end_high, &bounds.begin_high, &bounds.dur_low),
        dur_low: at_least(total, &bounds.dur_low),
        dur_high: free,
    }
}

// The bound, tightened so that a least duration from there on meets the other one.
fn fitting(near: &Bound, far: &Bound, least: &Bound) -> Bound
    requires rising { least.now ≤ℤ pos 1 }
    requires near { IsKeyWithin (2 ^ 42) near.now }
    requires far { IsKeyWithin (2 ^ 42) far.now }
    requires least { IsKeyWithin (2 ^ 42) least.now }
    ensures near { result ≤ℤ near.now }
    ensures far { sum_of result least.now ≤ℤ far.now }
    ensures key { IsKeyWithin (2 ^ 42) result }
{
    if near.plus(least).key() <= far.key() {
        *near
    } else {
        near.tighter(far)
    }
}

// The bound that the duration is at least the total, or more where `like` is strict.
fn at_least(total: u64, like: &Bound) -> Bound
    requires { total ≤ TIME_MAX }
    ensures value { value_of result ≡ neg_ℤ (pos total) }
    ensures weakness { weakness_of result ≡ weakness_of like.now }
{
    let low = -(total as i64);
    if like.is_weak() {
        Bound::weak(low)
    } else {
        Bound::strict(low)
    }
}

// Adds the zone, and its power limit where the zone does not include it.
fn add_step(steps: &mut Vec<Zone>, zone: &Zone) -> Result<(), AllocError>
    ensures { OnOk result ((zones : List ZoneBounds)
        → AreStepsOf steps.old.items zones
        → AreStepsOf steps.new.items (zones ++ zone.now ∷ [])) }
{
    // For the proof: the call says that the zone is canonical.
    let _bounds = zone.bounds();
    steps.push(*zone)?;
    if let Some(limit) = power_limit(zone) {
        if !zone.includes(&limit) {
            // For the proof, as above.
            let _bounds = limit.bounds();
            steps.push(limit)?;
        }
    }
    Ok(())
}
