// The profile of zones over some begins: the separate bars of the times at which their pairs end.
ghost use Rattle.std.specs.Prelude.{◌≡◌, ◌≤◌, ◌∷◌, ◌++◌, option_to_list, IfOk, OnOk, IsPermutation};
ghost use Rattle.std.specs.List.Sorted.{IsNonDecreasingBy};
ghost use Rattle.tre_zone.specs.ZoneList.{SetHolds};
ghost use Rattle.tre_strips.specs.Bar.{place_of};
ghost use Rattle.tre_strips.specs.declared.bar.Bar.{Bar};
ghost use Rattle.tre_strips.specs.Profile.{IsProfile};
ghost use Rattle.tre_strips.specs.Profiles.{Begin, IsBarOf, AreFilledOver, AreBarsOf, IsUnionOfBars, IsJoined, ExtendsBars, low_of, bar_end_of};
ghost use Rattle.tre_strips.specs.Times.{Narrows, sample_of, IsLater, IsEarlier};

use crate::bar::{Bar, BarEnd};
use crate::times::Times;
use std::alloc::{AllocError, Global};
use std::mem::replace;
use tre_zone::{Bound, Zone};

/// Writes the profile of what the zones hold over the times, which are cut to those over which it
/// is one list.
#[inline(always)]
pub(crate) fn profile(
    alloc: Global,
    zones: &[Zone],
    times: &mut Times,
    bars: &mut Vec<Bar>,
) -> Result<(), AllocError>
    ensures narrowed { OnOk result (Narrows times.old times.new) }
    ensures profile { OnOk result (
        IsProfile (SetHolds zones.now) bars.new.items times.new.from times.new.until) }
{
    find_bars(zones, times, bars)?;
    unite(alloc, bars, times)?;
    Ok(())
}

// Unites the bars in the place where they stand.
fn unite(alloc: Global, bars: &mut Vec<Bar>, times: &mut Times) -> Result<(), AllocError>
    requires { AreFilledOver times.old bars.old.items }
    ensures narrowed { OnOk result (Narrows times.old times.new) }
    ensures union { OnOk result (IsUnionOfBars times.new bars.old.items bars.new.items) }
{
    // Mostly there is one bar, and no memory is asked for.
    if bars.len() < 2 {
        return Ok(());
    }
    let all = replace(bars, Vec::new(alloc));
    let union = united(alloc, all, times)?;
    *bars = union;
    Ok(())
}

/// The separate bars of the times that are on some of these bars, none of which is empty.
pub(crate) fn united(
    alloc: Global,
    bars: Vec<Bar>,
    times: &mut Times,
) -> Result<Vec<Bar>, AllocError>
    requires { AreFilledOver times.old bars.items }
    ensures narrowed { OnOk result (Narrows times.old times.new) }
    ensures union { IfOk result (λ union. IsUnionOfBars times.new bars.items union.items) }
{
    let bars = in_order(bars, times);
    match bars.split_first() {
        Some((first, rest)) => joined(alloc, first, rest, times),
        None => Ok(Vec::new(alloc)),
    }
}

// The bars in the order of their low ends.
fn in_order(bars: Vec<Bar>, times: &Times) -> Vec<Bar>
    ensures same { IsPermutation bars.items result.items }
    ensures order { IsNonDecreasingBy (λ (bar : Bar). place_of bar.low (sample_of times.now) 2)
        result.items }
{
    let mut bars = bars;
    bars.sort_unstable_by_key(
        |bar: &Bar| -> u128
            ensures { result ≡ place_of bar.now.low (sample_of times.entry.now) 2 }
        { times.place(&bar.low) },
    );
    bars
}

// The separate bars of bars in the order of their low ends.
fn joined(
    alloc: Global,
    first: &Bar,
    rest: &[Bar],
    times: &mut Times,
) -> Result<Vec<Bar>, AllocError>
    requires order { IsNonDecreasingBy (λ (bar : Bar). place_of bar.low (sample_of times.old) 2)
        (first.now ∷ rest.now) }
    requires filled { AreFilledOver times.old (first.now ∷ rest.now) }
    ensures narrowed { OnOk result (Narrows times.old times.new) }
    ensures union { IfOk result (λ union.
        IsUnionOfBars times.new (first.now ∷ rest.now) union.items) }
{
    let mut joined = Vec::new(alloc);
    let mut last = *first;
    for bar in rest {
        last = extend(&mut joined, &last, bar, times)?;
    }
    joined.push(last)?;
    Ok(joined)
}

// The last bar where the next one follows it, which the last one joins where they touch; else the
// last one is added to those before it.
fn extend(
    joined: &mut Vec<Bar>,
    last: &Bar,
    bar: &Bar,
    times: &mut Times,
) -> Result<Bar, AllocError>
    requires { place_of last.now.low (sample_of times.old) 2
        ≤ place_of bar.now.low (sample_of times.old) 2 }
    ensures narrowed { Narrows times.old times.new }
    ensures extended { IfOk result (λ next.
        ExtendsBars times.new last.now bar.now joined.old.items joined.new.items next) }
{
    if times.is_before(&last.high, &bar.low) {
        joined.push(*last)?;
        return Ok(*bar);
    }
    Ok(join(last, bar, times))
}

// The one bar of two that touch, of which the one does not begin behind the other.
fn join(one: &Bar, other: &Bar, times: &mut Times) -> Bar
    requires { place_of one.now.low (sample_of times.old) 2
        ≤ place_of other.now.low (sample_of times.old) 2 }
    ensures narrowed { Narrows times.old times.new }
    ensures joined { IsJoined times.new one.now other.now result }
{
    times.settle(&other.low, &one.low);
    Bar {
        low: one.low,
        high: later(&one.high, &other.high, times),
    }
}

// Writes the bars of the zones over the times.
fn find_bars(zones: &[Zone], times: &mut Times, bars: &mut Vec<Bar>) -> Result<(), AllocError>
    ensures narrowed { OnOk result (Narrows times.old times.new) }
    ensures bars { OnOk result (AreBarsOf times.new zones.now bars.new.items) }
{
    bars.clear();
    for zone in zones {
        push_found(bars, bar_of(zone, times))?;
    }
    Ok(())
}

fn push_found(bars: &mut Vec<Bar>, found: Option<Bar>) -> Result<(), AllocError>
    ensures { OnOk result (bars.new.items ≡ bars.old.items ++ option_to_list found) }
{
    if let Some(bar) = found {
        bars.push(bar)?;
    }
    Ok(())
}

// The bar of the ends of the zone's pairs over the times, None where it has none there.
fn bar_of(zone: &Zone, times: &mut Times) -> Option<Bar>
    ensures narrowed { Narrows times.old times.new }
    ensures bar { IsBarOf times.new zone.now result }
{
    let bounds = zone.bounds();
    if !begins(&bounds.begin_low, &bounds.begin_high, times) {
        return None;
    }
    let low = later(
        &low_end(&bounds.end_low, false),
        &low_end(&bounds.dur_low, true),
        times,
    );
    let high = earlier(
        &high_end(&bounds.end_high, false),
        &high_end(&bounds.dur_high, true),
        times,
    );
    if times.is_before(&low, &high) {
        Some(Bar { low, high })
    } else {
        None
    }
}

// Whether begins at the times meet the two bounds.
fn begins(low: &Bound, high: &Bound, times: &mut Times) -> bool
    ensures narrowed { Narrows times.old times.new }
    ensures told { Begin result times.new low.now high.now }
{
    let begin = BarEnd {
        ticks: 0,
        moves: true,
        after: false,
    };
    if times.is_before(&begin, &low_end(low, false)) {
        return false;
    }
    times.is_before(&begin, &high_end(high, false))
}

fn low_end(bound: &Bound, moves: bool) -> BarEnd
    ensures { result ≡ low_of bound.now moves }
{
    BarEnd {
        ticks: bound.value().unsigned_abs(),
        moves,
        after: !bound.is_weak(),
    }
}

fn high_end(bound: &Bound, moves: bool) -> BarEnd
    ensures { result ≡ bar_end_of bound.now moves }
{
    BarEnd {
        ticks: bound.value().unsigned_abs(),
        moves,
        after: bound.is_weak(),
    }
}

fn later(one: &BarEnd, other: &BarEnd, times: &mut Times) -> BarEnd
    ensures narrowed { Narrows times.old times.new }
    ensures later { IsLater times.new one.now other.now result }
{
    if times.is_before(one, other) {
        *other
    } else {
        *one
    }
}

fn earlier(one: &BarEnd, other: &BarEnd, times: &mut Times) -> BarEnd
    ensures narrowed { Narrows times.old times.new }
    ensures earlier { IsEarlier times.new one.now other.now result }
{
    if times.is_before(other, one) {
        *other
    } else {
        *one
    }
}
