// Where pairs began that end at the present time: stretches of moments. They are in order and
// apart: that is for speed, and nothing rests on it.
ghost use Rattle.std.specs.Prelude.{◌≡◌, ◌++◌, ◌∷◌, [], ◌+◌, ◌<◌, ◌≤◌, length, take, drop, All, IfSome, IfOk, IsTrue, OnOk};
ghost use Rattle.std.specs.Int.{int_max};
ghost use Rattle.tre_pairs.specs.declared.TheConstants.{TIME_MAX};
ghost use Rattle.tre_zone.specs.Held.{Held};
ghost use Rattle.tre_forms.specs.Begun.{BeginsBefore};
ghost use Rattle.tre_node.specs.IsNode.{IsStretch};
ghost use Rattle.tre_node.specs.Stretches.{GoesOnAs, IsOfBoth, JoinsBefore, AddsMoments, AddsStretch, SameMoments, GivesBegins};

use crate::node::Stretch;
use crate::outer::ending_before;
use std::alloc::AllocError;
use tre_pairs::TIME_MAX;
use tre_zone::{Bound, Zone};

/// Adds the begins of the pairs that end before the time.
#[inline(always)]
pub fn add_begins(begun: &mut Vec<Stretch>, entering: &[Zone], time: u64) -> Result<(), AllocError>
    requires { time ≤ TIME_MAX }
    ensures begins { OnOk result
        (AddsMoments begun.old.items (BeginsBefore time (Held entering.now)) begun.new.items) }
    ensures are { All (IsStretch time) begun.old.items → OnOk result
        (All (IsStretch time) begun.new.items) }
{
    for zone in entering {
        add_begins_of(begun, zone, time)?;
    }
    Ok(())
}

#[inline(always)]
fn add_begins_of(begun: &mut Vec<Stretch>, zone: &Zone, time: u64) -> Result<(), AllocError>
    requires { time ≤ TIME_MAX }
    ensures begins { OnOk result
        (AddsMoments begun.old.items (BeginsBefore time (Held (zone.now ∷ []))) begun.new.items) }
    ensures are { All (IsStretch time) begun.old.items → OnOk result
        (All (IsStretch time) begun.new.items) }
{
    match begins_before(zone, time) {
        Some(stretch) => add_stretch(begun, &stretch),
        None => Ok(()),
    }
}

// The begins of the pairs that end before the time.
#[inline(always)]
fn begins_before(zone: &Zone, time: u64) -> Option<Stretch>
    requires { time ≤ TIME_MAX }
    ensures { GivesBegins time zone.now result }
{
    match ending_before(zone, time) {
        Some(early) => {
            let bounds = early.bounds();
            Some(Stretch {
                low: bounds.begin_low,
                high: bounds.begin_high,
            })
        }
        None => None,
    }
}

// Adds a stretch, and joins it with those that it touches.
#[inline(always)]
fn add_stretch(begun: &mut Vec<Stretch>, new: &Stretch) -> Result<(), AllocError>
    ensures { OnOk result (AddsStretch begun.old.items new.now begun.new.items) }
{
    let place = place_of(begun, new);
    let place = put_stretch(begun, place, new)?;
    join_next(begun, place);
    Ok(())
}

// How many of the stretches begin no later. Mostly all do.
#[inline(always)]
fn place_of(begun: &[Stretch], new: &Stretch) -> usize
    ensures { result ≤ length begun.now }
{
    if begins_last(begun, new) {
        return begun.len();
    }
    place_between(begun, new)
}

#[inline(always)]
fn begins_last(begun: &[Stretch], new: &Stretch) -> bool {
    match begun.last() {
        Some(last) => new.low.key() <= last.low.key(),
        None => true,
    }
}

// The same by halves.
fn place_between(begun: &[Stretch], new: &Stretch) -> usize
    ensures { result ≤ length begun.now }
{
    let mut place = 0;
    let mut end = begun.len();
    while place < end {
        let middle = place + (end - place) / 2;
        if begun[middle].low.key() < new.low.key() {
            end = middle;
        } else {
            place = middle + 1;
        }
    }
    place
}

// Puts the stretch at the place, or joins it with the one before; says where it is.
#[inline(always)]
fn put_stretch(begun: &mut Vec<Stretch>, place: usize, new: &Stretch) -> Result<usize, AllocError>
    requires { place ≤ length begun.old.items }
    ensures added { OnOk result (AddsStretch begun.old.items new.now begun.new.items) }
    ensures at { IfOk result (λ at. at < length begun.new.items) }
{
    if let Some(whole) = joined_before(begun, place, new) {
        begun[place - 1] = whole;
        return Ok(place - 1);
    }
    begun.insert(place, *new)?;
    Ok(place)
}

// The stretch before the place and this one as one, where they touch.
#[inline(always)]
fn joined_before(begun: &[Stretch], place: usize, new: &Stretch) -> Option<Stretch>
    requires { place ≤ length begun.now }
    ensures { IfSome result (JoinsBefore begun.now place new.now) }
{
    if place == 0 {
        return None;
    }
    joined(&begun[place - 1], new)
}

// Joins the stretch at the place with those behind it that it touches.
#[inline(always)]
fn join_next(begun: &mut Vec<Stretch>, place: usize)
    requires { place < length begun.old.items }
    ensures { SameMoments begun.old.items begun.new.items }
{
    while place + 1 < begun.len() {
        match joined(&begun[place], &begun[place + 1]) {
            Some(whole) => replace_two(begun, place, &whole),
            None => return,
        }
    }
}

// The stretch comes in the place of two.
fn replace_two(begun: &mut Vec<Stretch>, place: usize, whole: &Stretch)
    requires { place + 1 < length begun.old.items }
    ensures { begun.new.items
        ≡ take place begun.old.items ++ whole.now ∷ drop (place + 2) begun.old.items }
{
    begun.remove(place + 1);
    begun[place] = *whole;
}

// Both as one, where the other begins no earlier and there is no gap between them.
#[inline(always)]
fn joined(one: &Stretch, other: &Stretch) -> Option<Stretch>
    ensures { IfSome result (IsOfBoth one.now other.now) }
{
    if !goes_on_as(one, other) {
        return None;
    }
    Some(Stretch {
        low: one.low,
        high: later(&one.high, &other.high),
    })
}

#[inline(always)]
fn goes_on_as(one: &Stretch, other: &Stretch) -> bool
    ensures { IsTrue result → GoesOnAs one.now other.now }
{
    other.low.key() <= one.low.key()
        && 1 <= i128::from(one.high.key()) + i128::from(other.low.key())
}

#[inline(always)]
fn later(one: &Bound, other: &Bound) -> Bound
    ensures { result ≡ int_max one.now other.now }
{
    if one.key() < other.key() {
        return *other;
    }
    *one
}
