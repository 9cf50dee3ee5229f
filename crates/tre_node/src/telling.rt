// What a node tells, of what its parts tell.
ghost use Rattle.std.specs.Prelude.{◌≡◌, ◌≤◌, ◌↔◌, [], ◌⊎◌, false, IsTrue, OnOk};
ghost use Rattle.tre_pairs.specs.Pairs.{Composed, Either, Both, Lasting, Chain};
ghost use Rattle.tre_zone.specs.Held.{Held};
ghost use Rattle.tre_zone.specs.Interval.{LastsWithin};
ghost use Rattle.tre_zone.specs.Zone.{IsInstantBetween};
ghost use Rattle.tre_mark.specs.Marked.{EndBetween};
ghost use Rattle.tre_pairs.specs.declared.TheConstants.{TIME_MAX};
ghost use Rattle.tre_node.specs.NodeTree.{around_of};
ghost use Rattle.tre_node.specs.Telling.{Puts, PutsBehind, PutsFound};

use crate::chains::chain_anew;
use crate::combining::{compose_anew, compose_beside, meet_anew, restrict_anew, unite_anew};
use crate::node::{Around, Node};
use crate::vectors::is_none;
use std::alloc::{AllocError, Global};
use tre_zone::{Interval, Zone};
use tre_zoneset::gather;

/// Of a sequence.
pub fn tell_sequence(
    alloc: Global,
    around: &mut Around,
    left: &Node,
    right: &Node,
) -> Result<(), AllocError>
    ensures { OnOk result (Puts
        (Composed (Held (around_of left.now).inside.items) (Held (around_of right.now).inside.items))
        (Either (Held (around_of right.now).ended.items)
        (Composed (Held (around_of left.now).ended.items) (Held (around_of right.now).inside.items)))
        (((around_of left.now).lives ≡ false)
        × (((around_of right.now).lives ≡ false) ⊎ ((around_of left.now).inside.items ≡ [])))
        (((around_of left.now).busy ≡ false) × ((around_of right.now).busy ≡ false))
        around.old around.new) }
{
    let one = left.around();
    let other = right.around();
    around.lives = lives_behind(one, other);
    around.busy = is_busy_in_one(one, other);
    compose_anew(alloc, &mut around.inside, &one.inside, &other.inside)?;
    compose_beside(
        alloc,
        &mut around.ended,
        &other.ended,
        &one.ended,
        &other.inside,
    )?;
    Ok(())
}

/// Of an alternation.
pub fn tell_alternation(
    alloc: Global,
    around: &mut Around,
    left: &Node,
    right: &Node,
) -> Result<(), AllocError>
    ensures { OnOk result (Puts
        (Either (Held (around_of left.now).inside.items) (Held (around_of right.now).inside.items))
        (Either (Held (around_of left.now).ended.items) (Held (around_of right.now).ended.items))
        (((around_of left.now).lives ≡ false) × ((around_of right.now).lives ≡ false))
        (((around_of left.now).busy ≡ false) × ((around_of right.now).busy ≡ false))
        around.old around.new) }
{
    let one = left.around();
    let other = right.around();
    around.lives = lives_in_one(one, other);
    around.busy = is_busy_in_one(one, other);
    unite_anew(alloc, &mut around.inside, &one.inside, &other.inside)?;
    unite_anew(alloc, &mut around.ended, &one.ended, &other.ended)?;
    Ok(())
}

/// Of a repetition. The moments between the two times are among what is inside.
pub fn tell_repetition(
    alloc: Global,
    around: &mut Around,
    body: &Node,
    from: u64,
    to: u64,
) -> Result<(), AllocError>
    requires rising { from ≤ to }
    requires limit { to ≤ TIME_MAX }
    requires between { EndBetween from to (around_of body.now).inside.items }
    ensures { OnOk result (Puts
        (Chain (Held (around_of body.now).inside.items)
        (IsInstantBetween from to))
        (Composed (Held (around_of body.now).ended.items) (Held around.new.inside.items))
        ((around_of body.now).lives ≡ false) ((around_of body.now).busy ≡ false)
        around.old around.new) }
{
    let inner = body.around();
    around.lives = inner.lives;
    around.busy = inner.busy;
    chain_anew(alloc, &mut around.inside, &inner.inside, from, to)?;
    compose_anew(alloc, &mut around.ended, &inner.ended, &around.inside)?;
    Ok(())
}

/// Of a restriction behind these pairs.
pub fn tell_restriction(
    alloc: Global,
    around: &mut Around,
    outer: &[Zone],
    interval: &Interval,
    body: &Node,
) -> Result<(), AllocError>
    ensures { OnOk result (Puts
        (Lasting (LastsWithin interval.now) (Held (around_of body.now).inside.items))
        (Composed (Held outer.now)
        (Lasting (LastsWithin interval.now) (Held (around_of body.now).ended.items)))
        ((around_of body.now).lives ≡ false) ((around_of body.now).busy ≡ false)
        around.old around.new) }
{
    let inner = body.around();
    around.lives = inner.lives;
    around.busy = inner.busy;
    restrict_anew(alloc, &mut around.inside, &inner.inside, interval)?;
    restrict_anew(alloc, &mut around.mid, &inner.ended, interval)?;
    compose_anew(alloc, &mut around.ended, outer, &around.mid)?;
    Ok(())
}

/// The same behind all moments.
pub fn tell_whole_restriction(
    alloc: Global,
    around: &mut Around,
    interval: &Interval,
    body: &Node,
) -> Result<(), AllocError>
    ensures { OnOk result (Puts
        (Lasting (LastsWithin interval.now) (Held (around_of body.now).inside.items))
        (Lasting (LastsWithin interval.now) (Held (around_of body.now).ended.items))
        ((around_of body.now).lives ≡ false) ((around_of body.now).busy ≡ false)
        around.old around.new) }
{
    let inner = body.around();
    around.lives = inner.lives;
    around.busy = inner.busy;
    restrict_anew(alloc, &mut around.inside, &inner.inside, interval)?;
    restrict_anew(alloc, &mut around.ended, &inner.ended, interval)?;
    Ok(())
}

/// Of an intersection behind these pairs.
pub fn tell_intersection(
    alloc: Global,
    around: &mut Around,
    outer: &[Zone],
    left: &Node,
    right: &Node,
) -> Result<(), AllocError>
    ensures { OnOk result (Puts
        (Both (Held (around_of left.now).inside.items) (Held (around_of right.now).inside.items))
        (Composed (Held outer.now) (Both (Held (around_of left.now).ended.items)
        (Held (around_of right.now).ended.items)))
        (((around_of left.now).lives ≡ false) ⊎ ((around_of right.now).lives ≡ false))
        (((around_of left.now).busy ≡ false) × ((around_of right.now).busy ≡ false))
        around.old around.new) }
{
    let one = left.around();
    let other = right.around();
    around.lives = lives_in_both(one, other);
    around.busy = is_busy_in_one(one, other);
    meet_anew(alloc, &mut around.inside, &one.inside, &other.inside)?;
    meet_anew(alloc, &mut around.mid, &one.ended, &other.ended)?;
    compose_anew(alloc, &mut around.ended, outer, &around.mid)?;
    Ok(())
}

/// The same behind all moments.
pub fn tell_whole_intersection(
    alloc: Global,
    around: &mut Around,
    left: &Node,
    right: &Node,
) -> Result<(), AllocError>
    ensures { OnOk result (Puts
        (Both (Held (around_of left.now).inside.items) (Held (around_of right.now).inside.items))
        (Both (Held (around_of left.now).ended.items) (Held (around_of right.now).ended.items))
        (((around_of left.now).lives ≡ false) ⊎ ((around_of right.now).lives ≡ false))
        (((around_of left.now).busy ≡ false) × ((around_of right.now).busy ≡ false))
        around.old around.new) }
{
    let one = left.around();
    let other = right.around();
    around.lives = lives_in_both(one, other);
    around.busy = is_busy_in_one(one, other);
    meet_anew(alloc, &mut around.inside, &one.inside, &other.inside)?;
    meet_anew(alloc, &mut around.ended, &one.ended, &other.ended)?;
    Ok(())
}

// Whether what enters a sequence may go on behind the piece.
#[inline(always)]
fn lives_behind(one: &Around, other: &Around) -> bool
    ensures { result ≡ false → (one.now.lives ≡ false)
        × ((other.now.lives ≡ false) ⊎ (one.now.inside.items ≡ [])) }
{
    one.lives || other.lives && !is_none(&one.inside)
}

#[inline(always)]
fn lives_in_one(one: &Around, other: &Around) -> bool
    ensures { result ≡ false → (one.now.lives ≡ false) × (other.now.lives ≡ false) }
{
    one.lives || other.lives
}

#[inline(always)]
fn lives_in_both(one: &Around, other: &Around) -> bool
    ensures { result ≡ false → (one.now.lives ≡ false) ⊎ (other.now.lives ≡ false) }
{
    one.lives && other.lives
}

#[inline(always)]
fn is_busy_in_one(one: &Around, other: &Around) -> bool
    ensures { result ≡ false → (one.now.busy ≡ false) × (other.now.busy ≡ false) }
{
    one.busy || other.busy
}

/// Of an atom that lasts no time, where this is found of it: nothing of it goes on behind the
/// piece.
pub fn tell_instant(around: &mut Around, found: Option<Zone>) -> Result<(), AllocError>
    ensures { OnOk result (PutsFound found around.old around.new) }
{
    around.lives = false;
    around.ended.clear();
    around.inside.clear();
    gather(&mut around.inside, found)?;
    Ok(())
}

/// Of a restriction, behind these pairs or, where it is whole, behind all moments.
pub fn tell_restricted(
    alloc: Global,
    around: &mut Around,
    outer: &[Zone],
    interval: &Interval,
    body: &Node,
) -> Result<(), AllocError>
    ensures { OnOk result (PutsBehind around.old.whole outer.now
        (Lasting (LastsWithin interval.now) (Held (around_of body.now).inside.items))
        (Lasting (LastsWithin interval.now) (Held (around_of body.now).ended.items))
        ((around_of body.now).lives ≡ false) ((around_of body.now).busy ≡ false)
        around.old around.new) }
{
    if around.whole {
        return tell_whole_restriction(alloc, around, interval, body);
    }
    tell_restriction(alloc, around, outer, interval, body)
}

/// The same of an intersection.
pub fn tell_intersected(
    alloc: Global,
    around: &mut Around,
    outer: &[Zone],
    left: &Node,
    right: &Node,
) -> Result<(), AllocError>
    ensures { OnOk result (PutsBehind around.old.whole outer.now
        (Both (Held (around_of left.now).inside.items) (Held (around_of right.now).inside.items))
        (Both (Held (around_of left.now).ended.items) (Held (around_of right.now).ended.items))
        (((around_of left.now).lives ≡ false) ⊎ ((around_of right.now).lives ≡ false))
        (((around_of left.now).busy ≡ false) × ((around_of right.now).busy ≡ false))
        around.old around.new) }
{
    if around.whole {
        return tell_whole_intersection(alloc, around, left, right);
    }
    tell_intersection(alloc, around, outer, left, right)
}
