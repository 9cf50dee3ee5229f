// Forms of a mark from their parts.
ghost use Rattle.std.specs.Prelude.{◌≡◌, ◌≤◌, IfOk};
ghost use Rattle.tre_pairs.specs.declared.TheConstants.{TIME_MAX};
ghost use Rattle.tre_zone.specs.Zone.{IsInstantBetween};
ghost use Rattle.tre_zone.specs.ZoneList.{HoldExactly};
ghost use Rattle.tre_mark.specs.MarkTree.{atom_mark, repetition_mark, intersection_of, restriction_of, mark_of};

use crate::copy::copied;
use crate::mark::{Mark, Room};
use std::alloc::{AllocError, Global};
use tre_zone::Zone;
use tre_zoneset::ZoneSet;

/// The mark of an atom.
pub(crate) fn atom(alloc: Global, here: Vec<Zone>, begun: Vec<Zone>) -> Mark
    ensures { mark_of result ≡ atom_mark here.items begun.items }
{
    Mark::Atom {
        here,
        begun,
        room: Room::new(alloc),
    }
}

/// The mark of a repetition, behind copies of these zones.
pub(crate) fn repetition_behind(
    alloc: Global,
    here: &[Zone],
    body: Box<Mark>,
) -> Result<Mark, AllocError>
    ensures { IfOk result (λ mark.
        mark_of mark ≡ repetition_mark here.now (mark_of body.value)) }
{
    let here = copied(alloc, here)?;
    Ok(Mark::Star {
        here,
        body,
        room: Room::new(alloc),
    })
}

/// The mark of an intersection, behind copies of these zones.
pub(crate) fn intersection_behind(
    alloc: Global,
    to: u64,
    outer: &[Zone],
    left: Box<Mark>,
    right: Box<Mark>,
) -> Result<Mark, AllocError>
    ensures { IfOk result (λ mark.
        mark_of mark ≡ intersection_of to outer.now (mark_of left.value) (mark_of right.value)) }
{
    let outer = copied(alloc, outer)?;
    Ok(Mark::Meet {
        to,
        outer,
        left,
        right,
        room: Room::new(alloc),
    })
}

/// The mark of a restriction, behind copies of these zones.
pub(crate) fn restriction_behind(
    alloc: Global,
    to: u64,
    outer: &[Zone],
    body: Box<Mark>,
) -> Result<Mark, AllocError>
    ensures { IfOk result (λ mark.
        mark_of mark ≡ restriction_of to outer.now (mark_of body.value)) }
{
    let outer = copied(alloc, outer)?;
    Ok(Mark::Within {
        to,
        outer,
        body,
        room: Room::new(alloc),
    })
}

/// The moments from one time to another.
pub fn moments(alloc: Global, from: u64, to: u64) -> Result<ZoneSet, AllocError>
    requires order { from ≤ to }
    requires limit { to ≤ TIME_MAX }
    ensures { IfOk result (λ zones. HoldExactly zones (IsInstantBetween from to)) }
{
    let mut zones = ZoneSet::new(alloc);
    zones.push_apart(Zone::instants(from, to))?;
    Ok(zones)
}
