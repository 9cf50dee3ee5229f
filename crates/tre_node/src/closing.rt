// The end of the trace: what had begun ends there, or nowhere.
ghost use Rattle.std.specs.Prelude.{◌≡◌, ◌<◌, ◌≤◌, true, false, OnOk};
ghost use Rattle.tre_pairs.specs.declared.TheConstants.{TIME_MAX};
ghost use Rattle.tre_zone.specs.Zone.{GivesZone};
ghost use Rattle.tre_state.specs.declared.names.TheConstants.{NAMES_MAX};
ghost use Rattle.tre_node.specs.NodeTree.{around_of};
ghost use Rattle.tre_node.specs.IsNode.{IsMade, IsNode, least_of};
ghost use Rattle.tre_node.specs.Closed.{HappensAt, HasClosed, SequenceCloses, AlternationCloses, RepetitionCloses, RestrictionCloses, IntersectionCloses};

use crate::holding::end_begun;
use crate::node::{Around, Node};
use crate::telling::{
    tell_alternation, tell_instant, tell_intersected, tell_repetition, tell_restricted,
    tell_sequence,
};
use std::alloc::{AllocError, Global};
use tre_edges::happens;
use tre_zone::{Interval, Zone};

/// The trace ends at the time, with these events: bit i is set where event i happens there. Each
/// node tells what that makes of it, as [`look`](crate::look) has it tell of a piece. No piece may
/// follow.
#[cycle(close)]
pub fn close(alloc: Global, node: &mut Node, time: u64, events: u64) -> Result<(), AllocError>
    requires node { IsNode time node.old }
    requires limit { time ≤ TIME_MAX }
    ensures { OnOk result (HasClosed time events node.old node.new) }
{
    match node {
        Node::Eps(around) => tell_instant(around, Some(Zone::instants(time, time))),
        Node::Lit { around, begun, .. } => end_begun(around, begun, time),
        Node::Rise(around, _) => tell_instant(around, None),
        Node::Fall(around, _) => tell_instant(around, None),
        Node::Event(around, number) => tell_instant(around, event_at(*number, time, events)),
        Node::Seq {
            around,
            left,
            right,
        } => close_sequence(alloc, around, left, right, time, events),
        Node::Alt {
            around,
            left,
            right,
        } => close_alternation(alloc, around, left, right, time, events),
        Node::Star { around, body } => close_repetition(alloc, around, body, time, events),
        Node::Meet {
            around,
            outer,
            left,
            right,
            ..
        } => close_intersection(alloc, around, outer, left, right, time, events),
        Node::Within {
            around,
            interval,
            outer,
            body,
            ..
        } => close_restriction(alloc, around, interval, outer, body, time, events),
    }
}

// The time as a pair, where the event is among these.
fn event_at(number: u8, time: u64, events: u64) -> Option<Zone>
    requires number { number < NAMES_MAX }
    requires limit { time ≤ TIME_MAX }
    ensures { GivesZone result (HappensAt number time events) }
{
    if happens(number, events) {
        return Some(Zone::instants(time, time));
    }
    None
}

#[cycle(close)]
fn close_sequence(
    alloc: Global,
    around: &mut Around,
    left: &mut Node,
    right: &mut Node,
    time: u64,
    events: u64,
) -> Result<(), AllocError>
    requires left { IsNode time left.old }
    requires right { IsNode time right.old }
    requires first { IsMade around.old.longest around.old.whole (around_of left.old) }
    requires second { IsMade around.old.longest false (around_of right.old) }
    requires limit { time ≤ TIME_MAX }
    ensures { OnOk result
        (SequenceCloses time events around.old around.new left.old left.new right.old right.new) }
{
    close(alloc, left, time, events)?;
    close(alloc, right, time, events)?;
    tell_sequence(alloc, around, left, right)?;
    Ok(())
}

#[cycle(close)]
fn close_alternation(
    alloc: Global,
    around: &mut Around,
    left: &mut Node,
    right: &mut Node,
    time: u64,
    events: u64,
) -> Result<(), AllocError>
    requires left { IsNode time left.old }
    requires right { IsNode time right.old }
    requires first { IsMade around.old.longest around.old.whole (around_of left.old) }
    requires second { IsMade around.old.longest around.old.whole (around_of right.old) }
    requires limit { time ≤ TIME_MAX }
    ensures { OnOk result
        (AlternationCloses time events around.old around.new left.old left.new right.old right.new) }
{
    close(alloc, left, time, events)?;
    close(alloc, right, time, events)?;
    tell_alternation(alloc, around, left, right)?;
    Ok(())
}

#[cycle(close)]
fn close_repetition(
    alloc: Global,
    around: &mut Around,
    body: &mut Node,
    time: u64,
    events: u64,
) -> Result<(), AllocError>
    requires body { IsNode time body.old }
    requires made { IsMade around.old.longest false (around_of body.old) }
    requires limit { time ≤ TIME_MAX }
    ensures { OnOk result (RepetitionCloses time events around.old around.new body.old body.new) }
{
    close(alloc, body, time, events)?;
    tell_repetition(alloc, around, body, time, time)?;
    Ok(())
}

#[cycle(close)]
fn close_restriction(
    alloc: Global,
    around: &mut Around,
    interval: &Interval,
    outer: &[Zone],
    body: &mut Node,
    time: u64,
    events: u64,
) -> Result<(), AllocError>
    requires body { IsNode time body.old }
    requires made { IsMade (least_of around.old.longest interval.now.high) true
        (around_of body.old) }
    requires limit { time ≤ TIME_MAX }
    ensures { OnOk result (RestrictionCloses time events interval.now outer.now around.old
        around.new body.old body.new) }
{
    close(alloc, body, time, events)?;
    tell_restricted(alloc, around, outer, interval, body)?;
    Ok(())
}

#[cycle(close)]
fn close_intersection(
    alloc: Global,
    around: &mut Around,
    outer: &[Zone],
    left: &mut Node,
    right: &mut Node,
    time: u64,
    events: u64,
) -> Result<(), AllocError>
    requires left { IsNode time left.old }
    requires right { IsNode time right.old }
    requires first { IsMade around.old.longest true (around_of left.old) }
    requires second { IsMade around.old.longest true (around_of right.old) }
    requires limit { time ≤ TIME_MAX }
    ensures { OnOk result (IntersectionCloses time events outer.now around.old around.new left.old
        left.new right.old right.new) }
{
    close(alloc, left, time, events)?;
    close(alloc, right, time, events)?;
    tell_intersected(alloc, around, outer, left, right)?;
    Ok(())
}
