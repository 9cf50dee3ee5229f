// What a pattern under way stands for where the trace has ended.
ghost use Rattle.std.specs.Prelude.{◌≤◌, ◌↔◌, All, IfOk, IsTrue};
ghost use Rattle.tre_pairs.specs.declared.TheConstants.{TIME_MAX};
ghost use Rattle.tre_zone.specs.ZoneList.{HoldExactly, SetHolds};
ghost use Rattle.tre_state.specs.declared.names.TheConstants.{NAMES_MAX};
ghost use Rattle.tre_syntax.specs.AtTheEnd.{MatchesAtEnd};
ghost use Rattle.tre_syntax.specs.PatternTree.{NumbersBelow};
ghost use Rattle.tre_node.specs.IsNode.{IsNode, IsStretch};
ghost use Rattle.tre_node.specs.NodeTree.{begun_at, tree_of_node};
ghost use Rattle.tre_residual.specs.Residual.{marked};
ghost use Rattle.tre_derive.specs.Closing.{ClosesTo, HeldAtEnd, LedTo};

use crate::sets::{of_either, set_of};
use std::alloc::{AllocError, Global};
use tre_edges::happens;
use tre_node::{Node, Stretch, put_begun};
use tre_residual::composed;
use tre_state::NAMES_MAX;
use tre_zone::Zone;
use tre_zoneset::ZoneSet;

/// The pairs of the pattern under way, where the trace has ended at the time and these events
/// happen there.
///
/// It goes as deep as the node does.
pub fn close_node(alloc: Global, node: &Node, time: u64, events: u64) -> Result<ZoneSet, AllocError>
    requires limit { time ≤ TIME_MAX }
    requires node { IsNode time node.now }
    ensures { IfOk result (λ told. ClosesTo (marked node.now) time events told) }
{
    match node {
        Node::Eps(_) => Ok(ZoneSet::new(alloc)),
        Node::Lit { begun, .. } => begun_until(alloc, begun, time),
        Node::Rise(_, _) => Ok(ZoneSet::new(alloc)),
        Node::Fall(_, _) => Ok(ZoneSet::new(alloc)),
        Node::Event(_, _) => Ok(ZoneSet::new(alloc)),
        Node::Seq { left, right, .. } => {
            let first = close_node(alloc, left, time, events)?;
            let first = held_before(alloc, first, right, events);
            let second = close_node(alloc, right, time, events)?;
            of_either(first, &second)
        }
        Node::Alt { left, right, .. } => {
            let one = close_node(alloc, left, time, events)?;
            let other = close_node(alloc, right, time, events)?;
            of_either(one, &other)
        }
        Node::Star { body, .. } => close_node(alloc, body, time, events),
        Node::Within {
            around,
            interval,
            outer,
            body,
            ..
        } => {
            let inner = close_node(alloc, body, time, events)?;
            let inner = inner.within(interval)?;
            led_to(alloc, around.whole, outer, inner)
        }
        Node::Meet {
            around,
            outer,
            left,
            right,
            ..
        } => {
            let one = close_node(alloc, left, time, events)?;
            let other = close_node(alloc, right, time, events)?;
            let inner = one.meet(&other)?;
            led_to(alloc, around.whole, outer, inner)
        }
    }
}

// What had begun of a literal, as a set.
fn begun_until(alloc: Global, begun: &[Stretch], time: u64) -> Result<ZoneSet, AllocError>
    requires limit { time ≤ TIME_MAX }
    requires begun { All (IsStretch time) begun.now }
    ensures { IfOk result (λ set. HoldExactly set (SetHolds (begun_at time begun.now))) }
{
    let mut zones = Vec::new(alloc);
    put_begun(&mut zones, begun, time)?;
    ZoneSet::of_zones(alloc, zones)
}

// The set where what comes behind it matches the end of the trace, and else the empty one.
fn held_before(alloc: Global, zones: ZoneSet, node: &Node, events: u64) -> ZoneSet
    requires { NumbersBelow NAMES_MAX (tree_of_node node.now) }
    ensures { HoldExactly result (HeldAtEnd zones events (tree_of_node node.now)) }
{
    if matches_there(node, events) {
        return zones;
    }
    ZoneSet::new(alloc)
}

// Whether the expression of the node matches the end of a trace.
fn matches_there(node: &Node, events: u64) -> bool
    requires { NumbersBelow NAMES_MAX (tree_of_node node.now) }
    ensures { IsTrue result ↔ MatchesAtEnd events (tree_of_node node.now) }
{
    match node {
        Node::Eps(_) => true,
        Node::Lit { .. } | Node::Rise(_, _) | Node::Fall(_, _) => false,
        Node::Event(_, number) => happens(*number, events),
        Node::Seq { left, right, .. } | Node::Meet { left, right, .. } => {
            matches_there(left, events) && matches_there(right, events)
        }
        Node::Alt { left, right, .. } => matches_there(left, events)
            || matches_there(right, events),
        Node::Star { .. } => true,
        Node::Within { body, interval, .. } => matches_there(body, events) && interval.holds(0, 1),
    }
}

// What the set does behind the pairs that led to it: where all moments did that is the set.
fn led_to(alloc: Global, whole: bool, outer: &[Zone], inner: ZoneSet) -> Result<ZoneSet, AllocError>
    ensures { IfOk result (λ led. LedTo whole outer.now inner led) }
{
    if whole {
        return Ok(inner);
    }
    let outer = set_of(alloc, outer)?;
    composed(alloc, &outer, &inner)
}
