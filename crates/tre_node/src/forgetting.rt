// What can't count any more is forgotten.
ghost use Rattle.std.specs.Prelude.{◌⊎◌, IsTrue};
ghost use Rattle.tre_node.specs.IsNode.{IsIdle};
ghost use Rattle.tre_node.specs.Settling.{IsKnown, Settles, SettlesBody, SettlesSides, IsForgotten};

use crate::holding::has_begun;
use crate::node::Node;
use tre_zone::Zone;

// So many zones aren't much.
const MANY: usize = 16;

/// Where nothing has begun of an instance, what led to it is forgotten, if that is much; and where
/// nothing has on one side of an intersection, the other is. An intersection says whether something
/// has.
#[inline(always)]
pub fn settle(node: &mut Node)
    ensures { Settles node.old node.new }
{
    match node {
        Node::Eps(_) => {}
        Node::Lit { .. } => {}
        Node::Rise(_, _) => {}
        Node::Fall(_, _) => {}
        Node::Event(_, _) => {}
        Node::Seq { .. } => {}
        Node::Alt { .. } => {}
        Node::Star { .. } => {}
        Node::Within { outer, body, .. } => settle_body(outer, body),
        Node::Meet {
            around,
            outer,
            left,
            right,
            ..
        } => around.busy = settle_sides(outer, left, right),
    }
}

// Whether nothing has begun. An intersection has said so.
#[cycle(is_idle)]
fn is_idle(node: &Node) -> bool
    ensures { IsTrue result → IsKnown node.now → IsIdle node.now }
{
    match node {
        Node::Eps(_) => true,
        Node::Lit { begun, .. } => !has_begun(begun),
        Node::Rise(_, _) => true,
        Node::Fall(_, _) => true,
        Node::Event(_, _) => true,
        Node::Seq { left, right, .. } => are_idle(left, right),
        Node::Alt { left, right, .. } => are_idle(left, right),
        Node::Star { body, .. } => is_idle(body),
        Node::Within { body, .. } => is_idle(body),
        Node::Meet { around, .. } => !around.busy,
    }
}

#[cycle(is_idle)]
fn are_idle(left: &Node, right: &Node) -> bool
    ensures { IsTrue result → IsKnown left.now → IsKnown right.now
        → IsIdle left.now × IsIdle right.now }
{
    is_idle(left) && is_idle(right)
}

#[inline(always)]
fn settle_body(outer: &mut Vec<Zone>, body: &Node)
    ensures { SettlesBody body.now outer.old.items outer.new.items }
{
    if MANY < outer.len() && is_idle(body) {
        outer.clear();
    }
}

#[inline(always)]
fn settle_sides(outer: &mut Vec<Zone>, left: &mut Node, right: &mut Node) -> bool
    ensures { SettlesSides left.old left.new right.old right.new outer.old.items outer.new.items
        result }
{
    if !is_one_idle(left, right) {
        return true;
    }
    outer.clear();
    forget(left);
    forget(right);
    false
}

#[inline(always)]
fn is_one_idle(left: &Node, right: &Node) -> bool
    ensures { IsTrue result → (IsKnown left.now → IsIdle left.now)
        ⊎ (IsKnown right.now → IsIdle right.now) }
{
    is_idle(left) || is_idle(right)
}

// Nothing has begun then.
#[inline(always)]
fn forget(node: &mut Node)
    ensures { IsForgotten (IsKnown node.old) node.old node.new }
{
    if !is_idle(node) {
        forget_all(node);
    }
}

// Nothing has begun then.
#[cycle(forget_all)]
fn forget_all(node: &mut Node)
    ensures { IsForgotten (Unit {0}) node.old node.new }
{
    match node {
        Node::Eps(around) => around.busy = false,
        Node::Lit { around, begun, .. } => {
            around.busy = false;
            begun.clear();
        }
        Node::Rise(around, _) => around.busy = false,
        Node::Fall(around, _) => around.busy = false,
        Node::Event(around, _) => around.busy = false,
        Node::Seq {
            around,
            left,
            right,
        } => {
            around.busy = false;
            forget_all(left);
            forget_all(right);
        }
        Node::Alt {
            around,
            left,
            right,
        } => {
            around.busy = false;
            forget_all(left);
            forget_all(right);
        }
        Node::Meet {
            around,
            outer,
            left,
            right,
            ..
        } => {
            around.busy = false;
            outer.clear();
            forget_all(left);
            forget_all(right);
        }
        Node::Star { around, body } => {
            around.busy = false;
            forget_all(body);
        }
        Node::Within {
            around,
            outer,
            body,
            ..
        } => {
            around.busy = false;
            outer.clear();
            forget_all(body);
        }
    }
}
