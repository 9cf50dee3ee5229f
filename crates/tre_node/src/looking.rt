// The first walk: what the piece makes of each part alone.
ghost use Rattle.std.specs.Prelude.{◌≡◌, true, false, OnOk};
ghost use Rattle.tre_node.specs.NodeTree.{around_of};
ghost use Rattle.tre_node.specs.IsNode.{IsMade, IsNode, least_of};
ghost use Rattle.tre_node.specs.Looked.{HasLooked};
ghost use Rattle.tre_node.specs.Telling.{AlternationLooks, IntersectionLooks, RepetitionLooks, RestrictionLooks, SequenceLooks};

use crate::holding::look_literal;
use crate::joining::keep_in_reach;
use crate::node::{Around, Node};
use crate::shortening::shorten;
use crate::telling::{
    tell_alternation, tell_instant, tell_intersected, tell_repetition, tell_restricted,
    tell_sequence,
};
use std::alloc::{AllocError, Global};
use tre_edges::{Piece, event_in, fall_in, moments_in, rise_in};
use tre_zone::{Interval, Zone};

/// Each node tells what the piece alone makes of it, and what had begun goes on. What enters comes
/// later.
#[cycle(look)]
pub fn look(alloc: Global, node: &mut Node, piece: &Piece) -> Result<(), AllocError>
    requires { IsNode piece.now.begin node.old }
    ensures { OnOk result (HasLooked piece.now node.old node.new) }
{
    match node {
        Node::Eps(around) => tell_instant(around, Some(moments_in(piece))),
        Node::Lit {
            around,
            state,
            begun,
        } => look_literal(around, state, begun, piece),
        Node::Rise(around, state) => tell_instant(around, rise_in(state, piece)),
        Node::Fall(around, state) => tell_instant(around, fall_in(state, piece)),
        Node::Event(around, number) => tell_instant(around, event_in(*number, piece)),
        Node::Seq {
            around,
            left,
            right,
        } => look_sequence(alloc, around, left, right, piece),
        Node::Alt {
            around,
            left,
            right,
        } => look_alternation(alloc, around, left, right, piece),
        Node::Star { around, body } => look_repetition(alloc, around, body, piece),
        Node::Meet {
            around,
            reach,
            outer,
            left,
            right,
            ..
        } => look_intersection(alloc, around, *reach, outer, left, right, piece),
        Node::Within {
            around,
            reach,
            interval,
            outer,
            body,
            ..
        } => look_restriction(alloc, around, *reach, interval, outer, body, piece),
    }
}

#[cycle(look)]
fn look_sequence(
    alloc: Global,
    around: &mut Around,
    left: &mut Node,
    right: &mut Node,
    piece: &Piece,
) -> Result<(), AllocError>
    requires left { IsNode piece.now.begin left.old }
    requires right { IsNode piece.now.begin right.old }
    requires first { IsMade around.old.longest around.old.whole (around_of left.old) }
    requires second { IsMade around.old.longest false (around_of right.old) }
    ensures { OnOk result (SequenceLooks piece.now around.old around.new left.old left.new right.old
        right.new) }
{
    look(alloc, left, piece)?;
    look(alloc, right, piece)?;
    tell_sequence(alloc, around, left, right)?;
    Ok(())
}

#[cycle(look)]
fn look_alternation(
    alloc: Global,
    around: &mut Around,
    left: &mut Node,
    right: &mut Node,
    piece: &Piece,
) -> Result<(), AllocError>
    requires left { IsNode piece.now.begin left.old }
    requires right { IsNode piece.now.begin right.old }
    requires first { IsMade around.old.longest around.old.whole (around_of left.old) }
    requires second { IsMade around.old.longest around.old.whole (around_of right.old) }
    ensures { OnOk result (AlternationLooks piece.now around.old around.new left.old left.new
        right.old right.new) }
{
    look(alloc, left, piece)?;
    look(alloc, right, piece)?;
    tell_alternation(alloc, around, left, right)?;
    Ok(())
}

#[cycle(look)]
fn look_repetition(
    alloc: Global,
    around: &mut Around,
    body: &mut Node,
    piece: &Piece,
) -> Result<(), AllocError>
    requires body { IsNode piece.now.begin body.old }
    requires made { IsMade around.old.longest false (around_of body.old) }
    ensures { OnOk result (RepetitionLooks piece.now around.old around.new body.old body.new) }
{
    look(alloc, body, piece)?;
    tell_repetition(
        alloc,
        around,
        body,
        piece.begin,
        piece.begin + piece.segment.len,
    )?;
    shorten(&mut around.ended, &mut around.mid, around.longest)?;
    Ok(())
}

#[cycle(look)]
fn look_restriction(
    alloc: Global,
    around: &mut Around,
    reach: Option<u64>,
    interval: &Interval,
    outer: &mut Vec<Zone>,
    body: &mut Node,
    piece: &Piece,
) -> Result<(), AllocError>
    requires body { IsNode piece.now.begin body.old }
    requires made { IsMade reach true (around_of body.old) }
    requires reach { reach ≡ least_of around.old.longest interval.now.high }
    ensures { OnOk result (RestrictionLooks piece.now reach interval.now around.old around.new
        outer.old.items outer.new.items body.old body.new) }
{
    look(alloc, body, piece)?;
    tell_restricted(alloc, around, outer, interval, body)?;
    keep_in_reach(outer, reach, piece.begin + piece.segment.len);
    Ok(())
}

#[cycle(look)]
fn look_intersection(
    alloc: Global,
    around: &mut Around,
    reach: Option<u64>,
    outer: &mut Vec<Zone>,
    left: &mut Node,
    right: &mut Node,
    piece: &Piece,
) -> Result<(), AllocError>
    requires left { IsNode piece.now.begin left.old }
    requires right { IsNode piece.now.begin right.old }
    requires first { IsMade reach true (around_of left.old) }
    requires second { IsMade reach true (around_of right.old) }
    requires reach { reach ≡ around.old.longest }
    ensures { OnOk result (IntersectionLooks piece.now reach around.old around.new outer.old.items
        outer.new.items left.old left.new right.old right.new) }
{
    look(alloc, left, piece)?;
    look(alloc, right, piece)?;
    tell_intersected(alloc, around, outer, left, right)?;
    keep_in_reach(outer, reach, piece.begin + piece.segment.len);
    Ok(())
}
