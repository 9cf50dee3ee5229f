// The second walk: pairs enter, and what they begin goes on behind the piece.
ghost use Rattle.std.specs.Prelude.{OnOk};
ghost use Rattle.tre_pairs.specs.Pairs.{Composed, Either};
ghost use Rattle.tre_zone.specs.Held.{Held, IsSetOf};
ghost use Rattle.tre_edges.specs.Piece.{end_of_piece};
ghost use Rattle.tre_node.specs.HasEntered.{HasEntered, HasEnteredForm, HasGoneIn, HaveEntered, HaveBothEntered, EntersAgain, EntersBegun, LeadsIn};

use crate::forgetting::settle;
use crate::joining::lead_on;
use crate::node::{Node, Stretch};
use crate::stretches::add_begins;
use crate::vectors::{put_behind, put_each};
use std::alloc::{AllocError, Global};
use tre_edges::Piece;
use tre_zone::Zone;

/// What a part tells that these enter, in place of what was there.
#[inline(always)]
fn feed(
    ended: &[Zone],
    inside: &[Zone],
    entering: &[Zone],
    out: &mut Vec<Zone>,
) -> Result<(), AllocError>
    ensures { OnOk result (IsSetOf out.new.items
        (Either (Held ended.now) (Composed (Held entering.now) (Held inside.now)))) }
{
    out.clear();
    put_behind(out, ended)?;
    put_each(out, entering, inside)
}

/// Pairs enter that end in the piece: those that end with it enter the next again, and are of no
/// account here.
pub fn enter(
    alloc: Global,
    node: &mut Node,
    entering: &[Zone],
    piece: &Piece,
) -> Result<(), AllocError>
    ensures { OnOk result (HasEntered piece.now entering.now node.old node.new) }
{
    go_in(alloc, node, entering, piece)
}

// The same. Whether something has begun is known then, and what can't count any more is forgotten.
#[cycle(enter)]
fn go_in(alloc: Global, node: &mut Node, entering: &[Zone], piece: &Piece) -> Result<(), AllocError>
    ensures { OnOk result (HasGoneIn piece.now entering.now node.old node.new) }
{
    enter_form(alloc, node, entering, piece)?;
    settle(node);
    Ok(())
}

#[cycle(enter)]
fn enter_form(
    alloc: Global,
    node: &mut Node,
    entering: &[Zone],
    piece: &Piece,
) -> Result<(), AllocError>
    ensures { OnOk result (HasEnteredForm piece.now entering.now node.old node.new) }
{
    match node {
        Node::Eps(_) => Ok(()),
        Node::Lit { around, begun, .. } => {
            around.busy = true;
            enter_literal(around.lives, begun, entering, piece)
        }
        Node::Rise(_, _) => Ok(()),
        Node::Fall(_, _) => Ok(()),
        Node::Event(_, _) => Ok(()),
        Node::Seq {
            around,
            left,
            right,
        } => {
            around.busy = true;
            enter_parts(alloc, &mut around.mid, left, right, entering, piece)
        }
        Node::Alt {
            around,
            left,
            right,
        } => {
            around.busy = true;
            enter_both(alloc, left, right, entering, piece)
        }
        Node::Star { around, body } => {
            around.busy = true;
            enter_again(
                alloc,
                &mut around.mid,
                &around.ended,
                &around.inside,
                body,
                entering,
                piece,
            )
        }
        Node::Within {
            around,
            reach,
            outer,
            most,
            body,
            ..
        } => {
            around.busy = true;
            if around.whole {
                return go_in(alloc, body, entering, piece);
            }
            lead_in(
                alloc,
                &mut around.mid,
                outer,
                most,
                *reach,
                around.lives,
                entering,
                piece,
            )?;
            go_in(alloc, body, &around.mid, piece)
        }
        Node::Meet {
            around,
            reach,
            outer,
            most,
            left,
            right,
        } => {
            around.busy = true;
            if around.whole {
                return enter_both(alloc, left, right, entering, piece);
            }
            lead_in(
                alloc,
                &mut around.mid,
                outer,
                most,
                *reach,
                around.lives,
                entering,
                piece,
            )?;
            enter_both(alloc, left, right, &around.mid, piece)
        }
    }
}

/// What enters a literal begins there, if it holds.
#[inline(always)]
fn enter_literal(
    lives: bool,
    begun: &mut Vec<Stretch>,
    entering: &[Zone],
    piece: &Piece,
) -> Result<(), AllocError>
    ensures { OnOk result (EntersBegun lives (end_of_piece piece.now) entering.now begun.old.items
        begun.new.items) }
{
    if !lives {
        return Ok(());
    }
    add_begins(begun, entering, piece.begin + piece.segment.len)
}

/// The pairs lead on to instances. Where they do all moments of the piece enter those, and else
/// nothing does.
fn lead_in(
    alloc: Global,
    mid: &mut Vec<Zone>,
    outer: &mut Vec<Zone>,
    most: &mut usize,
    reach: Option<u64>,
    lives: bool,
    entering: &[Zone],
    piece: &Piece,
) -> Result<(), AllocError>
    ensures { OnOk result (LeadsIn piece.now reach lives entering.now outer.old.items
        outer.new.items mid.new.items) }
{
    if !lives || entering.is_empty() {
        mid.clear();
        return Ok(());
    }
    let end = piece.begin + piece.segment.len;
    lead_on(alloc, outer, mid, most, entering, reach, end)?;
    mid.clear();
    mid.push(Zone::instants(piece.begin, end))?;
    Ok(())
}

/// The second part is entered by what the first tells.
#[cycle(enter)]
fn enter_parts(
    alloc: Global,
    mid: &mut Vec<Zone>,
    left: &mut Node,
    right: &mut Node,
    entering: &[Zone],
    piece: &Piece,
) -> Result<(), AllocError>
    ensures { OnOk result (HaveEntered piece.now entering.now left.old left.new right.old
        right.new) }
{
    mid.clear();
    if right.around().lives {
        let told = left.around();
        feed(&told.ended, &told.inside, entering, mid)?;
    }
    go_in(alloc, right, mid, piece)?;
    go_in(alloc, left, entering, piece)
}

/// The same enters both.
#[cycle(enter)]
fn enter_both(
    alloc: Global,
    left: &mut Node,
    right: &mut Node,
    entering: &[Zone],
    piece: &Piece,
) -> Result<(), AllocError>
    ensures { OnOk result (HaveBothEntered piece.now entering.now left.old left.new right.old
        right.new) }
{
    go_in(alloc, left, entering, piece)?;
    go_in(alloc, right, entering, piece)
}

/// The body is entered by what the repetition tells.
#[cycle(enter)]
fn enter_again(
    alloc: Global,
    mid: &mut Vec<Zone>,
    ended: &[Zone],
    inside: &[Zone],
    body: &mut Node,
    entering: &[Zone],
    piece: &Piece,
) -> Result<(), AllocError>
    ensures { OnOk result (EntersAgain piece.now ended.now inside.now entering.now body.old
        body.new) }
{
    mid.clear();
    if body.around().lives {
        feed(ended, inside, entering, mid)?;
    }
    go_in(alloc, body, mid, piece)
}
