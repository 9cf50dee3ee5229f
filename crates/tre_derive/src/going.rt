// A pattern under way goes over a piece: what it tells as a set, and what is left as a residual.
ghost use Rattle.std.specs.Prelude.{◌≡◌, None, true, IfOk, OnOk};
ghost use Rattle.tre_pairs.specs.Pairs.{Composed, Either};
ghost use Rattle.tre_pairs.proofs.Laws.{IsInstant};
ghost use Rattle.tre_zone.specs.Held.{Held};
ghost use Rattle.tre_zone.specs.ZoneList.{HoldExactly};
ghost use Rattle.tre_syntax.specs.Expr.{tree_of};
ghost use Rattle.tre_syntax.specs.PatternTree.{NumbersBelow};
ghost use Rattle.tre_forms.specs.Begun.{EndsFrom};
ghost use Rattle.tre_node.specs.HasEntered.{MayEnter};
ghost use Rattle.tre_node.specs.NodeTree.{around_of};
ghost use Rattle.tre_residual.specs.Residual.{IsRoot, marked, residual_tree};
ghost use Rattle.tre_derive.specs.Derivative.{Advances, TellsAsSet, GoesOverTo, BeginsBehindPairs, StepsTo};

use crate::sets::{of_either, set_of};
use crate::stepped::Stepped;
use std::alloc::{AllocError, Global};
use tre_edges::Piece;
use tre_node::{Around, Node, enter, look, make};
use tre_residual::{Residual, composed};
use tre_state::NAMES_MAX;
use tre_syntax::{Expr, beside};
use tre_zone::Zone;
use tre_zoneset::ZoneSet;

/// A pair of the zones, none of which ends before the piece begins, and then a match of the
/// expression. What is left has those that end before the piece does. Where the zones are `whole`,
/// all of their pairs are moments.
pub fn begin_behind(
    alloc: Global,
    zones: &[Zone],
    whole: bool,
    expr: &Expr,
    piece: &Piece,
) -> Result<Stepped, AllocError>
    requires numbers { NumbersBelow NAMES_MAX (tree_of expr.now) }
    requires from { EndsFrom None piece.now.begin (Held zones.now) }
    requires moments { whole ≡ true → IsInstant (Held zones.now) }
    ensures { IfOk result (λ begun.
        BeginsBehindPairs (tree_of expr.now) zones.now piece.now begun.told (residual_tree
        begun.rest)) }
{
    let node = make(alloc, expr, None, whole)?;
    go_over(alloc, node, zones, piece)
}

/// What the pattern under way stands for, where nothing more begins.
pub fn go_on(alloc: Global, node: &Node, piece: &Piece) -> Result<Stepped, AllocError>
    requires { IsRoot piece.now.begin node.now }
    ensures { IfOk result (λ whole.
        StepsTo (marked node.now) piece.now whole.told (residual_tree whole.rest)) }
{
    let copy = node.try_clone(alloc)?;
    go_over(alloc, copy, &[], piece)
}

// The pattern goes over the piece, and the pairs of the zones enter on the way.
fn go_over(
    alloc: Global,
    mut node: Node,
    entering: &[Zone],
    piece: &Piece,
) -> Result<Stepped, AllocError>
    requires root { IsRoot piece.now.begin node }
    requires enter { MayEnter piece.now.begin (around_of node) (Held entering.now) }
    ensures { IfOk result (λ whole.
        GoesOverTo node entering.now piece.now whole.told (residual_tree whole.rest)) }
{
    let told = told_by(alloc, &mut node, entering, piece);
    let (told, node) = beside(told, node)?;
    let rest = Residual::mark(alloc, node);
    Stepped::of(Ok(told), rest)
}

/// A pattern under way at the begin of the piece goes over it, and the pairs of the zones enter on
/// the way. What it tells comes behind what was told: the pairs that had begun and end in the
/// piece, and what a pair that enters begins and ends in it. What a pair begins that ends just as
/// the piece does is not among what is left: that pair has to enter the next piece.
///
/// Where memory runs out, the pattern is of no use.
pub fn advance(
    alloc: Global,
    node: &mut Node,
    entering: &[Zone],
    piece: &Piece,
    told: &mut Vec<Zone>,
) -> Result<(), AllocError>
    requires root { IsRoot piece.now.begin node.old }
    requires enter { MayEnter piece.now.begin (around_of node.old) (Held entering.now) }
    ensures { OnOk result
        (Advances node.old entering.now piece.now told.old.items told.new.items node.new) }
{
    let found = told_by(alloc, node, entering, piece)?;
    told.extend_from_slice(found.zones())?;
    Ok(())
}

// What the pattern tells as it goes over the piece.
fn told_by(
    alloc: Global,
    node: &mut Node,
    entering: &[Zone],
    piece: &Piece,
) -> Result<ZoneSet, AllocError>
    requires { IsRoot piece.now.begin node.old }
    ensures { IfOk result (λ told. TellsAsSet node.old entering.now piece.now told node.new) }
{
    look(alloc, node, piece)?;
    let told = told_around(alloc, node.around(), entering)?;
    enter(alloc, node, entering, piece)?;
    Ok(told)
}

// What had begun and has ended, and what entered and has a match inside.
fn told_around(alloc: Global, around: &Around, entering: &[Zone]) -> Result<ZoneSet, AllocError>
    ensures { IfOk result (λ told. HoldExactly told (Either (Held around.now.ended.items)
        (Composed (Held entering.now) (Held around.now.inside.items)))) }
{
    let ended = set_of(alloc, &around.ended)?;
    let behind = found_behind(alloc, entering, &around.inside)?;
    of_either(ended, &behind)
}

// The pairs of the first zones, each followed by one of the second.
fn found_behind(alloc: Global, first: &[Zone], second: &[Zone]) -> Result<ZoneSet, AllocError>
    ensures { IfOk result (λ found.
        HoldExactly found (Composed (Held first.now) (Held second.now))) }
{
    let first = set_of(alloc, first)?;
    let second = set_of(alloc, second)?;
    composed(alloc, &first, &second)
}
