// What residuals tell of pieces, one after another.
ghost use Rattle.tre_edges.specs.Piece.{end_of_piece};
ghost use Rattle.tre_residual.specs.Residual.{residual_tree, IsWellAt};
ghost use Rattle.tre_state.specs.declared.names.TheConstants.{NAMES_MAX};
ghost use Rattle.tre_syntax.specs.Expr.{tree_of};
ghost use Rattle.tre_syntax.specs.PatternTree.{NumbersBelow};

use crate::pieces::{Row, next_piece};
use std::alloc::{AllocError, Global};
use tre_derive::{close, fresh, step};
use tre_edges::Piece;
use tre_offline::local;
use tre_residual::Residual;
use tre_state::NAMES_MAX;
use tre_syntax::Expr;
use tre_zoneset::ZoneSet;

// Adds what the residual tells where the piece is the last one and these events are at its end, if
// any are known.
fn tell_end(
    alloc: Global,
    begun: &Residual,
    last: &Piece,
    events: Option<u64>,
    told: &mut ZoneSet,
) -> Result<(), AllocError>
    requires { IsWellAt (end_of_piece last.now) (residual_tree begun.now) }
{
    let Some(events) = events else {
        return Ok(());
    };
    let ended = close(alloc, begun, last.begin + last.segment.len, events)?;
    told.join(&ended)
}

/// Adds what the residual, which was left by the last piece, tells of the segments behind it, and
/// of the end with these events, if any are known.
pub(crate) fn tell_on(
    alloc: Global,
    begun: &Residual,
    last: &Piece,
    rows: &[Row],
    events: Option<u64>,
    told: &mut ZoneSet,
) -> Result<(), AllocError>
    requires { IsWellAt (end_of_piece last.now) (residual_tree begun.now) }
{
    let Some((row, later)) = rows.split_first() else {
        return tell_end(alloc, begun, last, events, told);
    };
    let Some(piece) = next_piece(last, *row) else {
        return Ok(());
    };
    let stepped = step(alloc, begun, &piece)?;
    told.join(&stepped.told)?;
    tell_on(alloc, &stepped.rest, &piece, later, events, told)
}

/// Adds what is told behind the piece of the matches that begin in it.
pub(crate) fn tell_begun(
    alloc: Global,
    expr: &Expr,
    piece: &Piece,
    rows: &[Row],
    events: Option<u64>,
    told: &mut ZoneSet,
) -> Result<(), AllocError>
    requires { NumbersBelow NAMES_MAX (tree_of expr.now) }
{
    let begun = fresh(alloc, expr, piece)?;
    tell_on(alloc, &begun, piece, rows, events, told)
}

// Adds what the expression matches in the piece.
fn tell_inside(
    alloc: Global,
    expr: &Expr,
    piece: &Piece,
    told: &mut ZoneSet,
) -> Result<(), AllocError>
    requires { NumbersBelow NAMES_MAX (tree_of expr.now) }
{
    let inside = local(alloc, expr, piece)?;
    told.join(&inside)
}

/// Adds what is told of all matches that begin in the piece or in one of the segments behind it.
pub(crate) fn tell_from(
    alloc: Global,
    expr: &Expr,
    piece: &Piece,
    rows: &[Row],
    events: Option<u64>,
    told: &mut ZoneSet,
) -> Result<(), AllocError>
    requires { NumbersBelow NAMES_MAX (tree_of expr.now) }
{
    tell_inside(alloc, expr, piece, told)?;
    tell_begun(alloc, expr, piece, rows, events, told)?;
    let Some((row, later)) = rows.split_first() else {
        return Ok(());
    };
    let Some(piece) = next_piece(piece, *row) else {
        return Ok(());
    };
    tell_from(alloc, expr, &piece, later, events, told)
}
