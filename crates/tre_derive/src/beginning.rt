// The matches that begin in a piece and go on to its end or behind it.
ghost use Rattle.std.specs.Prelude.{◌≤◌, IfOk};
ghost use Rattle.tre_pairs.specs.declared.TheConstants.{TIME_MAX};
ghost use Rattle.tre_syntax.specs.Expr.{tree_of};
ghost use Rattle.tre_syntax.specs.PatternTree.{NumbersBelow};
ghost use Rattle.tre_zone.specs.Zone.{IsInstantBetween};
ghost use Rattle.tre_zone.specs.ZoneList.{HoldExactly};
ghost use Rattle.tre_residual.specs.Residual.{residual_tree};
ghost use Rattle.tre_derive.specs.Derivative.{IsFresh, BeginsAt, BeginsToo};

use crate::going::begin_behind;
use std::alloc::{AllocError, Global};
use tre_edges::Piece;
use tre_residual::Residual;
use tre_state::NAMES_MAX;
use tre_syntax::{Expr, beside, both};
use tre_zone::Zone;
use tre_zoneset::ZoneSet;

/// The matches of the expression that begin in the piece, its end among them, and end as it ends or
/// later: a residual at the end of the piece.
///
/// It goes as deep as the expression does.
pub fn fresh(alloc: Global, expr: &Expr, piece: &Piece) -> Result<Residual, AllocError>
    requires { NumbersBelow NAMES_MAX (tree_of expr.now) }
    ensures { IfOk result (λ residual.
        IsFresh (tree_of expr.now) piece.now (residual_tree residual)) }
{
    let end = piece.begin + piece.segment.len;
    let moments = [Zone::instants(piece.begin, end)];
    let begun = begin_behind(alloc, &moments, true, expr, piece)?;
    begun_or_beginning(alloc, begun.rest, expr, end)
}

// What has begun, and what begins at the moment.
fn begun_or_beginning(
    alloc: Global,
    begun: Residual,
    expr: &Expr,
    time: u64,
) -> Result<Residual, AllocError>
    requires limit { time ≤ TIME_MAX }
    requires numbers { NumbersBelow NAMES_MAX (tree_of expr.now) }
    ensures { IfOk result (λ whole.
        BeginsToo (residual_tree begun) (tree_of expr.now) time (residual_tree whole)) }
{
    let (beginning, begun) = beside(beginning_at(alloc, expr, time), begun)?;
    Residual::or(alloc, begun, beginning)
}

// What begins at the moment.
fn beginning_at(alloc: Global, expr: &Expr, time: u64) -> Result<Residual, AllocError>
    requires limit { time ≤ TIME_MAX }
    requires numbers { NumbersBelow NAMES_MAX (tree_of expr.now) }
    ensures { IfOk result (λ whole.
        BeginsAt (tree_of expr.now) time (residual_tree whole)) }
{
    let (now, copy) = both(moment(alloc, time), expr.try_clone(alloc))?;
    Ok(Residual::at(now, copy))
}

// The moment.
fn moment(alloc: Global, time: u64) -> Result<ZoneSet, AllocError>
    requires { time ≤ TIME_MAX }
    ensures { IfOk result (λ zones. HoldExactly zones (IsInstantBetween time time)) }
{
    let mut zones = ZoneSet::new(alloc);
    zones.push_apart(Zone::instants(time, time))?;
    Ok(zones)
}
