// What a step makes of each form of a residual, from what it makes of its parts.
ghost use Rattle.std.specs.Prelude.{None, IfOk};
ghost use Rattle.tre_zone.specs.Held.{Held};
ghost use Rattle.tre_syntax.specs.Expr.{tree_of};
ghost use Rattle.tre_syntax.specs.PatternTree.{NumbersBelow};
ghost use Rattle.tre_edges.specs.declared.piece.Piece.{Piece};
ghost use Rattle.tre_forms.specs.Begun.{EndsFrom};
ghost use Rattle.tre_residual.specs.Residual.{ResidualTree, joined, preceded, followed, either, both, lasting, residual_tree, Builds};
ghost use Rattle.tre_derive.specs.Derivative.{StepsTo, ComesBehind};

use crate::going::begin_behind;
use crate::sets::of_either;
use crate::stepped::Stepped;
use std::alloc::{AllocError, Global};
use tre_edges::Piece;
use tre_residual::{Residual, composed};
use tre_state::NAMES_MAX;
use tre_syntax::{Expr, beside};
use tre_zone::Interval;
use tre_zoneset::ZoneSet;

/// A pair of the set that ends as the piece begins, and then a match of the expression.
pub fn begin_now(
    alloc: Global,
    begun: &ZoneSet,
    expr: &Expr,
    piece: &Piece,
) -> Result<Stepped, AllocError>
    requires { NumbersBelow NAMES_MAX (tree_of expr.now) }
    ensures { IfOk result (λ whole.
        StepsTo (joined begun.now (tree_of expr.now)) piece.now whole.told
        (residual_tree whole.rest)) }
{
    let begun = begun.ending_at(piece.begin)?;
    begin_behind(alloc, begun.zones(), false, expr, piece)
}

/// A pair of the set, and then one of the residual.
pub fn precede(alloc: Global, zones: &ZoneSet, inner: Stepped) -> Result<Stepped, AllocError>
    ensures { IfOk result (λ whole. (residual : ResidualTree) (piece : Piece)
        → StepsTo residual piece inner.told (residual_tree inner.rest)
        → StepsTo (preceded zones.now residual) piece whole.told (residual_tree whole.rest)) }
{
    let told = composed(alloc, zones, &inner.told);
    let rest = preceded_by(alloc, zones, inner.rest);
    Stepped::of(told, rest)
}

/// A pair of the residual, and then a match of the expression. What follows those that end before
/// the piece does begins in it; what follows the others begins behind it.
pub fn follow(
    alloc: Global,
    inner: Stepped,
    expr: &Expr,
    piece: &Piece,
) -> Result<Stepped, AllocError>
    requires numbers { NumbersBelow NAMES_MAX (tree_of expr.now) }
    requires from { EndsFrom None piece.now.begin (Held inner.told) }
    ensures { IfOk result (λ whole. (residual : ResidualTree)
        → StepsTo residual piece.now inner.told (residual_tree inner.rest)
        → StepsTo (followed residual (tree_of expr.now)) piece.now whole.told
        (residual_tree whole.rest)) }
{
    let begun = begin_behind(alloc, inner.told.zones(), false, expr, piece);
    let (begun, rest) = beside(begun, inner.rest)?;
    let rest = behind(alloc, rest, expr, begun.rest);
    Stepped::of(Ok(begun.told), rest)
}

/// A pair of one of the two.
pub fn choose(alloc: Global, one: Stepped, other: Stepped) -> Result<Stepped, AllocError>
    ensures { IfOk result (λ whole. (left right : ResidualTree) (piece : Piece)
        → StepsTo left piece one.told (residual_tree one.rest)
        → StepsTo right piece other.told (residual_tree other.rest)
        → StepsTo (either left right) piece whole.told (residual_tree whole.rest)) }
{
    let told = of_either(one.told, &other.told);
    let rest = Residual::or(alloc, one.rest, other.rest);
    Stepped::of(told, rest)
}

/// A pair of both.
pub fn meet(alloc: Global, one: Stepped, other: Stepped) -> Result<Stepped, AllocError>
    ensures { IfOk result (λ whole. (left right : ResidualTree) (piece : Piece)
        → StepsTo left piece one.told (residual_tree one.rest)
        → StepsTo right piece other.told (residual_tree other.rest)
        → StepsTo (both left right) piece whole.told (residual_tree whole.rest)) }
{
    let told = one.told.meet(&other.told);
    let rest = Residual::both(alloc, one.rest, other.rest);
    Stepped::of(told, rest)
}

/// A pair of the residual with its duration in the interval.
pub fn restrict(alloc: Global, inner: Stepped, interval: &Interval) -> Result<Stepped, AllocError>
    ensures { IfOk result (λ whole. (residual : ResidualTree) (piece : Piece)
        → StepsTo residual piece inner.told (residual_tree inner.rest)
        → StepsTo (lasting residual interval.now) piece whole.told (residual_tree whole.rest)) }
{
    let told = inner.told.within(interval);
    let rest = Residual::dur(alloc, inner.rest, *interval);
    Stepped::of(told, rest)
}

// A pair of the residual, and then a match of the expression behind the piece, or one that has
// begun in it.
fn behind(
    alloc: Global,
    rest: Residual,
    expr: &Expr,
    begun: Residual,
) -> Result<Residual, AllocError>
    requires { NumbersBelow NAMES_MAX (tree_of expr.now) }
    ensures { IfOk result (λ whole.
        ComesBehind (residual_tree rest) (tree_of expr.now) (residual_tree begun)
        (residual_tree whole)) }
{
    let later = followed_by(alloc, rest, expr);
    let (later, begun) = beside(later, begun)?;
    Residual::or(alloc, later, begun)
}

// A pair of the residual, and then a match of the expression.
fn followed_by(alloc: Global, residual: Residual, expr: &Expr) -> Result<Residual, AllocError>
    requires { NumbersBelow NAMES_MAX (tree_of expr.now) }
    ensures { IfOk result (λ whole.
        Builds (residual_tree whole) (followed (residual_tree residual) (tree_of expr.now))) }
{
    let copy = expr.try_clone(alloc);
    let (copy, residual) = beside(copy, residual)?;
    Residual::post(alloc, residual, copy)
}

// A pair of the set, and then one of the residual.
fn preceded_by(alloc: Global, zones: &ZoneSet, rest: Residual) -> Result<Residual, AllocError>
    ensures { IfOk result (λ whole.
        Builds (residual_tree whole) (preceded zones.now (residual_tree rest))) }
{
    let copy = zones.try_clone();
    let (copy, rest) = beside(copy, rest)?;
    Residual::pre(alloc, copy, rest)
}
