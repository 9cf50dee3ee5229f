// What a piece makes of a residual.
ghost use Rattle.std.specs.Prelude.{IfOk};
ghost use Rattle.tre_residual.specs.Residual.{residual_tree, IsWellAt};
ghost use Rattle.tre_derive.specs.Derivative.{StepsTo};

use crate::forms::{begin_now, choose, follow, meet, precede, restrict};
use crate::going::go_on;
use crate::stepped::Stepped;
use std::alloc::{AllocError, Global};
use tre_edges::Piece;
use tre_residual::Residual;
use tre_syntax::beside;
use tre_zoneset::ZoneSet;

/// Reads the piece, which begins at the time at which the residual is one: tells the pairs of the
/// residual that are known then, with no edge at the end of the piece, and gives what is left of it
/// at that end. A pair that ends there may be told and be left too.
///
/// It goes as deep as the residual does. The idea is that of derivatives: Ulus, Ferrère, Asarin and
/// Maler, *Online Timed Pattern Matching using Derivatives*, TACAS 2016; the rules are this
/// project's.
pub fn step(alloc: Global, residual: &Residual, piece: &Piece) -> Result<Stepped, AllocError>
    requires { IsWellAt piece.now.begin (residual_tree residual.now) }
    ensures { IfOk result (λ stepped.
        StepsTo (residual_tree residual.now) piece.now stepped.told
        (residual_tree stepped.rest)) }
{
    match residual {
        Residual::Nil => Ok(Stepped {
            told: ZoneSet::new(alloc),
            rest: Residual::Nil,
        }),
        Residual::Here(ended) => Ok(Stepped {
            told: ended.try_clone()?,
            rest: Residual::Nil,
        }),
        Residual::At(begun, expr) => begin_now(alloc, begun, expr, piece),
        Residual::Pre(zones, inner) => {
            let inner = step(alloc, inner, piece)?;
            precede(alloc, zones, inner)
        }
        Residual::Post(inner, expr) => {
            let inner = step(alloc, inner, piece)?;
            follow(alloc, inner, expr, piece)
        }
        Residual::Or(one, other) => {
            let one = step(alloc, one, piece)?;
            let other = step(alloc, other, piece);
            let (other, one) = beside(other, one)?;
            choose(alloc, one, other)
        }
        Residual::Both(one, other) => {
            let one = step(alloc, one, piece)?;
            let other = step(alloc, other, piece);
            let (other, one) = beside(other, one)?;
            meet(alloc, one, other)
        }
        Residual::Dur(inner, interval) => {
            let inner = step(alloc, inner, piece)?;
            restrict(alloc, inner, interval)
        }
        Residual::Mark(node) => go_on(alloc, node, piece),
    }
}
