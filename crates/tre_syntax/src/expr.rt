ghost use Rattle.std.specs.Prelude.{◌≡◌, IfOk};
ghost use Rattle.tre_syntax.specs.Expr.{tree_of};

use crate::boxing::{boxed_result, boxed_results};
use std::alloc::{AllocError, Global};
use tre_state::State;
use tre_zone::Interval;

/// A timed regular expression.
#[derive(Drop, PartialEq, Eq)]
pub enum Expr {
    /// The stretch of no length.
    Eps,
    /// A stretch of some length on which the state holds throughout.
    Lit(State),
    /// A moment at which the state becomes true.
    Rise(State),
    /// A moment at which the state becomes false.
    Fall(State),
    /// A moment at which the event of this number happens.
    Event(u8),
    /// The first, and then the second.
    Seq(Box<Expr>, Box<Expr>),
    /// One of the two.
    Alt(Box<Expr>, Box<Expr>),
    /// Both, on the same stretch.
    Meet(Box<Expr>, Box<Expr>),
    /// Any number of times, one after another.
    Star(Box<Expr>),
    /// With its duration in the interval.
    Within(Box<Expr>, Interval),
}

impl Expr {
    /// The same expression once more. It goes as deep as the expression does.
    pub fn try_clone(&self, alloc: Global) -> Result<Expr, AllocError>
        ensures same { IfOk result (λ copy. tree_of copy ≡ tree_of self.now) }
    {
        match self {
            Expr::Eps => Ok(Expr::Eps),
            Expr::Lit(state) => {
                let Ok(copy) = state.try_clone(alloc) else {
                    return Err(AllocError);
                };
                Ok(Expr::Lit(copy))
            }
            Expr::Rise(state) => {
                let Ok(copy) = state.try_clone(alloc) else {
                    return Err(AllocError);
                };
                Ok(Expr::Rise(copy))
            }
            Expr::Fall(state) => {
                let Ok(copy) = state.try_clone(alloc) else {
                    return Err(AllocError);
                };
                Ok(Expr::Fall(copy))
            }
            Expr::Event(number) => Ok(Expr::Event(*number)),
            Expr::Seq(left, right) => {
                let left = left.try_clone(alloc);
                let Ok((left, right)) = boxed_results(alloc, left, right.try_clone(alloc)) else {
                    return Err(AllocError);
                };
                Ok(Expr::Seq(left, right))
            }
            Expr::Alt(left, right) => {
                let left = left.try_clone(alloc);
                let Ok((left, right)) = boxed_results(alloc, left, right.try_clone(alloc)) else {
                    return Err(AllocError);
                };
                Ok(Expr::Alt(left, right))
            }
            Expr::Meet(left, right) => {
                let left = left.try_clone(alloc);
                let Ok((left, right)) = boxed_results(alloc, left, right.try_clone(alloc)) else {
                    return Err(AllocError);
                };
                Ok(Expr::Meet(left, right))
            }
            Expr::Star(expr) => {
                let Ok(copy) = boxed_result(alloc, expr.try_clone(alloc)) else {
                    return Err(AllocError);
                };
                Ok(Expr::Star(copy))
            }
            Expr::Within(expr, interval) => {
                let Ok(copy) = boxed_result(alloc, expr.try_clone(alloc)) else {
                    return Err(AllocError);
                };
                Ok(Expr::Within(copy, *interval))
            }
        }
    }
}
