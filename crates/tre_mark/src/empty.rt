ghost use Rattle.std.specs.Prelude.{IfOk};
ghost use Rattle.tre_syntax.specs.Expr.{tree_of};
ghost use Rattle.tre_syntax.specs.PatternTree.{Atom, atom};
ghost use Rattle.tre_mark.specs.MarkTree.{mark_of};
ghost use Rattle.tre_mark.specs.Marked.{IsUnbegun};

use crate::forms::{atom, intersection_behind, repetition_behind, restriction_behind};
use crate::mark::{Mark, Room};
use std::alloc::{AllocError, Global};
use tre_syntax::{Expr, boxed_result, boxed_results};

impl Mark {
    /// The mark of an expression of which nothing has begun.
    ///
    /// It goes as deep as the expression does.
    pub fn empty(alloc: Global, expr: &Expr) -> Result<Mark, AllocError>
        ensures { IfOk result (λ mark. IsUnbegun (mark_of mark) (tree_of expr.now)) }
    {
        match expr {
            Expr::Eps => Ok(no_atom(alloc)),
            Expr::Lit(_) => Ok(no_atom(alloc)),
            Expr::Rise(_) => Ok(no_atom(alloc)),
            Expr::Fall(_) => Ok(no_atom(alloc)),
            Expr::Event(_) => Ok(no_atom(alloc)),
            Expr::Seq(left, right) => {
                let left = Mark::empty(alloc, left);
                let right = Mark::empty(alloc, right);
                let (left, right) = boxed_results(alloc, left, right)?;
                Ok(Mark::Seq {
                    left,
                    right,
                    room: Room::new(alloc),
                })
            }
            Expr::Alt(left, right) => {
                let left = Mark::empty(alloc, left);
                let right = Mark::empty(alloc, right);
                let (left, right) = boxed_results(alloc, left, right)?;
                Ok(Mark::Alt(left, right))
            }
            Expr::Star(body) => {
                let body = boxed_result(alloc, Mark::empty(alloc, body))?;
                repetition_behind(alloc, &[], body)
            }
            Expr::Meet(left, right) => {
                let left = Mark::empty(alloc, left);
                let right = Mark::empty(alloc, right);
                let (left, right) = boxed_results(alloc, left, right)?;
                intersection_behind(alloc, 0, &[], left, right)
            }
            Expr::Within(body, _) => {
                let body = boxed_result(alloc, Mark::empty(alloc, body))?;
                restriction_behind(alloc, 0, &[], body)
            }
        }
    }
}

// The mark of an atom that has not begun.
fn no_atom(alloc: Global) -> Mark
    ensures { (x : Atom) → IsUnbegun (mark_of result) (atom x) }
{
    atom(alloc, Vec::new(alloc), Vec::new(alloc))
}
