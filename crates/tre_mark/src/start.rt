ghost use Rattle.std.specs.Prelude.{ℕ, ◌≤◌, IfOk};
ghost use Rattle.tre_pairs.specs.declared.TheConstants.{TIME_MAX};
ghost use Rattle.tre_zone.specs.Held.{EndAt};
ghost use Rattle.tre_syntax.specs.Expr.{tree_of};
ghost use Rattle.tre_syntax.specs.PatternTree.{Atom, atom};
ghost use Rattle.tre_mark.specs.MarkTree.{mark_of};
ghost use Rattle.tre_mark.specs.Marked.{IsStart};

use crate::copy::copied;
use crate::forms::{atom, intersection_behind, moments, repetition_behind, restriction_behind};
use crate::mark::{Mark, Room};
use std::alloc::{AllocError, Global};
use tre_syntax::{Expr, boxed, boxed_result, boxed_results};
use tre_zoneset::ZoneSet;

impl Mark {
    /// The mark of an expression that may begin behind each pair of the set, which ends at `time`.
    /// Where there is none, nothing has begun.
    ///
    /// It goes as deep as the expression does.
    pub fn start(alloc: Global, expr: &Expr, zones: &ZoneSet, time: u64) -> Result<Mark, AllocError>
        requires time { time ≤ TIME_MAX }
        requires ends { EndAt time zones.now }
        ensures { IfOk result (λ mark.
            IsStart time zones.now (mark_of mark) (tree_of expr.now)) }
    {
        if zones.is_empty() {
            return Mark::empty(alloc, expr);
        }
        match expr {
            Expr::Eps => atom_at(alloc, zones),
            Expr::Lit(_) => atom_at(alloc, zones),
            Expr::Rise(_) => atom_at(alloc, zones),
            Expr::Fall(_) => atom_at(alloc, zones),
            Expr::Event(_) => atom_at(alloc, zones),
            Expr::Seq(left, right) => {
                let left = boxed_result(alloc, Mark::start(alloc, left, zones, time))?;
                let right = Mark::empty(alloc, right)?;
                let rest = boxed(alloc, right)?;
                Ok(Mark::Seq {
                    left,
                    right: rest,
                    room: Room::new(alloc),
                })
            }
            Expr::Alt(left, right) => {
                let left = Mark::start(alloc, left, zones, time);
                let right = Mark::start(alloc, right, zones, time);
                let (left, right) = boxed_results(alloc, left, right)?;
                Ok(Mark::Alt(left, right))
            }
            Expr::Star(body) => {
                let body = boxed_result(alloc, Mark::empty(alloc, body))?;
                repetition_behind(alloc, zones.zones(), body)
            }
            Expr::Meet(left, right) => {
                let moment = moments(alloc, time, time)?;
                let left = Mark::start(alloc, left, &moment, time);
                let right = Mark::start(alloc, right, &moment, time);
                let (left, right) = boxed_results(alloc, left, right)?;
                intersection_behind(alloc, time, zones.zones(), left, right)
            }
            Expr::Within(body, _) => {
                let moment = moments(alloc, time, time)?;
                let body = boxed_result(alloc, Mark::start(alloc, body, &moment, time))?;
                restriction_behind(alloc, time, zones.zones(), body)
            }
        }
    }
}

// The mark of an atom that may begin behind each pair of the set.
fn atom_at(alloc: Global, zones: &ZoneSet) -> Result<Mark, AllocError>
    ensures { IfOk result (λ mark. (time : ℕ) (x : Atom) → EndAt time zones.now
        → IsStart time zones.now (mark_of mark) (atom x)) }
{
    let here = copied(alloc, zones.zones())?;
    Ok(atom(alloc, here, Vec::new(alloc)))
}
