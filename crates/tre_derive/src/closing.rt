// What a residual stands for where the trace has ended.
ghost use Rattle.std.specs.Prelude.{◌≤◌, IfOk};
ghost use Rattle.tre_pairs.specs.declared.TheConstants.{TIME_MAX};
ghost use Rattle.tre_state.specs.declared.names.TheConstants.{NAMES_MAX};
ghost use Rattle.tre_syntax.specs.Expr.{tree_of};
ghost use Rattle.tre_syntax.specs.PatternTree.{NumbersBelow};
ghost use Rattle.tre_zone.specs.ZoneList.{HoldExactly};
ghost use Rattle.tre_residual.specs.Residual.{residual_tree, IsWellAt};
ghost use Rattle.tre_derive.specs.Closing.{ClosesTo, HeldAtEnd};

use crate::ending::close_node;
use crate::sets::of_either;
use std::alloc::{AllocError, Global};
use tre_offline::matches_at_end;
use tre_residual::{Residual, composed};
use tre_syntax::Expr;
use tre_zoneset::ZoneSet;

/// The pairs of the residual where the trace has ended at the time at which it is one, and these
/// events happen there. What held before plays no part, since there is no edge at the end.
///
/// It goes as deep as the residual does.
pub fn close(
    alloc: Global,
    residual: &Residual,
    time: u64,
    events: u64,
) -> Result<ZoneSet, AllocError>
    requires limit { time ≤ TIME_MAX }
    requires well { IsWellAt time (residual_tree residual.now) }
    ensures { IfOk result (λ told. ClosesTo (residual_tree residual.now) time events told) }
{
    match residual {
        Residual::Nil => Ok(ZoneSet::new(alloc)),
        Residual::Here(ended) => {
            let ended = ended.try_clone()?;
            Ok(ended)
        }
        Residual::At(begun, expr) => {
            let ended = begun.ending_at(time)?;
            Ok(held_at_end(alloc, ended, expr, events))
        }
        Residual::Pre(zones, inner) => {
            let inner = close(alloc, inner, time, events)?;
            composed(alloc, zones, &inner)
        }
        Residual::Post(inner, expr) => {
            let inner = close(alloc, inner, time, events)?;
            Ok(held_at_end(alloc, inner, expr, events))
        }
        Residual::Or(one, other) => {
            let one = close(alloc, one, time, events)?;
            let other = close(alloc, other, time, events)?;
            of_either(one, &other)
        }
        Residual::Both(one, other) => {
            let one = close(alloc, one, time, events)?;
            let other = close(alloc, other, time, events)?;
            one.meet(&other)
        }
        Residual::Dur(inner, interval) => {
            let inner = close(alloc, inner, time, events)?;
            inner.within(interval)
        }
        Residual::Mark(node) => close_node(alloc, node, time, events),
    }
}

// The set where the expression matches the end of the trace, and else the empty one.
fn held_at_end(alloc: Global, zones: ZoneSet, expr: &Expr, events: u64) -> ZoneSet
    requires { NumbersBelow NAMES_MAX (tree_of expr.now) }
    ensures { HoldExactly result (HeldAtEnd zones events (tree_of expr.now)) }
{
    if matches_at_end(expr, events) {
        return zones;
    }
    ZoneSet::new(alloc)
}
