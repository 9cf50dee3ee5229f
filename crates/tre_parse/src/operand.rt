ghost use Rattle.std.specs.Prelude.{◌≡◌, None, IfOk};
ghost use Rattle.std.specs.Option.{option_or};
ghost use Rattle.tre_zone.specs.Interval.{IntervalEnds};
ghost use Rattle.tre_syntax.specs.PatternTree.{PatternTree, atom, literal, sequence, repetition, restriction};
ghost use Rattle.tre_parse.specs.Joins.{edge_of, joined_by};
ghost use Rattle.tre_parse.specs.Operands.{RepresentsState, Represents, Turns};
ghost use Rattle.tre_parse.specs.Parts.{IsMadeOf};
ghost use Rattle.tre_parse.specs.Unkept.{unkept_at};

use crate::connective::Join;
use crate::counted::Counted;
use crate::formula::Formula;
use crate::limits::COUNT_MAX;
use std::alloc::{AllocError, Global};
use tre_state::State;
use tre_syntax::{Expr, boxed, boxes};
use tre_zone::Interval;

/// An expression as it is read.
pub(crate) type Operand = Counted<Expr>;

/// A stretch on which the state holds.
pub(crate) fn literal(formula: Formula) -> Operand
    ensures stands { Turns RepresentsState Represents (λ s. atom (literal s)) formula result }
    ensures unkept { result.unkept ≡ None }
{
    let nodes = (formula.nodes + 1).min(COUNT_MAX);
    let tree = formula.into_tree(nodes).map(|state| Expr::Lit(state));
    Counted {
        nodes,
        tree,
        unkept: None,
    }
}

/// A moment at which the state rises or falls.
#[tactic(auto, using(crate::proofs::Counts::edge_count))]
pub(crate) fn edge(rises: bool, formula: Formula) -> Operand
    ensures stands { Turns RepresentsState Represents (edge_of rises) formula result }
    ensures unkept { result.unkept ≡ None }
{
    let nodes = (formula.nodes + 1).min(COUNT_MAX);
    let tree = formula.into_tree(nodes).map(|state| {
        if rises {
            Expr::Rise(state)
        } else {
            Expr::Fall(state)
        }
    });
    Counted {
        nodes,
        tree,
        unkept: None,
    }
}

/// The two expressions joined.
#[tactic(auto, using(crate::proofs::Counts::joined_count))]
pub(crate) fn joined(
    alloc: Global,
    how: Join,
    left: Operand,
    right: Operand,
) -> Result<Operand, AllocError>
    ensures stands { IfOk result (λ r. (e f : PatternTree) → Represents left e →
        Represents right f → Represents r (joined_by how e f)) }
    ensures unkept { IfOk result (λ r. r.unkept ≡ option_or left.unkept right.unkept) }
{
    let nodes = (left.nodes + right.nodes + 1).min(COUNT_MAX);
    let unkept = left.unkept.or(right.unkept);
    let second = right.into_tree(nodes);
    match left.into_tree(nodes).zip(second) {
        None => Ok(Counted {
            nodes,
            tree: None,
            unkept,
        }),
        Some((first, second)) => {
            let (left, right) = boxes(alloc, first, second)?;
            let tree = Some(match how {
                Join::Sequence => Expr::Seq(left, right),
                Join::Intersection => Expr::Meet(left, right),
                Join::Alternation => Expr::Alt(left, right),
            });
            Ok(Counted {
                nodes,
                tree,
                unkept,
            })
        }
    }
}

/// Any number of times.
pub(crate) fn repeated(alloc: Global, operand: Operand) -> Result<Operand, AllocError>
    ensures stands { IfOk result (Turns Represents Represents repetition operand) }
    ensures unkept { IfOk result (λ r. r.unkept ≡ operand.unkept) }
{
    let nodes = (operand.nodes + 1).min(COUNT_MAX);
    let unkept = operand.unkept;
    let tree = match operand.into_tree(nodes) {
        None => None,
        Some(expr) => Some(Expr::Star(boxed(alloc, expr)?)),
    };
    Ok(Counted {
        nodes,
        tree,
        unkept,
    })
}

/// Once, and then any number of times. The nodes are counted before anything is written out.
pub(crate) fn at_least_once(alloc: Global, operand: Operand) -> Result<Operand, AllocError>
    ensures stands { IfOk result (Turns Represents Represents (λ e. sequence e (repetition e))
        operand) }
    ensures unkept { IfOk result (λ r. r.unkept ≡ operand.unkept) }
{
    let nodes = (2 * operand.nodes + 2).min(COUNT_MAX);
    let unkept = operand.unkept;
    let tree = match operand.into_tree(nodes) {
        None => None,
        Some(expr) => {
            let first = boxed(alloc, expr)?;
            let again = boxed(alloc, first.try_clone(alloc)?)?;
            Some(Expr::Seq(first, boxed(alloc, Expr::Star(again))?))
        }
    };
    Ok(Counted {
        nodes,
        tree,
        unkept,
    })
}

/// With its duration in the interval, which is None where no duration is in the one that is spelt.
/// So many tokens are left at that.
pub(crate) fn restricted(
    alloc: Global,
    operand: Operand,
    interval: Option<Interval>,
    at: usize,
) -> Result<Operand, AllocError>
    ensures stands { IfOk result (λ r. (e : PatternTree) (ends : IntervalEnds) →
        IsMadeOf interval ends → Represents operand e → Represents r (restriction e ends)) }
    ensures unkept { IfOk result (λ r. r.unkept ≡ option_or operand.unkept
        (unkept_at interval at)) }
{
    let nodes = (operand.nodes + 1).min(COUNT_MAX);
    let unkept = operand.unkept.or(unkept_at(&interval, at));
    let tree = match operand.into_tree(nodes).zip(interval) {
        None => None,
        Some((expr, interval)) => Some(Expr::Within(boxed(alloc, expr)?, interval)),
    };
    Ok(Counted {
        nodes,
        tree,
        unkept,
    })
}

// The place of an interval that can't be kept.
fn unkept_at(interval: &Option<Interval>, at: usize) -> Option<usize>
    ensures { result ≡ unkept_at interval.now at }
{
    match interval {
        Some(_) => None,
        None => Some(at),
    }
}
