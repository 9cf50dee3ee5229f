ghost use Rattle.std.specs.Prelude.{IfOk};
ghost use Rattle.tre_state.specs.StateTree.{StateTree, negation};
ghost use Rattle.tre_parse.specs.Joins.{connected};
ghost use Rattle.tre_parse.specs.Operands.{RepresentsState, Turns};

use crate::connective::Connective;
use crate::counted::Counted;
use crate::limits::COUNT_MAX;
use std::alloc::{AllocError, Global};
use tre_state::State;
use tre_syntax::{boxed, boxes};

/// A state as it is read.
pub(crate) type Formula = Counted<State>;

/// The negation of the state.
pub(crate) fn negated(alloc: Global, formula: Formula) -> Result<Formula, AllocError>
    ensures { IfOk result (Turns RepresentsState RepresentsState negation formula) }
{
    let nodes = (formula.nodes + 1).min(COUNT_MAX);
    let tree = match formula.into_tree(nodes) {
        None => None,
        Some(state) => Some(State::Not(boxed(alloc, state)?)),
    };
    Ok(Counted {
        nodes,
        tree,
        unkept: None,
    })
}

/// The two states joined.
#[tactic(auto, using(crate::proofs::Counts::connected_count))]
pub(crate) fn connected(
    alloc: Global,
    how: Connective,
    left: Formula,
    right: Formula,
) -> Result<Formula, AllocError>
    ensures { IfOk result (λ r. (s t : StateTree) → RepresentsState left s →
        RepresentsState right t → RepresentsState r (connected how s t)) }
{
    let nodes = (left.nodes + right.nodes + 1).min(COUNT_MAX);
    let second = right.into_tree(nodes);
    match left.into_tree(nodes).zip(second) {
        None => Ok(Counted {
            nodes,
            tree: None,
            unkept: None,
        }),
        Some((first, second)) => {
            let (left, right) = boxes(alloc, first, second)?;
            let tree = Some(match how {
                Connective::And => State::And(left, right),
                Connective::Or => State::Or(left, right),
            });
            Ok(Counted {
                nodes,
                tree,
                unkept: None,
            })
        }
    }
}

/// The same once more.
pub(crate) fn copied(alloc: Global, formula: &Formula) -> Result<Formula, AllocError>
    ensures { IfOk result (Turns RepresentsState RepresentsState (λ s. s) formula.now) }
{
    let nodes = formula.nodes;
    let tree = match &formula.tree {
        None => None,
        Some(state) => Some(state.try_clone(alloc)?),
    };
    Ok(Counted {
        nodes,
        tree,
        unkept: None,
    })
}
