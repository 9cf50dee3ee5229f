// Literals from their edges on, or up to them, as sequences of atoms spell them.
ghost use Rattle.std.specs.Prelude.{◌≡◌, IsTrue, IfSome};
ghost use Rattle.tre_state.specs.State as states;
ghost use Rattle.tre_syntax.specs.Expr.{tree_of};
ghost use Rattle.tre_syntax.specs.PatternTree.{atom, literal, rise, fall, sequence};
ghost use Rattle.tre_offline.specs.Edged.{edged_tree, timed_tree};

use crate::iterated::is_same_state;
use tre_edges::RunEdges;
use tre_state::State;
use tre_syntax::Expr;
use tre_zone::Interval;

/// A literal of this state with these edges, and the interval that its duration has to be in.
#[derive(Clone, Copy)]
pub(crate) struct EdgedLiteral<'a> {
    pub(crate) state: &'a State,
    pub(crate) edges: RunEdges,
    pub(crate) interval: Option<Interval>,
}

/// The literal with its edges that the expression is, if it is one.
pub(crate) fn edged(expr: &Expr) -> Option<EdgedLiteral>
    ensures { IfSome result (λ it. tree_of expr.now
        ≡ timed_tree it.interval (edged_tree it.edges (states.tree_of it.state.now))) }
{
    match expr {
        Expr::Seq(first, second) => joined_literal(first, second, None),
        Expr::Within(all, interval) => match &**all {
            Expr::Seq(first, second) => joined_literal(first, second, Some(*interval)),
            _ => None,
        },
        _ => None,
    }
}

/// The literal that the expression is, with its edges or with none, where it may last however long.
pub(crate) fn unlimited(expr: &Expr) -> Option<EdgedLiteral>
    ensures { IfSome result (λ it. tree_of expr.now
        ≡ edged_tree it.edges (states.tree_of it.state.now)) }
{
    match expr {
        Expr::Lit(state) => {
            let edges = RunEdges {
                rise: false,
                fall: false,
            };
            Some(EdgedLiteral {
                state,
                edges,
                interval: None,
            })
        }
        Expr::Seq(first, second) => joined_literal(first, second, None),
        _ => None,
    }
}

// That of the sequence of the two: `rise(p);p` and `p;fall(p)`, or both, of the same state.
fn joined_literal<'a>(
    first: &'a Expr,
    second: &'a Expr,
    interval: Option<Interval>,
) -> Option<EdgedLiteral<'a>>
    ensures tree { IfSome result (λ it. sequence (tree_of first.now) (tree_of second.now)
        ≡ edged_tree it.edges (states.tree_of it.state.now)) }
    ensures interval { IfSome result (λ it. it.interval ≡ interval) }
{
    match second {
        Expr::Fall(state) => fallen(first, state, interval),
        Expr::Lit(state) => match first {
            Expr::Rise(risen) => {
                if is_same_state(risen, state) {
                    let edges = RunEdges {
                        rise: true,
                        fall: false,
                    };
                    return Some(EdgedLiteral {
                        state,
                        edges,
                        interval,
                    });
                }
                None
            }
            _ => None,
        },
        _ => None,
    }
}

// The literal that ends where the state falls.
fn fallen<'a>(
    first: &'a Expr,
    state: &'a State,
    interval: Option<Interval>,
) -> Option<EdgedLiteral<'a>>
    ensures tree { IfSome result (λ it.
        sequence (tree_of first.now) (atom (fall (states.tree_of state.now)))
        ≡ edged_tree it.edges (states.tree_of it.state.now)) }
    ensures interval { IfSome result (λ it. it.interval ≡ interval) }
{
    match first {
        Expr::Lit(held) => {
            if is_same_state(held, state) {
                let edges = RunEdges {
                    rise: false,
                    fall: true,
                };
                return Some(EdgedLiteral {
                    state,
                    edges,
                    interval,
                });
            }
            None
        }
        Expr::Seq(left, right) => {
            if is_risen(left, right, state) {
                let edges = RunEdges {
                    rise: true,
                    fall: true,
                };
                return Some(EdgedLiteral {
                    state,
                    edges,
                    interval,
                });
            }
            None
        }
        _ => None,
    }
}

// Whether the sequence of the two is the literal of the state from its rise on.
fn is_risen(first: &Expr, second: &Expr, state: &State) -> bool
    ensures first { IsTrue result → tree_of first.now ≡ atom (rise (states.tree_of state.now)) }
    ensures second { IsTrue result
        → tree_of second.now ≡ atom (literal (states.tree_of state.now)) }
{
    match first {
        Expr::Rise(risen) => match second {
            Expr::Lit(held) => is_same_state(risen, state) && is_same_state(held, state),
            _ => false,
        },
        _ => false,
    }
}
