// How many nodes an expression has, and in which order it first uses its propositions and events.
//
// The count stops once it passes its budget, and each level of the recursion has a node of its own.
// So however an expression is shaped, the count goes no deeper than the budget.

ghost use Rattle.std.specs.Prelude.{◌≡◌, ◌+◌, ◌<◌, [], ◌∷◌, MatchOption};
ghost use Rattle.tre_state.specs.State.{tree_of as state_tree_of};
ghost use Rattle.tre_state.specs.StateTree.{node_count as state_node_count, numbers_of as state_numbers_of};
ghost use Rattle.tre_syntax.specs.Expr.{tree_of};
ghost use Rattle.tre_syntax.specs.PatternTree.{node_count, numbers_of, seen_after};

use crate::expr::Expr;
use crate::name_kind::NameKind;
use tre_state::State;

/// What is left of the budget once the nodes of the state are taken from it, None where they are
/// more.
fn left_after_state(state: &State, budget: u64) -> Option<u64>
    ensures { let count = state_node_count (state_tree_of state.now) in
        MatchOption result (budget < count) (λ left. left + count ≡ budget) }
{
    if budget == 0 {
        return None;
    }
    let budget = budget - 1;
    match state {
        State::Yes | State::Prop(_) => Some(budget),
        State::Not(state) => left_after_state(state, budget),
        State::And(one, other) | State::Or(one, other) => match left_after_state(one, budget) {
            Some(left) => left_after_state(other, left),
            None => None,
        },
    }
}

/// The same for an expression, with the nodes of its states.
pub fn left_after(expr: &Expr, budget: u64) -> Option<u64>
    ensures { let count = node_count (tree_of expr.now) in
        MatchOption result (budget < count) (λ left. left + count ≡ budget) }
{
    if budget == 0 {
        return None;
    }
    let budget = budget - 1;
    match expr {
        Expr::Eps | Expr::Event(_) => Some(budget),
        Expr::Lit(state) | Expr::Rise(state) | Expr::Fall(state) => left_after_state(state, budget),
        Expr::Star(expr) | Expr::Within(expr, _) => left_after(expr, budget),
        Expr::Seq(one, other) | Expr::Alt(one, other) | Expr::Meet(one, other) => {
            match left_after(one, budget) {
                Some(left) => left_after(other, left),
                None => None,
            }
        }
    }
}

/// How many numbers were seen once the state is read from the left after `seen` others, None where
/// it uses one out of order.
fn seen_after_state(state: &State, seen: usize) -> Option<usize>
    ensures { result ≡ seen_after seen (state_numbers_of (state_tree_of state.now)) }
{
    match state {
        State::Yes => Some(seen),
        State::Prop(number) => seen_with(*number, seen),
        State::Not(state) => seen_after_state(state, seen),
        State::And(one, other) | State::Or(one, other) => match seen_after_state(one, seen) {
            Some(seen) => seen_after_state(other, seen),
            None => None,
        },
    }
}

// The same for one number.
fn seen_with(number: u8, seen: usize) -> Option<usize>
    ensures { result ≡ seen_after seen (number ∷ []) }
{
    let number = usize::from(number);
    if number < seen {
        Some(seen)
    } else if number == seen {
        Some(seen + 1)
    } else {
        None
    }
}

/// The same for an expression, with the numbers of its names of this kind.
pub fn seen_after(kind: NameKind, expr: &Expr, seen: usize) -> Option<usize>
    ensures { result ≡ seen_after seen (numbers_of kind (tree_of expr.now)) }
{
    match expr {
        Expr::Eps => Some(seen),
        Expr::Lit(state) | Expr::Rise(state) | Expr::Fall(state) => match kind {
            NameKind::Proposition => seen_after_state(state, seen),
            NameKind::Event => Some(seen),
        },
        Expr::Event(number) => match kind {
            NameKind::Proposition => Some(seen),
            NameKind::Event => seen_with(*number, seen),
        },
        Expr::Star(expr) | Expr::Within(expr, _) => seen_after(kind, expr, seen),
        Expr::Seq(one, other) | Expr::Alt(one, other) | Expr::Meet(one, other) => {
            match seen_after(kind, one, seen) {
                Some(seen) => seen_after(kind, other, seen),
                None => None,
            }
        }
    }
}
