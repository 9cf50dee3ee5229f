// Expressions that are read as another, one or more times: `E+` is `E;E*`.
ghost use Rattle.std.specs.Prelude.{◌≡◌, IsTrue};
ghost use Rattle.tre_state.specs.State as states;
ghost use Rattle.tre_state.specs.StateTree.{always};
ghost use Rattle.tre_syntax.specs.Expr.{tree_of};
ghost use Rattle.tre_syntax.specs.PatternTree.{atom, empty, repetition};
ghost use Rattle.tre_offline.specs.Lengths.{IsIteration, IsOwnIteration, Spans};

use tre_state::State;
use tre_syntax::Expr;

// Whether the expression is another one or more times.
fn is_iteration(expr: &Expr) -> bool
    ensures { IsTrue result → IsIteration (tree_of expr.now) }
{
    match expr {
        Expr::Seq(once, more) => repeats(more, once),
        _ => false,
    }
}

/// Whether anything at all may come between two parts of the expression, before its first or behind
/// its last. Then the begin of a match and the end of another one behind it are those of a match,
/// and matches one after another are one.
pub(crate) fn spans(expr: &Expr) -> bool
    ensures { IsTrue result → Spans (tree_of expr.now) }
{
    match expr {
        Expr::Lit(state) => is_yes(state),
        Expr::Seq(left, right) => spans(left) || spans(right),
        _ => false,
    }
}

/// Whether a sequence is found from its end, by its last two parts. Where anything may come last,
/// these two have a zone for each begin, and what is put before them keeps few more; from the first
/// part on, each begin would be kept with each end of the part before last. What is found depends
/// on it in no way.
pub(crate) fn comes_last(before: &Expr, last: &Expr) -> bool {
    spans(last) && !spans(before)
}

fn is_yes(state: &State) -> bool
    ensures { IsTrue result → states.tree_of state.now ≡ always }
{
    match state {
        State::Yes => true,
        _ => false,
    }
}

/// Whether one match of the expression or more, one after another, are known to be a match.
fn is_own_iteration(expr: &Expr) -> bool
    ensures { IsTrue result → IsOwnIteration (tree_of expr.now) }
{
    if is_iteration(expr) {
        return true;
    }
    spans(expr)
}

/// Whether a sequence of the two is the first one or more times, and so the first.
pub(crate) fn is_iterated(first: &Expr, second: &Expr) -> bool
    ensures first { IsTrue result → IsOwnIteration (tree_of first.now) }
    ensures second { IsTrue result → tree_of second.now ≡ repetition (tree_of first.now) }
{
    is_own_iteration(first) && repeats(second, first)
}

/// Whether the expression is the empty stretch.
pub(crate) fn is_eps(expr: &Expr) -> bool
    ensures { IsTrue result → tree_of expr.now ≡ atom empty }
{
    match expr {
        Expr::Eps => true,
        _ => false,
    }
}

/// Whether the expression is the repetition of the step.
pub(crate) fn repeats(expr: &Expr, step: &Expr) -> bool
    ensures { IsTrue result → tree_of expr.now ≡ repetition (tree_of step.now) }
{
    match expr {
        Expr::Star(body) => is_same(body, step),
        _ => false,
    }
}

// Whether the two are the same expression, of the same states.
fn is_same(one: &Expr, other: &Expr) -> bool
    ensures { IsTrue result → tree_of one.now ≡ tree_of other.now }
{
    match one {
        Expr::Seq(left, right) => match other {
            Expr::Seq(first, second) => is_same(left, first) && is_same(right, second),
            _ => false,
        },
        Expr::Alt(left, right) => match other {
            Expr::Alt(first, second) => is_same(left, first) && is_same(right, second),
            _ => false,
        },
        Expr::Meet(left, right) => match other {
            Expr::Meet(first, second) => is_same(left, first) && is_same(right, second),
            _ => false,
        },
        Expr::Star(step) => match other {
            Expr::Star(body) => is_same(step, body),
            _ => false,
        },
        Expr::Within(all, interval) => match other {
            Expr::Within(body, within) => interval == within && is_same(all, body),
            _ => false,
        },
        _ => is_same_atom(one, other),
    }
}

// Whether the two are the same atom.
fn is_same_atom(one: &Expr, other: &Expr) -> bool
    ensures { IsTrue result → tree_of one.now ≡ tree_of other.now }
{
    match one {
        Expr::Lit(state) => match other {
            Expr::Lit(it) => is_same_state(state, it),
            _ => false,
        },
        Expr::Rise(state) => match other {
            Expr::Rise(it) => is_same_state(state, it),
            _ => false,
        },
        Expr::Fall(state) => match other {
            Expr::Fall(it) => is_same_state(state, it),
            _ => false,
        },
        Expr::Event(number) => match other {
            Expr::Event(it) => *number == *it,
            _ => false,
        },
        Expr::Eps => match other {
            Expr::Eps => true,
            _ => false,
        },
        _ => false,
    }
}

/// Whether the two are the same state.
pub(crate) fn is_same_state(one: &State, other: &State) -> bool
    ensures { IsTrue result → states.tree_of one.now ≡ states.tree_of other.now }
{
    match one {
        State::Yes => match other {
            State::Yes => true,
            _ => false,
        },
        State::Prop(number) => match other {
            State::Prop(it) => *number == *it,
            _ => false,
        },
        State::Not(state) => match other {
            State::Not(it) => is_same_state(state, it),
            _ => false,
        },
        State::And(left, right) => match other {
            State::And(first, second) => {
                is_same_state(left, first) && is_same_state(right, second)
            }
            _ => false,
        },
        State::Or(left, right) => match other {
            State::Or(first, second) => is_same_state(left, first) && is_same_state(right, second),
            _ => false,
        },
    }
}
