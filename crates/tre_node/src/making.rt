// Patterns of which nothing has begun.
ghost use Rattle.std.specs.Prelude.{◌≡◌, None, true, false, IfOk};
ghost use Rattle.tre_zone.specs.Longest.{IsLongest};
ghost use Rattle.tre_state.specs.State as states;
ghost use Rattle.tre_state.specs.declared.names.TheConstants.{NAMES_MAX};
ghost use Rattle.tre_syntax.specs.Expr.{tree_of};
ghost use Rattle.tre_syntax.specs.PatternTree.{NumbersBelow, PatternTree, empty, literal, rise, fall, atom, sequence, alternation, intersection, repetition, restriction};
ghost use Rattle.tre_node.specs.IsNode.{IsMade, IsNew, least_of};

use crate::node::{Around, Node};
use std::alloc::{AllocError, Global};
use tre_state::State;
use tre_syntax::{Expr, boxed_result, boxed_results};
use tre_zone::Interval;

/// The pattern of which nothing has begun. What lasts longer than `longest` won't count in it, and
/// where it is `whole`, only moments will enter it.
pub fn make(
    alloc: Global,
    expr: &Expr,
    longest: Option<u64>,
    whole: bool,
) -> Result<Node, AllocError>
    requires longest { IsLongest longest }
    requires numbers { NumbersBelow NAMES_MAX (tree_of expr.now) }
    ensures { IfOk result (λ node. IsNew (tree_of expr.now) longest whole node) }
{
    match expr {
        Expr::Eps => Ok(Node::Eps(around(alloc, longest, whole))),
        Expr::Lit(state) => make_literal(alloc, state, longest, whole),
        Expr::Rise(state) => make_rise(alloc, state, longest, whole),
        Expr::Fall(state) => make_fall(alloc, state, longest, whole),
        Expr::Event(number) => Ok(Node::Event(around(alloc, longest, whole), *number)),
        Expr::Seq(left, right) => {
            let left = make(alloc, left, longest, whole);
            let right = make(alloc, right, longest, false);
            make_sequence(alloc, left, right, longest, whole)
        }
        Expr::Alt(left, right) => {
            let left = make(alloc, left, longest, whole);
            let right = make(alloc, right, longest, whole);
            make_alternation(alloc, left, right, longest, whole)
        }
        Expr::Meet(left, right) => {
            let left = make(alloc, left, longest, true);
            let right = make(alloc, right, longest, true);
            make_intersection(alloc, left, right, longest, whole)
        }
        Expr::Star(body) => {
            make_repetition(alloc, make(alloc, body, longest, false), longest, whole)
        }
        Expr::Within(body, interval) => {
            let reach = least(longest, interval.high());
            make_restriction(
                alloc,
                make(alloc, body, reach, true),
                interval,
                longest,
                whole,
            )
        }
    }
}

/// That of `eps`, which only moments enter. It takes no memory.
pub fn idle(alloc: Global) -> Node
    ensures { IsNew (atom empty) None true result }
{
    Node::Eps(around(alloc, None, true))
}

// Around a node of which nothing has begun. It takes no memory.
fn around(alloc: Global, longest: Option<u64>, whole: bool) -> Around
    ensures { IsMade longest whole result }
{
    Around {
        longest,
        whole,
        lives: false,
        busy: false,
        inside: Vec::new(alloc),
        ended: Vec::new(alloc),
        mid: Vec::new(alloc),
    }
}

// The shorter of two longest durations.
fn least(one: Option<u64>, other: Option<u64>) -> Option<u64>
    ensures { result ≡ least_of one other }
{
    match one {
        None => other,
        Some(high) => match other {
            None => Some(high),
            Some(more) => Some(high.min(more)),
        },
    }
}

fn make_literal(
    alloc: Global,
    state: &State,
    longest: Option<u64>,
    whole: bool,
) -> Result<Node, AllocError>
    requires longest { IsLongest longest }
    requires numbers { NumbersBelow NAMES_MAX (atom (literal (states.tree_of state.now))) }
    ensures { IfOk result (λ node.
        IsNew (atom (literal (states.tree_of state.now))) longest whole node) }
{
    let Ok(state) = state.try_clone(alloc) else {
        return Err(AllocError);
    };
    Ok(Node::Lit {
        around: around(alloc, longest, whole),
        state,
        begun: Vec::new(alloc),
    })
}

fn make_rise(
    alloc: Global,
    state: &State,
    longest: Option<u64>,
    whole: bool,
) -> Result<Node, AllocError>
    requires longest { IsLongest longest }
    requires numbers { NumbersBelow NAMES_MAX (atom (rise (states.tree_of state.now))) }
    ensures { IfOk result (λ node. IsNew (atom (rise (states.tree_of state.now))) longest whole node) }
{
    let Ok(state) = state.try_clone(alloc) else {
        return Err(AllocError);
    };
    Ok(Node::Rise(around(alloc, longest, whole), state))
}

fn make_fall(
    alloc: Global,
    state: &State,
    longest: Option<u64>,
    whole: bool,
) -> Result<Node, AllocError>
    requires longest { IsLongest longest }
    requires numbers { NumbersBelow NAMES_MAX (atom (fall (states.tree_of state.now))) }
    ensures { IfOk result (λ node. IsNew (atom (fall (states.tree_of state.now))) longest whole node) }
{
    let Ok(state) = state.try_clone(alloc) else {
        return Err(AllocError);
    };
    Ok(Node::Fall(around(alloc, longest, whole), state))
}

fn make_sequence(
    alloc: Global,
    left: Result<Node, AllocError>,
    right: Result<Node, AllocError>,
    longest: Option<u64>,
    whole: bool,
) -> Result<Node, AllocError>
    requires { IsLongest longest }
    ensures { (one other : PatternTree) → IfOk left (λ node. IsNew one longest whole node)
        → IfOk right (λ node. IsNew other longest false node)
        → IfOk result (λ node. IsNew (sequence one other) longest whole node) }
{
    let (left, right) = boxed_results(alloc, left, right)?;
    Ok(Node::Seq {
        around: around(alloc, longest, whole),
        left,
        right,
    })
}

fn make_alternation(
    alloc: Global,
    left: Result<Node, AllocError>,
    right: Result<Node, AllocError>,
    longest: Option<u64>,
    whole: bool,
) -> Result<Node, AllocError>
    requires { IsLongest longest }
    ensures { (one other : PatternTree) → IfOk left (λ node. IsNew one longest whole node)
        → IfOk right (λ node. IsNew other longest whole node)
        → IfOk result (λ node. IsNew (alternation one other) longest whole node) }
{
    let (left, right) = boxed_results(alloc, left, right)?;
    Ok(Node::Alt {
        around: around(alloc, longest, whole),
        left,
        right,
    })
}

fn make_intersection(
    alloc: Global,
    left: Result<Node, AllocError>,
    right: Result<Node, AllocError>,
    longest: Option<u64>,
    whole: bool,
) -> Result<Node, AllocError>
    requires { IsLongest longest }
    ensures { (one other : PatternTree) → IfOk left (λ node. IsNew one longest true node)
        → IfOk right (λ node. IsNew other longest true node)
        → IfOk result (λ node. IsNew (intersection one other) longest whole node) }
{
    let (left, right) = boxed_results(alloc, left, right)?;
    Ok(Node::Meet {
        around: around(alloc, longest, whole),
        reach: longest,
        outer: Vec::new(alloc),
        most: 0,
        left,
        right,
    })
}

fn make_repetition(
    alloc: Global,
    body: Result<Node, AllocError>,
    longest: Option<u64>,
    whole: bool,
) -> Result<Node, AllocError>
    requires { IsLongest longest }
    ensures { (tree : PatternTree) → IfOk body (λ node. IsNew tree longest false node)
        → IfOk result (λ node. IsNew (repetition tree) longest whole node) }
{
    let body = boxed_result(alloc, body)?;
    Ok(Node::Star {
        around: around(alloc, longest, whole),
        body,
    })
}

fn make_restriction(
    alloc: Global,
    body: Result<Node, AllocError>,
    interval: &Interval,
    longest: Option<u64>,
    whole: bool,
) -> Result<Node, AllocError>
    requires { IsLongest longest }
    ensures { (tree : PatternTree)
        → IfOk body (λ node. IsNew tree (least_of longest interval.now.high) true node)
        → IfOk result (λ node. IsNew (restriction tree interval.now) longest whole node) }
{
    let body = boxed_result(alloc, body)?;
    Ok(Node::Within {
        around: around(alloc, longest, whole),
        reach: least(longest, interval.high()),
        interval: *interval,
        outer: Vec::new(alloc),
        most: 0,
        body,
    })
}
