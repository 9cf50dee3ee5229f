// Tests of tre_syntax.
use std::alloc::{AllocError, Global};
use std::test::Fail;
use tests_support::names_of;
use tre_parse::parse;
use tre_state::{Names, State};
use tre_syntax::{Expr, Pattern};

fn p() -> Expr {
    Expr::Lit(State::Prop(0))
}

fn q() -> Expr {
    Expr::Lit(State::Prop(1))
}

fn boxed(alloc: Global, expr: Expr) -> Result<Box<Expr>, AllocError> {
    Ok(Box::new(alloc, expr)?)
}

fn in_turn(alloc: Global, first: Box<Expr>, second: Expr) -> Result<Expr, AllocError> {
    let second = boxed(alloc, second)?;
    Ok(Expr::Seq(first, second))
}

fn sequence(alloc: Global, first: Expr, second: Expr) -> Result<Expr, AllocError> {
    let first = boxed(alloc, first)?;
    in_turn(alloc, first, second)
}

// This many negations of p.
fn negations(alloc: Global, count: u32) -> Result<Expr, AllocError> {
    let mut state = State::Prop(0);
    for _ in 0..count {
        state = State::Not(Box::new(alloc, state)?);
    }
    Ok(Expr::Lit(state))
}

// This many sequences, each in the first part of another.
fn left_comb(alloc: Global, count: u32) -> Result<Expr, AllocError> {
    let mut expr = p();
    for _ in 0..count {
        expr = sequence(alloc, expr, p())?;
    }
    Ok(expr)
}

// This many sequences, each in the second part of another.
fn right_comb(alloc: Global, count: u32) -> Result<Expr, AllocError> {
    let mut expr = p();
    for _ in 0..count {
        expr = sequence(alloc, p(), expr)?;
    }
    Ok(expr)
}

// How many nodes both patterns have, if these are as many.
fn common_nodes(one: &Pattern, other: &Pattern) -> Option<u64> {
    if one.nodes() == other.nodes() {
        return Some(one.nodes());
    }
    None
}

fn nodes_with_copy(alloc: Global, pattern: &Pattern) -> Result<Option<u64>, AllocError> {
    let copy = pattern.try_clone(alloc)?;
    Ok(common_nodes(&copy, pattern))
}

// How many nodes the pattern of the expression, its names and those of its events has, if there is
// one, and whether a copy of it has as many.
fn nodes(
    alloc: Global,
    expr: Expr,
    names: Names,
    events: Names,
) -> Result<Option<u64>, AllocError> {
    match Pattern::new(expr, names, events) {
        Some(pattern) => nodes_with_copy(alloc, &pattern),
        None => Ok(None),
    }
}

// Expressions that are made by calls.
#[derive(Clone, Copy)]
enum Form {
    // `eps`
    Eps,
    // `p`
    P,
    // `p ; q`
    Turns,
    // `q ; p`
    Back,
    // The event of this number.
    Event(u8),
    // As many negations of p.
    Negations(u32),
    // As many sequences, each in the first part of another.
    LeftComb(u32),
    // As many sequences, each in the second part of another.
    RightComb(u32),
}

fn made(alloc: Global, form: Form) -> Result<Expr, AllocError> {
    match form {
        Form::Eps => Ok(Expr::Eps),
        Form::P => Ok(p()),
        Form::Turns => sequence(alloc, p(), q()),
        Form::Back => sequence(alloc, q(), p()),
        Form::Event(number) => Ok(Expr::Event(number)),
        Form::Negations(count) => negations(alloc, count),
        Form::LeftComb(count) => left_comb(alloc, count),
        Form::RightComb(count) => right_comb(alloc, count),
    }
}

fn nodes_with(
    alloc: Global,
    form: Form,
    names: Names,
    events: Names,
) -> Result<Option<u64>, AllocError> {
    let expr = made(alloc, form)?;
    nodes(alloc, expr, names, events)
}

// Whether the pattern of the expression that is made has so many.
fn has_nodes(
    alloc: Global,
    form: Form,
    names: &str,
    events: &str,
    count: Option<u64>,
) -> Result<bool, Fail> {
    let names = names_of(alloc, names)?;
    let events = names_of(alloc, events)?;
    Ok(nodes_with(alloc, form, names, events)? == count)
}

// Expressions, the names of their propositions and of their events, and how many nodes there are.
const NODES: [(Form, &str, &str, Option<u64>); 11] = [
    (Form::P, "p", "", Some(2)),
    (Form::Turns, "p q", "", Some(5)),
    // One name too many, and numbers out of order.
    (Form::Eps, "p", "", None),
    (Form::Back, "p q", "", None),
    (Form::Event(0), "", "a b", None),
    (Form::Event(0), "a", "", None),
    (Form::Event(1), "", "a b", None),
    // A thousand nodes of any shape.
    (Form::Negations(998), "p", "", Some(1000)),
    (Form::Negations(999), "p", "", None),
    (Form::LeftComb(332), "p", "", Some(998)),
    (Form::RightComb(332), "p", "", Some(998)),
];

#[test]
fn a_pattern_has_its_nodes(rt: HostRuntime) -> Result<(), Fail> {
    for (form, names, events, count) in &NODES {
        assert!(rt;
            has_nodes(rt.alloc(), *form, *names, *events, *count)?,
            "{names} {events}"
        );
    }
    Ok(())
}

// Whether the copy of the pattern is the same, with these second names of its propositions and of
// its events.
fn is_same(copy: &Pattern, pattern: &Pattern, name: &str, event: &str) -> bool {
    copy.expr() == pattern.expr()
        && copy.names().name(1) == Some(name)
        && copy.events().name(1) == Some(event)
}

fn is_copied(
    alloc: Global,
    pattern: &Pattern,
    name: &str,
    event: &str,
) -> Result<bool, AllocError> {
    let copy = pattern.try_clone(alloc)?;
    Ok(is_same(&copy, pattern, name, event))
}

fn is_text_copied(alloc: Global, text: &str, name: &str, event: &str) -> Result<bool, Fail> {
    let pattern = parse(alloc, text, 0)?;
    Ok(is_copied(alloc, &pattern, name, event)?)
}

#[test]
fn a_copy_of_a_pattern_is_the_pattern(rt: HostRuntime) -> Result<(), Fail> {
    assert!(rt; is_text_copied(rt.alloc(), "p;q;event(a);event(p)", "q", "p")?);
    Ok(())
}
