// Tests of tre_parse.
use std::alloc::Global;
use std::test::Fail;
use tre_parse::parse;
use tre_state::Names;
use tre_syntax::Expr;

// Patterns, the names of their propositions, and those of their events.
const KINDS: [(&str, &[&str], &[&str]); 4] = [
    ("p;event(p)", &["p"], &["p"]),
    ("event(b);a;event(a);event(b)", &["a"], &["b", "a"]),
    ("event(a)&event(b)", &[], &["a", "b"]),
    ("rise(q);p;(event ( p ))*", &["q", "p"], &["p"]),
];

// Whether the names are these, in the order of their numbers.
fn are(names: &Names, wanted: &[&str]) -> bool {
    for number in 0..names.len() {
        if names.name(number as u8) != wanted.get(number).copied() {
            return false;
        }
    }
    names.len() == wanted.len()
}

// Whether the pattern that the text spells has these propositions and these events.
fn has_names(
    alloc: Global,
    text: &str,
    propositions: &[&str],
    events: &[&str],
) -> Result<bool, Fail> {
    let pattern = parse(alloc, text, 0)?;
    Ok(are(pattern.names(), propositions) && are(pattern.events(), events))
}

#[test]
fn propositions_and_events_have_names_of_their_own(rt: HostRuntime) -> Result<(), Fail> {
    for (text, propositions, events) in &KINDS {
        assert!(rt;
            has_names(rt.alloc(), *text, *propositions, *events)?,
            "{text}"
        );
    }
    Ok(())
}

fn root(expr: &Expr) -> &'static str {
    match expr {
        Expr::Eps => "eps",
        Expr::Lit(_) => "literal",
        Expr::Rise(_) => "rise",
        Expr::Fall(_) => "fall",
        Expr::Event(_) => "event",
        Expr::Seq(_, _) => ";",
        Expr::Alt(_, _) => "|",
        Expr::Meet(_, _) => "&",
        Expr::Star(_) => "*",
        Expr::Within(_, _) => "%",
    }
}

// Whether this is the operator at the root of the expression.
fn has_root(alloc: Global, text: &str, want: &str) -> Result<bool, Fail> {
    let pattern = parse(alloc, text, 0)?;
    Ok(root(pattern.expr()) == want)
}

const ROOTS: [(&str, &str); 36] = [
    ("p & q ; p", "&"),
    ("p ; q & p", "&"),
    ("p | q & p", "|"),
    ("p & q | p", "|"),
    ("p | q ; p", "|"),
    ("p ; q | p", "|"),
    ("p ; q*", ";"),
    ("p* ; q", ";"),
    ("p & q*", "&"),
    ("p* & q", "&"),
    ("p | q*", "|"),
    ("p* | q", "|"),
    ("p ; q % [1,2]", ";"),
    ("p % [1,2] ; q", ";"),
    ("(p ; q) % [1,2]", "%"),
    ("p* % (1,inf)", "%"),
    ("p % [1,2]*", "*"),
    ("p+", ";"),
    ("p?", "|"),
    ("<:p:>", ";"),
    ("<:p", ";"),
    ("p:>", ";"),
    ("rise(p && !(q || true))", "rise"),
    ("fall(p)", "fall"),
    ("!!{p || q}", "literal"),
    ("eps", "eps"),
    ("event(a)", "event"),
    (" event ( a ) ", "event"),
    ("event(a) & event(b)", "&"),
    ("p;event(a)*", ";"),
    ("event(a)+ | p", "|"),
    ("p+?", "|"),
    ("p?+", ";"),
    ("{p||q}", "literal"),
    ("p|!q", "|"),
    ("p%[0,1099511627776]", "%"),
];

#[test]
fn roots(rt: HostRuntime) -> Result<(), Fail> {
    for (text, want) in &ROOTS {
        assert!(rt; has_root(rt.alloc(), *text, *want)?, "{text}");
    }
    Ok(())
}
