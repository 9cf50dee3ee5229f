// What derivatives tell of the pieces of a trace.
ghost use Rattle.tre_state.specs.declared.names.TheConstants.{NAMES_MAX};
ghost use Rattle.tre_syntax.specs.Expr.{tree_of};
ghost use Rattle.tre_syntax.specs.PatternTree.{NumbersBelow};

use crate::given::{are_same, pattern};
use crate::pieces::{Row, first_piece, found};
use crate::reading::{tell_begun, tell_from};
use std::alloc::{AllocError, Global};
use std::test::Fail;
use tre_state::NAMES_MAX;
use tre_syntax::{Expr, Pattern};
use tre_zoneset::ZoneSet;

// Only the edge behind the piece on which p holds makes it a match.
const FALLING: &str = "(p;fall(p)) & p";

const PAIRS: [(&str, Row, Row, (u64, u64), bool); 5] = [
    ("p", (2, 1, 0), (3, 1, 0), (0, 5), true),
    ("p", (2, 1, 0), (3, 1, 0), (0, 2), true),
    ("p", (2, 1, 0), (3, 1, 0), (0, 1), false),
    // The first part ends inside the first piece.
    ("(p % [1,1]);q", (2, 3, 0), (2, 2, 0), (0, 3), true),
    (FALLING, (2, 1, 0), (1, 2, 0), (0, 2), true),
];

// Whether the pair is told at the second of two pieces, of what has begun in the first.
fn tells(
    alloc: Global,
    expr: &Expr,
    first: Row,
    second: Row,
    pair: (u64, u64),
) -> Result<bool, AllocError>
    requires { NumbersBelow NAMES_MAX (tree_of expr.now) }
{
    let mut told = ZoneSet::new(alloc);
    tell_begun(alloc, expr, &first_piece(first), &[second], None, &mut told)?;
    Ok(told.holds(pair.0, pair.1, 1))
}

fn text_tells(
    alloc: Global,
    text: &str,
    first: Row,
    second: Row,
    pair: (u64, u64),
) -> Result<bool, Fail> {
    let pattern = pattern(alloc, text)?;
    Ok(tells(alloc, pattern.expr(), first, second, pair)?)
}

#[test]
fn pairs_across_two_pieces(rt: HostRuntime) -> Result<(), Fail> {
    for (text, first, second, pair, want) in &PAIRS {
        let tells = text_tells(rt.alloc(), *text, *first, *second, *pair)?;
        assert!(rt; tells == *want, "{text}");
    }
    Ok(())
}

// What is told of all segments, and of the end with these events, if any are known.
fn told(
    alloc: Global,
    expr: &Expr,
    rows: &[Row],
    events: Option<u64>,
) -> Result<ZoneSet, AllocError>
    requires { NumbersBelow NAMES_MAX (tree_of expr.now) }
{
    let mut told = ZoneSet::new(alloc);
    if let Some((row, later)) = rows.split_first() {
        tell_from(alloc, expr, &first_piece(*row), later, events, &mut told)?;
    }
    Ok(told)
}

// Whether what is told of the segments are the matches, up to the time 7.
fn is_right(
    alloc: Global,
    pattern: &Pattern,
    rows: &[Row],
    events: Option<u64>,
) -> Result<bool, Fail> {
    let told = told(alloc, pattern.expr(), rows, events)?;
    let all = found(alloc, pattern, rows, events.unwrap_or(0))?;
    Ok(are_same(&told, &all, 14, 2))
}

// Whether this is so of the first of three segments, of two, of three, and with the end.
fn is_right_always(
    alloc: Global,
    pattern: &Pattern,
    rows: &[Row; 3],
    last: u64,
) -> Result<bool, Fail> {
    for count in 1..=3 {
        if !is_right(alloc, pattern, &rows[..count], None)? {
            return Ok(false);
        }
    }
    is_right(alloc, pattern, rows, Some(last))
}

// The same of a text, with these events at the begins of the segments and at the end.
fn tells_right(
    alloc: Global,
    text: &str,
    lengths: &[(u8, u64); 3],
    events: &[u64; 4],
) -> Result<bool, Fail> {
    let [(a, p), (b, q), (c, r)] = *lengths;
    let rows = [(a, p, events[0]), (b, q, events[1]), (c, r, events[2])];
    let pattern = pattern(alloc, text)?;
    is_right_always(alloc, &pattern, &rows, events[3])
}

const PATTERNS: [&str; 7] = [
    "(p % [1,1]);q",
    FALLING,
    "rise(p);p",
    "(p % [1,1])*",
    "(p;q)*",
    "(p;q) % [2,3]",
    "(p;q) | (p % [1,1])*",
];

const TRACES: [[(u8, u64); 3]; 4] = [
    [(1, 1), (2, 3), (1, 2)],
    [(2, 3), (1, 0), (2, 1)],
    [(1, 0), (3, 1), (2, 2)],
    [(2, 1), (2, 3), (1, 1)],
];

const NO_EVENTS: [u64; 4] = [0, 0, 0, 0];

#[test]
fn told_by_each_piece_are_the_matches(rt: HostRuntime) -> Result<(), Fail> {
    for text in &PATTERNS {
        for lengths in &TRACES {
            assert!(rt;
                tells_right(rt.alloc(), *text, lengths, &NO_EVENTS)?,
                "{text}"
            );
        }
    }
    Ok(())
}

const EVENTFUL: [&str; 11] = [
    "event(a)",
    "p;event(a)",
    "(event(a);p)*",
    "(p;event(a))*",
    "event(a) & event(b)",
    "p;event(a);q",
    "p % [2,2];event(a)",
    "(p;event(a)) % [1,3]",
    "event(a) | p;event(b)",
    "(p;event(a)) & (true;event(b))",
    FALLING,
];

const EVENTS: [[u64; 4]; 4] = [[1, 0, 3, 1], [0, 1, 0, 3], [2, 1, 1, 0], [0, 0, 3, 2]];

#[test]
fn told_with_the_end_are_the_matches(rt: HostRuntime) -> Result<(), Fail> {
    for text in &EVENTFUL {
        for lengths in &TRACES {
            for events in &EVENTS {
                assert!(rt; tells_right(rt.alloc(), *text, lengths, events)?, "{text}");
            }
        }
    }
    Ok(())
}
