// Residuals in single operators, read with random pieces: they tell the matches that begin at one
// time, piece by piece.
ghost use Rattle.std.specs.Prelude.{ℕ, IfOk};
ghost use Rattle.tre_residual.specs.Residual.{residual_tree, IsWellAt};
ghost use Rattle.tre_state.specs.declared.names.TheConstants.{NAMES_MAX};
ghost use Rattle.tre_syntax.specs.Expr.{tree_of};
ghost use Rattle.tre_syntax.specs.PatternTree.{NumbersBelow};

use crate::given::pattern;
use crate::pieces::{Row, first_piece, found};
use crate::reading::tell_on;
use std::alloc::{AllocError, Global};
use std::test::Fail;
use tre_edges::Piece;
use tre_residual::Residual;
use tre_state::NAMES_MAX;
use tre_syntax::{Expr, Pattern};
use tre_zone::{Interval, Zone};
use tre_zoneset::ZoneSet;

// A match of the expression that begins at the time, in single operators: only an atom or a
// repetition is one form with its expression. `now` has that one moment.
fn forms(alloc: Global, expr: &Expr, now: &ZoneSet, time: u64) -> Result<Residual, AllocError>
    requires { NumbersBelow NAMES_MAX (tree_of expr.now) }
    ensures { IfOk result (λ whole. IsWellAt time (residual_tree whole)) }
{
    match expr {
        Expr::Seq(left, right) => {
            let first = forms(alloc, left, now, time)?;
            followed_by(alloc, first, right)
        }
        Expr::Alt(left, right) => {
            let one = forms(alloc, left, now, time)?;
            let other = forms(alloc, right, now, time)?;
            Residual::or(alloc, one, other)
        }
        Expr::Meet(left, right) => {
            let zones = now.try_clone()?;
            let one = forms(alloc, left, now, time)?;
            let other = forms(alloc, right, now, time)?;
            both_after(alloc, zones, one, other)
        }
        Expr::Within(body, interval) => {
            let zones = now.try_clone()?;
            let inner = forms(alloc, body, now, time)?;
            lasting_after(alloc, zones, inner, *interval)
        }
        _ => joined(alloc, now, expr),
    }
}

fn joined(alloc: Global, zones: &ZoneSet, expr: &Expr) -> Result<Residual, AllocError>
    requires { NumbersBelow NAMES_MAX (tree_of expr.now) }
    ensures { IfOk result (λ whole. (time : ℕ) → IsWellAt time (residual_tree whole)) }
{
    let zones = zones.try_clone()?;
    let expr = expr.try_clone(alloc)?;
    Ok(Residual::at(zones, expr))
}

fn followed_by(alloc: Global, first: Residual, expr: &Expr) -> Result<Residual, AllocError>
    requires { NumbersBelow NAMES_MAX (tree_of expr.now) }
    ensures { IfOk result (λ whole. (time : ℕ) → IsWellAt time (residual_tree first) →
        IsWellAt time (residual_tree whole)) }
{
    let expr = expr.try_clone(alloc)?;
    Residual::post(alloc, first, expr)
}

fn both_after(
    alloc: Global,
    zones: ZoneSet,
    one: Residual,
    other: Residual,
) -> Result<Residual, AllocError>
    ensures { IfOk result (λ whole. (time : ℕ) → IsWellAt time (residual_tree one) →
        IsWellAt time (residual_tree other) → IsWellAt time (residual_tree whole)) }
{
    let both = Residual::both(alloc, one, other)?;
    Residual::pre(alloc, zones, both)
}

fn lasting_after(
    alloc: Global,
    zones: ZoneSet,
    inner: Residual,
    interval: Interval,
) -> Result<Residual, AllocError>
    ensures { IfOk result (λ whole. (time : ℕ) → IsWellAt time (residual_tree inner) →
        IsWellAt time (residual_tree whole)) }
{
    let lasting = Residual::dur(alloc, inner, interval)?;
    Residual::pre(alloc, zones, lasting)
}

// Adds what the forms of the expression that begin at the moment, in which the piece ends, tell of
// the segments behind it.
fn tell_forms(
    alloc: Global,
    expr: &Expr,
    now: &ZoneSet,
    piece: &Piece,
    rows: &[Row],
    told: &mut ZoneSet,
) -> Result<(), AllocError>
    requires { NumbersBelow NAMES_MAX (tree_of expr.now) }
{
    let forms = forms(alloc, expr, now, piece.begin + piece.segment.len)?;
    tell_on(alloc, &forms, piece, rows, None, told)
}

// The same of the end of the piece.
fn tell_behind(
    alloc: Global,
    expr: &Expr,
    piece: &Piece,
    rows: &[Row],
    told: &mut ZoneSet,
) -> Result<(), AllocError>
    requires { NumbersBelow NAMES_MAX (tree_of expr.now) }
{
    let end = piece.begin + piece.segment.len;
    let mut now = ZoneSet::new(alloc);
    now.add_found(Some(Zone::instants(end, end)))?;
    tell_forms(alloc, expr, &now, piece, rows, told)
}

// The matches that begin at the end of the first segment, by its forms.
fn told(alloc: Global, expr: &Expr, rows: &[Row; 4], count: usize) -> Result<ZoneSet, AllocError>
    requires { NumbersBelow NAMES_MAX (tree_of expr.now) }
{
    let mut told = ZoneSet::new(alloc);
    let later = rows.get(1..count).unwrap_or(&[]);
    tell_behind(alloc, expr, &first_piece(rows[0]), later, &mut told)?;
    Ok(told)
}

// Whether the first set holds just the pairs of the other that begin at the time, on all thirds of
// sixteen ticks.
fn are_of(told: &ZoneSet, all: &ZoneSet, begin: u64) -> bool {
    for a in 0..49 {
        for b in a..49 {
            if told.holds(a, b, 3) != (a == begin && all.holds(a, b, 3)) {
                return false;
            }
        }
    }
    true
}

// Whether the forms tell the matches over so many segments.
fn is_right(alloc: Global, pattern: &Pattern, rows: &[Row; 4], count: usize) -> Result<bool, Fail> {
    let told = told(alloc, pattern.expr(), rows, count)?;
    let all = found(alloc, pattern, rows.get(..count).unwrap_or(&[]), 0)?;
    Ok(are_of(&told, &all, 3 * u64::from(rows[0].0)))
}

// One to four ticks, and one of the four valuations of p and q, in no order to speak of, and the
// same in each run.
fn random(number: u64) -> Row {
    let scaled = (number.wrapping_add(7)).wrapping_mul(6364136223846793005);
    let mixed = (scaled ^ scaled >> 29).wrapping_mul(1442695040888963407);
    ((mixed >> 60 & 3) as u8 + 1, mixed >> 50 & 3, 0)
}

// Whether they do over two, three and four segments.
fn are_right(alloc: Global, pattern: &Pattern, number: u32) -> Result<bool, Fail> {
    let first = 4 * u64::from(number);
    let rows = [
        random(first),
        random(first + 1),
        random(first + 2),
        random(first + 3),
    ];
    for count in 2..=4 {
        if !is_right(alloc, pattern, &rows, count)? {
            return Ok(false);
        }
    }
    Ok(true)
}

// The same over twelve random runs of segments.
fn are_always_right(alloc: Global, pattern: &Pattern, from: u16) -> Result<bool, Fail> {
    for turn in 0..12u8 {
        if !are_right(alloc, pattern, u32::from(from) + u32::from(turn))? {
            return Ok(false);
        }
    }
    Ok(true)
}

fn is_text_right(alloc: Global, text: &str, from: u16) -> Result<bool, Fail> {
    let pattern = pattern(alloc, text)?;
    are_always_right(alloc, &pattern, from)
}

const TEXTS: [(&str, u16); 10] = [
    ("p", 0),
    ("p;q", 12),
    ("(p % [1,2]);q", 24),
    ("(p;fall(p)) & p", 36),
    ("rise(p);p;q", 48),
    ("(p % [1,1])*", 60),
    ("((p|q);fall(p))*", 72),
    ("(p;q) % (1,5]", 84),
    ("(p & (q % [1,3]))* % [2,6]", 96),
    ("((p;q) & (true % [2,4])) | (q % [1,1])*", 108),
];

#[test]
fn forms_tell_the_matches(rt: HostRuntime) -> Result<(), Fail> {
    for (text, from) in &TEXTS {
        assert!(rt; is_text_right(rt.alloc(), *text, *from)?, "{text}");
    }
    Ok(())
}
