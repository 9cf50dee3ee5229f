// The text of a pattern.
ghost use Rattle.std.specs.Prelude.{◌≡◌, ◌≤◌, ◌++◌, codes, string_bytes, IfOk, OnOk};
ghost use Rattle.tre_decimal.specs.declared.TheConstants.{SCALE_MAX};
ghost use Rattle.tre_state.specs.State.{tree_of as state_tree_of};
ghost use Rattle.tre_syntax.specs.Expr.{tree_of};
ghost use Rattle.tre_syntax.specs.Pattern.{pattern_tree, names_of};
ghost use Rattle.tre_zone.specs.Interval.{IsInterval};
ghost use Rattle.tre_parse.specs.Outcome.{IsSpelling, Outcome, IsOutcome};
ghost use Rattle.tre_show.specs.ReadBack.{IsReadBack};
ghost use Rattle.tre_show.specs.Interval.{interval_text};
ghost use Rattle.tre_show.specs.Intervals.{HasIntervals};
ghost use Rattle.tre_show.specs.StateText.{name_text, state_text};
ghost use Rattle.tre_show.specs.PatternText.{operand_text, expression_text};

use crate::interval::push_interval;
use crate::state::{
    push_close, push_literal, push_name, push_open, push_spaced, push_state, push_text,
};
use std::alloc::{AllocError, Global};
use tre_decimal::{begins_with_a_digit, last_digits_are_digits, written_is_read};
use tre_parse::sign;
use tre_state::{Names, State};
use tre_syntax::{Expr, Pattern};
use tre_zone::Interval;

// How strongly the operators of expressions bind.
const ALTERNATION: u8 = 0;

const INTERSECTION: u8 = 1;

const SEQUENCE: u8 = 2;

const POSTFIX: u8 = 3;

/// The text of the pattern, which spells it.
///
/// It goes as deep as the expression does, which is at most as deep as a pattern has nodes.
pub fn pattern_text(alloc: Global, pattern: &Pattern, scale: u8) -> Result<String, AllocError>
    requires { scale ≤ SCALE_MAX }
    ensures text { IfOk result (λ text. string_bytes text
        ≡ expression_text scale (names_of pattern.now) (pattern_tree pattern.now)) }
    ensures spelling { IfOk result (λ text.
        IsSpelling scale (string_bytes text) (pattern_tree pattern.now) (names_of pattern.now)) }
    ensures outcome { IfOk result (λ text.
        (outcome : Outcome) → IsOutcome scale (string_bytes text) outcome →
        IsReadBack (pattern_tree pattern.now) (names_of pattern.now) outcome) }
{
    // For the proof: the calls say that the names of each kind are names, and no two of them the
    // same.
    let _names = pattern.names().len();
    let _events = pattern.events().len();
    // A number that is written is taken whole, and read back as it was.
    written_is_read();
    last_digits_are_digits();
    begins_with_a_digit();
    let mut text = String::new(alloc);
    push_operand(&mut text, pattern, pattern.expr(), ALTERNATION, scale)?;
    Ok(text)
}

// The text of an expression, over the names of the pattern, in parentheses where its operator binds
// less than `least`.
fn push_operand(
    text: &mut String,
    pattern: &Pattern,
    expr: &Expr,
    least: u8,
    scale: u8,
) -> Result<(), AllocError>
    requires { scale ≤ SCALE_MAX }
    ensures text { OnOk result (string_bytes text.new ≡ string_bytes text.old
        ++ operand_text scale least (names_of pattern.now) (tree_of expr.now)) }
    ensures intervals { OnOk result (HasIntervals (tree_of expr.now)) }
{
    match expr {
        Expr::Eps => push_text(text, "eps"),
        Expr::Lit(state) => push_literal(text, pattern.names(), state),
        Expr::Rise(state) => push_edge(text, "rise", pattern.names(), state),
        Expr::Fall(state) => push_edge(text, "fall", pattern.names(), state),
        Expr::Event(number) => push_event(text, pattern.events(), *number),
        Expr::Seq(e, f) => {
            push_open(text, SEQUENCE < least)?;
            push_operand(text, pattern, e, SEQUENCE, scale)?;
            push_text(text, sign::SEMICOLON)?;
            push_operand(text, pattern, f, POSTFIX, scale)?;
            push_close(text, SEQUENCE < least)
        }
        Expr::Meet(e, f) => {
            push_open(text, INTERSECTION < least)?;
            push_operand(text, pattern, e, INTERSECTION, scale)?;
            push_spaced(text, sign::AMPERSAND)?;
            push_operand(text, pattern, f, SEQUENCE, scale)?;
            push_close(text, INTERSECTION < least)
        }
        Expr::Alt(e, f) => {
            push_open(text, ALTERNATION < least)?;
            push_operand(text, pattern, e, ALTERNATION, scale)?;
            push_spaced(text, sign::BAR)?;
            push_operand(text, pattern, f, INTERSECTION, scale)?;
            push_close(text, ALTERNATION < least)
        }
        Expr::Star(e) => {
            push_operand(text, pattern, e, POSTFIX, scale)?;
            push_text(text, sign::STAR)
        }
        Expr::Within(e, interval) => {
            push_operand(text, pattern, e, POSTFIX, scale)?;
            push_duration(text, interval, scale)
        }
    }
}

// The text of an edge of a state.
fn push_edge(text: &mut String, edge: &str, names: &Names, state: &State) -> Result<(), AllocError>
    ensures { OnOk result (string_bytes text.new ≡ string_bytes text.old
        ++ (edge.now ++ codes "(" ++ state_text names.now (state_tree_of state.now)
        ++ codes ")")) }
{
    push_text(text, edge)?;
    push_text(text, sign::LEFT_PAREN)?;
    push_state(text, names, state)?;
    push_text(text, sign::RIGHT_PAREN)
}

// The text of the event of a number.
fn push_event(text: &mut String, events: &Names, number: u8) -> Result<(), AllocError>
    ensures { OnOk result (string_bytes text.new ≡ string_bytes text.old
        ++ (codes "event(" ++ name_text events.now number ++ codes ")")) }
{
    push_text(text, "event")?;
    push_text(text, sign::LEFT_PAREN)?;
    push_name(text, events, number)?;
    push_text(text, sign::RIGHT_PAREN)
}

// The interval that durations are restricted to.
fn push_duration(text: &mut String, interval: &Interval, scale: u8) -> Result<(), AllocError>
    requires { scale ≤ SCALE_MAX }
    ensures text { OnOk result (string_bytes text.new
        ≡ string_bytes text.old ++ (codes " % " ++ interval_text scale interval.now)) }
    ensures interval { OnOk result (IsInterval interval.now) }
{
    push_spaced(text, sign::PERCENT)?;
    push_interval(text, interval, scale)
}
