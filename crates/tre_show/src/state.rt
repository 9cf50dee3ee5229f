// The text of a state.
ghost use Rattle.std.specs.Prelude.{◌≡◌, ◌++◌, codes, string_bytes, OnOk};
ghost use Rattle.std.specs.Prelude.{if◌then◌else◌};
ghost use Rattle.tre_state.specs.State.{tree_of};
ghost use Rattle.tre_show.specs.StateText.{name_text, state_operand_text, state_text, literal_text};

use std::alloc::AllocError;
use tre_parse::sign;
use tre_state::{Names, State};

// How strongly the operators of states bind.
pub(crate) const DISJUNCTION: u8 = 0;

const CONJUNCTION: u8 = 1;

const NEGATION: u8 = 2;

/// The text of a state.
pub(crate) fn push_state(text: &mut String, names: &Names, state: &State) -> Result<(), AllocError>
    ensures { OnOk result (string_bytes text.new
        ≡ string_bytes text.old ++ state_text names.now (tree_of state.now)) }
{
    push_state_operand(text, names, state, DISJUNCTION)
}

// The text of a state, in parentheses where its operator binds less than `least`.
fn push_state_operand(
    text: &mut String,
    names: &Names,
    state: &State,
    least: u8,
) -> Result<(), AllocError>
    ensures { OnOk result (string_bytes text.new
        ≡ string_bytes text.old ++ state_operand_text least names.now (tree_of state.now)) }
{
    match state {
        State::Yes => push_text(text, "true"),
        State::Prop(number) => push_name(text, names, *number),
        State::Not(s) => {
            push_text(text, sign::BANG)?;
            push_state_operand(text, names, s, NEGATION)
        }
        State::And(s, t) => {
            push_open(text, CONJUNCTION < least)?;
            push_state_operand(text, names, s, CONJUNCTION)?;
            push_spaced(text, sign::DOUBLE_AMPERSAND)?;
            push_state_operand(text, names, t, NEGATION)?;
            push_close(text, CONJUNCTION < least)
        }
        State::Or(s, t) => {
            push_open(text, DISJUNCTION < least)?;
            push_state_operand(text, names, s, DISJUNCTION)?;
            push_spaced(text, sign::DOUBLE_BAR)?;
            push_state_operand(text, names, t, CONJUNCTION)?;
            push_close(text, DISJUNCTION < least)
        }
    }
}

/// The text of a literal: a state in braces where it is joined of two.
pub(crate) fn push_literal(
    text: &mut String,
    names: &Names,
    state: &State,
) -> Result<(), AllocError>
    ensures { OnOk result (string_bytes text.new
        ≡ string_bytes text.old ++ literal_text names.now (tree_of state.now)) }
{
    match state {
        State::Yes => push_text(text, "true"),
        State::Prop(number) => push_name(text, names, *number),
        State::Not(s) => {
            push_text(text, sign::BANG)?;
            push_literal(text, names, s)
        }
        State::And(_, _) | State::Or(_, _) => push_braces(text, names, state),
    }
}

// The text of a state in braces.
fn push_braces(text: &mut String, names: &Names, state: &State) -> Result<(), AllocError>
    ensures { OnOk result (string_bytes text.new ≡ string_bytes text.old
        ++ (codes "{" ++ state_text names.now (tree_of state.now) ++ codes "}")) }
{
    push_text(text, sign::LEFT_BRACE)?;
    push_state(text, names, state)?;
    push_text(text, sign::RIGHT_BRACE)
}

/// The name of a number.
pub(crate) fn push_name(text: &mut String, names: &Names, number: u8) -> Result<(), AllocError>
    ensures { OnOk result (string_bytes text.new
        ≡ string_bytes text.old ++ name_text names.now number) }
{
    match names.name(number) {
        Some(name) => push_text(text, name),
        None => Ok(()),
    }
}

/// Appends a piece of text.
pub(crate) fn push_text(text: &mut String, piece: &str) -> Result<(), AllocError>
    ensures { OnOk result (string_bytes text.new ≡ string_bytes text.old ++ piece.now) }
{
    text.push_str(piece)
}

/// Appends a sign between two blanks.
pub(crate) fn push_spaced(text: &mut String, sign: &str) -> Result<(), AllocError>
    ensures { OnOk result (string_bytes text.new
        ≡ string_bytes text.old ++ (codes " " ++ sign.now ++ codes " ")) }
{
    push_text(text, " ")?;
    push_text(text, sign)?;
    push_text(text, " ")
}

/// The left parenthesis, where it is asked for.
pub(crate) fn push_open(text: &mut String, asked: bool) -> Result<(), AllocError>
    ensures { OnOk result (string_bytes text.new
        ≡ string_bytes text.old ++ (if asked then codes "(" else codes "")) }
{
    push_text(text, if asked { sign::LEFT_PAREN } else { "" })
}

/// The right parenthesis, where it is asked for.
pub(crate) fn push_close(text: &mut String, asked: bool) -> Result<(), AllocError>
    ensures { OnOk result (string_bytes text.new
        ≡ string_bytes text.old ++ (if asked then codes ")" else codes "")) }
{
    push_text(text, if asked { sign::RIGHT_PAREN } else { "" })
}
