//! States, one function for each kind of rule.
ghost use Rattle.std.specs.Prelude.{◌≡◌, ◌≢◌, ◌≤◌, ◌++◌, length, replicate, IfOk};
ghost use Rattle.tre_parse.specs.Front.{front};
ghost use Rattle.tre_parse.specs.Joins.{brackets_of};
ghost use Rattle.tre_parse.specs.Reader.{StateTask, state_part};
ghost use Rattle.tre_parse.specs.Reading.{ReadsState};

use crate::connective::Connective;
use crate::counted::Counted;
use crate::cursor::{Cursor, Stop};
use crate::formula::{Formula, connected, negated};
use crate::token::Token;
use std::alloc::Global;
use tre_state::State;

/// States that are joined in one way, which are grouped to the left. With `||`, which binds least,
/// between them they are a whole state.
#[cycle(state)]
pub(crate) fn state(alloc: Global, how: Connective, tokens: &mut Cursor) -> Result<Formula, Stop>
    ensures reads { ReadsState (StateTask.state_by how) result tokens.old tokens.new }
    ensures shorter { IfOk result (λ _. length tokens.new ≤ length tokens.old) }
{
    let mut whole = part(alloc, how, tokens)?;
    while tokens.accept(how.sign()) {
        let next = part(alloc, how, tokens)?;
        whole = connected(alloc, how, whole, next)?;
    }
    Ok(whole)
}

// What stands between those signs.
#[cycle(state)]
fn part(alloc: Global, how: Connective, tokens: &mut Cursor) -> Result<Formula, Stop>
    ensures reads { ReadsState (state_part how) result tokens.old tokens.new }
    ensures shorter { IfOk result (λ _. length tokens.new ≤ length tokens.old) }
{
    match how {
        Connective::Or => state(alloc, Connective::And, tokens),
        Connective::And => operand(alloc, false, tokens),
    }
}

/// Any number of `!`, and then a name, `true` or a state: in braces, as in a literal, or in
/// parentheses.
#[cycle(state)]
pub(crate) fn operand(alloc: Global, braces: bool, tokens: &mut Cursor) -> Result<Formula, Stop>
    ensures reads { ReadsState (StateTask.state_operand braces) result tokens.old tokens.new }
    ensures shorter { IfOk result (λ _. length tokens.new ≤ length tokens.old) }
{
    let bangs = bangs(tokens);
    let mut whole = without_bangs(alloc, braces, tokens)?;
    for _ in 0..bangs {
        whole = negated(alloc, whole)?;
    }
    Ok(whole)
}

#[cycle(state)]
fn without_bangs(alloc: Global, braces: bool, tokens: &mut Cursor) -> Result<Formula, Stop>
    requires { front tokens.old ≢ Token.Bang }
    ensures reads { ReadsState (StateTask.state_operand braces) result tokens.old tokens.new }
    ensures shorter { IfOk result (λ _. length tokens.new ≤ length tokens.old) }
{
    let (opening, closing) = brackets(braces);
    if tokens.accept(opening) {
        let inside = state(alloc, Connective::Or, tokens)?;
        tokens.expect(closing)?;
        return Ok(inside);
    }
    match tokens.peek() {
        Token::Name(number) => {
            tokens.advance();
            Ok(Counted::leaf(State::Prop(number)))
        }
        Token::True => {
            tokens.advance();
            Ok(Counted::leaf(State::Yes))
        }
        _ => Err(tokens.refused()),
    }
}

fn brackets(braces: bool) -> (Token, Token)
    ensures { result ≡ brackets_of braces }
{
    if braces {
        (Token::LeftBrace, Token::RightBrace)
    } else {
        (Token::LeftParen, Token::RightParen)
    }
}

// Goes past as many `!` as there are, and counts them.
fn bangs(tokens: &mut Cursor) -> u64
    ensures bangs { tokens.old ≡ replicate result Token.Bang ++ tokens.new }
    ensures ends { front tokens.new ≢ Token.Bang }
    ensures shorter { length tokens.new ≤ length tokens.old }
{
    let before = tokens.left();
    while tokens.accept(Token::Bang) {}
    (before - tokens.left()) as u64
}
