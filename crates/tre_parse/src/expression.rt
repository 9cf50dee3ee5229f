//! Expressions, one function for each kind of rule.
ghost use Rattle.std.specs.Prelude.{◌≡◌, ◌≢◌, ◌≤◌, None, Ok, Err, length, IfOk, IfErr};
ghost use Rattle.tre_parse.specs.declared.token.Token.{Token};
ghost use Rattle.tre_parse.specs.declared.cursor.Stop.{Stop};
ghost use Rattle.tre_parse.specs.Joins.{edge_sign, plain_literal, edged_literal};
ghost use Rattle.tre_parse.specs.Operands.{RepresentsState, Represents, Turns};
ghost use Rattle.tre_parse.specs.Front.{front};
ghost use Rattle.tre_parse.specs.Reader.{PatternTask, expression_part, event_number_of};
ghost use Rattle.tre_parse.specs.Reading.{BeginsLiteral, IsReadPart, Reads};
ghost use Rattle.tre_parse.specs.Unkept.{FindsUpTo};

use crate::connective::{Connective, Join};
use crate::counted::Counted;
use crate::cursor::{Cursor, Stop};
use crate::formula::{Formula, copied};
use crate::interval::interval;
use crate::operand::{self, Operand, at_least_once, joined, repeated, restricted};
use crate::states::{self, state};
use crate::token::Token;
use std::alloc::{AllocError, Global};
use tre_syntax::{Expr, beside};

/// Expressions that are joined in one way, which are grouped to the left. With `|`, which binds
/// least, between them they are a whole expression.
#[cycle(expression)]
pub(crate) fn expression(alloc: Global, how: Join, tokens: &mut Cursor) -> Result<Operand, Stop>
    ensures reads { Reads (PatternTask.expression_by how) result tokens.old tokens.new }
    ensures shorter { IfOk result (λ _. length tokens.new ≤ length tokens.old) }
    ensures unkept { IfOk result (λ x. FindsUpTo tokens.old tokens.new x.unkept) }
{
    let mut whole = part(alloc, how, tokens)?;
    while tokens.accept(how.sign()) {
        let next = part(alloc, how, tokens)?;
        whole = joined(alloc, how, whole, next)?;
    }
    Ok(whole)
}

// What stands between those signs.
#[cycle(expression)]
fn part(alloc: Global, how: Join, tokens: &mut Cursor) -> Result<Operand, Stop>
    ensures reads { Reads (expression_part how) result tokens.old tokens.new }
    ensures shorter { IfOk result (λ _. length tokens.new ≤ length tokens.old) }
    ensures unkept { IfOk result (λ x. FindsUpTo tokens.old tokens.new x.unkept) }
{
    match how {
        Join::Alternation => expression(alloc, Join::Intersection, tokens),
        Join::Intersection => expression(alloc, Join::Sequence, tokens),
        Join::Sequence => operand(alloc, tokens),
    }
}

// A primary, and any number of signs after it. No `:>` stands behind it: that of a literal is a
// part of the primary.
#[cycle(expression)]
fn operand(alloc: Global, tokens: &mut Cursor) -> Result<Operand, Stop>
    ensures reads { Reads PatternTask.operand result tokens.old tokens.new }
    ensures shorter { IfOk result (λ _. length tokens.new ≤ length tokens.old) }
    ensures unkept { IfOk result (λ x. FindsUpTo tokens.old tokens.new x.unkept) }
{
    let mut whole = primary(alloc, tokens)?;
    loop {
        match tokens.peek() {
            Token::Star => {
                tokens.advance();
                whole = repeated(alloc, whole)?;
            }
            Token::Plus => {
                tokens.advance();
                whole = at_least_once(alloc, whole)?;
            }
            Token::Question => {
                tokens.advance();
                let empty = Counted::leaf(Expr::Eps);
                whole = joined(alloc, Join::Alternation, whole, empty)?;
            }
            Token::Percent => {
                tokens.advance();
                let at = tokens.left();
                let (within, body) = beside(interval(tokens), whole)?;
                whole = restricted(alloc, body, within, at)?;
            }
            _ => return not_ended(whole, tokens),
        }
    }
}

// What was read, where no `:>` is next.
fn not_ended<T: Drop>(read: T, tokens: &Cursor) -> Result<T, Stop>
    ensures ok { IfOk result (λ x. (x ≡ read) × (front tokens.now ≢ Token.Ends)) }
    ensures err { IfErr result (λ stop. (front tokens.now ≡ Token.Ends)
        × (stop ≡ Stop.Syntax (length tokens.now))) }
{
    match tokens.peek() {
        Token::Ends => Err(tokens.refused()),
        _ => Ok(read),
    }
}

// `eps`, an expression in parentheses, an edge, an event, or a literal.
#[cycle(expression)]
fn primary(alloc: Global, tokens: &mut Cursor) -> Result<Operand, Stop>
    ensures reads { Reads PatternTask.unsigned result tokens.old tokens.new }
    ensures shorter { IfOk result (λ _. length tokens.new ≤ length tokens.old) }
    ensures unkept { IfOk result (λ x. FindsUpTo tokens.old tokens.new x.unkept) }
{
    match tokens.peek() {
        Token::Eps => {
            tokens.advance();
            Ok(Counted::leaf(Expr::Eps))
        }
        Token::LeftParen => {
            tokens.advance();
            let inside = expression(alloc, Join::Alternation, tokens)?;
            tokens.close(inside, Token::RightParen)
        }
        Token::Rise => edge(alloc, true, tokens),
        Token::Fall => edge(alloc, false, tokens),
        Token::Event => event(tokens),
        _ => literal(alloc, tokens),
    }
}

// `rise` or `fall`, and a state in parentheses.
fn edge(alloc: Global, rises: bool, tokens: &mut Cursor) -> Result<Operand, Stop>
    requires { front tokens.old ≡ edge_sign rises }
    ensures reads { Reads PatternTask.unsigned result tokens.old tokens.new }
    ensures shorter { IfOk result (λ _. length tokens.new ≤ length tokens.old) }
    ensures unkept { IfOk result (λ x. FindsUpTo tokens.old tokens.new x.unkept) }
{
    tokens.advance();
    tokens.expect(Token::LeftParen)?;
    let inside = state(alloc, Connective::Or, tokens)?;
    tokens.expect(Token::RightParen)?;
    Ok(operand::edge(rises, inside))
}

// `event`, and the name of an event in parentheses.
fn event(tokens: &mut Cursor) -> Result<Operand, Stop>
    requires { front tokens.old ≡ Token.Event }
    ensures reads { Reads PatternTask.unsigned result tokens.old tokens.new }
    ensures shorter { IfOk result (λ _. length tokens.new ≤ length tokens.old) }
    ensures unkept { IfOk result (λ x. FindsUpTo tokens.old tokens.new x.unkept) }
{
    tokens.advance();
    tokens.expect(Token::LeftParen)?;
    let number = event_name(tokens)?;
    tokens.expect(Token::RightParen)?;
    Ok(Counted::leaf(Expr::Event(number)))
}

// The number of an event's name.
fn event_name(tokens: &mut Cursor) -> Result<u8, Stop>
    ensures { IsReadPart event_number_of result tokens.old tokens.new }
{
    let Token::EventName(number) = tokens.peek() else {
        return Err(tokens.refused());
    };
    tokens.advance();
    Ok(number)
}

// A literal, after `<:` or not, and `:>` after it or not.
fn literal(alloc: Global, tokens: &mut Cursor) -> Result<Operand, Stop>
    requires { BeginsLiteral (front tokens.old) }
    ensures reads { Reads PatternTask.unsigned result tokens.old tokens.new }
    ensures shorter { IfOk result (λ _. length tokens.new ≤ length tokens.old) }
    ensures unkept { IfOk result (λ x. FindsUpTo tokens.old tokens.new x.unkept) }
{
    let begins = tokens.accept(Token::Begins);
    let formula = states::operand(alloc, true, tokens)?;
    let ends = tokens.accept(Token::Ends);
    let whole = edged(alloc, begins, formula, ends)?;
    Ok(whole)
}

// A literal with its edges: the rise before it, and the fall after it.
fn edged(alloc: Global, begins: bool, formula: Formula, ends: bool) -> Result<Operand, AllocError>
    ensures stands { IfOk result (Turns RepresentsState Represents (edged_literal begins ends)
        formula) }
    ensures unkept { IfOk result (λ x. x.unkept ≡ None) }
{
    if ends {
        let again = copied(alloc, &formula)?;
        let body = plain(alloc, begins, formula)?;
        let both = joined(alloc, Join::Sequence, body, operand::edge(false, again))?;
        return Ok(both);
    }
    plain(alloc, begins, formula)
}

fn plain(alloc: Global, begins: bool, formula: Formula) -> Result<Operand, AllocError>
    ensures stands { IfOk result (Turns RepresentsState Represents (plain_literal begins) formula) }
    ensures unkept { IfOk result (λ x. x.unkept ≡ None) }
{
    if begins {
        let again = copied(alloc, &formula)?;
        let rise = operand::edge(true, again);
        let both = joined(alloc, Join::Sequence, rise, operand::literal(formula))?;
        return Ok(both);
    }
    Ok(operand::literal(formula))
}
