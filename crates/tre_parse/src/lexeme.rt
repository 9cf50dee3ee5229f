ghost use Rattle.std.specs.Prelude.{◌≡◌, ◌<◌, ◌≤◌, ◌+◌, length};
ghost use Rattle.std.specs.Char.{is_ascii_digit};
ghost use Rattle.std.specs.List.{prefix_len};
ghost use Rattle.tre_state.specs.Name.{continues_name, starts_name};
ghost use Rattle.tre_parse.specs.Lexeme.{word_lexeme, decimals_len, number_lexeme, first_sign, lexeme_of, FitsIn, reserved};
ghost use Rattle.tre_parse.specs.Words.{is_white_space};

use crate::sign;
use crate::token::Token;
use tre_state::{continues_name, starts_name};

/// What stands at a place of a text.
#[derive(Clone, Copy)]
pub(crate) enum Lexeme {
    /// A byte that says nothing.
    Blank,
    /// A byte at which no token begins.
    Wrong,
    /// A name of so many bytes.
    Name(usize),
    /// A number of so many bytes.
    Number(usize),
    /// Another token, and its number of bytes.
    Sign(Token, usize),
}

/// The signs and their tokens. A sign stands before those that it begins with.
pub(crate) const SIGNS: [(&str, Token); 19] = [
    (sign::DOUBLE_BAR, Token::DoubleBar),
    (sign::DOUBLE_AMPERSAND, Token::DoubleAmpersand),
    (sign::BEGINS, Token::Begins),
    (sign::ENDS, Token::Ends),
    (sign::LEFT_PAREN, Token::LeftParen),
    (sign::RIGHT_PAREN, Token::RightParen),
    (sign::LEFT_BRACKET, Token::LeftBracket),
    (sign::RIGHT_BRACKET, Token::RightBracket),
    (sign::LEFT_BRACE, Token::LeftBrace),
    (sign::RIGHT_BRACE, Token::RightBrace),
    (sign::COMMA, Token::Comma),
    (sign::SEMICOLON, Token::Semicolon),
    (sign::BAR, Token::Bar),
    (sign::AMPERSAND, Token::Ampersand),
    (sign::BANG, Token::Bang),
    (sign::STAR, Token::Star),
    (sign::PLUS, Token::Plus),
    (sign::QUESTION, Token::Question),
    (sign::PERCENT, Token::Percent),
];

/// What the rest of a text begins with: the longest token there, if one begins.
pub(crate) fn lexeme_of(rest: &[u8]) -> Lexeme
    requires { 0 < length rest.now }
    ensures value { result ≡ lexeme_of rest.now }
    ensures fits { FitsIn (length rest.now) result }
{
    let byte = rest[0];
    if is_blank(byte) {
        return Lexeme::Blank;
    }
    if starts_name(byte) {
        return word_lexeme(rest);
    }
    if byte.is_ascii_digit() {
        return number_lexeme(rest);
    }
    first_sign(&SIGNS, rest)
}

fn is_blank(byte: u8) -> bool
    ensures { result ≡ is_white_space byte }
{
    byte == b' ' || byte == b'\t' || byte == b'\r' || byte == b'\n'
}

// A word at the front of the rest: a name or a token of its own.
fn word_lexeme(rest: &[u8]) -> Lexeme
    requires { 0 < prefix_len continues_name rest.now }
    ensures value { result ≡ word_lexeme rest.now }
    ensures fits { FitsIn (length rest.now) result }
{
    let len = name_len(rest);
    match reserved(&rest[..len]) {
        Some(token) => Lexeme::Sign(token, len),
        None => Lexeme::Name(len),
    }
}

// How many bytes at the front may stand in a name.
fn name_len(rest: &[u8]) -> usize
    ensures { result ≡ prefix_len continues_name rest.now }
{
    rest.iter()
        .take_while(|&&byte| continues_name(byte))
        .count()
}

// The token of a reserved word.
fn reserved(word: &[u8]) -> Option<Token>
    ensures { result ≡ reserved word.now }
{
    match word {
        b"eps" => Some(Token::Eps),
        b"rise" => Some(Token::Rise),
        b"fall" => Some(Token::Fall),
        b"inf" => Some(Token::Inf),
        b"true" => Some(Token::True),
        b"event" => Some(Token::Event),
        _ => None,
    }
}

// A number at the front of the rest: digits, and a point with digits behind it, where that follows.
fn number_lexeme(rest: &[u8]) -> Lexeme
    requires { 0 < prefix_len is_ascii_digit rest.now }
    ensures value { result ≡ number_lexeme rest.now }
    ensures fits { FitsIn (length rest.now) result }
{
    let len = digits_len(rest);
    Lexeme::Number(len + decimals_len(&rest[len..]))
}

// How many bytes a point at the front has with the digits behind it, where it has any.
fn decimals_len(rest: &[u8]) -> usize
    ensures len { result ≡ decimals_len rest.now }
    ensures within { result ≤ length rest.now }
{
    if rest.is_empty() || rest[0] != b'.' {
        return 0;
    }
    let digits = digits_len(&rest[1..]);
    if digits == 0 { 0 } else { 1 + digits }
}

// How many digits stand at the front.
fn digits_len(rest: &[u8]) -> usize
    ensures len { result ≡ prefix_len is_ascii_digit rest.now }
    ensures within { result ≤ length rest.now }
{
    rest.iter().take_while(|byte| byte.is_ascii_digit()).count()
}

// The first of the signs that the rest begins with.
fn first_sign(signs: &[(&str, Token)], rest: &[u8]) -> Lexeme
    ensures { result ≡ first_sign (λ sign. sign.0.now) (λ sign. sign.1) signs.now rest.now }
{
    for (spelling, token) in signs {
        if rest.starts_with(spelling.as_bytes()) {
            return Lexeme::Sign(*token, spelling.len());
        }
    }
    Lexeme::Wrong
}
