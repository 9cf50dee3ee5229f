ghost use Rattle.std.specs.Prelude.{◌≡◌, ◌≤◌, position};
ghost use Rattle.tre_parse.specs.Front.{tokens_in};
ghost use Rattle.tre_parse.specs.TokenWords.{text_of};
ghost use Rattle.tre_parse.specs.Outcome.{open_after};
ghost use Rattle.tre_parse.specs.Limits.{is_above, is_past, deep_place};

use crate::scan::PAST;
use crate::token::{Token, TokenAt};
use tre_pairs::TIME_MAX;

/// How many bytes the text of a pattern may have.
pub const TEXT_MAX: usize = 16_384;

/// How many brackets may be open.
pub(crate) const DEPTH_MAX: usize = 200;

/// The count of nodes goes no higher than this.
pub(crate) const COUNT_MAX: u64 = 1_000_000_000;

/// The place of the first number above the latest time, which stands for those that are no number
/// of units too.
pub(crate) fn first_big(tokens: &[TokenAt]) -> Option<usize>
    ensures { result ≡ position is_above (tokens_in tokens.now) }
{
    tokens
        .iter()
        .map(|placed| placed.token)
        .position(|token| is_above(token))
}

// A number above the latest time.
fn is_above(token: Token) -> bool
    ensures { result ≡ is_above token }
{
    match token {
        Token::Number(number) => number > TIME_MAX,
        _ => false,
    }
}

/// The place of the first name past the first `NAMES_MAX` of its kind.
pub(crate) fn first_past(tokens: &[TokenAt]) -> Option<usize>
    ensures { result ≡ position is_past (tokens_in tokens.now) }
{
    tokens
        .iter()
        .map(|placed| placed.token)
        .position(|token| match token {
            Token::Name(number) => number == PAST,
            Token::EventName(number) => number == PAST,
            _ => false,
        })
}

/// The place of the first bracket at which more than `DEPTH_MAX` are open.
pub(crate) fn first_deep(tokens: &[TokenAt]) -> Option<usize>
    ensures { result ≡ deep_place 0 0 (tokens_in tokens.now) }
{
    let mut depth = 0;
    for (place, placed) in tokens.iter().enumerate() {
        depth = open_after(depth, placed.token);
        if depth > DEPTH_MAX {
            return Some(place);
        }
    }
    None
}

// How many brackets are open after one more token.
fn open_after(depth: usize, token: Token) -> usize
    requires { depth ≤ DEPTH_MAX }
    ensures { result ≡ open_after depth (text_of token) }
{
    match token {
        Token::LeftParen | Token::LeftBracket | Token::LeftBrace => depth + 1,
        Token::RightParen | Token::RightBracket | Token::RightBrace => depth.saturating_sub(1),
        _ => depth,
    }
}
