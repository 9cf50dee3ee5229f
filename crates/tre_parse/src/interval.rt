ghost use Rattle.std.specs.Prelude.{◌≤◌, length, IfOk};
ghost use Rattle.tre_parse.specs.Parts.{IsMadeOf};
ghost use Rattle.tre_parse.specs.Reader.{Task, opened_by, high_end_of, closed_by, read};
ghost use Rattle.tre_parse.specs.Reading.{IsReadAs, IsReadPart};
ghost use Rattle.tre_zone.specs.Interval.{ends_of, kept_weak};

use crate::cursor::{Cursor, Stop};
use crate::token::Token;
use tre_pairs::TIME_MAX;
use tre_zone::Interval;

/// An interval. None where no duration is in it, or an end is above the latest time.
pub(crate) fn interval(tokens: &mut Cursor) -> Result<Option<Interval>, Stop>
    ensures reads { IsReadAs IsMadeOf (read Task.of_interval tokens.old) result tokens.new }
    ensures shorter { IfOk result (λ _. length tokens.new ≤ length tokens.old) }
{
    let low_weak = opening(tokens)?;
    let Token::Number(low) = tokens.peek() else {
        return Err(tokens.refused());
    };
    tokens.advance();
    tokens.expect(Token::Comma)?;
    let high = high(tokens)?;
    let high_weak = closing(high, tokens)?;
    Ok(made(low, low_weak, high, high_weak))
}

// The bracket before an interval, which says whether the low end is in it.
fn opening(tokens: &mut Cursor) -> Result<bool, Stop>
    ensures { IsReadPart opened_by result tokens.old tokens.new }
{
    if tokens.accept(Token::LeftBracket) {
        return Ok(true);
    }
    tokens.expect(Token::LeftParen)?;
    Ok(false)
}

// The high end, None for `inf`.
fn high(tokens: &mut Cursor) -> Result<Option<u64>, Stop>
    ensures { IsReadPart high_end_of result tokens.old tokens.new }
{
    if tokens.accept(Token::Inf) {
        return Ok(None);
    }
    let Token::Number(high) = tokens.peek() else {
        return Err(tokens.refused());
    };
    tokens.advance();
    Ok(Some(high))
}

// The bracket after an interval, which says whether the high end is in it: never where there is
// none.
fn closing(high: Option<u64>, tokens: &mut Cursor) -> Result<bool, Stop>
    ensures { IsReadPart (closed_by high) result tokens.old tokens.new }
{
    if high.is_some() && tokens.accept(Token::RightBracket) {
        return Ok(true);
    }
    tokens.expect(Token::RightParen)?;
    Ok(false)
}

// The interval between the ends. None where no duration is in it, or an end is above the latest
// time.
fn made(low: u64, low_weak: bool, high: Option<u64>, high_weak: bool) -> Option<Interval>
    ensures { IsMadeOf result (ends_of low low_weak high (kept_weak high high_weak)) }
{
    if low > TIME_MAX || high.unwrap_or(low) > TIME_MAX {
        return None;
    }
    Interval::new(low, low_weak, high, high_weak)
}
