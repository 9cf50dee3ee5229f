ghost use Rattle.std.specs.Prelude.{◌≡◌, ◌-◌, ◌<◌, ◌≤◌, ◌+◌, Some, None, length, take, drop, OnOk, IfOk, IfErr};
ghost use Rattle.tre_state.specs.Name.{IsName};
ghost use Rattle.tre_decimal.specs.declared.TheConstants.{SCALE_MAX};
ghost use Rattle.tre_parse.specs.Tokens.{name, number, sign};
ghost use Rattle.tre_parse.specs.Words.{units_within};
ghost use Rattle.tre_parse.specs.ScannedOutcome.{offset_of};
ghost use Rattle.tre_parse.specs.Answers.{text_tokens_in};
ghost use Rattle.tre_parse.specs.Scan.{Puts, ScanIsNumbered, TakesToken, ScanGoesOn, IsBadByte, IsScan};

use crate::before::{Before, numbered};
use crate::fault::ParseFault;
use crate::lexeme::{Lexeme, lexeme_of};
use crate::token::{Token, TokenAt};
use std::alloc::{AllocError, Global};
use tre_decimal::read_units;
use tre_pairs::TIME_MAX;
use tre_state::{NAMES_MAX, NameFault, Names};
use tre_syntax::NameKind;

/// The number of a name past the first `NAMES_MAX` of its kind.
pub(crate) const PAST: u8 = NAMES_MAX as u8;

// The number for those above the latest time, and for those that are no number of units.
const NUMBER_CAP: u64 = TIME_MAX + 1;

/// The tokens of a text, each with its offset, and the names among them.
#[derive(Drop)]
pub(crate) struct Scan {
    pub(crate) tokens: Vec<TokenAt>,
    /// The names of propositions.
    pub(crate) names: Names,
    /// The names of events.
    pub(crate) events: Names,
    /// What stands before the next token.
    pub(crate) before: Before,
    /// How many bytes the text has.
    pub(crate) size: u64,
    /// The scale of its numbers.
    pub(crate) scale: u8,
}

impl Scan {
    /// The offset of the token at a place, the length of the text where there is none.
    pub(crate) fn offset(&self, place: usize) -> u64
        ensures { result ≡ offset_of (text_tokens_in self.now) place }
    {
        match self.tokens.get(place) {
            Some(placed) => placed.at,
            None => self.size,
        }
    }

    /// The place of the token with which so many are left.
    pub(crate) fn place_of_left(&self, left: usize) -> usize
        ensures { result ≡ length (text_tokens_in self.now).tokens - left }
    {
        self.tokens.len().saturating_sub(left)
    }

    fn put(&mut self, token: Token, at: usize) -> Result<(), AllocError>
        ensures { OnOk result (Puts self.old self.new at token) }
    {
        let at = at as u64;
        self.tokens.push(TokenAt { token, at })?;
        Ok(())
    }

    // A token that is no name.
    fn put_sign(&mut self, token: Token, at: usize) -> Result<(), AllocError>
        ensures { OnOk result (TakesToken self.old self.new at (sign token)) }
    {
        self.put(token, at)?;
        self.before = self.before.sign(token);
        Ok(())
    }

    // A number by its bytes.
    fn put_number(&mut self, bytes: &[u8], at: usize) -> Result<(), AllocError>
        requires { self.old.scale ≤ SCALE_MAX }
        ensures { OnOk result (TakesToken self.old self.new at (number bytes.now)) }
    {
        self.put(Token::Number(units_within(bytes, self.scale)), at)?;
        self.before = Before::Other;
        Ok(())
    }

    // The number of a name among those of its kind.
    fn number(&mut self, word: &str) -> Result<u8, NameFault>
        requires { IsName word.now }
        ensures { ScanIsNumbered self.old self.new word.now result }
    {
        let kind = self.before.kind();
        self.before = Before::Other;
        match kind {
            NameKind::Proposition => self.names.number(word),
            NameKind::Event => self.events.number(word),
        }
    }

    // A name, which is numbered.
    fn put_name(&mut self, word: &str, at: usize) -> Result<(), ParseFault>
        requires { IsName word.now }
        ensures ok { OnOk result (TakesToken self.old self.new at (name word.now)) }
        ensures err { IfErr result (λ fault. fault ≡ ParseFault.Memory) }
    {
        let kind = self.before.kind();
        match self.number(word) {
            Ok(number) => Ok(self.put(numbered(kind, number), at)?),
            Err(NameFault::TooMany) => Ok(self.put(numbered(kind, PAST), at)?),
            Err(NameFault::Memory) => Err(ParseFault::Memory),
        }
    }

    // What stands at an offset; answers the offset after it.
    fn step(&mut self, text: &str, at: usize) -> Result<usize, ParseFault>
        requires place { at < length text.now }
        requires scale { self.old.scale ≤ SCALE_MAX }
        ensures ok { IfOk result (ScanGoesOn text.now self.old at self.new) }
        ensures err { IfErr result (IsBadByte text.now at) }
    {
        match lexeme_of(&text.as_bytes()[at..]) {
            Lexeme::Blank => Ok(at + 1),
            Lexeme::Wrong => Err(ParseFault::BadByte { at: at as u64 }),
            Lexeme::Name(len) => {
                self.put_name(name_at(text, at, len), at)?;
                Ok(at + len)
            }
            Lexeme::Number(len) => {
                self.put_number(&text.as_bytes()[at..at + len], at)?;
                Ok(at + len)
            }
            Lexeme::Sign(token, len) => {
                self.put_sign(token, at)?;
                Ok(at + len)
            }
        }
    }
}

// The number of units of a decimal, and the cap where it is none or one above the latest time.
fn units_within(bytes: &[u8], scale: u8) -> u64
    requires { scale ≤ SCALE_MAX }
    ensures { result ≡ units_within scale bytes.now }
{
    read_units(bytes, scale)
        .unwrap_or(NUMBER_CAP)
        .min(NUMBER_CAP)
}

// The name of so many bytes at an offset.
fn name_at(text: &str, at: usize, len: usize) -> &str
    requires within { at + len ≤ length text.now }
    requires name { IsName (take len (drop at text.now)) }
    ensures { result.now ≡ take len (drop at text.now) }
{
    &text[at..at + len]
}

/// The tokens of a text at a scale. Refuses the first byte at which no token begins.
pub(crate) fn scan_text(alloc: Global, text: &str, scale: u8) -> Result<Scan, ParseFault>
    requires { scale ≤ SCALE_MAX }
    ensures ok { IfOk result (IsScan scale text.now) }
    ensures err { IfErr result (IsBadByte text.now 0) }
{
    let mut scan = Scan {
        tokens: Vec::new(alloc),
        names: Names::new(alloc),
        events: Names::new(alloc),
        before: Before::Other,
        size: text.len() as u64,
        scale,
    };
    let mut at = 0;
    while at < text.len() {
        at = scan.step(text, at)?;
    }
    Ok(scan)
}
