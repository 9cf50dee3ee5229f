ghost use Rattle.std.specs.Prelude.{◌≡◌, ◌≢◌, Err, List, ◌∷◌, length, IfOk, IfErr};
ghost use Rattle.tre_parse.specs.declared.token.Token.{Token};
ghost use Rattle.tre_parse.specs.Front.{tokens_in, front, tail};
ghost use Rattle.tre_parse.specs.Reading.{Accepts, Passes};

use crate::token::{Token, TokenAt};
use std::alloc::AllocError;
use std::marker::Model;

/// The tokens that are still to be read.
#[derive(Drop)]
pub(crate) struct Cursor<'a> {
    tokens: &'a [TokenAt],
}

impl<'a> Model for Cursor<'a> {
    ghost Value = { List Token };

    ghost view = { λ c. tokens_in c.tokens.now };
}

impl<'a> Cursor<'a> {
    pub(crate) fn new(tokens: &'a [TokenAt]) -> Cursor<'a>
        ensures { result ≡ tokens_in tokens.now }
    {
        Cursor { tokens }
    }

    /// How many tokens are left.
    pub(crate) fn left(&self) -> usize
        ensures { result ≡ length self.now }
    {
        self.tokens.len()
    }

    /// The next token, `EndOfText` where there is none.
    pub(crate) fn peek(&self) -> Token
        ensures { result ≡ front self.now }
    {
        match self.tokens.first() {
            Some(next) => next.token,
            None => Token::EndOfText,
        }
    }

    /// Goes past the next token.
    pub(crate) fn advance(&mut self)
        ensures { self.new ≡ tail self.old }
    {
        if let Some((_, rest)) = self.tokens.split_first() {
            self.tokens = rest;
        }
    }

    /// Goes past the token, if it is the next, and says whether it was.
    pub(crate) fn accept(&mut self, token: Token) -> bool
        requires { token ≢ Token.EndOfText }
        ensures { Accepts token result self.old self.new }
    {
        let next = self.peek() == token;
        if next {
            self.advance();
        }
        next
    }

    /// Goes past the token, which has to be the next.
    pub(crate) fn expect(&mut self, token: Token) -> Result<(), Stop>
        requires { token ≢ Token.EndOfText }
        ensures { Passes token result self.old self.new }
    {
        if self.accept(token) {
            return Ok(());
        }
        Err(self.refused())
    }

    /// What was read, if the token behind it is the next, which is passed.
    pub(crate) fn close<T: Drop>(&mut self, read: T, token: Token) -> Result<T, Stop>
        requires { token ≢ Token.EndOfText }
        ensures ok { IfOk result (λ x. (x ≡ read) × (self.old ≡ token ∷ self.new)) }
        ensures err { IfErr result (λ stop. Passes token (Err stop) self.old self.new) }
    {
        match self.expect(token) {
            Ok(()) => Ok(read),
            Err(stop) => Err(stop),
        }
    }

    /// The fault that the next token can't stand where it does.
    pub(crate) fn refused(&self) -> Stop
        ensures { result ≡ Stop.Syntax (length self.now) }
    {
        Stop::Syntax { left: self.left() }
    }
}

/// Why reading stops.
#[derive(Clone, Copy)]
pub(crate) enum Stop {
    /// The next token can't stand where it does. So many are left with it, and none at the end.
    Syntax { left: usize },
    Memory,
}

impl From<AllocError> for Stop {
    ghost use Rattle.std.specs.Prelude.{◌≡◌};
    ghost use Rattle.tre_parse.specs.declared.cursor.Stop.{Stop};

    ghost from_gives = { λ _ stop. stop ≡ Stop.Memory };

    fn from(_: AllocError) -> Stop {
        Stop::Memory
    }
}
