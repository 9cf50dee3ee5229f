ghost use Rattle.std.specs.Prelude.{◌≡◌};
ghost use Rattle.tre_parse.specs.Known.{numbered, kind_behind, before_sign, behind_paren};

use crate::token::Token;
use tre_syntax::NameKind;

/// What stands right before a token, as far as it says of which kind a name there is.
#[derive(Clone, Copy)]
pub enum Before {
    /// `event`
    EventWord,
    /// `event (`
    EventParen,
    /// Anything else, or nothing.
    Other,
}

impl Before {
    /// The kind of a name that stands there.
    pub(crate) fn kind(self) -> NameKind
        ensures { result ≡ kind_behind self }
    {
        match self {
            Before::EventParen => NameKind::Event,
            Before::EventWord => NameKind::Proposition,
            Before::Other => NameKind::Proposition,
        }
    }

    /// What stands before the next token, once a token that is no name does here.
    pub(crate) fn sign(self, token: Token) -> Before
        ensures { result ≡ before_sign self token }
    {
        match token {
            Token::Event => Before::EventWord,
            Token::LeftParen => self.paren(),
            _ => Before::Other,
        }
    }

    fn paren(self) -> Before
        ensures { result ≡ behind_paren self }
    {
        match self {
            Before::EventWord => Before::EventParen,
            Before::EventParen => Before::Other,
            Before::Other => Before::Other,
        }
    }
}

/// The token of the name of a kind that has the number.
pub(crate) fn numbered(kind: NameKind, number: u8) -> Token
    ensures { result ≡ numbered kind number }
{
    match kind {
        NameKind::Proposition => Token::Name(number),
        NameKind::Event => Token::EventName(number),
    }
}
