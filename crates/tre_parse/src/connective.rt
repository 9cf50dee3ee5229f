ghost use Rattle.std.specs.Prelude.{◌≡◌};
ghost use Rattle.tre_parse.specs.Joins.{connective_sign, join_sign};

use crate::token::Token;

/// How two states are joined.
#[derive(Clone, Copy)]
pub(crate) enum Connective {
    And,
    Or,
}

impl Connective {
    /// The token between the two.
    pub(crate) fn sign(self) -> Token
        ensures { result ≡ connective_sign self }
    {
        match self {
            Connective::And => Token::DoubleAmpersand,
            Connective::Or => Token::DoubleBar,
        }
    }
}

/// How two expressions are joined.
#[derive(Clone, Copy)]
pub(crate) enum Join {
    Sequence,
    Intersection,
    Alternation,
}

impl Join {
    /// The token between the two.
    pub(crate) fn sign(self) -> Token
        ensures { result ≡ join_sign self }
    {
        match self {
            Join::Sequence => Token::Semicolon,
            Join::Intersection => Token::Ampersand,
            Join::Alternation => Token::Bar,
        }
    }
}
