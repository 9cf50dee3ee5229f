/// A token of an expression's text. A name goes by its number among those of its kind.
#[derive(Clone, Copy, PartialEq, Eq)]
pub enum Token {
    /// A name, by the number of its proposition. 64 stands for every name past the first 64.
    Name(u8),
    /// A name behind `event (`, by the number of its event. 64 stands for every one past the first
    /// 64.
    EventName(u8),
    /// A number of units. One above the latest time, or a decimal that is no number of units, is
    /// the one number after that.
    Number(u64),
    /// `(`
    LeftParen,
    /// `)`
    RightParen,
    /// `[`
    LeftBracket,
    /// `]`
    RightBracket,
    /// `{`
    LeftBrace,
    /// `}`
    RightBrace,
    /// `,`
    Comma,
    /// `;`
    Semicolon,
    /// `|`
    Bar,
    /// `||`
    DoubleBar,
    /// `&`
    Ampersand,
    /// `&&`
    DoubleAmpersand,
    /// `!`
    Bang,
    /// `*`
    Star,
    /// `+`
    Plus,
    /// `?`
    Question,
    /// `%`
    Percent,
    /// `<:`
    Begins,
    /// `:>`
    Ends,
    /// `eps`
    Eps,
    /// `rise`
    Rise,
    /// `fall`
    Fall,
    /// `inf`
    Inf,
    /// `true`
    True,
    /// `event`
    Event,
    /// No token: the text is at its end.
    EndOfText,
}

/// A token of a text, and the offset of its first byte.
#[derive(Clone, Copy)]
pub(crate) struct TokenAt {
    pub(crate) token: Token,
    pub(crate) at: u64,
}
