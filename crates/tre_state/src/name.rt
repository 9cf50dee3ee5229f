ghost use Rattle.std.specs.Prelude.{◌≡◌, ◌↔◌, IsTrue};
ghost use Rattle.tre_state.specs.Name.{starts_name, continues_name, is_reserved, IsWord, IsName};

/// The words that expressions keep for themselves.
pub const RESERVED: [&str; 6] = ["eps", "rise", "fall", "inf", "true", "event"];

/// Whether a name may begin with this byte: a letter A to Z or a to z, or `_`.
pub fn starts_name(byte: u8) -> bool
    ensures { result ≡ starts_name byte }
{
    byte.is_ascii_alphabetic() || byte == b'_'
}

/// Whether this byte may stand in a name after its first: a letter, a digit, `_` or `.`.
pub fn continues_name(byte: u8) -> bool
    ensures { result ≡ continues_name byte }
{
    byte.is_ascii_alphanumeric() || byte == b'_' || byte == b'.'
}

/// Whether the bytes are spelt as a name is. Reserved words are.
pub fn is_word(bytes: &[u8]) -> bool
    ensures { IsTrue result ↔ IsWord bytes.now }
{
    match bytes {
        [] => false,
        [first, rest @ ..] => starts_name(*first) && rest.iter().all(|&byte| continues_name(byte)),
    }
}

/// Whether the text is a name: spelt as one, and no reserved word.
pub fn is_name(text: &str) -> bool
    ensures { IsTrue result ↔ IsName text.now }
{
    is_word(text.as_bytes()) && !is_reserved(text)
}

// Whether the text is one of the words that expressions keep for themselves.
fn is_reserved(text: &str) -> bool
    ensures { result ≡ is_reserved text.now }
{
    RESERVED.contains(&text)
}
