// What stands in a token.
ghost use Rattle.std.specs.Prelude.{◌≡◌, ◌==◌, ◌||◌, ℕ, List, not};
ghost use Rattle.std.specs.Str.{bytes_eq};
ghost use Rattle.tre_vcd.specs.Letters.{letter_of};
ghost use Rattle.tre_vcd.specs.VcdReading.{is_end, is_dump, is_command, is_signal, is_event, has_bits};
ghost use Rattle.tre_vcd.specs.Kept.{ends_true};

// Whether the token is this word.
pub fn is(token: &[u8], word: &str) -> bool
    ensures { result ≡ bytes_eq token.now word.now }
{
    token == word.as_bytes()
}

/// Whether the token ends a section.
pub fn is_end(token: &[u8]) -> bool
    ensures { result ≡ is_end token.now }
{
    is(token, "$end")
}

/// Whether the token opens a dump section.
pub fn is_dump(token: &[u8]) -> bool
    ensures { result ≡ is_dump token.now }
{
    is(token, "$dumpall") || is(token, "$dumpoff") || is(token, "$dumpon") || is(token, "$dumpvars")
}

// Whether the token begins as a command.
fn is_command(token: &[u8]) -> bool
    ensures { result ≡ is_command token.now }
{
    match token {
        [] => false,
        [first, ..] => *first == b'$',
    }
}

/// Whether the token opens no section of the declarations.
pub fn is_misplaced(token: &[u8]) -> bool
    ensures { result ≡ (not (is_command token.now) || is_end token.now || is_dump token.now) }
{
    !is_command(token) || is_end(token) || is_dump(token)
}

/// What a token among the values is, by its first byte.
#[derive(Clone, Copy)]
pub enum Letter {
    Time,
    Keyword,
    Vector,
    /// Of a real or a string.
    Number,
    Scalar,
    Other,
}

/// What a token is that begins with this byte.
#[inline(always)]
pub fn letter_of(byte: u8) -> Letter
    ensures { result ≡ letter_of byte }
{
    match byte {
        b'0' | b'1' | b'x' | b'X' | b'z' | b'Z' | b'u' | b'U' => Letter::Scalar,
        b'#' => Letter::Time,
        b'b' | b'B' => Letter::Vector,
        b'r' | b'R' | b's' | b'S' => Letter::Number,
        b'w' | b'W' | b'l' | b'L' | b'h' | b'H' | b'-' => Letter::Scalar,
        b'$' => Letter::Keyword,
        _ => Letter::Other,
    }
}

/// Whether the byte is `0` or `1`, which are the values of most scalar changes.
#[inline(always)]
pub fn is_bit(byte: u8) -> bool
    ensures { result ≡ (byte == 48 || byte == 49) }
{
    byte == b'0' || byte == b'1'
}

// Whether the byte begins a vector.
#[inline(always)]
fn is_vector(byte: u8) -> bool
    ensures { result ≡ (byte == 98 || byte == 66) }
{
    byte == b'b' || byte == b'B'
}

/// The same as [`letter_of`], which is asked only where the byte isn't one of those that begin most
/// tokens.
#[inline(always)]
pub fn frequent_letter_of(byte: u8) -> Letter
    ensures { result ≡ letter_of byte }
{
    if is_bit(byte) {
        return Letter::Scalar;
    }
    if is_vector(byte) {
        return Letter::Vector;
    }
    if byte == b'#' {
        return Letter::Time;
    }
    letter_of(byte)
}

/// Whether the value of a vector is true: its last byte is `1`.
pub fn ends_true(value: &[u8]) -> bool
    ensures { result ≡ ends_true value.now }
{
    let len = value.len();
    len > 0 && value[len - 1] == b'1'
}

/// Whether a variable of this type and size is a Boolean.
pub fn is_signal(kind: &[u8], size: &[u8]) -> bool
    ensures { result ≡ is_signal kind.now size.now }
{
    is(size, "1") && !(is(kind, "real") || is(kind, "realtime") || is(kind, "event"))
}

/// Whether the values of a variable of this type are bits.
pub fn has_bits(kind: &[u8]) -> bool
    ensures { result ≡ has_bits kind.now }
{
    !(is(kind, "real") || is(kind, "realtime") || is(kind, "string") || is(kind, "event"))
}

/// Whether a variable of this type is an event, whatever its size.
pub fn is_event(kind: &[u8]) -> bool
    ensures { (size : List ℕ) → result ≡ is_event kind.now size }
{
    is(kind, "event")
}
