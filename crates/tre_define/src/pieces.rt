// What texts of definitions are cut into.
ghost use Rattle.std.specs.Prelude.{◌≡◌, ◌<◌, ◌≤◌, ◌∷◌, length, IfNone, IfSome};
ghost use Rattle.std.specs.List.{prefix_len, slice_split};
ghost use Rattle.std.specs.Option.{option_map};
ghost use Rattle.std.specs.Str.{IsUtf8};
ghost use Rattle.tre_state.specs.Name.{continues_name, IsName, IsWord};
ghost use Rattle.tre_define.specs.Pieces.{behind_equals, behind_piece, parts_behind, past_spaces, piece, sign_in};
ghost use Rattle.tre_define.specs.Texts.{is_semicolon, is_space};

use crate::comparison::Comparison;
use tre_state::{continues_name, front_len, is_name, is_word};

/// What stands before the first semicolon, and what behind it, if there is one.
pub fn first_part(bytes: &[u8]) -> (&[u8], Option<&[u8]>)
    ensures parts { slice_split is_semicolon bytes.now
        ≡ result.0.now ∷ parts_behind (option_map (λ rest. rest.now) result.1) }
    ensures shorter { IfSome result.1 (λ rest. length rest.now < length bytes.now) }
    ensures text { IsUtf8 bytes.now → IsUtf8 result.0.now }
    ensures rest_text { IsUtf8 bytes.now → IfSome result.1 (λ rest. IsUtf8 rest.now) }
{
    for (place, &byte) in bytes.iter().enumerate() {
        if byte == b';' {
            return (&bytes[..place], Some(&bytes[place + 1..]));
        }
    }
    (bytes, None)
}

/// The bytes without the spaces in front.
pub fn skip_spaces(bytes: &[u8]) -> &[u8]
    ensures { result.now ≡ past_spaces bytes.now }
{
    &bytes[spaces_len(bytes)..]
}

// How many spaces stand in front.
fn spaces_len(bytes: &[u8]) -> usize
    ensures len { result ≡ prefix_len is_space bytes.now }
    ensures within { result ≤ length bytes.now }
{
    front_len(bytes, |byte| byte == b' ')
}

/// The longest run of bytes of names behind spaces, and what stands behind it and further spaces.
pub fn next_word(bytes: &[u8]) -> (&[u8], &[u8])
    ensures run { result.0.now ≡ piece continues_name bytes.now }
    ensures rest { result.1.now ≡ behind_piece continues_name bytes.now }
{
    let bytes = skip_spaces(bytes);
    let len = word_len(bytes);
    (&bytes[..len], skip_spaces(&bytes[len..]))
}

// How many bytes of a name stand in front.
fn word_len(bytes: &[u8]) -> usize
    ensures len { result ≡ prefix_len continues_name bytes.now }
    ensures within { result ≤ length bytes.now }
{
    front_len(bytes, |byte| continues_name(byte))
}

/// The name that the bytes are, if they are one.
pub fn name_in(bytes: &[u8]) -> Option<&str>
    ensures some { IfSome result (λ name. (name.now ≡ bytes.now) × IsName bytes.now) }
    ensures none { IfNone result (¬ IsName bytes.now) }
{
    let name = word_in(bytes)?;
    if is_name(name) { Some(name) } else { None }
}

/// The text that the bytes are, if they are spelt as a name is.
pub fn word_in(bytes: &[u8]) -> Option<&str>
    ensures some { IfSome result (λ word. (word.now ≡ bytes.now) × IsWord bytes.now) }
    ensures none { IfNone result (¬ IsWord bytes.now) }
{
    if !is_word(bytes) {
        return None;
    }
    match str::from_utf8(bytes) {
        Ok(word) => Some(word),
        Err(_) => None,
    }
}

/// What stands behind the `=` in front, if there is one.
pub fn behind_equals(bytes: &[u8]) -> Option<&[u8]>
    ensures { option_map (λ rest. rest.now) result ≡ behind_equals bytes.now }
{
    match bytes {
        [b'=', rest @ ..] => Some(rest),
        _ => None,
    }
}

/// The longest sign in front, and what stands behind it.
pub fn sign_in(bytes: &[u8]) -> Option<(Comparison, &[u8])>
    ensures { option_map (λ signed. record {
      comparison = signed.0;
      rest = signed.1.now;
    }) result ≡ sign_in bytes.now }
{
    match bytes {
        [b'<', b'=', rest @ ..] => Some((Comparison::AtMost, rest)),
        [b'>', b'=', rest @ ..] => Some((Comparison::AtLeast, rest)),
        [b'=', b'=', rest @ ..] => Some((Comparison::Equal, rest)),
        [b'!', b'=', rest @ ..] => Some((Comparison::Unequal, rest)),
        [b'<', rest @ ..] => Some((Comparison::Less, rest)),
        [b'>', rest @ ..] => Some((Comparison::Greater, rest)),
        _ => None,
    }
}
