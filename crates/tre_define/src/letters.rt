// The letters of values.
ghost use Rattle.std.specs.Prelude.{◌≡◌};
ghost use Rattle.std.specs.List.{list_all};
ghost use Rattle.tre_define.specs.Values.{extension, is_bit, letter_at, letters_of};

use crate::part::Part;

/// Whether the letter is `0` or `1`.
pub(crate) fn is_bit(letter: u8) -> bool
    ensures { result ≡ is_bit letter }
{
    letter == b'0' || letter == b'1'
}

/// Whether each letter is `0` or `1`.
pub(crate) fn are_bits(letters: &[u8]) -> bool
    ensures { result ≡ list_all is_bit letters.now }
{
    letters.iter().all(|&letter| is_bit(letter))
}

/// The letters of a part that stand in those of a value.
pub(crate) fn letters_of(part: Part, letters: &[u8]) -> &[u8]
    ensures { result.now ≡ letters_of part letters.now }
{
    let len = letters.len() as u64;
    let end = len.saturating_sub(part.low);
    let start = end.saturating_sub(part.width);
    &letters[start as usize..end as usize]
}

/// The letter of a bit, in lower case.
pub(crate) fn letter_at(letters: &[u8], bit: u64) -> u8
    ensures { result ≡ letter_at letters.now bit }
{
    let len = letters.len() as u64;
    if bit < len {
        return letters[(len - 1 - bit) as usize].to_ascii_lowercase();
    }
    extension(letters)
}

// The letter that a value goes on with left of its own. Without letters all bits are unknown.
fn extension(letters: &[u8]) -> u8
    ensures { result ≡ extension letters.now }
{
    match letters {
        [] => b'x',
        [first, ..] if is_bit(*first) => b'0',
        [first, ..] => first.to_ascii_lowercase(),
    }
}
