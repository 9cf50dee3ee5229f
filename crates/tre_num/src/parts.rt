// The parts of one definition.
ghost use Rattle.std.specs.Prelude.{◌≡◌, ◌≤◌, length, IfNone, IfSome};
ghost use Rattle.std.specs.List.{prefix_len};
ghost use Rattle.tre_num.specs.Defined.{Defined};
ghost use Rattle.tre_num.specs.Definitions.{Spells};
ghost use Rattle.tre_num.specs.Whole.{is_whole_byte};
ghost use Rattle.tre_define.specs.Pieces.{behind_piece, piece};

use crate::whole::read_whole;
use tre_define::{Comparison, behind_equals, name_in, next_word, sign_in, skip_spaces, word_in};
use tre_state::front_len;

/// The parts of a definition, where they stand in its text.
#[derive(Clone, Copy)]
pub(crate) struct Parts<'a> {
    pub name: &'a str,
    pub column: &'a str,
    pub comparison: Comparison,
    pub value: i64,
}

/// The parts of a definition, if the text is one.
pub(crate) fn parts_in(text: &[u8]) -> Option<Parts<'_>>
    ensures some { IfSome result (λ parts. Spells text.now (record {
      name = parts.name.now;
      column = parts.column.now;
      comparison = parts.comparison;
      value = parts.value;
    })) }
    ensures none { IfNone result ((defined : Defined) → ¬ Spells text.now defined) }
{
    let (name, rest) = next_word(text);
    let name = name_in(name)?;
    let rest = behind_equals(rest)?;
    let (column, rest) = next_word(rest);
    let column = word_in(column)?;
    let (comparison, rest) = sign_in(rest)?;
    let (number, rest) = next_number(rest);
    let value = read_whole(number)?;
    if !rest.is_empty() {
        return None;
    }
    Some(Parts {
        name,
        column,
        comparison,
        value,
    })
}

// The longest run of bytes of whole numbers behind spaces, and what stands behind it and further
// spaces.
fn next_number(bytes: &[u8]) -> (&[u8], &[u8])
    ensures run { result.0.now ≡ piece is_whole_byte bytes.now }
    ensures rest { result.1.now ≡ behind_piece is_whole_byte bytes.now }
{
    let bytes = skip_spaces(bytes);
    let len = number_len(bytes);
    (&bytes[..len], skip_spaces(&bytes[len..]))
}

// How many bytes of a whole number stand in front.
fn number_len(bytes: &[u8]) -> usize
    ensures len { result ≡ prefix_len is_whole_byte bytes.now }
    ensures within { result ≤ length bytes.now }
{
    front_len(bytes, is_whole_byte)
}

fn is_whole_byte(byte: u8) -> bool
    ensures { result ≡ is_whole_byte byte }
{
    byte.is_ascii_digit() || byte == b'-'
}
