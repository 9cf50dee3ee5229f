// What stands behind a signal's text in a definition.
ghost use Rattle.std.specs.Prelude.{◌≡◌, []};
ghost use Rattle.std.specs.Option.{option_map};
ghost use Rattle.tre_define.specs.Behind.{asked_by_word, is_changes_word, last_number, last_signal, letter_behind, read_behind, read_compared};
ghost use Rattle.tre_define.specs.Signals.{begins_number, is_letter};

use crate::comparison::Comparison;
use crate::number::number_in;
use crate::pieces::{next_word, sign_in, skip_spaces};
use crate::reads::Reads;
use crate::signals::{piece_len, signal_len};

/// What is read, and the text of the other signal; empty where there is none.
#[derive(Clone, Copy)]
pub(crate) struct Behind<'a> {
    pub reads: Reads,
    pub other: &'a [u8],
}

/// What is read by what stands behind a signal's text.
pub(crate) fn read_behind(behind: &[u8]) -> Option<Behind<'_>>
    ensures { option_map (λ read. record {
      reads = read.reads;
      other = read.other.now;
    }) result ≡ read_behind behind.now }
{
    let text = skip_spaces(behind);
    if text.is_empty() {
        return Some(alone(Reads::Bit));
    }
    match sign_in(text) {
        Some((comparison, rest)) => read_compared(comparison, rest),
        None => Some(alone(asked_by_word(behind)?)),
    }
}

// This is read of one signal.
fn alone<'a>(reads: Reads) -> Behind<'a>
    ensures reads { result.reads ≡ reads }
    ensures other { result.other.now ≡ [] }
{
    Behind {
        reads,
        other: b"".as_slice(),
    }
}

// What is read by what stands behind a sign: a number, or the text of another signal.
fn read_compared(comparison: Comparison, rest: &[u8]) -> Option<Behind<'_>>
    ensures { option_map (λ read. record {
      reads = read.reads;
      other = read.other.now;
    }) result ≡ read_compared comparison rest.now }
{
    let text = skip_spaces(rest);
    if begins_number(text) {
        return Some(alone(Reads::Compared(comparison, last_number(rest)?)));
    }
    Some(Behind {
        reads: Reads::Beside(comparison),
        other: last_signal(text)?,
    })
}

// The signal's text that the text is, with spaces behind it.
fn last_signal(text: &[u8]) -> Option<&[u8]>
    ensures { option_map (λ signal. signal.now) result ≡ last_signal text.now }
{
    let len = signal_len(text);
    if len == 0 || !skip_spaces(&text[len..]).is_empty() {
        return None;
    }
    Some(&text[..len])
}

// Whether what stands behind a sign is no signal's text.
fn begins_number(text: &[u8]) -> bool
    ensures { result ≡ begins_number text.now }
{
    match text {
        [] => false,
        [first, ..] => first.is_ascii_digit() || *first == b'+' || *first == b'-',
    }
}

// What is read by the words behind a signal's text: its changes, or a letter.
fn asked_by_word(behind: &[u8]) -> Option<Reads>
    ensures { result ≡ asked_by_word behind.now }
{
    if is_changes(behind) {
        return Some(Reads::Changes);
    }
    Some(Reads::Has(letter_behind(skip_spaces(behind))?))
}

// Whether the text is the word for changes, with spaces round it.
fn is_changes(text: &[u8]) -> bool
    ensures { result ≡ is_changes_word text.now }
{
    let (word, rest) = next_word(text);
    word == b"changes".as_slice() && rest.is_empty()
}

// The letter behind the word for it and a space, with spaces round it.
fn letter_behind(text: &[u8]) -> Option<u8>
    ensures { result ≡ letter_behind text.now }
{
    match skip_spaces(text.strip_prefix(b"has ".as_slice())?) {
        [letter, rest @ ..] if is_letter(*letter) && skip_spaces(rest).is_empty() => Some(*letter),
        _ => None,
    }
}

// Whether it is a letter of a bit, in lower case.
fn is_letter(byte: u8) -> bool
    ensures { result ≡ is_letter byte }
{
    b"01xzuwlh-".contains(&byte)
}

// The number that the text is, with spaces round it.
fn last_number(text: &[u8]) -> Option<u64>
    ensures { result ≡ last_number text.now }
{
    let text = skip_spaces(text);
    let len = piece_len(text);
    if !skip_spaces(&text[len..]).is_empty() {
        return None;
    }
    number_in(&text[..len])
}
