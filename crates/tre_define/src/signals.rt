// The definitions of a text.
ghost use Rattle.std.specs.Prelude.{◌≡◌, ◌≢◌, ◌+◌, ◌≤◌, ◌∷◌, ◌++◌, [], length, IfErr, IfOk, IfSome, IfNone, None, OnOk};
ghost use Rattle.std.specs.List.{prefix_len};
ghost use Rattle.std.specs.Option.{option_map};
ghost use Rattle.std.specs.Str.{IsUtf8};
ghost use Rattle.tre_define.specs.Signals.{AreRefused, DefineSignals, SignalDefined, Spells, ends_signal, is_no_space, name_of_signal, signal_definition_of, signal_len};
ghost use Rattle.tre_define.specs.Texts.{PartHasFault, parts_of};
ghost use Rattle.tre_define.specs.declared.let_fault.LetFault.{LetFault};

use crate::behind::read_behind;
use crate::definition::SignalDefinition;
use crate::let_fault::LetFault;
use crate::pieces::{behind_equals, first_part, name_in, next_word, skip_spaces};
use crate::reads::Reads;
use std::alloc::Global;
use tre_state::front_len;

/// The definitions of a text, in their order, with `;` between two. Each is one of five:
/// `name = signal op number`, where the op is one of `<`, `<=`, `>`, `>=`, `==` and `!=`, and the
/// number is below 2^64, in decimal digits, or in others behind `0x` or `0b`; `name = signal op
/// signal`, where the second begins with no digit, `+` or `-`; `name = signal has letter`, where
/// the letter is one of `01xzuwlh-`; `name = signal`, a bit; and `name = signal changes`, an event.
/// Spaces alone may stand round each part. A signal's text goes on to the next space or sign, and
/// from its first backslash on to the next space. A text of spaces alone has no definition. The
/// first that is none, or that has the name of an earlier one, is told by its number.
pub fn read_signals(alloc: Global, text: &str) -> Result<Vec<SignalDefinition>, LetFault>
    ensures definitions { IfOk result (λ definitions.
        DefineSignals (parts_of text.now) definitions.items) }
    ensures refused { IfErr result (λ fault. fault ≢ LetFault.Memory →
        AreRefused (parts_of text.now) fault) }
{
    let mut definitions = Vec::new(alloc);
    let mut rest = text.as_bytes();
    if skip_spaces(rest).is_empty() {
        return Ok(definitions);
    }
    loop {
        let (part, behind) = first_part(rest);
        add_signal(alloc, &mut definitions, part)?;
        match behind {
            Some(behind) => rest = behind,
            None => return Ok(definitions),
        }
    }
}

/// Puts the definition that a part is behind the others. One that is none, or that has the name of
/// an earlier one, is refused with the number that it would have.
pub fn add_signal(
    alloc: Global,
    definitions: &mut Vec<SignalDefinition>,
    part: &[u8],
) -> Result<(), LetFault>
    requires { IsUtf8 part.now }
    ensures added { OnOk result ((defined : SignalDefined)
        × (definitions.new.items ≡ definitions.old.items ++ defined ∷ [])
        × Spells part.now defined
        × (signal_definition_of definitions.old.items defined.name ≡ None)) }
    ensures fault { IfErr result (λ fault. fault ≢ LetFault.Memory →
        PartHasFault Spells name_of_signal definitions.old.items (length definitions.old.items + 1)
        part.now fault) }
{
    let at = definitions.len() as u64 + 1;
    let Some(parts) = parts_in(part) else {
        return Err(LetFault::BadLet { at });
    };
    if definition_of(definitions, parts.name).is_some() {
        return Err(LetFault::Twice { at });
    }
    let name = String::from_str(alloc, parts.name)?;
    let signal = String::from_str(alloc, parts.signal)?;
    let other = String::from_str(alloc, parts.other)?;
    let definition = SignalDefinition::new(name, signal, parts.reads, other);
    if definitions.push(definition).is_err() {
        return Err(LetFault::Memory);
    }
    Ok(())
}

// The definition of a name.
fn definition_of<'a>(
    definitions: &'a [SignalDefinition],
    name: &str,
) -> Option<&'a SignalDefinition>
    ensures { option_map (λ found. found.now) result
        ≡ signal_definition_of definitions.now name.now }
{
    for definition in definitions {
        if definition.name() == name {
            return Some(definition);
        }
    }
    None
}

// The parts of a definition, where they stand in its text.
#[derive(Clone, Copy)]
struct Parts<'a> {
    pub name: &'a str,
    pub signal: &'a str,
    pub reads: Reads,
    // Of the other signal; empty where there is none.
    pub other: &'a str,
}

// The parts of a definition, if the text is one.
fn parts_in(text: &[u8]) -> Option<Parts<'_>>
    requires { IsUtf8 text.now }
    ensures some { IfSome result (λ parts. Spells text.now (record {
      name = parts.name.now;
      signal = parts.signal.now;
      reads = parts.reads;
      other = parts.other.now;
    })) }
    ensures none { IfNone result ((defined : SignalDefined) → ¬ Spells text.now defined) }
{
    let (name, rest) = next_word(text);
    let name = name_in(name)?;
    let rest = skip_spaces(behind_equals(rest)?);
    let len = signal_len(rest);
    if len == 0 {
        return None;
    }
    let Ok(signal) = str::from_utf8(&rest[..len]) else {
        return None;
    };
    let behind = read_behind(&rest[len..])?;
    let Ok(other) = str::from_utf8(behind.other) else {
        return None;
    };
    Some(Parts {
        name,
        signal,
        reads: behind.reads,
        other,
    })
}

/// How many bytes in front are a signal's text.
pub(crate) fn signal_len(bytes: &[u8]) -> usize
    ensures len { result ≡ signal_len bytes.now }
    ensures within { result ≤ length bytes.now }
{
    for (place, &byte) in bytes.iter().enumerate() {
        if byte == b'\\' {
            return place + piece_len(&bytes[place..]);
        }
        if ends_signal(byte) {
            return place;
        }
    }
    bytes.len()
}

// A space, or the first byte of a comparison's sign.
fn ends_signal(byte: u8) -> bool
    ensures { result ≡ ends_signal byte }
{
    byte == b' ' || byte == b'<' || byte == b'=' || byte == b'>' || byte == b'!'
}

/// How many bytes stand before the next space.
pub(crate) fn piece_len(bytes: &[u8]) -> usize
    ensures len { result ≡ prefix_len is_no_space bytes.now }
    ensures within { result ≤ length bytes.now }
{
    front_len(bytes, |byte| byte != b' ')
}
