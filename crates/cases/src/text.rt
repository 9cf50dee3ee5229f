// Words and bytes, as a case spells them.

use crate::case::Case;
use std::alloc::{AllocError, Global};

/// These words, and those of the case: apart by blanks. A word in single quotes may have blanks, or
/// be empty. The text of the lines `word` stands behind the last one.
pub(crate) fn words_of(
    alloc: Global,
    first: &str,
    case: &Case<'_>,
) -> Result<Vec<String>, AllocError> {
    let mut words = Vec::new(alloc);
    put_all_words(alloc, &mut words, first, case)?;
    Ok(words)
}

fn put_all_words(
    alloc: Global,
    words: &mut Vec<String>,
    first: &str,
    case: &Case<'_>,
) -> Result<(), AllocError> {
    put_words(alloc, words, first, false)?;
    let mut quoted = false;
    for part in case.words.split('\'') {
        put_words(alloc, words, part, quoted)?;
        quoted = !quoted;
    }
    match words.last_mut() {
        Some(last) => put_behind(alloc, last, case),
        None => Ok(()),
    }
}

fn put_words(
    alloc: Global,
    words: &mut Vec<String>,
    part: &str,
    quoted: bool,
) -> Result<(), AllocError> {
    if quoted {
        return put_word(alloc, words, part);
    }
    for word in part.split_whitespace() {
        put_word(alloc, words, word)?;
    }
    Ok(())
}

fn put_word(alloc: Global, words: &mut Vec<String>, part: &str) -> Result<(), AllocError> {
    let mut bytes = Vec::new(alloc);
    put_bytes(&mut bytes, part)?;
    words.push(String::from_str(alloc, text_of(&bytes))?)?;
    Ok(())
}

fn put_behind(alloc: Global, last: &mut String, case: &Case<'_>) -> Result<(), AllocError> {
    let bytes = case.texts(alloc, "word")?;
    last.push_str(text_of(&bytes))
}

/// The text of these bytes. Where they are none, it is empty.
pub(crate) fn text_of(bytes: &[u8]) -> &str {
    str::from_utf8(bytes).unwrap_or_default()
}

/// How far an escape has come.
#[derive(Clone, Copy)]
enum Escape {
    None,
    Begun,
    Digits,
    LastDigit(u8),
}

/// Puts the bytes of the text behind the others, without its escapes.
pub(crate) fn put_bytes(bytes: &mut Vec<u8>, text: &str) -> Result<(), AllocError> {
    let mut escape = Escape::None;
    for &byte in text.as_bytes() {
        escape = put_byte(bytes, escape, byte)?;
    }
    Ok(())
}

fn put_byte(bytes: &mut Vec<u8>, escape: Escape, byte: u8) -> Result<Escape, AllocError> {
    match escape {
        Escape::None if byte == b'\\' => return Ok(Escape::Begun),
        Escape::Begun if byte == b'x' => return Ok(Escape::Digits),
        Escape::Digits => return Ok(Escape::LastDigit(digit_of(byte))),
        Escape::None => bytes.push(byte)?,
        Escape::Begun => bytes.push(escaped(byte))?,
        Escape::LastDigit(first) => bytes.push(first << 4 | digit_of(byte))?,
    }
    Ok(Escape::None)
}

fn escaped(byte: u8) -> u8 {
    match byte {
        b'n' => b'\n',
        b'r' => b'\r',
        b't' => b'\t',
        other => other,
    }
}

fn digit_of(byte: u8) -> u8 {
    match byte {
        b'0'..=b'9' => byte - b'0',
        b'a'..=b'f' => byte - b'a' + 10,
        _ => 0,
    }
}
