// A case, and what its lines say.

use crate::device::{Device, device_of};
use crate::pairs::pair_of;
use crate::text::put_bytes;
use std::alloc::{AllocError, Global};

/// What a run is given, and what it must come to: the words of the run, and the lines behind them.
#[derive(Clone, Copy)]
pub(crate) struct Case<'a> {
    pub(crate) words: &'a str,
    lines: &'a str,
}

impl<'a> Case<'a> {
    /// The case of a block of lines, of which the first has the words.
    pub(crate) fn new(block: &'a str) -> Case<'a> {
        let (words, lines) = block.split_once('\n').unwrap_or((block, ""));
        Case { words, lines }
    }

    /// The first line that is none of a case.
    pub(crate) fn unknown(&self) -> Option<&'a str> {
        for line in self.lines.lines() {
            if !is_known(&Line::new(line)) {
                return Some(line);
            }
        }
        None
    }

    /// The text of the first line of this word.
    pub(crate) fn text(&self, word: &str) -> Option<&'a str> {
        for line in self.lines.lines() {
            let line = Line::new(line);
            if line.word == word {
                return Some(line.text);
            }
        }
        None
    }

    /// The number of the line of this word.
    pub(crate) fn number(&self, word: &str) -> Option<u16> {
        self.text(word)?.parse::<u16>().ok()
    }

    /// The device of the line of this word.
    pub(crate) fn device(&self, word: &str) -> Option<Device> {
        device_of(self.text(word)?)
    }

    /// Puts the texts of all lines of this word behind the bytes, without their escapes.
    pub(crate) fn put_texts(&self, bytes: &mut Vec<u8>, word: &str) -> Result<(), AllocError> {
        for line in self.lines.lines() {
            let line = Line::new(line);
            if line.word == word {
                line.put_text(bytes)?;
            }
        }
        Ok(())
    }

    /// The texts of all lines of this word, without their escapes.
    pub(crate) fn texts(&self, alloc: Global, word: &str) -> Result<Vec<u8>, AllocError> {
        let mut bytes = Vec::new(alloc);
        self.put_texts(&mut bytes, word)?;
        Ok(bytes)
    }

    /// Whether each pair that a line of this word names is told, or is not.
    pub(crate) fn all_pairs(&self, word: &str, out: &[u8], is_told: bool) -> bool {
        for line in self.lines.lines() {
            let line = Line::new(line);
            if line.word == word && !line.has_pair(out, is_told) {
                return false;
            }
        }
        true
    }
}

/// A line that is taken so many times.
#[derive(Clone, Copy)]
struct Line<'a> {
    count: u32,
    word: &'a str,
    text: &'a str,
}

impl<'a> Line<'a> {
    fn new(line: &'a str) -> Line<'a> {
        let (word, text) = first_word(line);
        if word != "times" {
            return Line {
                count: 1,
                word,
                text,
            };
        }
        let (count, line) = first_word(text);
        let (word, text) = first_word(line);
        Line {
            count: count.parse::<u32>().unwrap_or(0),
            word,
            text,
        }
    }

    fn put_text(&self, bytes: &mut Vec<u8>) -> Result<(), AllocError> {
        for _ in 0..self.count {
            put_bytes(bytes, self.text)?;
        }
        Ok(())
    }

    fn has_pair(&self, out: &[u8], is_told: bool) -> bool {
        match pair_of(self.text) {
            Some(pair) => pair.is_told_by(out) == is_told,
            None => false,
        }
    }
}

fn first_word(line: &str) -> (&str, &str) {
    line.split_once(' ').unwrap_or((line, ""))
}

// Whether the line is one of a case, or says nothing.
fn is_known(line: &Line<'_>) -> bool {
    match line.word {
        "" | "<" | "again" | "checks" | ">" | "ends" | "!" | "file" | "word" | "says" => true,
        "=" | "alike" | "cuts" | "zones" => line.text.parse::<u16>().is_ok(),
        "reads" | "asks" | "writes" | "tells" => device_of(line.text).is_some(),
        "holds" | "lacks" => pair_of(line.text).is_some(),
        word => word.starts_with('#'),
    }
}
