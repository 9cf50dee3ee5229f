// Plain lines that are read at once.
ghost use Rattle.std.specs.Prelude.{◌≡◌, ◌≢◌, ◌+◌, ◌<◌, ◌≤◌, ℕ, AllPairs, List, length, true};
ghost use Rattle.tre_decimal.specs.declared.TheConstants.{SCALE_MAX};
ghost use Rattle.tre_parts.specs.Bytes.{IsNextAt};
ghost use Rattle.tre_parts.specs.Marks.{AreMarks};
ghost use Rattle.tre_parts.specs.Skims.{Skims};
ghost use Rattle.tre_parts.specs.declared.TheConstants.{PART_MAX};
ghost use Rattle.tre_text.specs.Lines.{Knows};
ghost use Rattle.tre_text.specs.Plain.{asked_of, IsBehindWord};
ghost use Rattle.tre_text.specs.TextReading.{Past, text_format};
ghost use Rattle.tre_text.specs.declared.skim.BehindWord.{BehindWord};
ghost use Rattle.tre_text.specs.Words.{stops_name};

use crate::field::is_blank;
use crate::known::Known;
use crate::open_line::OpenLine;
use crate::word::Stop;
use std::alloc::Global;
use tre_parts::{Marks, Skimmed};
use tre_state::Names;
use tre_trace::Segment;

// What stands behind a word.
#[derive(Clone, Copy)]
pub enum BehindWord {
    Blank,
    // The line ends, with the byte at this place.
    End(usize),
    Other,
}

// What stands at this place.
#[inline(always)]
fn behind_word(bytes: &[u8], place: usize) -> BehindWord
    requires { place < length bytes.now }
    ensures { IsBehindWord bytes.now place result }
{
    let byte = bytes[place];
    if is_blank(byte) {
        return BehindWord::Blank;
    }
    if byte == b'\n' {
        return BehindWord::End(place);
    }
    let next = place + 1;
    if byte == b'\r' && next < bytes.len() && bytes[next] == b'\n' {
        return BehindWord::End(next);
    }
    BehindWord::Other
}

// Reads lines from the front on, as long as they are plain.
#[inline(never)]
pub fn skim_lines(
    names: &Names,
    scale: u8,
    known: &mut Known,
    bytes: &[u8],
    segments: &mut Vec<Segment>,
) -> Skimmed
    requires long { 16 ≤ length bytes.now }
    requires short { length bytes.now ≤ PART_MAX }
    requires scale { scale ≤ SCALE_MAX }
    requires distinct { AllPairs (λ name other. name ≢ other) names.now }
    ensures skims { (events : List (List ℕ)) (past : Past) → Knows events known.old past →
        Skims (asked_of names.now events) (text_format scale) (Knows events known.new) past
        bytes.now segments.old.items segments.new.items result }
    ensures within { result.bytes ≤ length bytes.now }
{
    let mut done = Skimmed { bytes: 0, parts: 0 };
    let mut line = OpenLine::new();
    let mut start = 0;
    let mut marks = Marks::of::<Stop>(bytes);
    while let Some(place) = marks.next_from::<Stop>(bytes, start) {
        if !line.add(names, scale, *known, &bytes[start..place]) {
            return done;
        }
        match behind_word(bytes, place) {
            BehindWord::Blank => start = place + 1,
            BehindWord::End(end) => {
                if !goes_on(&mut marks, bytes, place, end) {
                    return done;
                }
                if !line.end(known, segments) {
                    return done;
                }
                line = OpenLine::new();
                start = end + 1;
                done = done.with_part(end);
            }
            BehindWord::Other => return done,
        }
    }
    done
}

// Whether the marks go on behind the end of a line, whose word ends at this place.
#[inline(always)]
fn goes_on(marks: &mut Marks, bytes: &[u8], place: usize, end: usize) -> bool
    requires marks { AreMarks stops_name bytes.now (place + 1) marks.old }
    requires ends { IsBehindWord bytes.now place (BehindWord.End end) }
    ensures { result ≡ true → AreMarks stops_name bytes.now (end + 1) marks.new }
{
    if end == place {
        return true;
    }
    marks.next_from::<Stop>(bytes, end) == Some(end)
}
