// A line that is read word by word.
ghost use Rattle.std.specs.Prelude.{◌≡◌, ◌≢◌, ◌<◌, ◌≤◌, ℕ, AllPairs, List, [], ◌∷◌, ◌++◌, length, true};
ghost use Rattle.std.specs.List.{list_all};
ghost use Rattle.tre_decimal.specs.declared.TheConstants.{SCALE_MAX};
ghost use Rattle.tre_parts.specs.Skims.{TakesPart};
ghost use Rattle.tre_state.specs.Name.{continues_name, starts_name};
ghost use Rattle.tre_text.specs.Lines.{Knows};
ghost use Rattle.tre_text.specs.Plain.{asked_of, IsOpened};
ghost use Rattle.tre_text.specs.TextReading.{Past, fields_among, fields_say};

use crate::known::Known;
use crate::line::{length_of, with_name};
use std::alloc::Global;
use tre_decimal::begins_with_a_digit;
use tre_pairs::TIME_MAX;
use tre_state::Names;
use tre_trace::Segment;

// What the words of a line say that isn't ended yet.
#[derive(Clone, Copy)]
pub struct OpenLine {
    // Its duration in ticks; 0 where it has none yet.
    pub len: u64,
    // What is true on it.
    pub val: u64,
}

impl OpenLine {
    // No word was read.
    #[inline(always)]
    pub fn new() -> OpenLine
        ensures { result ≡ record { len = 0; val = 0 } }
    {
        OpenLine { len: 0, val: 0 }
    }

    // Reads its next word, if one stands there, and says whether it has no fault.
    #[inline(always)]
    pub fn add(&mut self, names: &Names, scale: u8, known: Known, word: &[u8]) -> bool
        requires scale { scale ≤ SCALE_MAX }
        requires whole { list_all continues_name word.now ≡ true }
        ensures { (fields : List (List ℕ)) → IsOpened names.now scale known.end fields self.old →
            result ≡ true →
            IsOpened names.now scale known.end (fields ++ fields_among word.now) self.new }
    {
        if word.is_empty() {
            return true;
        }
        if self.len > 0 {
            return self.add_name(names, word);
        }
        self.add_length(scale, known, word)
    }

    // Reads its duration.
    #[inline(always)]
    fn add_length(&mut self, scale: u8, known: Known, word: &[u8]) -> bool
        requires scale { scale ≤ SCALE_MAX }
        requires begun { self.old.len ≡ 0 }
        ensures { (names fields : List (List ℕ)) →
            IsOpened names scale known.end fields self.old → result ≡ true →
            IsOpened names scale known.end (fields ++ word.now ∷ []) self.new }
    {
        // For the proof: what is a number of units is no comment and no sign of events.
        begins_with_a_digit();
        let Some(len) = length_of(word, scale) else {
            return false;
        };
        if len == 0 || known.end.saturating_add(len) > TIME_MAX {
            return false;
        }
        self.len = len;
        true
    }

    // Reads the name of what is true on it.
    #[inline(always)]
    fn add_name(&mut self, names: &Names, word: &[u8]) -> bool
        requires some { 0 < length word.now }
        requires whole { list_all continues_name word.now ≡ true }
        requires begun { 0 < self.old.len }
        ensures { (fields : List (List ℕ)) (scale end : ℕ) →
            IsOpened names.now scale end fields self.old → result ≡ true →
            IsOpened names.now scale end (fields ++ word.now ∷ []) self.new }
    {
        if !starts_name(word[0]) {
            return false;
        }
        self.val = with_name(names, self.val, word);
        true
    }

    // The line ends: puts its segment behind the others, where it has one. False where no memory is
    // left for it.
    #[inline(always)]
    pub fn end(self, known: &mut Known, segments: &mut Vec<Segment>) -> bool
        ensures { (names events fields : List (List ℕ)) (scale : ℕ) (past : Past) →
            AllPairs (λ name other. name ≢ other) names → Knows events known.old past →
            IsOpened names scale known.old.end fields self →
            TakesPart (asked_of names events) (fields_say scale past fields)
            (Knows events known.new) past segments.old.items segments.new.items result }
    {
        if self.len == 0 {
            return true;
        }
        let segment = Segment {
            len: self.len,
            val: self.val,
            ev: known.pending,
        };
        match segments.push(segment) {
            Ok(()) => {
                known.end = known.end.saturating_add(self.len);
                known.pending = 0;
                true
            }
            Err(_) => false,
        }
    }
}

// Whether a byte that names go on with may begin one too: those that may not come first.
#[inline(always)]
fn starts_name(byte: u8) -> bool
    requires { continues_name byte ≡ true }
    ensures { result ≡ starts_name byte }
{
    byte > b'9'
}
