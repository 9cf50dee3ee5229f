// Plain tokens that are read at once.
ghost use Rattle.std.specs.Prelude.{◌≡◌, ◌==◌, ◌≤◌, ℕ, List, drop, length, true, false, if◌then◌else◌};
ghost use Rattle.tre_parts.specs.Skims.{Skims};
ghost use Rattle.tre_parts.specs.declared.TheConstants.{PART_MAX};
ghost use Rattle.tre_vcd.specs.VcdReading.{Statement, Place, change, wide, nothing, is_defined, vcd_format, scalar_says, ticks_say, value_says};
ghost use Rattle.tre_vcd.specs.Sections.{Holds, asked_of_reader, terms_kept};
ghost use Rattle.tre_vcd.specs.Taken.{IsTaken, StaysAmong, behind_if};
ghost use Rattle.tre_trace.specs.declared.segment.Segment.{Segment};
ghost use Rattle.tre_vcd.specs.declared.inside.Inside.{Inside};
ghost use Rattle.tre_vcd.specs.declared.skim.Taken.{Taken};

use crate::token::{Letter, ends_true, frequent_letter_of};
use crate::token_reader::TokenReader;
use crate::white::White;
use std::alloc::Global;
use tre_pairs::TIME_MAX;
use tre_parts::{Marks, Skimmed};
use tre_trace::Segment;

// What was done with a token among the values.
#[derive(Clone, Copy)]
pub enum Taken {
    // It was read.
    Whole,
    // Nothing was done: it is a vector, which is read with its identifier.
    Vector,
    // Nothing was done.
    Not,
}

impl TokenReader {
    // Reads changes and times from the front of the bytes on, where nothing is open.
    #[inline(never)]
    pub(crate) fn skim_values(&mut self, bytes: &[u8], segments: &mut Vec<Segment>) -> Skimmed
        requires long { 16 ≤ length bytes.now }
        requires short { length bytes.now ≤ PART_MAX }
        requires among { (self.old.past.is_defined ≡ true) × (self.old.inside ≡ Inside.Nothing) }
        ensures skims { (place : Place) → Holds self.old place →
            Skims (asked_of_reader self.old) (vcd_format (terms_kept self.old)) (Holds self.new)
            place
            bytes.now segments.old.items segments.new.items result }
        ensures within { result.bytes ≤ length bytes.now }
        ensures same_terms { terms_kept self.new ≡ terms_kept self.old }
        ensures same_names { asked_of_reader self.new ≡ asked_of_reader self.old }
    {
        let mut done = Skimmed { bytes: 0, parts: 0 };
        let mut marks = Marks::of::<White>(bytes);
        while let Some(place) = marks.next_from::<White>(bytes, done.bytes) {
            let token = &bytes[done.bytes..place];
            match self.skim_token(token, segments) {
                Taken::Whole => done = done.with_part(place),
                Taken::Vector => {
                    let Some(end) = marks.next_from::<White>(bytes, place + 1) else {
                        return done;
                    };
                    if !self.skim_vector(token, &bytes[place + 1..end]) {
                        return done;
                    }
                    done = done.with_part(place).with_part(end);
                }
                Taken::Not => return done,
            }
        }
        done
    }

    // Reads a token among the values, where it is a scalar change or a time without a fault.
    #[inline(always)]
    fn skim_token(&mut self, token: &[u8], segments: &mut Vec<Segment>) -> Taken
        ensures taken { (past : List Statement) →
            Holds self.old (record { past = past; inside = nothing }) →
            is_defined past ≡ true →
            IsTaken (asked_of_reader self.old) (value_says (terms_kept self.old) past token.now)
            (Holds self.new) past (drop 1 token.now) segments.old.items segments.new.items result }
        ensures stays { StaysAmong self.old self.new }
        ensures same_terms { terms_kept self.new ≡ terms_kept self.old }
        ensures same_names { asked_of_reader self.new ≡ asked_of_reader self.old }
    {
        let Some((first, rest)) = token.split_first() else {
            return Taken::Whole;
        };
        let letter = *first;
        match frequent_letter_of(letter) {
            Letter::Scalar => self.skim_scalar(letter, rest),
            Letter::Vector => vector_taken(rest),
            Letter::Time => self.skim_time(rest, segments),
            _ => Taken::Not,
        }
    }

    // Reads a scalar change: the letter of its value, and its identifier.
    #[inline(always)]
    fn skim_scalar(&mut self, letter: u8, identifier: &[u8]) -> Taken
        ensures taken { (past : List Statement) (letters : List ℕ) (segments : List Segment) →
            Holds self.old (record { past = past; inside = nothing }) →
            is_defined past ≡ true →
            IsTaken (asked_of_reader self.old) (scalar_says past letter identifier.now) (Holds
            self.new)
            past letters segments segments result }
        ensures stays { StaysAmong self.old self.new }
        ensures same_terms { terms_kept self.new ≡ terms_kept self.old }
        ensures same_names { asked_of_reader self.new ≡ asked_of_reader self.old }
    {
        if identifier.is_empty() {
            return Taken::Not;
        }
        if self.signals.may_read(identifier) {
            return self.skim_told_scalar(letter, identifier);
        }
        self.past.change_scalar(identifier, letter == b'1');
        Taken::Whole
    }

    // The same of an identifier that definitions may read. Where an event may be one of its
    // changes, nothing is done.
    fn skim_told_scalar(&mut self, letter: u8, identifier: &[u8]) -> Taken
        ensures taken { (past : List Statement) (letters : List ℕ) (segments : List Segment) →
            (length identifier.now == 0) ≡ false →
            Holds self.old (record { past = past; inside = nothing }) →
            is_defined past ≡ true →
            IsTaken (asked_of_reader self.old) (scalar_says past letter identifier.now) (Holds
            self.new)
            past letters segments segments result }
        ensures stays { StaysAmong self.old self.new }
        ensures same_terms { terms_kept self.new ≡ terms_kept self.old }
        ensures same_names { asked_of_reader self.new ≡ asked_of_reader self.old }
    {
        if !self.signals.change_tests(identifier, &[letter]) {
            return Taken::Not;
        }
        self.past.change_scalar(identifier, letter == b'1');
        Taken::Whole
    }

    // Reads a vector with its identifier, and says whether it did.
    #[inline(always)]
    fn skim_vector(&mut self, token: &[u8], identifier: &[u8]) -> bool
        ensures holds { (past : List Statement) →
            Holds self.old (record { past = past; inside = nothing }) →
            is_defined past ≡ true →
            Holds self.new (record {
              past = behind_if result
                  (change wide identifier.now (drop 1 token.now)) past;
              inside = nothing;
            }) }
        ensures some { result ≡ true → (length identifier.now == 0) ≡ false }
        ensures stays { StaysAmong self.old self.new }
        ensures same_terms { terms_kept self.new ≡ terms_kept self.old }
        ensures same_names { asked_of_reader self.new ≡ asked_of_reader self.old }
    {
        let Some((_, letters)) = token.split_first() else {
            return false;
        };
        if identifier.is_empty() {
            return false;
        }
        if self.signals.may_read(identifier) {
            return self.skim_told_vector(letters, identifier);
        }
        self.past.change(identifier, ends_true(letters));
        true
    }

    // The same of an identifier that definitions may read. Where an event may be one of its
    // changes, nothing is done.
    fn skim_told_vector(&mut self, letters: &[u8], identifier: &[u8]) -> bool
        ensures holds { (past : List Statement) →
            Holds self.old (record { past = past; inside = nothing }) →
            is_defined past ≡ true →
            Holds self.new (record {
              past = behind_if result
                  (change wide identifier.now letters.now) past;
              inside = nothing;
            }) }
        ensures stays { StaysAmong self.old self.new }
        ensures same_terms { terms_kept self.new ≡ terms_kept self.old }
        ensures same_names { asked_of_reader self.new ≡ asked_of_reader self.old }
    {
        if !self.signals.change_tests(identifier, letters) {
            return false;
        }
        self.past.change(identifier, ends_true(letters));
        true
    }

    // Reads a time, where it has no fault.
    #[inline(always)]
    fn skim_time(&mut self, digits: &[u8], segments: &mut Vec<Segment>) -> Taken
        ensures taken { (past : List Statement) (letters : List ℕ) →
            Holds self.old (record { past = past; inside = nothing }) →
            is_defined past ≡ true →
            IsTaken (asked_of_reader self.old) (ticks_say (terms_kept self.old) past digits.now)
            (Holds self.new) past letters segments.old.items segments.new.items result }
        ensures stays { StaysAmong self.old self.new }
        ensures same_terms { terms_kept self.new ≡ terms_kept self.old }
        ensures same_names { asked_of_reader self.new ≡ asked_of_reader self.old }
    {
        let ticks = self.scale.time_or_late(&self.past, digits);
        if ticks < self.past.time || ticks > TIME_MAX {
            return Taken::Not;
        }
        if ticks == self.past.time {
            self.past.reach(ticks);
            return Taken::Whole;
        }
        let segment = self.segment_until(ticks);
        match segments.push(segment) {
            Ok(()) => {
                self.past.reach_next(ticks);
                self.signals.changes.reach();
                Taken::Whole
            }
            Err(_) => Taken::Not,
        }
    }
}

// A token begins as a vector, and this is the rest of it.
#[inline(always)]
fn vector_taken(letters: &[u8]) -> Taken
    ensures { result ≡ (if length letters.now == 0 then Taken.Not else Taken.Vector) }
{
    if letters.is_empty() {
        return Taken::Not;
    }
    Taken::Vector
}
