// The tokens of the values.
ghost use Rattle.std.specs.Prelude.{◌≡◌, ◌≢◌, ◌≤◌, ℕ, List, [], ◌∷◌, true, ◌&&◌};
ghost use Rattle.tre_parts.specs.Walk.{TellsPart};
ghost use Rattle.tre_parts.specs.declared.said.Said.{Said};
ghost use Rattle.tre_trace.specs.Reading.{segment_for};
ghost use Rattle.tre_trace.specs.declared.fault.TraceKind.TheVariants.{Spent};
ghost use Rattle.tre_vcd.specs.VcdReading.{scalar, wide, Statement, nothing, comment, vector, number, is_defined, goes_to, ticks_say, keyword_says, scalar_says, vector_says, value_says, change, token_at, stretch_until};
ghost use Rattle.tre_vcd.specs.Sections.{Holds, KnowsPast, asked_of_reader, terms_kept, dump_says, dump_end_says};
ghost use Rattle.tre_vcd.specs.Kept.{ends_true};

use crate::inside::Inside;
use crate::letters::copy_into;
use crate::scale::time_fault;
use crate::token::{Letter, ends_true, is, is_dump, is_end, letter_of};
use crate::token_reader::TokenReader;
use tre_pairs::TIME_MAX;
use tre_parts::Said;
use tre_trace::{Segment, TraceKind};

impl TokenReader {
    // Reads a time.
    fn read_time(&mut self, digits: &[u8]) -> Said
        ensures tells { (past : List Statement) →
            Holds self.old (record { past = past; inside = nothing }) →
            is_defined past ≡ true →
            TellsPart (asked_of_reader self.old) (ticks_say (terms_kept self.old) past digits.now)
            (Holds self.new) result }
        ensures kinds { result ≢ Said.Wrong Spent }
        ensures same_terms { terms_kept self.new ≡ terms_kept self.old }
        ensures same_names { asked_of_reader self.new ≡ asked_of_reader self.old }
    {
        let Some(ticks) = self.scale.time(&self.past, digits) else {
            return Said::Wrong(time_fault(digits));
        };
        if ticks < self.past.time {
            return Said::Wrong(TraceKind::TimeBack);
        }
        if ticks > TIME_MAX {
            return Said::Wrong(TraceKind::TooLate);
        }
        if ticks == self.past.time {
            self.past.reach(ticks);
            return Said::Nothing;
        }
        let segment = self.segment_until(ticks);
        self.past.reach(ticks);
        self.signals.changes.reach();
        Said::Says(segment)
    }

    // What the names read from the last time to this one.
    #[inline(always)]
    pub(crate) fn segment_until(&self, ticks: u64) -> Segment
        requires { self.now.past.time ≤ ticks }
        ensures { (past : List Statement) → KnowsPast self.now past →
            result ≡ segment_for (asked_of_reader self.now)
            (stretch_until self.now.signals.definitions.items past ticks) }
    {
        let len = ticks - self.past.time;
        let val = self.signals.valuation(self.past.valuation());
        let ev = self.signals.changes.events(self.past.events());
        Segment { len, val, ev }
    }

    // Reads a command among the values.
    fn read_keyword(&mut self, token: &[u8]) -> Said
        ensures tells { (past : List Statement) →
            Holds self.old (record { past = past; inside = nothing }) →
            is_defined past ≡ true →
            TellsPart (asked_of_reader self.old) (keyword_says past token.now) (Holds self.new)
            result }
        ensures kinds { result ≢ Said.Wrong Spent }
        ensures same_terms { terms_kept self.new ≡ terms_kept self.old }
        ensures same_names { asked_of_reader self.new ≡ asked_of_reader self.old }
    {
        if is_dump(token) {
            return self.open_dump();
        }
        if is_end(token) {
            return self.close_dump();
        }
        if is(token, "$comment") {
            self.inside = Inside::Comment;
            return Said::Nothing;
        }
        Said::Wrong(TraceKind::BadToken)
    }

    // A dump section opens.
    fn open_dump(&mut self) -> Said
        ensures tells { (past : List Statement) →
            Holds self.old (record { past = past; inside = nothing }) →
            is_defined past ≡ true →
            TellsPart (asked_of_reader self.old) (dump_says past) (Holds self.new) result }
        ensures kinds { result ≢ Said.Wrong Spent }
        ensures same_terms { terms_kept self.new ≡ terms_kept self.old }
        ensures same_names { asked_of_reader self.new ≡ asked_of_reader self.old }
    {
        if self.past.in_dump {
            return Said::Wrong(TraceKind::BadToken);
        }
        self.past.open_dump();
        Said::Nothing
    }

    // A dump section closes.
    fn close_dump(&mut self) -> Said
        ensures tells { (past : List Statement) →
            Holds self.old (record { past = past; inside = nothing }) →
            is_defined past ≡ true →
            TellsPart (asked_of_reader self.old) (dump_end_says past) (Holds self.new) result }
        ensures kinds { result ≢ Said.Wrong Spent }
        ensures same_terms { terms_kept self.new ≡ terms_kept self.old }
        ensures same_names { asked_of_reader self.new ≡ asked_of_reader self.old }
    {
        if !self.past.in_dump {
            return Said::Wrong(TraceKind::BadToken);
        }
        self.past.close_dump();
        Said::Nothing
    }

    // Reads a scalar change: the letter of its value, and its identifier.
    #[inline(always)]
    fn read_scalar(&mut self, letter: u8, identifier: &[u8]) -> Said
        ensures tells { (past : List Statement) →
            Holds self.old (record { past = past; inside = nothing }) →
            is_defined past ≡ true →
            TellsPart (asked_of_reader self.old) (scalar_says past letter identifier.now) (Holds
            self.new)
            result }
        ensures kinds { result ≢ Said.Wrong Spent }
        ensures same_terms { terms_kept self.new ≡ terms_kept self.old }
        ensures same_names { asked_of_reader self.new ≡ asked_of_reader self.old }
    {
        if identifier.is_empty() {
            return Said::Wrong(TraceKind::BadToken);
        }
        self.change_scalar(letter, identifier)
    }

    // An identifier changes to this letter.
    #[inline(always)]
    fn change_scalar(&mut self, letter: u8, identifier: &[u8]) -> Said
        ensures tells { (past : List Statement) →
            Holds self.old (record { past = past; inside = nothing }) →
            is_defined past ≡ true →
            TellsPart (asked_of_reader self.old)
            (goes_to (change scalar identifier.now (letter ∷ []) ∷ past) nothing)
            (Holds self.new) result }
        ensures kinds { result ≢ Said.Wrong Spent }
        ensures same_terms { terms_kept self.new ≡ terms_kept self.old }
        ensures same_names { asked_of_reader self.new ≡ asked_of_reader self.old }
    {
        self.past.change_scalar(identifier, letter == b'1');
        if self.signals.is_empty() {
            return Said::Nothing;
        }
        match self.signals.change(identifier, &[letter]) {
            Ok(()) => Said::Nothing,
            Err(_) => Said::Wrong(TraceKind::Memory),
        }
    }

    // Reads a vector, whose identifier is the next token.
    #[inline(always)]
    fn read_vector(&mut self, value: &[u8]) -> Said
        ensures tells { (past : List Statement) →
            Holds self.old (record { past = past; inside = nothing }) →
            is_defined past ≡ true →
            TellsPart (asked_of_reader self.old) (vector_says past value.now) (Holds self.new)
            result }
        ensures kinds { result ≢ Said.Wrong Spent }
        ensures same_terms { terms_kept self.new ≡ terms_kept self.old }
        ensures same_names { asked_of_reader self.new ≡ asked_of_reader self.old }
    {
        if value.is_empty() {
            return Said::Wrong(TraceKind::BadToken);
        }
        if !self.signals.is_empty() && copy_into(&mut self.letters, value).is_err() {
            return Said::Wrong(TraceKind::Memory);
        }
        self.inside = Inside::Vector(ends_true(value));
        Said::Nothing
    }

    // Reads a token among the values, where nothing is open, by its first byte.
    #[inline(always)]
    pub(crate) fn read_value(&mut self, token: &[u8]) -> Said
        ensures tells { (past : List Statement) →
            Holds self.old (record { past = past; inside = nothing }) →
            is_defined past ≡ true →
            TellsPart (asked_of_reader self.old) (value_says (terms_kept self.old) past token.now)
            (Holds self.new) result }
        ensures kinds { result ≢ Said.Wrong Spent }
        ensures same_terms { terms_kept self.new ≡ terms_kept self.old }
        ensures same_names { asked_of_reader self.new ≡ asked_of_reader self.old }
    {
        let Some((first, rest)) = token.split_first() else {
            return Said::Nothing;
        };
        let letter = *first;
        match letter_of(letter) {
            Letter::Scalar => self.read_scalar(letter, rest),
            Letter::Time => self.read_time(rest),
            Letter::Vector => self.read_vector(rest),
            Letter::Number => {
                self.inside = Inside::Number;
                Said::Nothing
            }
            Letter::Keyword => self.read_keyword(token),
            Letter::Other => Said::Wrong(TraceKind::BadToken),
        }
    }

    // Reads the identifier that a vector waits for.
    #[inline(always)]
    pub(crate) fn read_identifier(&mut self, value: bool, identifier: &[u8]) -> Said
        ensures tells { (past : List Statement) (letters : List ℕ) →
            Holds self.old (record { past = past; inside = vector letters }) →
            value ≡ ends_true letters →
            TellsPart (asked_of_reader self.old)
            (goes_to (change wide identifier.now letters ∷ past) nothing) (Holds self.new)
            result }
        ensures kinds { result ≢ Said.Wrong Spent }
        ensures same_terms { terms_kept self.new ≡ terms_kept self.old }
        ensures same_names { asked_of_reader self.new ≡ asked_of_reader self.old }
    {
        self.past.change(identifier, value);
        self.inside = Inside::Nothing;
        if self.signals.is_empty() {
            return Said::Nothing;
        }
        match self.signals.change(identifier, &self.letters) {
            Ok(()) => Said::Nothing,
            Err(_) => Said::Wrong(TraceKind::Memory),
        }
    }

    // Reads a token in a comment.
    pub(crate) fn read_comment(&mut self, token: &[u8]) -> Said
        ensures tells { (past : List Statement) →
            Holds self.old (record { past = past; inside = comment }) →
            TellsPart (asked_of_reader self.old) (token_at (terms_kept self.old) past comment
            token.now)
            (Holds self.new) result }
        ensures kinds { result ≢ Said.Wrong Spent }
        ensures same_terms { terms_kept self.new ≡ terms_kept self.old }
        ensures same_names { asked_of_reader self.new ≡ asked_of_reader self.old }
    {
        if is_end(token) {
            self.inside = Inside::Nothing;
        }
        Said::Nothing
    }

    // Passes over the identifier that a real or a string waits for.
    pub(crate) fn pass_over(&mut self) -> Said
        ensures tells { (past : List Statement) →
            Holds self.old (record { past = past; inside = number }) →
            TellsPart (asked_of_reader self.old) (goes_to past nothing) (Holds self.new) result }
        ensures kinds { result ≢ Said.Wrong Spent }
        ensures same_terms { terms_kept self.new ≡ terms_kept self.old }
        ensures same_names { asked_of_reader self.new ≡ asked_of_reader self.old }
    {
        self.inside = Inside::Nothing;
        Said::Nothing
    }
}
