ghost use Rattle.std.specs.Prelude.{◌≡◌, ◌↔◌, ℕ, ◌+◌, ◌≤◌, List, [], ◌++◌, length, Bool, true, false, None, Err, OnOk, OnErr, IfOk, IfErr};
ghost use Rattle.tre_trace.specs.Reading.{Recording, Vocabulary, Grows, Adds, IsRefused, IsPlaced, events_for, reading_for, spent_fault};
ghost use Rattle.tre_trace.specs.Trace.{IsTrace};

use crate::{Segment, TraceFault};

/// How many bytes a reader may be fed.
pub const FED_MAX: u64 = 1 << 62;

/// Reads a trace in one format, in pieces of any sizes.
///
/// A reader keeps what later bytes need and no more. It stands for the bytes that it was fed, and
/// however they are cut, it gives the segments and the fault that they say. Once it has refused
/// bytes or was finished, it answers `Spent`.
pub trait TraceReader {
    /// What a recording hangs on besides the bytes, such as the unit of time.
    ghost Terms: { Type 0 };

    /// The terms that it reads by. No call changes them.
    ghost terms: { Self → Terms };

    /// What bytes say by these terms, where the input is closed or may go on.
    ghost recording: { Terms → Bool → List ℕ → Recording };

    /// The names that it reads for. No call changes them.
    ghost names: { Self → Vocabulary };

    /// The reader was fed these bytes, and found no fault in them.
    ghost represents: { Self → List ℕ → Type 0 };

    /// How many bytes it was fed and didn't refuse.
    ghost fed_of: { Self → ℕ };

    /// It has refused bytes, or it was finished.
    ghost is_spent: { Self → Bool };

    /// Reads a piece, and puts the segments that become complete with it behind the others.
    fn feed(&mut self, piece: &[u8], segments: &mut Vec<Segment>) -> Result<(), TraceFault>
        requires room { fed_of self.old + length piece.now ≤ FED_MAX }

        ensures goes_on { (bytes : List ℕ) → represents self.old bytes →
            OnOk result (represents self.new (bytes ++ piece.now)) }
        ensures adds { (bytes : List ℕ) → represents self.old bytes →
            OnOk result (Adds (names self.old) segments.old.items segments.new.items
            (recording (terms self.old) false bytes)
            (recording (terms self.old) false (bytes ++ piece.now))) }
        ensures refused { (bytes : List ℕ) → represents self.old bytes →
            IfErr result (IsRefused (names self.old) segments.old.items segments.new.items
            (recording (terms self.old) false bytes)
            (recording (terms self.old) false (bytes ++ piece.now))) }

        ensures placed { IfErr result IsPlaced }
        ensures spent { (result ≡ Err spent_fault) ↔ (is_spent self.old ≡ true) }
        ensures unchanged { is_spent self.old ≡ true → segments.new.items ≡ segments.old.items }
        ensures spent_then { OnErr result (is_spent self.new ≡ true) }
        ensures fed { OnOk result (fed_of self.new ≡ fed_of self.old + length piece.now) }
        ensures same_fed { OnErr result (fed_of self.new ≡ fed_of self.old) }
        ensures same_terms { terms self.new ≡ terms self.old }
        ensures same_names { names self.new ≡ names self.old };

    /// Reads the end of the input, and puts the segments that it completes behind the others.
    /// Ok says that the bytes are a whole trace, and gives the events at its end: bit i says
    /// whether event i happens.
    fn finish(&mut self, segments: &mut Vec<Segment>) -> Result<u64, TraceFault>
        ensures whole { (bytes : List ℕ) → represents self.old bytes →
            OnOk result ((recording (terms self.old) true bytes).fault ≡ None) }
        ensures last { (bytes : List ℕ) → represents self.old bytes →
            IfOk result (λ last. last ≡ events_for (names self.old)
            (recording (terms self.old) true bytes).last) }
        ensures adds { (bytes : List ℕ) → represents self.old bytes →
            OnOk result (Adds (names self.old) segments.old.items segments.new.items
            (recording (terms self.old) false bytes)
            (recording (terms self.old) true bytes)) }
        ensures refused { (bytes : List ℕ) → represents self.old bytes →
            IfErr result (IsRefused (names self.old) segments.old.items segments.new.items
            (recording (terms self.old) false bytes)
            (recording (terms self.old) true bytes)) }

        ensures placed { IfErr result IsPlaced }
        ensures spent { (result ≡ Err spent_fault) ↔ (is_spent self.old ≡ true) }
        ensures unchanged { is_spent self.old ≡ true → segments.new.items ≡ segments.old.items }
        ensures spent_then { is_spent self.new ≡ true }
        ensures same_fed { fed_of self.new ≡ fed_of self.old }
        ensures same_terms { terms self.new ≡ terms self.old }
        ensures same_names { names self.new ≡ names self.old };

    /// How many bytes it was fed and didn't refuse.
    fn fed(&self) -> u64
        ensures { result ≡ fed_of self.now };

    /// A reader that represents bytes was fed just these, and is not spent.
    ghost counts: { (reader : Self) (bytes : List ℕ) → represents reader bytes →
        (fed_of reader ≡ length bytes) × (is_spent reader ≡ false) };

    /// Bytes that a reader represents have no fault while more may come.
    ghost faultless: { (reader : Self) (bytes : List ℕ) → represents reader bytes →
        (recording (terms reader) false bytes).fault ≡ None };

    /// Without a byte nothing is said while more may come.
    ghost starts: { (terms : Terms) → (recording terms false []).stretches ≡ [] };

    /// Nothing is taken back when more bytes come, or the end.
    ghost grows: { (terms : Terms) (closed : Bool) (first more : List ℕ) →
        Grows (recording terms false first) (recording terms closed (first ++ more)) };

    /// What was read is a trace, for any names.
    ghost is_trace: { (terms : Terms) (asked : Vocabulary) (closed : Bool) (bytes : List ℕ) →
        IsTrace (reading_for asked (recording terms closed bytes)).segments };
}
