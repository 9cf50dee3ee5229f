//! Laws of the text format, each as a function whose contract it is.

ghost use Rattle.std.specs.Prelude.{◌≡◌, ◌↔◌, ℕ, ◌+◌, Bool, true, false, None, Some, List, [], ◌∷◌, ◌++◌, length, Contains};
ghost use Rattle.tre_text.specs.TextReading.{is_among, is_blank, fields_among, fields_of, text_recording};
ghost use Rattle.tre_text.specs.TraceLines.{IsLine, IsOverlong, AreLines, with_line_ends, IsField, Say, LineHasFault};
ghost use Rattle.tre_trace.specs.Reading.{Stretch, no_names, segments_for};
ghost use Rattle.tre_trace.specs.Trace.{end_of, IsTrace};
ghost use Rattle.tre_trace.specs.declared.fault.TraceKind.{TraceKind};

use tre_decimal::begins_with_a_digit;

/// Lines of which each is silent, says events or says a segment of a trace are that trace: with the
/// events at its end where the input is closed, and without them while more may come. Where such
/// lines stand in front of one with a fault, that fault is told with the number of its line,
/// whatever follows; and so is that a line is too long, as soon as it is, whether it ends or not.
pub fn reading()
    ensures trace { (scale : ℕ) (lines : List (List ℕ)) (stretches : List Stretch)
        (last : List (List ℕ)) → AreLines lines → Say scale [] lines stretches last →
        IsTrace (segments_for no_names stretches) →
        text_recording scale true (with_line_ends lines)
        ≡ record { stretches = stretches; last = is_among last; fault = None } }
    ensures part { (scale : ℕ) (lines : List (List ℕ)) (stretches : List Stretch)
        (last : List (List ℕ)) → AreLines lines → Say scale [] lines stretches last →
        IsTrace (segments_for no_names stretches) →
        text_recording scale false (with_line_ends lines)
        ≡ record { stretches = stretches; last = λ name. false; fault = None } }
    ensures fault { (scale : ℕ) (closed : Bool) (front : List (List ℕ))
        (line back : List ℕ) (stretches : List Stretch) (last : List (List ℕ)) (kind : TraceKind) →
        AreLines front → IsLine line → Say scale [] front stretches last →
        IsTrace (segments_for no_names stretches) →
        LineHasFault scale (end_of 0 (segments_for no_names stretches)) line kind →
        text_recording scale closed (with_line_ends front ++ (line ++ 10 ∷ back))
        ≡ record {
          stretches = stretches;
          last = λ name. false;
          fault =
              Some (record { place = length front + 1; kind = kind });
        } }
    ensures long { (scale : ℕ) (closed : Bool) (front : List (List ℕ))
        (line more : List ℕ) (stretches : List Stretch) (last : List (List ℕ)) → AreLines front →
        IsOverlong line → Say scale [] front stretches last →
        IsTrace (segments_for no_names stretches) →
        text_recording scale closed ((with_line_ends front ++ line) ++ more)
        ≡ record {
          stretches = stretches;
          last = λ name. false;
          fault =
              Some (record { place = length front + 1; kind = TraceKind.LineTooLong });
        } }
{
    begins_with_a_digit();
}

/// A last line without a line end is read as one with it, where the input is closed.
pub fn last_line()
    ensures { (scale : ℕ) (lines : List (List ℕ)) (last : List ℕ) → AreLines lines →
        IsLine last →
        text_recording scale true (with_line_ends lines ++ last) ≡ text_recording scale true
        (with_line_ends lines ++ (last ++ 10 ∷ [])) }
{}

/// Blanks part fields, however many there are, and a carriage return at the end of a line is
/// none.
pub fn fields()
    ensures blank { (front back : List ℕ) (byte : ℕ) → is_blank byte ≡ true →
        fields_among (front ++ byte ∷ back) ≡ fields_among front ++ fields_among back }
    ensures field { (bytes : List ℕ) → IsField bytes → fields_among bytes ≡ bytes ∷ [] }
    ensures none { fields_among [] ≡ [] }
    ensures carriage_return { (line : List ℕ) → fields_of (line ++ 13 ∷ []) ≡ fields_among line }
{}

/// On the stretch of a line exactly those names are true that stand on it, and those that lines of
/// events said before it happen at its begin.
pub fn naming()
    ensures { (fields : List (List ℕ)) (name : List ℕ) →
        Contains fields name ↔ (is_among fields name ≡ true) }
{}
