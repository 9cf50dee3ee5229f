//! Laws of the format, each as a function whose contract it is.

ghost use Rattle.std.specs.Prelude.{◌≡◌, ◌≢◌, ◌↔◌, ℕ, ◌+◌, ◌-◌, ◌*◌, ◌^◌, ◌==◌, Bool, true, false, Option, None, Some, List, [], ◌∷◌, ◌++◌, length, slice_index};
ghost use Rattle.tre_define.specs.Values.{passes, plain_test};
ghost use Rattle.tre_parts.specs.Blanks.{SkipsBlanks};
ghost use Rattle.tre_trace.specs.Reading.{Grows, Vocabulary, reading_for};
ghost use Rattle.tre_trace.specs.Trace.{IsTrace};
ghost use Rattle.tre_unit.specs.Units.{places_of};
ghost use Rattle.tre_unit.specs.declared.unit.TimeUnit.{TimeUnit};
ghost use Rattle.tre_vcd.specs.Looking.{Latest, Silent};
ghost use Rattle.tre_vcd.specs.Timescale.{units_by};
ghost use Rattle.tre_vcd.specs.VcdReading.{vcd_format, vcd_recording, Terms, Statement, has_tick, units_at, letters_at, letters_in, happened_at, happened_in};
ghost use Rattle.tre_vcd.specs.declared.timescale.Tick.{Tick};

/// What is read of a dump is a trace, and nothing is taken back when more bytes come. Between two
/// bytes of white space nothing is said, so that more of it moves offsets alone (`separators` of
/// tre_parts).
pub fn reading()
    ensures is_trace { (terms : Terms) (asked : Vocabulary) (closed : Bool) (bytes : List ℕ) →
        IsTrace (reading_for asked (vcd_recording terms closed bytes)).segments }
    ensures grows { (terms : Terms) (closed : Bool) (first more : List ℕ) →
        Grows (vcd_recording terms false first) (vcd_recording terms closed (first ++ more)) }
    ensures white { (terms : Terms) → SkipsBlanks (vcd_format terms) }
{}

/// An identifier has the letters of its last change, and none where there is no change. An event
/// happened exactly where the last that says anything of it is a scalar change outside a dump
/// section.
pub fn looks_back()
    ensures letters { (past : List Statement) (identifier letters : List ℕ) →
        Latest (letters_in identifier) past letters ↔ (letters_at past identifier ≡ Some letters) }
    ensures no_letters { (past : List Statement) (identifier : List ℕ) →
        Silent (letters_in identifier) past [] → letters_at past identifier ≡ None }
    ensures happened { (past : List Statement) (identifier : List ℕ) →
        Latest (happened_in identifier) past true ↔ (happened_at past identifier ≡ true) }
{}

/// Without a definition a proposition is true exactly where the last letter that its identifier was
/// given is `1` (49).
pub fn lowest_bits()
    ensures { (letters : List ℕ) → passes plain_test letters
        ≡ (slice_index letters (length letters - 1) == 49) }
{}

/// Nothing is rounded: where a tick is 10^tens of 10^-places seconds and a unit of time 10^-scale
/// of the unit that is asked for, so many units are as long as the ticks, and where there are none,
/// no number of units is. Where no unit is asked for, the scale alone counts.
pub fn exact_units()
    ensures alike { (scale ticks units : ℕ) (unit : TimeUnit) (tick : Tick) →
        units_by scale (Some unit) (Some tick) ticks ≡ Some units →
        units * 10 ^ places_of tick.unit ≡ ticks * 10 ^ (places_of unit + scale + tick.tens) }
    ensures none { (scale ticks units : ℕ) (unit : TimeUnit) (tick : Tick) →
        units_by scale (Some unit) (Some tick) ticks ≡ None →
        units * 10 ^ places_of tick.unit ≢ ticks * 10 ^ (places_of unit + scale + tick.tens) }
    ensures plain { (terms : Terms) (past : List Statement) (ticks : ℕ) → terms.unit ≡ None →
        (units_at terms past ticks ≡ Some (ticks * 10 ^ terms.scale))
        × (has_tick terms past ≡ true) }
{}
