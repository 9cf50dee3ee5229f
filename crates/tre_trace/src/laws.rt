//! Laws of what a trace is for names, each as a function whose contract it is.

ghost use Rattle.std.specs.Prelude.{◌≡◌, ◌<◌, ◌≤◌, ℕ, Bool, List, [], length, slice_index_or, if◌then◌else◌};
ghost use Rattle.std.specs.Int.{bit_at};
ghost use Rattle.tre_trace.specs.Reading.{bits_of};

/// Of the bits for some names each is that of its name, and behind them none is set.
pub fn naming()
    ensures named { (test : List ℕ → Bool) (names : List (List ℕ)) (i : ℕ) → i < length names →
        bit_at (bits_of test names) i ≡ (if test (slice_index_or names i []) then 1 else 0) }
    ensures none { (test : List ℕ → Bool) (names : List (List ℕ)) (i : ℕ) → length names ≤ i →
        bit_at (bits_of test names) i ≡ 0 }
{}
