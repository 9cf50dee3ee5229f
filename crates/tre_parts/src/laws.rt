//! Laws of all formats, each as a function whose contract it is.

ghost use Rattle.std.specs.Prelude.{◌≡◌, ℕ, ◌+◌, Bool, true, List, [], ◌∷◌, ◌++◌, length};
ghost use Rattle.tre_parts.specs.Blanks.{SkipsBlanks, moved_recording};
ghost use Rattle.tre_parts.specs.Format.{recording_of};

use crate::PartReader;

/// Where parts of no bytes say nothing and faults are told by their offset, one more separator
/// beside another moves offsets and nothing else. All separators are alike. A last part with none
/// behind it is read as one with it, where the input is closed.
pub fn separators<R: PartReader>()
    ensures more { (terms : R.Terms) (closed : Bool) (front back : List ℕ)
        (one other : ℕ) → SkipsBlanks (R.format terms) →
        (R.format terms).separates one ≡ true → (R.format terms).separates other ≡ true →
        recording_of (R.format terms) closed (front ++ one ∷ other ∷ back) ≡ moved_recording
        (length front + 1) (recording_of (R.format terms) closed (front ++ other ∷ back)) }
    ensures alike { (terms : R.Terms) (closed : Bool) (front back : List ℕ)
        (one other : ℕ) →
        (R.format terms).separates one ≡ true → (R.format terms).separates other ≡ true →
        recording_of (R.format terms) closed (front ++ one ∷ back)
        ≡ recording_of (R.format terms) closed (front ++ other ∷ back) }
    ensures last { (terms : R.Terms) (bytes : List ℕ) (one : ℕ) →
        SkipsBlanks (R.format terms) → (R.format terms).separates one ≡ true →
        recording_of (R.format terms) true (bytes ++ one ∷ [])
        ≡ moved_recording (length bytes) (recording_of (R.format terms) true bytes) }
{}
