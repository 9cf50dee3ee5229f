//! Laws of verdicts, each as a function whose contract it is.

ghost use Rattle.std.specs.Prelude.{◌≡◌, ℕ, true};
ghost use Rattle.tre_judge.specs.Verdicts.{Fails, Unanswered};
ghost use Rattle.tre_syntax.specs.Begun.{MayMatch};
ghost use Rattle.tre_syntax.specs.Meaning.{Matches};
ghost use Rattle.tre_syntax.specs.PatternTree.{PatternTree};
ghost use Rattle.tre_trace.specs.Trace.{Timeline};
ghost use Rattle.tre_watch.specs.Forms.{has_arrow};
ghost use Rattle.tre_watch.specs.declared.form.Form.{Form};

/// What fails has no answer. So a match of the first of two patterns is answered, or it fails, or
/// it has no answer and may still come to one, and no two of these.
pub fn failing_is_unanswered()
    ensures { (form : Form) (tree second : PatternTree) (trace other : Timeline) (a b n : ℕ) →
        has_arrow form ≡ true → Fails form (Matches tree trace) (MayMatch second other) a b n →
        Unanswered form (Matches tree trace) (Matches second other) a b n }
{}
