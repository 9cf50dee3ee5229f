//! Laws of files of checks, each as a function whose contract it is.

ghost use Rattle.std.specs.Prelude.{◌≡◌, ◌≢◌, ℕ, List};
ghost use Rattle.tre_parse.specs.Outcome.{refused, IsOutcome as ParsesTo};
ghost use Rattle.tre_parse.specs.declared.fault.ParseFault.{ParseFault};
ghost use Rattle.tre_parse.specs.declared.fault.ParseFault.TheVariants.{Memory as ParseMemory};
ghost use Rattle.tre_watch.specs.Outcome.{Kind, Outcome, faulty, IsOutcome};
ghost use Rattle.tre_watch.specs.Steps.{IsNoWantOfMemory};
ghost use Rattle.tre_watch.specs.declared.fault.WatchFault.{WatchFault};

use tre_define::laws::some_reading;

/// Every file of either kind has an outcome at each scale.
pub fn some_outcome()
    ensures { (kind : Kind) (scale : ℕ) (bytes : List ℕ) →
        (outcome : Outcome) × IsOutcome kind scale bytes outcome }
{
    some_reading();
}

/// A file has at most one outcome at a scale.
pub fn one_outcome()
    ensures { (kind : Kind) (scale : ℕ) (bytes : List ℕ) (outcome other : Outcome) →
        IsOutcome kind scale bytes outcome → IsOutcome kind scale bytes other → outcome ≡ other }
{}

/// No text of a pattern and no file is refused for want of memory.
pub fn never_memory()
    ensures text { (scale : ℕ) (text : List ℕ) (fault : ParseFault) →
        ParsesTo scale text (refused fault) → fault ≢ ParseMemory }
    ensures file { (kind : Kind) (scale : ℕ) (bytes : List ℕ) (fault : WatchFault) →
        IsOutcome kind scale bytes (faulty fault) → IsNoWantOfMemory fault }
{}
