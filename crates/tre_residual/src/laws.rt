//! The laws of what a residual means.
//!
//! Each function does nothing: its contract is a law, and holds of every residual, every rest of a
//! trace and every pair of times.

ghost use Rattle.std.specs.Prelude.{ℕ, ◌*◌, ◌<◌, ◌≤◌, ◌↔◌};
ghost use Rattle.tre_pairs.specs.Cuts.{Crossing};
ghost use Rattle.tre_syntax.specs.Cut.{CutRest, time_of, uncut, front_of};
ghost use Rattle.tre_syntax.specs.Rest.{Rest};
ghost use Rattle.tre_trace.specs.Trace.{end_of};
ghost use Rattle.tre_residual.specs.Residual.{ResidualTree, Means, IsWellAt};

/// A residual means times, and not the numbers that name them.
pub fn scaling()
    ensures { (residual : ResidualTree) (rest : Rest) (k a b n : ℕ) → 0 < k →
        Means residual rest a b n ↔ Means residual rest (k * a) (k * b) (k * n) }
{}

/// Each pair of a residual that is well where the rest starts begins up to then, and ends then or
/// later.
pub fn crossing()
    ensures { (residual : ResidualTree) (rest : Rest) (a b n : ℕ) → 0 < n →
        IsWellAt rest.start residual → Means residual rest a b n →
        Crossing rest.start (Means residual rest) a b n }
{}

/// Each pair of a residual that is well where the rest starts ends within the rest.
pub fn bounds()
    ensures { (residual : ResidualTree) (rest : Rest) (a b n : ℕ) → 0 < n →
        IsWellAt rest.start residual → Means residual rest a b n →
        b ≤ end_of rest.start rest.segments * n }
{}

/// A pair of a residual stays one when more segments follow.
pub fn growing()
    ensures { (residual : ResidualTree) (cut : CutRest) (a b n : ℕ) →
        Means residual (front_of cut) a b n → Means residual (uncut cut) a b n }
{}

/// A pair of a residual that ends before some of the segments begin is one without them.
pub fn cutting_off()
    ensures { (residual : ResidualTree) (cut : CutRest) (a b n : ℕ) → b < time_of cut * n →
        Means residual (uncut cut) a b n → Means residual (front_of cut) a b n }
{}
