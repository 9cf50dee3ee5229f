/// What becomes of a check.
#[derive(Clone, Copy, PartialEq, Eq)]
pub enum Verdict {
    /// It asks nothing.
    Unjudged,
    /// What it asks is so.
    Passed,
    /// What it asks isn't so, however the recording goes on.
    Failed,
    /// Some pair has no answer yet, and of each of them one may have begun.
    Waiting,
    /// It asks something of pairs of which there is none.
    Vacuous,
}
