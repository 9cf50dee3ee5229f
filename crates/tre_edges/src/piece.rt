ghost use Rattle.std.specs.Prelude.{◌+◌, ◌≤◌};
ghost use Rattle.tre_pairs.specs.declared.TheConstants.{TIME_MAX};

use tre_trace::Segment;

/// A piece of a trace: one segment, when it begins, and the valuation that held until then.
///
/// It lasts at least a tick, and ends at `TIME_MAX` or earlier.
#[derive(Clone, Copy)]
pub struct Piece {
    pub begin: u64,
    pub segment: Segment,
    /// None where nothing was before, or where it isn't known.
    pub before: Option<u64>,
    ghost long: { 1 ≤ segment.len },
    ghost in_time: { begin + segment.len ≤ TIME_MAX },
}
