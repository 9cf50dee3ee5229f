ghost use Rattle.std.specs.Prelude.{◌≡◌, ◌+◌, ◌%◌};

/// A stretch of time on which every proposition keeps its value.
#[derive(Clone, Copy, PartialEq, Eq)]
pub struct Segment {
    /// How long it lasts, in ticks.
    pub len: u64,
    /// The values: bit i is that of proposition i.
    pub val: u64,
    /// The events at its begin: bit i says whether event i happens.
    pub ev: u64,
}

impl Segment {
    ghost use Rattle.tre_trace.specs.Segments.{plain_segment};

    /// The segment at whose begin no event happens.
    pub fn plain(len: u64, val: u64) -> Segment
        ensures { result ≡ plain_segment len val }
    {
        Segment { len, val, ev: 0 }
    }
}

/// A segment of the made trace: proposition 0 is true on every other one, and no event happens.
pub fn generated(number: u64) -> Segment
    ensures len { result.len ≡ 1 + number % 3 }
    ensures val { result.val ≡ number % 2 }
    ensures ev { result.ev ≡ 0 }
{
    Segment::plain(1 + number % 3, number % 2)
}
