// Bars: stretches of the times at which pairs with one begin end.

/// An end of a bar stands just before a moment, or just `after` it. The moment is `ticks`, or so
/// long after the begin where it `moves` with it.
#[derive(Clone, Copy)]
pub(crate) struct BarEnd {
    pub(crate) ticks: u64,
    pub(crate) moves: bool,
    pub(crate) after: bool,
}

/// The times between two ends.
#[derive(Clone, Copy)]
pub(crate) struct Bar {
    pub(crate) low: BarEnd,
    pub(crate) high: BarEnd,
}
