use tre_trace::TraceKind;

/// What was found on a line.
pub enum Found {
    Nothing,
    /// All events that were said behind the last segment.
    Events(u64),
    /// The length of a segment and its valuation.
    Entry(u64, u64),
    Wrong(TraceKind),
}

/// What the first field of a line says.
#[derive(Clone, Copy)]
pub enum Head {
    /// The names of events follow.
    Events,
    /// A segment takes so long, and the names of what is true follow.
    Entry(u64),
}
