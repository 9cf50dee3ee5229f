/// What later lines need to know of the earlier ones.
#[derive(Clone, Copy)]
pub struct Known {
    /// When the trace so far ends, in ticks.
    pub end: u64,
    /// The events that were said behind its last segment: bit i is event i.
    pub pending: u64,
}
