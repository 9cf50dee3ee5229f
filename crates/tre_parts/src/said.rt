use tre_trace::{Segment, TraceKind};

/// What a part says.
#[derive(Clone, Copy)]
pub enum Said {
    Nothing,
    Says(Segment),
    /// It has a fault, or no memory was found to read it.
    Wrong(TraceKind),
}
