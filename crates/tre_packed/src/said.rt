/// The events at the begin of the segment at a place.
#[derive(Clone, Copy)]
pub(crate) struct Said {
    pub(crate) place: usize,
    pub(crate) events: u64,
}
