/// Which chains are looked for: where they may end, and how long they may last.
#[derive(Clone, Copy)]
pub(crate) struct Limits {
    /// The earliest end.
    pub from: u64,
    /// The latest end.
    pub to: u64,
    /// The longest duration, None where there is none.
    pub longest: Option<u64>,
}
