/// What a name of a pattern stands for. Propositions and events have numbers of their own.
#[derive(Clone, Copy)]
pub enum NameKind {
    /// Something that is true or false on each segment.
    Proposition,
    /// Something that happens at a moment.
    Event,
}
