/// Where stretches of a run begin and end: at its edges, or anywhere in it.
#[derive(Clone, Copy)]
pub struct RunEdges {
    /// They begin where the state becomes true.
    pub rise: bool,
    /// They end where it becomes false.
    pub fall: bool,
}
