ghost use Rattle.std.specs.Prelude.{◌↔◌, IsTrue};
ghost use Rattle.tre_mark.specs.MarkTree.{mark_of};
ghost use Rattle.tre_mark.specs.Marked.{IsBare};

use crate::mark::Mark;

impl Mark {
    /// Whether nothing is left of the mark: every set is empty, and no intersection and no
    /// restriction in it has begun. Then it stands for no pair.
    pub fn is_nothing(&self) -> bool
        ensures { IsTrue result ↔ IsBare (mark_of self.now) }
    {
        match self {
            Mark::Atom { here, begun, .. } => here.is_empty() && begun.is_empty(),
            Mark::Seq { left, right, .. } => left.is_nothing() && right.is_nothing(),
            Mark::Alt(left, right) => left.is_nothing() && right.is_nothing(),
            Mark::Star { here, body, .. } => here.is_empty() && body.is_nothing(),
            Mark::Meet { outer, .. } => outer.is_empty(),
            Mark::Within { outer, .. } => outer.is_empty(),
        }
    }
}
