ghost use Rattle.std.specs.Prelude.{◌≡◌, ◌≤◌, Some, None};
ghost use Rattle.tre_parse.specs.declared.limits.TheConstants.{COUNT_MAX};
ghost use Rattle.tre_parse.specs.Joins.{Keeps};

use tre_syntax::NODES_MAX;

/// A tree as it is read: its number of nodes, `COUNT_MAX` where there are more, and the tree itself
/// while the nodes are few.
#[derive(Drop)]
pub(crate) struct Counted<T> {
    pub(crate) nodes: u64,
    pub(crate) tree: Option<T>,
    /// How many tokens are left at the first interval of it that can't be kept.
    pub(crate) unkept: Option<usize>,
    ghost counted: { nodes ≤ COUNT_MAX },
}

impl<T: Drop> Counted<T> {
    /// A tree of one node.
    pub(crate) fn leaf(tree: T) -> Counted<T>
        ensures nodes { result.nodes ≡ 1 }
        ensures tree { result.tree ≡ Some tree }
        ensures unkept { result.unkept ≡ None }
    {
        Counted {
            nodes: 1,
            tree: Some(tree),
            unkept: None,
        }
    }

    /// The tree itself, if it is built and what it goes into has no more nodes than a pattern may
    /// have.
    pub(crate) fn into_tree(self, nodes: u64) -> Option<T>
        ensures { Keeps nodes self.tree result }
    {
        let Counted { tree, .. } = self;
        if nodes > NODES_MAX { None } else { tree }
    }
}
