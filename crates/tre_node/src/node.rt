// A pattern under way.
ghost use Rattle.std.specs.Prelude.{◌≡◌, ◌-◌, ◌^◌, min};
ghost use Rattle.tre_mark.specs.Nodes.{form_count};
ghost use Rattle.tre_node.specs.NodeTree.{around_of, tree_of_node};

use tre_state::State;
use tre_zone::{Bound, Interval, Zone};

/// Begins of pairs, each of which ends at the present time.
#[derive(Clone, Copy)]
pub struct Stretch {
    pub low: Bound,
    pub high: Bound,
}

/// What each node has beside its form. `longest` and `whole` are what it was made with. The rest
/// is of the present piece, but for `busy`; the lists keep their room.
#[derive(Drop)]
pub struct Around {
    /// What lasts longer doesn't count here.
    pub longest: Option<u64>,
    /// Whether only moments enter.
    pub whole: bool,
    /// Whether what enters in the piece may go on behind it.
    pub lives: bool,
    /// Whether something may have begun.
    pub busy: bool,
    /// The matches inside the piece.
    pub inside: Vec<Zone>,
    /// The pairs that had begun and end in the piece.
    pub ended: Vec<Zone>,
    /// What enters a part.
    pub mid: Vec<Zone>,
}

/// How far the matches that began have come, in the shape of the expression, which it has in it.
#[derive(Drop)]
pub enum Node {
    Eps(Around),
    /// `begun` has where those began whose state holds until now: later ones behind earlier ones,
    /// with gaps between them.
    Lit {
        around: Around,
        state: State,
        begun: Vec<Stretch>,
    },
    Rise(Around, State),
    Fall(Around, State),
    Event(Around, u8),
    Seq {
        around: Around,
        left: Box<Node>,
        right: Box<Node>,
    },
    Alt {
        around: Around,
        left: Box<Node>,
        right: Box<Node>,
    },
    /// What lasts longer than `reach` doesn't count in its parts. `outer` has the pairs that
    /// entered: none where only moments enter, since then all of them do. `most` is how many there
    /// may be before they are joined.
    Meet {
        around: Around,
        reach: Option<u64>,
        outer: Vec<Zone>,
        most: usize,
        left: Box<Node>,
        right: Box<Node>,
    },
    Star {
        around: Around,
        body: Box<Node>,
    },
    /// As the one before.
    Within {
        around: Around,
        reach: Option<u64>,
        interval: Interval,
        outer: Vec<Zone>,
        most: usize,
        body: Box<Node>,
    },
}

impl Node {
    /// What it has beside its form.
    pub fn around(&self) -> &Around
        ensures { result.now ≡ around_of self.now }
    {
        match self {
            Node::Eps(around) => around,
            Node::Lit { around, .. } => around,
            Node::Rise(around, _) => around,
            Node::Fall(around, _) => around,
            Node::Event(around, _) => around,
            Node::Seq { around, .. } => around,
            Node::Alt { around, .. } => around,
            Node::Meet { around, .. } => around,
            Node::Star { around, .. } => around,
            Node::Within { around, .. } => around,
        }
    }
    /// How many nodes there are, or `u64::MAX` where there are more. It takes no memory.
    pub fn nodes(&self) -> u64
        ensures { result ≡ min (form_count (tree_of_node self.now)) (2 ^ 64 - 1) }
    {
        match self {
            Node::Eps(_) => 1,
            Node::Lit { .. } => 1,
            Node::Rise(_, _) => 1,
            Node::Fall(_, _) => 1,
            Node::Event(_, _) => 1,
            Node::Seq { left, right, .. } => left
                .nodes()
                .saturating_add(right.nodes())
                .saturating_add(1),
            Node::Alt { left, right, .. } => left
                .nodes()
                .saturating_add(right.nodes())
                .saturating_add(1),
            Node::Meet { left, right, .. } => left
                .nodes()
                .saturating_add(right.nodes())
                .saturating_add(1),
            Node::Star { body, .. } => body.nodes().saturating_add(1),
            Node::Within { body, .. } => body.nodes().saturating_add(1),
        }
    }
}
