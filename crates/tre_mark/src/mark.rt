ghost use Rattle.std.specs.Prelude.{◌≡◌, ◌-◌, ◌^◌, min};
ghost use Rattle.tre_mark.specs.MarkTree.{mark_of};
ghost use Rattle.tre_mark.specs.Nodes.{mark_node_count};

use std::alloc::Global;
use tre_zone::Zone;

/// Vectors that a step works in. What is in them says nothing of the mark.
#[derive(Drop)]
pub struct Room {
    pub mid: Vec<Zone>,
    pub aux: Vec<Zone>,
    pub more: Vec<Zone>,
}

impl Room {
    /// Room with nothing in it. It takes no memory.
    pub fn new(alloc: Global) -> Room {
        Room {
            mid: Vec::new(alloc),
            aux: Vec::new(alloc),
            more: Vec::new(alloc),
        }
    }
}

/// How far the matches of an expression that began up to a time have come, in the shape of the
/// expression.
#[derive(Drop)]
pub enum Mark {
    /// Of an atom: the pairs behind which it may begin now, and those whose literal holds until
    /// now. Each ends at the present time.
    Atom {
        here: Vec<Zone>,
        begun: Vec<Zone>,
        room: Room,
    },
    /// Of the two parts of a sequence.
    Seq {
        left: Box<Mark>,
        right: Box<Mark>,
        room: Room,
    },
    /// Of the two sides of an alternation.
    Alt(Box<Mark>, Box<Mark>),
    /// Of a repetition: the pairs behind which it may go on now, and the mark of what is repeated.
    Star {
        here: Vec<Zone>,
        body: Box<Mark>,
        room: Room,
    },
    /// Of an intersection that began behind each pair of `outer`, and of both its sides. `to` is
    /// the first tick by which each of these pairs has ended. Where there is none, it has not
    /// begun, or nothing is left of it: then the marks of its sides mean nothing.
    Meet {
        to: u64,
        outer: Vec<Zone>,
        left: Box<Mark>,
        right: Box<Mark>,
        room: Room,
    },
    /// Of a restriction that began behind each pair of `outer`, and of what it restricts.
    Within {
        to: u64,
        outer: Vec<Zone>,
        body: Box<Mark>,
        room: Room,
    },
}

impl Mark {
    /// How many nodes the mark has, or `u64::MAX` where there are more. It takes no memory.
    pub fn nodes(&self) -> u64
        ensures { result ≡ min (mark_node_count (mark_of self.now)) (2 ^ 64 - 1) }
    {
        match self {
            Mark::Atom { .. } => 1,
            Mark::Seq { left, right, .. } => left
                .nodes()
                .saturating_add(right.nodes())
                .saturating_add(1),
            Mark::Alt(left, right) => left.nodes().saturating_add(right.nodes()).saturating_add(1),
            Mark::Star { body, .. } => body.nodes().saturating_add(1),
            Mark::Meet {
                outer,
                left,
                right,
                ..
            } => {
                if outer.is_empty() {
                    return 1;
                }
                left.nodes().saturating_add(right.nodes()).saturating_add(1)
            }
            Mark::Within { outer, body, .. } => {
                if outer.is_empty() {
                    return 1;
                }
                body.nodes().saturating_add(1)
            }
        }
    }
}
