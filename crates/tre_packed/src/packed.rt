ghost use Rattle.std.specs.Prelude.{◌≡◌, ◌++◌, [], length, take, OnOk, OnErr};

use crate::blocks::Blocks;
use std::alloc::{AllocError, Global};
use std::marker::Model;
use std::mem;
use tre_trace::Segment;

/// The segments of a trace, in the order of time from 0, and the events at its end, in four bytes a
/// segment and a bit for each proposition that was ever true; in eight bytes, where 64 segments
/// that stand in one block last 2^32 ticks or longer.
#[derive(Drop)]
pub struct Packed {
    pub(crate) blocks: Blocks,
    pub(crate) last: u64,
}

impl Model for Packed {
    ghost use Rattle.tre_packed.specs.Pack.{IsPack};
    ghost use Rattle.tre_packed.specs.Unpacked.{unpacked};
    ghost use Rattle.tre_trace.specs.Trace.{Timeline, timeline_of};

    ghost Value = { Timeline };

    ghost view = { λ packed. timeline_of (unpacked packed.blocks) packed.last };

    ghost invariant = { λ packed. IsPack (unpacked packed.blocks) packed.blocks };
}

impl Packed {
    ghost use Rattle.tre_trace.specs.Trace.{timeline_of, quiet, IsTrace};

    /// The trace of no segments.
    pub fn new(alloc: Global) -> Packed
        ensures empty { result ≡ quiet [] }
        ensures trace { IsTrace result.segments }
    {
        Packed {
            blocks: Blocks::new(alloc),
            last: 0,
        }
    }

    /// Puts segments behind the others; no event happens at the new end. It takes any number of
    /// them, and the more at once the less each costs. Where there is no memory, none is left.
    pub fn add(&mut self, segments: &[Segment]) -> Result<(), AllocError>
        requires { IsTrace (self.old.segments ++ segments.now) }
        ensures added { OnOk result (self.new ≡ quiet (self.old.segments ++ segments.now)) }
        ensures none { OnErr result (self.new ≡ quiet []) }
        ensures trace { IsTrace self.new.segments }
    {
        let alloc = *self.blocks.said.allocator();
        let mut blocks = mem::replace(&mut self.blocks, Blocks::new(alloc));
        self.last = 0;
        blocks.add(segments)?;
        self.blocks = blocks;
        Ok(())
    }

    /// Puts these events at the end, in place of those that were there.
    pub fn set_last(&mut self, ev: u64)
        ensures set { self.new ≡ timeline_of self.old.segments ev }
        ensures trace { IsTrace self.new.segments }
    {
        self.last = ev;
    }
}
