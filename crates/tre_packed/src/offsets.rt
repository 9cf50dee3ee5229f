// When segments begin, each in ticks from the begin of its block.
ghost use Rattle.std.specs.Prelude.{◌≡◌, ◌+◌, ◌^◌, ◌≤◌, ◌<◌, [], ◌++◌, length, slice_index, IfOk, OnOk};
ghost use Rattle.tre_packed.specs.Times.{offsets_from};
ghost use Rattle.tre_pairs.specs.declared.TheConstants.{TIME_MAX};
ghost use Rattle.tre_trace.specs.Trace.{end_of};

use std::alloc::{AllocError, Global};
use tre_trace::{Segment, end_of};

/// How late in its block a segment begins at the most, for four bytes.
const NEAR_MAX: u64 = 4_294_967_295;

/// Four bytes a segment, or eight where some block lasts longer.
#[derive(Drop)]
pub(crate) enum Offsets {
    Near(Vec<u32>),
    Far(Vec<u64>),
}

impl Offsets {
    ghost use Rattle.tre_packed.specs.Offsets.{items_in};

    pub(crate) fn new(alloc: Global) -> Offsets
        ensures { items_in result ≡ [] }
    {
        Offsets::Near(Vec::new(alloc))
    }

    /// How many there are.
    pub(crate) fn len(&self) -> usize
        ensures { result ≡ length (items_in self.now) }
    {
        match self {
            Offsets::Near(items) => items.len(),
            Offsets::Far(items) => items.len(),
        }
    }

    /// The offset of the segment at the place.
    #[inline(always)]
    pub(crate) fn at(&self, place: usize) -> u64
        requires { place < length (items_in self.now) }
        ensures { result ≡ slice_index (items_in self.now) place }
    {
        match self {
            Offsets::Near(items) => u64::from(items[place]),
            Offsets::Far(items) => items[place],
        }
    }

    /// Adds those of a block, or a part of one, whose first segment has the offset `first`. Gives
    /// the offset at which it ends.
    pub(crate) fn add(&mut self, block: &[Segment], first: u64) -> Result<u64, AllocError>
        requires { end_of first block.now ≤ TIME_MAX }
        ensures added { OnOk result
            (items_in self.new ≡ items_in self.old ++ offsets_from first block.now) }
        ensures end { IfOk result (λ end. end ≡ end_of first block.now) }
    {
        let end = end_of(block, first);
        match self {
            Offsets::Near(items) => {
                if end <= NEAR_MAX {
                    add_near(items, block, first)?;
                } else {
                    let mut far = widened(*items.allocator(), items)?;
                    add_far(&mut far, block, first)?;
                    *self = Offsets::Far(far);
                }
            }
            Offsets::Far(items) => add_far(items, block, first)?,
        }
        Ok(end)
    }
}

// The same offsets in eight bytes each.
fn widened(alloc: Global, near: &[u32]) -> Result<Vec<u64>, AllocError>
    ensures { IfOk result (λ far. far.items ≡ near.now) }
{
    let mut far = Vec::with_capacity(alloc, near.len())?;
    for offset in near {
        far.push(u64::from(*offset))?;
    }
    Ok(far)
}

fn add_near(items: &mut Vec<u32>, block: &[Segment], first: u64) -> Result<(), AllocError>
    requires { end_of first block.now < 2 ^ 32 }
    ensures { OnOk result (items.new.items ≡ items.old.items ++ offsets_from first block.now) }
{
    items.reserve(block.len())?;
    let mut offset = first;
    for segment in block {
        items.push(offset as u32)?;
        offset += segment.len;
    }
    Ok(())
}

fn add_far(items: &mut Vec<u64>, block: &[Segment], first: u64) -> Result<(), AllocError>
    requires { end_of first block.now ≤ TIME_MAX }
    ensures { OnOk result (items.new.items ≡ items.old.items ++ offsets_from first block.now) }
{
    items.reserve(block.len())?;
    let mut offset = first;
    for segment in block {
        items.push(offset)?;
        offset += segment.len;
    }
    Ok(())
}
