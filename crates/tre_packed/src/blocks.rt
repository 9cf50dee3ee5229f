// Segments in blocks of 64, each in few bytes.
ghost use Rattle.std.specs.Prelude.{◌≡◌, ◌+◌, ◌*◌, ◌%◌, ◌^◌, ◌≤◌, ◌<◌, [], ◌++◌, ℕ, List, length, take, IfOk, OnOk};
ghost use Rattle.tre_pairs.specs.declared.TheConstants.{TIME_MAX};
ghost use Rattle.tre_packed.specs.Events.{IsEventPlane};
ghost use Rattle.tre_trace.specs.Beside.{AreBeside, AreBesideSome};
ghost use Rattle.tre_trace.specs.Planes.{IsPlane};
ghost use Rattle.tre_trace.specs.Trace.{end_of, IsTrace};

use crate::happening::{WORD_BITS, add_said, said_plane};
use crate::offsets::Offsets;
use crate::said::Said;
use std::alloc::{AllocError, Global};
use tre_trace::{Planes, Segment};

/// The segments of a trace. Nothing is known of what was left where memory ran out.
#[derive(Drop)]
pub(crate) struct Blocks {
    /// When the last one ends, in ticks.
    pub(crate) end: u64,
    pub(crate) offsets: Offsets,
    pub(crate) planes: Planes,
    /// The events, where there are some.
    pub(crate) said: Vec<Said>,
}

impl Blocks {
    ghost use Rattle.tre_packed.specs.Offsets.{items_in};
    ghost use Rattle.tre_packed.specs.Pack.{IsPack};
    ghost use Rattle.tre_packed.specs.Unpacked.{unpacked};

    /// No segments.
    pub(crate) fn new(alloc: Global) -> Blocks
        ensures { IsPack [] result }
    {
        Blocks {
            end: 0,
            offsets: Offsets::new(alloc),
            planes: Planes::new(alloc),
            said: Vec::new(alloc),
        }
    }

    pub(crate) fn count(&self) -> usize
        requires { IsPack (unpacked self.now) self.now }
        ensures { result ≡ length (unpacked self.now) }
    {
        self.offsets.len()
    }

    /// Adds segments behind the others.
    pub(crate) fn add(&mut self, segments: &[Segment]) -> Result<(), AllocError>
        requires pack { IsPack (unpacked self.old) self.old }
        requires trace { IsTrace (unpacked self.old ++ segments.now) }
        ensures { OnOk result (IsPack (unpacked self.old ++ segments.now) self.new) }
    {
        let mut from = 0;
        while from < segments.len() {
            let room = WORD_BITS - self.offsets.len() % WORD_BITS;
            let to = from + room.min(segments.len() - from);
            self.add_block(&segments[from..to])?;
            from = to;
        }
        Ok(())
    }

    // Adds some segments for which the last block, or one behind it, has room.
    fn add_block(&mut self, block: &[Segment]) -> Result<(), AllocError>
        requires pack { IsPack (unpacked self.old) self.old }
        requires trace { IsTrace (unpacked self.old ++ block.now) }
        requires some { 0 < length block.now }
        requires room { length (items_in self.old.offsets) % 64 + length block.now ≤ 64 }
        ensures { OnOk result (IsPack (unpacked self.old ++ block.now) self.new) }
    {
        let count = self.offsets.len();
        add_planes(&mut self.planes, count, block, self.end)?;
        add_said(&mut self.said, block, count)?;
        let start = self.planes.start(count / WORD_BITS);
        let end = self.offsets.add(block, self.end - start)?;
        self.end = start + end;
        Ok(())
    }

    /// When the segment at the place begins, in ticks; the end for the place behind the last.
    #[inline(always)]
    pub(crate) fn time_of(&self, place: usize) -> u64
        requires pack { IsPack (unpacked self.now) self.now }
        requires within { place ≤ length (unpacked self.now) }
        ensures { result ≡ end_of 0 (take place (unpacked self.now)) }
    {
        if place < self.offsets.len() {
            return self.planes.start(place / WORD_BITS) + self.offsets.at(place);
        }
        self.end
    }

    /// The bits of the proposition of this number.
    pub(crate) fn plane(&self, number: u8) -> &[u64]
        requires pack { IsPack (unpacked self.now) self.now }
        requires number { number < 64 }
        ensures { IsPlane number (unpacked self.now) result.now }
    {
        self.planes.plane(number, self.offsets.len())
    }

    /// The bits of the event of this number.
    pub(crate) fn event_plane(&self, alloc: Global, number: u8) -> Result<Vec<u64>, AllocError>
        requires pack { IsPack (unpacked self.now) self.now }
        requires number { number < 64 }
        ensures { IfOk result (λ words. IsEventPlane number (unpacked self.now) words.items) }
    {
        said_plane(alloc, number, &self.said, self.offsets.len())
    }
}

// Adds what is beside segments for which one block has room, behind so many that end at `end`.
fn add_planes(
    planes: &mut Planes,
    count: usize,
    block: &[Segment],
    end: u64,
) -> Result<(), AllocError>
    requires beside { AreBesideSome count end planes.old }
    requires trace { end_of end block.now ≤ TIME_MAX }
    requires room { count % 64 + length block.now ≤ 64 }
    requires limit { count ≤ TIME_MAX }
    ensures { (front : List Segment) → count ≡ length front → end ≡ end_of 0 front →
        AreBeside front planes.old → OnOk result (AreBeside (front ++ block.now) planes.new) }
{
    if count % WORD_BITS == 0 {
        return planes.add_block(count, block, end);
    }
    add_each(planes, count, block, end)
}

// The same one by one.
fn add_each(
    planes: &mut Planes,
    count: usize,
    block: &[Segment],
    end: u64,
) -> Result<(), AllocError>
    requires beside { AreBesideSome count end planes.old }
    requires trace { end_of end block.now ≤ TIME_MAX }
    requires room { count + length block.now < 2 ^ 63 }
    ensures { (front : List Segment) → count ≡ length front → end ≡ end_of 0 front →
        AreBeside front planes.old → OnOk result (AreBeside (front ++ block.now) planes.new) }
{
    let mut time = end;
    for (index, segment) in block.iter().enumerate() {
        planes.make_room(count + index, time, segment.val)?;
        planes.write(count + index, segment.val);
        time += segment.len;
    }
    Ok(())
}
