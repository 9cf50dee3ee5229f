ghost use Rattle.std.specs.Prelude.{◌≡◌, ◌+◌, ◌≤◌, ◌<◌, [], ◌∷◌, ◌++◌, IfErr, IfOk, OnOk, OnErr, length, sum_by, take};

use crate::block::end_of;
use crate::plane::WORD_BITS;
use crate::planes::Planes;
use crate::{PushFault, Segment};
use std::alloc::{AllocError, Global};
use std::marker::Model;
use tre_pairs::TIME_MAX;

/// The segments of a trace, in the order of time from 0, and the events at its end.
///
/// Beside them it keeps one plane of bits for each proposition that was ever true, and one of
/// zeros: a word each for 64 segments.
#[derive(Drop)]
pub struct Trace {
    segments: Vec<Segment>,
    end: u64,
    last: u64,
    planes: Planes,
}

/// A place of a trace, and when the segment there begins.
#[derive(Clone, Copy)]
pub struct Start {
    pub place: usize,
    /// In ticks; the end of the trace for the place behind the last segment.
    pub time: u64,
}

impl Model for Trace {
    ghost use Rattle.std.specs.Prelude.{◌≡◌};
    ghost use Rattle.tre_trace.specs.Trace.{Timeline, timeline_of, end_of, IsTrace};
    ghost use Rattle.tre_trace.specs.Beside.{AreBeside};

    ghost Value = { Timeline };

    ghost view = { λ t. timeline_of t.segments.items t.last };

    ghost invariant = { λ t. IsTrace t.segments.items × (t.end ≡ end_of 0 t.segments.items)
        × AreBeside t.segments.items t.planes };
}

impl Trace {
    ghost use Rattle.tre_trace.specs.Trace.{timeline_of, quiet, end_of, IsTrace, Fits, IsRefusedFor};
    ghost use Rattle.tre_trace.specs.Planes.{IsPlane};

    /// The trace of no segments.
    pub fn new(alloc: Global) -> Self
        ensures empty { result ≡ quiet [] }
        ensures trace { IsTrace result.segments }
    {
        Trace {
            segments: Vec::new(alloc),
            end: 0,
            last: 0,
            planes: Planes::new(alloc),
        }
    }

    /// The trace of these segments, with no event at its end.
    pub fn of_segments(alloc: Global, segments: Vec<Segment>) -> Result<Self, AllocError>
        requires trace { IsTrace segments.items }
        ensures same { IfOk result (λ trace. trace ≡ quiet segments.items) }
        ensures trace { IfOk result (λ trace. IsTrace trace.segments) }
    {
        let mut planes = Planes::new(alloc);
        let mut end = 0;
        for block in 0..segments.len().div_ceil(WORD_BITS) {
            let from = block * WORD_BITS;
            let to = from + WORD_BITS.min(segments.len() - from);
            planes.add_block(from, &segments[from..to], end)?;
            end = end_of(&segments[from..to], end);
        }
        Ok(Trace {
            segments,
            end,
            last: 0,
            planes,
        })
    }

    /// Puts a segment behind the others; no event happens at the new end. A segment of no time is
    /// refused as `Zero`, whatever its end would be.
    pub fn push(&mut self, segment: Segment) -> Result<(), PushFault>
        ensures pushed { OnOk result (self.new ≡ quiet (self.old.segments ++ segment ∷ [])) }
        ensures fits { OnOk result (Fits self.old.segments segment) }
        ensures ends { OnOk result (end_of 0 self.new.segments ≡ end_of 0 self.old.segments +
            segment.len) }
        ensures trace { IsTrace self.new.segments }

        // Each fault comes exactly where it says, and the trace is unchanged after it.
        ensures refused { IfErr result (IsRefusedFor self.old.segments segment) }
        ensures unchanged { OnErr result (self.new ≡ self.old) }
    {
        let end = u128::from(self.end) + u128::from(segment.len);
        if segment.len == 0 {
            return Err(PushFault::Zero);
        }
        if end > u128::from(TIME_MAX) {
            return Err(PushFault::TooLate { end });
        }
        match self.put(segment) {
            Ok(()) => Ok(()),
            Err(_) => Err(PushFault::Memory),
        }
    }

    // Puts a segment that fits behind the others.
    fn put(&mut self, segment: Segment) -> Result<(), AllocError>
        requires { Fits self.old.segments segment }
        ensures ok { OnOk result (self.new ≡ quiet (self.old.segments ++ segment ∷ [])) }
        ensures err { OnErr result (self.new ≡ self.old) }
        ensures trace { IsTrace self.new.segments }
    {
        let place = self.segments.len();
        self.planes.make_room(place, self.end, segment.val)?;
        self.segments.push(segment)?;
        self.planes.write(place, segment.val);
        self.end += segment.len;
        self.last = 0;
        Ok(())
    }

    /// Puts these events at the end, in place of those that were there.
    pub fn set_last(&mut self, ev: u64)
        ensures set { self.new ≡ timeline_of self.old.segments ev }
        ensures trace { IsTrace self.new.segments }
    {
        self.last = ev;
    }

    /// The events at the end: bit i says whether event i happens there.
    pub fn last_events(&self) -> u64
        ensures { result ≡ self.now.last }
    {
        self.last
    }

    /// When the last segment ends, in ticks; 0 where there is none.
    pub fn end(&self) -> u64
        ensures end { result ≡ end_of 0 self.now.segments }
        ensures lengths { result ≡ sum_by (λ segment. segment.len) self.now.segments }
        ensures trace { IsTrace self.now.segments }
    {
        self.end
    }

    /// The segments, in the order of time.
    pub fn segments(&self) -> &[Segment]
        ensures segments { result.now ≡ self.now.segments }
        ensures trace { IsTrace self.now.segments }
    {
        &self.segments
    }

    /// When the segment at the place begins, in ticks; the end of the trace for the place behind
    /// the last. At most 63 lengths are added up for it.
    pub fn start_of(&self, place: usize) -> u64
        requires { place ≤ length self.now.segments }
        ensures { result ≡ end_of 0 (take place self.now.segments) }
    {
        self.start_from(Start { place: 0, time: 0 }, place).time
    }

    /// The start of the segment at the place, from one that was seen at it or before it. No more
    /// lengths are added up than there are segments between, and at most 63.
    pub fn start_from(&self, seen: Start, place: usize) -> Start
        requires seen { seen.time ≡ end_of 0 (take seen.place self.now.segments) }
        requires order { seen.place ≤ place }
        requires within { place ≤ length self.now.segments }
        ensures place { result.place ≡ place }
        ensures time { result.time ≡ end_of 0 (take place self.now.segments) }
    {
        let near = self.nearest(seen, place);
        let mut time = near.time;
        for segment in &self.segments[near.place..place] {
            time += segment.len;
        }
        Start { place, time }
    }

    // The start of the block that the place is in, or the one that was seen where that is later.
    fn nearest(&self, seen: Start, place: usize) -> Start
        requires seen { seen.time ≡ end_of 0 (take seen.place self.now.segments) }
        requires order { seen.place ≤ place }
        requires within { place ≤ length self.now.segments }
        ensures order { result.place ≤ place }
        ensures time { result.time ≡ end_of 0 (take result.place self.now.segments) }
    {
        let block = place / WORD_BITS;
        if block * WORD_BITS <= seen.place {
            return seen;
        }
        match self.planes.starts.get(block) {
            Some(time) => Start {
                place: block * WORD_BITS,
                time: *time,
            },
            None => Start {
                place,
                time: self.end,
            },
        }
    }

    /// The bits of the proposition of this number: bit j % 64 of word j / 64 is its value on the
    /// segment at the place j.
    pub fn plane(&self, number: u8) -> &[u64]
        requires { number < 64 }
        ensures { IsPlane number self.now.segments result.now }
    {
        self.planes.plane(number, self.segments.len())
    }
}
