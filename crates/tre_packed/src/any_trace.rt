ghost use Rattle.std.specs.Prelude.{◌≡◌, ◌≤◌, ◌<◌, length, take, IfOk};
ghost use Rattle.tre_packed.specs.Events.{IsEventPlane};
ghost use Rattle.tre_trace.specs.Planes.{IsPlane};
ghost use Rattle.tre_trace.specs.Trace.{Timeline, end_of, IsTrace};

use crate::happening::event_plane;
use crate::packed::Packed;
use std::alloc::{AllocError, Global};
use tre_trace::{Start, Trace};

/// A whole trace, by the places of its segments.
pub trait AnyTrace {
    /// Its segments, and the events at its end.
    ghost timeline: { Self → Timeline };

    /// How many segments there are.
    fn count(&self) -> usize
        ensures count { result ≡ length (timeline self.now).segments }
        ensures trace { IsTrace (timeline self.now).segments };

    /// When the last segment ends, in ticks; 0 where there is none.
    fn end(&self) -> u64
        ensures end { result ≡ end_of 0 (timeline self.now).segments }
        ensures trace { IsTrace (timeline self.now).segments };

    /// The start of the segment at the place, from one that was seen at it or before it.
    fn start_from(&self, seen: Start, place: usize) -> Start
        requires seen { seen.time ≡ end_of 0 (take seen.place (timeline self.now).segments) }
        requires order { seen.place ≤ place }
        requires within { place ≤ length (timeline self.now).segments }
        ensures place { result.place ≡ place }
        ensures time { result.time ≡ end_of 0 (take place (timeline self.now).segments) };

    /// The bits of the proposition of this number: bit j % 64 of word j / 64 is its value on the
    /// segment at the place j.
    fn plane(&self, number: u8) -> &[u64]
        requires { number < 64 }
        ensures { IsPlane number (timeline self.now).segments result.now };

    /// The bits of the event of this number: whether it happens at the begin of the segment.
    fn event_plane(&self, alloc: Global, number: u8) -> Result<Vec<u64>, AllocError>
        requires { number < 64 }
        ensures { IfOk result (λ words.
            IsEventPlane number (timeline self.now).segments words.items) };

    /// The events at the end: bit i says whether event i happens there.
    fn last_events(&self) -> u64
        ensures { result ≡ (timeline self.now).last };
}

impl AnyTrace for Trace {
    ghost timeline = { λ trace. trace };

    fn count(&self) -> usize {
        self.segments().len()
    }

    fn end(&self) -> u64 {
        self.end()
    }

    fn start_from(&self, seen: Start, place: usize) -> Start {
        self.start_from(seen, place)
    }

    fn plane(&self, number: u8) -> &[u64] {
        self.plane(number)
    }

    fn event_plane(&self, alloc: Global, number: u8) -> Result<Vec<u64>, AllocError> {
        event_plane(alloc, number, self.segments())
    }

    fn last_events(&self) -> u64 {
        self.last_events()
    }
}

impl AnyTrace for Packed {
    ghost timeline = { λ trace. trace };

    #[inline(always)]
    fn count(&self) -> usize {
        self.blocks.count()
    }

    fn end(&self) -> u64 {
        self.blocks.end
    }

    #[inline(always)]
    fn start_from(&self, _seen: Start, place: usize) -> Start {
        Start {
            place,
            time: self.blocks.time_of(place),
        }
    }

    fn plane(&self, number: u8) -> &[u64] {
        self.blocks.plane(number)
    }

    fn event_plane(&self, alloc: Global, number: u8) -> Result<Vec<u64>, AllocError> {
        self.blocks.event_plane(alloc, number)
    }

    fn last_events(&self) -> u64 {
        self.last
    }
}
