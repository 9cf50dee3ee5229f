// Tests of tre_trace.
use std::alloc::Global;
use std::test::Fail;
use tests_support::trace_of;
use tre_trace::{PushFault, Segment, Trace, generated};

// Whether segments are refused that last no time or end too late, and others pushed.
fn refuses_in_order(trace: &mut Trace) -> bool {
    let (long, short) = (Segment::plain(1 << 40, 1), Segment::plain(1, 0));
    let late = PushFault::TooLate { end: 1099511627777 };
    trace.push(Segment::plain(0, 1)) == Err(PushFault::Zero)
        && trace.push(long) == Ok(())
        && trace.push(short) == Err(late)
        && trace.end() == 1099511627776
        && trace.segments() == [long].as_slice()
}

// Whether the longest segment is refused.
fn refuses_the_longest(trace: &mut Trace) -> bool {
    let late = PushFault::TooLate {
        end: 18446744073709551615,
    };
    trace.push(Segment::plain(18446744073709551615, 0)) == Err(late) && trace.segments().is_empty()
}

#[test]
fn faults_of_segments(rt: HostRuntime) {
    assert!(rt; refuses_the_longest(&mut Trace::new(rt.alloc())));
    assert!(rt; refuses_in_order(&mut Trace::new(rt.alloc())));
}

// A valuation for a place: proposition 2 is true on all, 0 on each third one, 5 on the one at the
// place 64, and 63 on the last of each block.
fn valuation_at(place: usize) -> u64 {
    let mut valuation = 0b100;
    if place % 3 == 0 {
        valuation |= 0b1;
    }
    if place == 64 {
        valuation |= 0b10_0000;
    }
    if place % 64 == 63 {
        valuation |= 1 << 63;
    }
    valuation
}

// The trace of so many segments of two ticks.
fn long_trace(alloc: Global, count: u8) -> Result<Trace, PushFault> {
    let mut trace = Trace::new(alloc);
    for place in 0..usize::from(count) {
        let val = valuation_at(place);
        trace.push(Segment::plain(2, val))?;
    }
    Ok(trace)
}

// Whether the words have just these bits of the trace of so many segments, and no more.
fn agree(words: &[u64], number: u32, count: u8) -> bool {
    let count = usize::from(count);
    for place in 0..count.div_ceil(64) * 64 {
        let word = words.get(place / 64).copied().unwrap_or(0);
        let is_set = place < count && valuation_at(place) >> (number % 64) & 1 == 1;
        if (word >> (place % 64) & 1 == 1) != is_set {
            return false;
        }
    }
    words.len() == count.div_ceil(64)
}

// Whether the plane of each of some propositions has its bits.
fn planes_agree(trace: &Trace, count: u8) -> bool {
    agree(trace.plane(0), 0, count)
        && agree(trace.plane(1), 1, count)
        && agree(trace.plane(2), 2, count)
        && agree(trace.plane(5), 5, count)
        && agree(trace.plane(63), 63, count)
}

fn do_planes_agree(alloc: Global, count: u8) -> Result<bool, PushFault> {
    let trace = long_trace(alloc, count)?;
    Ok(planes_agree(&trace, count))
}

#[test]
fn planes_have_the_bits(rt: HostRuntime) -> Result<(), Fail> {
    for count in [0_u8, 1, 63, 64, 65, 127, 128, 129] {
        assert!(rt; do_planes_agree(rt.alloc(), count)?, "{count}");
    }
    Ok(())
}

// Whether there are so many segments, and each begins where those of two ticks before it end.
fn starts_are_even(trace: &Trace, count: u8) -> bool {
    for place in 0..=trace.segments().len() {
        if trace.start_of(place) != 2 * place as u64 {
            return false;
        }
    }
    trace.segments().len() == usize::from(count)
}

fn are_starts_even(alloc: Global, count: u8) -> Result<bool, PushFault> {
    let trace = long_trace(alloc, count)?;
    Ok(starts_are_even(&trace, count))
}

#[test]
fn segments_start_where_others_end(rt: HostRuntime) -> Result<(), Fail> {
    for count in 0..130_u8 {
        assert!(rt; are_starts_even(rt.alloc(), count)?, "{count}");
    }
    Ok(())
}

fn has_planes(trace: &Trace) -> bool {
    trace.plane(0) == [5].as_slice()
        && trace.plane(1) == [6].as_slice()
        && trace.plane(2) == [0].as_slice()
}

fn are_planes(alloc: Global) -> Result<bool, PushFault> {
    let trace = trace_of(alloc, &[(3, 0b01), (2, 0b10), (4, 0b11)])?;
    Ok(has_planes(&trace))
}

#[test]
fn planes_of_three_segments(rt: HostRuntime) -> Result<(), Fail> {
    assert!(rt; are_planes(rt.alloc())?);
    Ok(())
}

#[test]
fn made_segments(rt: HostRuntime) {
    for (number, len, val) in [(0, 1, 0), (1, 2, 1), (2, 3, 0), (3, 1, 1)] {
        assert!(rt; generated(number) == Segment::plain(len, val), "{number}");
    }
}

// Whether the trace has these events at its end.
fn has_last(trace: &Trace, events: u64) -> bool {
    trace.last_events() == events
}

// Whether the events at the end stay until a segment is pushed.
fn are_last(trace: &mut Trace) -> bool {
    trace.set_last(6);
    let first = has_last(trace, 6)
        && trace.push(Segment::plain(2, 0)) == Ok(())
        && has_last(trace, 0);
    trace.set_last(5);
    first && trace.push(Segment::plain(0, 1)) == Err(PushFault::Zero) && has_last(trace, 5)
}

fn are_last_events(alloc: Global) -> Result<bool, PushFault> {
    let mut trace = trace_of(alloc, &[(3, 1)])?;
    Ok(has_last(&trace, 0) && are_last(&mut trace))
}

#[test]
fn last_events_end_with_the_next_segment(rt: HostRuntime) -> Result<(), Fail> {
    assert!(rt; are_last_events(rt.alloc())?);
    Ok(())
}
