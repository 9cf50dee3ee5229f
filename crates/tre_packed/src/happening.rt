// What happens at the begin of segments.
ghost use Rattle.std.specs.Prelude.{◌≡◌, ◌+◌, ◌/◌, ◌^◌, ◌≤◌, ◌<◌, ℕ, [], ◌∷◌, ◌++◌, All, length, true, IfOk, OnOk};
ghost use Rattle.std.specs.Int.{bit_at};
ghost use Rattle.tre_packed.specs.Events.{IsEventPlane};
ghost use Rattle.tre_packed.specs.Said.{said_from, HasBits, IsToldPlane};
ghost use Rattle.tre_trace.specs.Words.{IsWritten};

use crate::said::Said;
use std::alloc::{AllocError, Global};
use tre_trace::Segment;

/// How many places one word has bits for.
pub(crate) const WORD_BITS: usize = 64;

/// Adds what the segments say from the place on, of those at whose begin some event happens.
pub(crate) fn add_said(
    said: &mut Vec<Said>,
    block: &[Segment],
    place: usize,
) -> Result<(), AllocError>
    requires { place + length block.now < 2 ^ 63 }
    ensures said { OnOk result (said.new.items ≡ said.old.items ++ said_from place block.now) }
    ensures bits { OnOk result (All HasBits block.now) }
{
    if are_quiet(block) {
        return Ok(());
    }
    for (index, segment) in block.iter().enumerate() {
        say(said, place + index, segment)?;
    }
    Ok(())
}

// Whether no event happens at the begin of any of the segments: mostly none does, and this says so
// in one pass without a branch.
fn are_quiet(block: &[Segment]) -> bool
    ensures quiet { result ≡ true → (place : ℕ) → said_from place block.now ≡ [] }
    ensures bits { All HasBits block.now }
{
    let mut events = 0;
    for segment in block {
        events |= events_of(segment);
    }
    events == 0
}

// The events at the begin of the segment.
#[inline(always)]
fn events_of(segment: &Segment) -> u64
    ensures events { result ≡ segment.now.ev }
    ensures bits { HasBits segment.now }
{
    // For the proof: what is read has 64 bits.
    let _value = segment.val;
    segment.ev
}

// Adds what one segment says.
#[inline(always)]
fn say(said: &mut Vec<Said>, place: usize, segment: &Segment) -> Result<(), AllocError>
    ensures said { OnOk result
        (said.new.items ≡ said.old.items ++ said_from place (segment.now ∷ [])) }
    ensures bits { HasBits segment.now }
{
    let events = events_of(segment);
    if events == 0 {
        return Ok(());
    }
    said.push(Said { place, events })?;
    Ok(())
}

/// On which of so many segments the event of this number was said to happen, a bit each.
pub(crate) fn said_plane(
    alloc: Global,
    number: u8,
    said: &[Said],
    count: usize,
) -> Result<Vec<u64>, AllocError>
    requires number { number < 64 }
    requires within { All (λ one. one.place < count) said.now }
    ensures { IfOk result (λ words. IsToldPlane number said.now count words.items) }
{
    let mut words = vec![in alloc; 0; count.div_ceil(WORD_BITS)]?;
    for one in said {
        write_bit(&mut words, one.place, event_bit(one.events, number));
    }
    Ok(words)
}

/// On which of the segments the event of this number happens, a bit each.
pub(crate) fn event_plane(
    alloc: Global,
    number: u8,
    segments: &[Segment],
) -> Result<Vec<u64>, AllocError>
    requires number { number < 64 }
    ensures { IfOk result (λ words. IsEventPlane number segments.now words.items) }
{
    let mut words = vec![in alloc; 0; segments.len().div_ceil(WORD_BITS)]?;
    for (place, segment) in segments.iter().enumerate() {
        write_bit(&mut words, place, event_bit(segment.ev, number));
    }
    Ok(words)
}

// The bit of the event of this number.
fn event_bit(events: u64, number: u8) -> u64
    requires { number < 64 }
    ensures { result ≡ bit_at events number }
{
    events >> number & 1
}

// Writes the bit of the place, where it is 1.
fn write_bit(words: &mut Vec<u64>, place: usize, bit: u64)
    requires bit { bit ≤ 1 }
    requires within { place / 64 < length words.old.items }
    ensures { IsWritten place bit words.old.items words.new.items }
{
    if bit == 1 {
        words[place / WORD_BITS] |= 1 << (place % WORD_BITS);
    }
}
