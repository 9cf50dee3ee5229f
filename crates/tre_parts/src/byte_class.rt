// The first byte of a class, looked for sixteen bytes at a time.
ghost use Rattle.std.specs.Prelude.{◌≡◌, ◌+◌, ◌≤◌, ℕ, Bool, length, map, IfNone, IfSome};
ghost use Rattle.std.specs.Simd.Lanes.{mask_l};
ghost use Rattle.tre_parts.specs.Bytes.{NoneBetween, IsNextAt};
ghost use Rattle.tre_parts.specs.Walk.{HasNoSeparator, SeparatedAt};

use std::simd::prelude::*;

// The bytes that one vector holds.
const LANES: usize = 16;

/// A class of bytes.
pub trait ByteClass {
    ghost has: { ℕ → Bool };

    /// Whether the byte is one of them.
    fn has(byte: u8) -> bool
        ensures { result ≡ has byte };

    /// Which of sixteen bytes are: bit k stands for byte k.
    fn among(bytes: u8x16) -> u64
        ensures { result ≡ mask_l (map has bytes) };
}

/// The place of the first byte of the class, where there is one.
#[inline(always)]
pub fn first_of<C: ByteClass>(bytes: &[u8]) -> Option<usize>
    ensures none { IfNone result (HasNoSeparator C.has bytes.now) }
    ensures first { IfSome result (SeparatedAt C.has bytes.now) }
{
    match first_from::<C>(bytes, 0) {
        Some(place) => Some(place),
        None => None,
    }
}

/// The place of the first byte of the class from this place on, where there is one.
#[inline(always)]
pub fn first_from<C: ByteClass>(bytes: &[u8], from: usize) -> Option<usize>
    requires { from ≤ length bytes.now }
    ensures none { IfNone result (NoneBetween C.has bytes.now from (length bytes.now)) }
    ensures first { IfSome result (IsNextAt C.has bytes.now from) }
{
    let mut place = from;
    while bytes.len() - place >= LANES {
        let found = C::among(u8x16::from_slice(&bytes[place..]));
        if found != 0 {
            return Some(place + found.trailing_zeros() as usize);
        }
        place += LANES;
    }
    if bytes.len() >= LANES {
        return first_at_end::<C>(bytes, from, place);
    }
    first_of_few::<C>(bytes, from)
}

// The same, where less than a vector is left behind this place: those before it are looked at once
// more.
#[inline(always)]
fn first_at_end<C: ByteClass>(bytes: &[u8], from: usize, place: usize) -> Option<usize>
    requires long { LANES ≤ length bytes.now }
    requires behind { from ≤ place }
    requires within { place ≤ length bytes.now }
    requires short { length bytes.now ≤ place + LANES }
    requires before { NoneBetween C.has bytes.now from place }
    ensures none { IfNone result (NoneBetween C.has bytes.now from (length bytes.now)) }
    ensures first { IfSome result (IsNextAt C.has bytes.now from) }
{
    let start = bytes.len() - LANES;
    let all = C::among(u8x16::from_slice(&bytes[start..]));
    let found = all >> (place - start);
    if found == 0 {
        return None;
    }
    Some(place + found.trailing_zeros() as usize)
}

// The same, one by one.
fn first_of_few<C: ByteClass>(bytes: &[u8], from: usize) -> Option<usize>
    requires { from ≤ length bytes.now }
    ensures none { IfNone result (NoneBetween C.has bytes.now from (length bytes.now)) }
    ensures first { IfSome result (IsNextAt C.has bytes.now from) }
{
    let mut place = from;
    while place < bytes.len() {
        if C::has(bytes[place]) {
            return Some(place);
        }
        place += 1;
    }
    None
}
