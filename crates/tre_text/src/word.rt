// How far a name reaches.
ghost use Rattle.std.specs.Prelude.{◌≡◌, ◌-◌, ◌<◌, ◌≤◌, true, false, length, drop, slice_index_or};
ghost use Rattle.tre_text.specs.TextReading.{is_blank, fields_among};
ghost use Rattle.tre_text.specs.Words.{IsRest, IsWordEnd, ends_word, stops_name};

use crate::field::{is_blank, skip_blanks};
use std::simd::prelude::*;
use tre_parts::{ByteClass, first_from};
use tre_state::{continues_name, starts_name};

// The bytes that no name goes on with.
pub struct Stop;

impl ByteClass for Stop {
    ghost has = { stops_name };

    fn has(byte: u8) -> bool {
        !continues_name(byte)
    }

    #[inline(always)]
    fn among(bytes: u8x16) -> u64 {
        let from_a = (bytes | u8x16::splat(0x20)) - u8x16::splat(b'a');
        let from_0 = bytes - u8x16::splat(b'0');
        let is_no_sign = from_a.simd_ge(u8x16::splat(26)) & from_0.simd_ge(u8x16::splat(10));
        let is_no_mark = bytes.simd_ne(u8x16::splat(b'_')) & bytes.simd_ne(u8x16::splat(b'.'));
        (is_no_sign & is_no_mark).to_bitmask()
    }
}

/// Where the name ends that the rest of the line begins with; 0 where it begins with none.
#[inline(always)]
pub fn word_end(line: &[u8], rest: &[u8]) -> usize
    requires { IsRest line.now rest.now }
    ensures { IsWordEnd rest.now result }
{
    if rest.is_empty() || !starts_name(rest[0]) {
        return 0;
    }
    let len = rest.len();
    if len == 1 {
        return 1;
    }
    // The bytes in front of the rest fill up a vector near the end.
    let start = line.len() - len;
    match first_from::<Stop>(line, start) {
        Some(end) => end - start,
        None => len,
    }
}

/// Whether a name of some bytes ends at this place: a blank is there, or the end.
#[inline(always)]
pub fn ends_word(bytes: &[u8], end: usize) -> bool
    requires { end ≤ length bytes.now }
    ensures { result ≡ ends_word bytes.now end }
{
    0 < end && (end == bytes.len() || is_blank(bytes[end]))
}

/// What stands behind a name that ends at this place, from the first byte on that is no blank.
#[inline(always)]
pub fn behind_word(bytes: &[u8], end: usize) -> &[u8]
    requires within { end ≤ length bytes.now }
    requires ends { ends_word bytes.now end ≡ true }
    ensures fields { fields_among (drop end bytes.now) ≡ fields_among result.now }
    ensures shorter { length result.now ≤ length bytes.now - end }
    ensures first { 0 < length result.now → is_blank (slice_index_or result.now 0 0) ≡ false }
    ensures rest { IsRest bytes.now result.now }
{
    if end == bytes.len() {
        return &[];
    }
    // A blank is at the end.
    skip_blanks(&bytes[end + 1..])
}
