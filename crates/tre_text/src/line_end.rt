// Where a line ends.
ghost use Rattle.std.specs.Prelude.{◌≤◌, length, IfNone, IfSome};
ghost use Rattle.std.specs.Char.{is_newline};
ghost use Rattle.tre_parts.specs.Walk.{HasNoSeparator, SeparatedAt};

use memchr::memchr;
use std::simd::prelude::*;
use tre_parts::{ByteClass, first_of};

// Most lines that are short have no more bytes.
const NEAR: usize = 16;

struct LineEnd;

impl ByteClass for LineEnd {
    ghost has = { is_newline };

    fn has(byte: u8) -> bool {
        byte == b'\n'
    }

    #[inline(always)]
    fn among(bytes: u8x16) -> u64 {
        bytes.simd_eq(u8x16::splat(b'\n')).to_bitmask()
    }
}

/// The place of the first line end, where there is one.
#[inline(always)]
pub fn line_end_in(bytes: &[u8]) -> Option<usize>
    ensures none { IfNone result (HasNoSeparator is_newline bytes.now) }
    ensures first { IfSome result (SeparatedAt is_newline bytes.now) }
{
    if bytes.len() >= NEAR {
        if let Some(place) = near_line_end(bytes, NEAR) {
            return Some(place);
        }
    }
    memchr(b'\n', bytes)
}

// The same, where it is one of so many first bytes.
#[inline(always)]
fn near_line_end(bytes: &[u8], count: usize) -> Option<usize>
    requires { count ≤ length bytes.now }
    ensures { IfSome result (SeparatedAt is_newline bytes.now) }
{
    match first_of::<LineEnd>(&bytes[..count]) {
        Some(place) => Some(place),
        None => None,
    }
}
