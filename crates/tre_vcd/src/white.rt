// White space.
ghost use Rattle.tre_vcd.specs.VcdReading.{is_white};

use std::simd::prelude::*;
use tre_parts::ByteClass;

/// The bytes that part tokens.
pub struct White;

impl ByteClass for White {
    ghost has = { is_white };

    #[inline(always)]
    fn has(byte: u8) -> bool {
        byte == b' ' || (b'\t' <= byte && byte <= b'\r')
    }

    #[inline(always)]
    fn among(bytes: u8x16) -> u64 {
        let from_tab = bytes - u8x16::splat(b'\t');
        (bytes.simd_eq(u8x16::splat(b' ')) | from_tab.simd_lt(u8x16::splat(5))).to_bitmask()
    }
}
