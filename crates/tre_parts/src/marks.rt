// The bytes of a class, one after the other: sixteen are looked at once, and what was seen is kept.
ghost use Rattle.std.specs.Prelude.{◌≡◌, ◌+◌, ◌≤◌, length, IfSome};
ghost use Rattle.tre_parts.specs.Bytes.{IsNextAt};
ghost use Rattle.tre_parts.specs.Marks.{AreMarks};

use crate::ByteClass;
use std::simd::prelude::*;

// The bytes that one vector holds.
const LANES: usize = 16;

/// Which of sixteen bytes are of a class.
#[derive(Clone, Copy)]
pub struct Marks {
    // Where the sixteen begin.
    block: usize,
    // Bit k stands for byte k of them.
    bits: u64,
}

impl Marks {
    /// Those of the first sixteen.
    #[inline(always)]
    pub fn of<C: ByteClass>(bytes: &[u8]) -> Marks
        requires { LANES ≤ length bytes.now }
        ensures { AreMarks C.has bytes.now 0 result }
    {
        let bits = C::among(u8x16::from_slice(bytes));
        Marks { block: 0, bits }
    }

    /// The place of the first byte of the class from this place on, where one stands in a whole
    /// vector. The places that are asked for rise.
    #[inline(always)]
    pub fn next_from<C: ByteClass>(&mut self, bytes: &[u8], from: usize) -> Option<usize>
        requires { AreMarks C.has bytes.now from self.old }
        ensures next { IfSome result (IsNextAt C.has bytes.now from) }
        ensures marks { IfSome result (λ place. AreMarks C.has bytes.now (place + 1) self.new) }
    {
        let found = self.bits >> (from - self.block);
        if found != 0 {
            return Some(from + found.trailing_zeros() as usize);
        }
        match self.next_block::<C>(bytes) {
            Some(place) => Some(place),
            None => None,
        }
    }

    // The place of the first one behind the sixteen.
    #[inline(always)]
    fn next_block<C: ByteClass>(&mut self, bytes: &[u8]) -> Option<usize>
        requires { self.old.block + LANES ≤ length bytes.now }
        ensures next { IfSome result (IsNextAt C.has bytes.now (self.old.block + LANES)) }
        ensures marks { IfSome result (λ place. AreMarks C.has bytes.now (place + 1) self.new) }
    {
        let mut block = self.block + LANES;
        while bytes.len() - block >= LANES {
            let bits = C::among(u8x16::from_slice(&bytes[block..]));
            if bits != 0 {
                *self = Marks { block, bits };
                return Some(block + bits.trailing_zeros() as usize);
            }
            block += LANES;
        }
        None
    }
}
