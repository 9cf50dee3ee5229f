ghost use Rattle.std.specs.Prelude.{◌≡◌, ◌+◌, ◌≤◌};
ghost use Rattle.tre_parts.specs.Skims.{spot_behind};
ghost use Rattle.tre_parts.specs.declared.spot.Spot.{Spot};

use crate::Skimmed;
use tre_trace::FED_MAX;

/// Where a part begins.
#[derive(Clone, Copy)]
pub struct Spot {
    /// Its number, from 1.
    pub number: u64,
    /// The offset of its first byte, from 0.
    pub offset: u64,
}

impl Spot {
    // Where the next part begins, behind a part of this length and its separator.
    #[inline(always)]
    pub fn after(self, len: usize) -> Spot
        ensures { self.offset + len + 1 ≤ FED_MAX → self.number ≤ self.offset + 1 →
            result ≡ record { number = self.number + 1; offset = self.offset + len + 1 } }
    {
        Spot {
            number: self.number.wrapping_add(1),
            offset: self.offset.wrapping_add(len as u64).wrapping_add(1),
        }
    }

    // Where the next part begins, behind parts that were read at once.
    #[inline(always)]
    pub fn behind(self, read: Skimmed) -> Spot
        ensures { self.offset + read.bytes ≤ FED_MAX → self.number + read.parts ≤ FED_MAX + 1 →
            result ≡ spot_behind self read }
    {
        Spot {
            number: self.number.wrapping_add(u64::from(read.parts)),
            offset: self.offset.wrapping_add(read.bytes as u64),
        }
    }
}
