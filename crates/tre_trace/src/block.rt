// What a block of up to 64 segments says: of each proposition one word, and when the block ends.
ghost use Rattle.std.specs.Prelude.{◌≡◌, ◌≤◌, ◌<◌, length};
ghost use Rattle.std.specs.Int.{bit_at};
ghost use Rattle.tre_pairs.specs.declared.TheConstants.{TIME_MAX};
ghost use Rattle.tre_trace.specs.Block.{IsUnion, IsWordOf};
ghost use Rattle.tre_trace.specs.Trace.{end_of};

use crate::Segment;

/// The bit of the proposition of this number.
pub(crate) fn bit_of(valuation: u64, number: usize) -> u64
    requires { number < 64 }
    ensures { result ≡ bit_at valuation number }
{
    valuation >> number & 1
}

/// The valuations of the block in one: it has a bit of each proposition that is ever true.
pub(crate) fn union_of(block: &[Segment]) -> u64
    ensures { IsUnion block.now result }
{
    let mut union = 0;
    for segment in block {
        union |= segment.val;
    }
    union
}

/// The word of the proposition of this number.
pub(crate) fn word_of(block: &[Segment], union: u64, number: usize) -> u64
    requires few { length block.now ≤ 64 }
    requires union { IsUnion block.now union }
    requires number { number < 64 }
    ensures { IsWordOf number block.now result }
{
    if bit_of(union, number) == 0 {
        return 0;
    }
    let mut word = 0;
    for (place, segment) in block.iter().enumerate() {
        word |= bit_of(segment.val, number) << place;
    }
    word
}

/// When the block ends that begins at `begin`.
pub fn end_of(block: &[Segment], begin: u64) -> u64
    requires { end_of begin block.now ≤ TIME_MAX }
    ensures { result ≡ end_of begin block.now }
{
    let mut end = begin;
    for segment in block {
        end += segment.len;
    }
    end
}
