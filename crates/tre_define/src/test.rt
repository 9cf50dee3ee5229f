// Tests of values.
ghost use Rattle.std.specs.Prelude.{◌≡◌, ◌≢◌, ◌==◌, ◌^◌, ◌≤◌, Some, length, min, slice_index, true};
ghost use Rattle.std.specs.Ordering.{nat_cmp};
ghost use Rattle.std.specs.List.{list_all, prefix_len};
ghost use Rattle.std.specs.Str.Parse.{digits_value};
ghost use Rattle.tre_define.specs.Values.{compares_known, is_bit, number_of_part, passes};

use crate::comparison::Comparison;
use crate::part::Part;
use std::cmp::Ordering;
use tre_state::front_len;

/// What is asked of some bits of a value.
#[derive(Clone, Copy)]
pub enum Asks {
    /// Their number is so beside this one.
    Compares(Comparison, u64),
    /// One of them has this letter, in lower case here.
    Has(u8),
}

/// What is asked of a part of a value.
#[derive(Clone, Copy)]
pub struct Test {
    pub part: Part,
    pub asks: Asks,
}

impl Test {
    /// Whether the value of these letters passes, the highest bit first. No comparison does where a
    /// bit of the part is neither `0` nor `1`.
    pub fn passes(self, letters: &[u8]) -> bool
        ensures { result ≡ passes self letters.now }
    {
        match self.asks {
            Asks::Compares(comparison, number) => {
                compares(self.part, comparison, number, letters)
            }
            Asks::Has(letter) => self.part.has(letters, letter),
        }
    }
}

// Whether the number of the part is known, and so beside the other.
fn compares(part: Part, comparison: Comparison, number: u64, letters: &[u8]) -> bool
    ensures { result ≡ compares_known comparison (number_of_part part letters.now) (Some number) }
{
    match part.bits(letters) {
        Some(bits) => comparison.holds(read_bits(bits) as i128, i128::from(number)),
        None => false,
    }
}

// The number that bits write, the highest first; past 2^64 it stays there.
fn read_bits(bits: &[u8]) -> u128
    requires { list_all is_bit bits.now ≡ true }
    ensures { result ≡ min (digits_value 2 bits.now) (2 ^ 64) }
{
    let mut number: u128 = 0;
    for bit in bits {
        number = (2 * number + u128::from(*bit - b'0')).min(1 << 64);
    }
    number
}

/// Whether the number of a part of one value is known, and that of a part of another, and the first
/// so beside the second.
pub fn compare_parts(
    comparison: Comparison,
    part: Part,
    letters: &[u8],
    other: Part,
    others: &[u8],
) -> bool
    ensures { result ≡ compares_known comparison (number_of_part part letters.now)
        (number_of_part other others.now) }
{
    match (part.bits(letters), other.bits(others)) {
        (Some(bits), Some(others)) => comparison.allows(compare_bits(bits, others)),
        _ => false,
    }
}

/// How the number that bits write is beside that of others, the highest first.
pub fn compare_bits(bits: &[u8], others: &[u8]) -> Ordering
    requires bits { list_all is_bit bits.now ≡ true }
    requires others { list_all is_bit others.now ≡ true }
    ensures { result ≡ nat_cmp (digits_value 2 bits.now) (digits_value 2 others.now) }
{
    let bits = without_zeros(bits);
    let others = without_zeros(others);
    if bits.len() != others.len() {
        return bits.len().cmp(&others.len());
    }
    for place in 0..bits.len() {
        if bits[place] != others[place] {
            return bits[place].cmp(&others[place]);
        }
    }
    Ordering::Equal
}

// The bits without the zeros in front.
fn without_zeros(bits: &[u8]) -> &[u8]
    requires { list_all is_bit bits.now ≡ true }
    ensures value { digits_value 2 result.now ≡ digits_value 2 bits.now }
    ensures bits { list_all is_bit result.now ≡ true }
    ensures first { slice_index result.now 0 ≢ 48 }
{
    &bits[zeros_len(bits)..]
}

// How many zeros stand in front.
fn zeros_len(bits: &[u8]) -> usize
    ensures len { result ≡ prefix_len (λ bit. bit == 48) bits.now }
    ensures within { result ≤ length bits.now }
{
    front_len(bits, |bit| bit == b'0')
}
