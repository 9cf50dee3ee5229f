ghost use Rattle.std.specs.Prelude.{◌≡◌, ◌≢◌, ℕ, ◌<◌, List, false, slice_index_or};
ghost use Rattle.std.specs.Int.{bit_at};
ghost use Rattle.tre_state.specs.Sieve.{slot_of, last_of, MayBe};

use std::marker::Model;

// How many slots there are. No more texts are told apart, so a slot has a bit for each of them.
const SLOTS: usize = 64;

// Those and one for each byte that a text may end with.
const ALL: usize = 320;

/// Which of up to 64 texts some bytes may be.
///
/// It keeps no text. A number that it leaves out is that of another text for sure, and one that it
/// names is still to be compared. Most often it names the right one or none, however many texts
/// there are.
#[derive(Drop)]
pub struct Sieve {
    masks: [u64; ALL],
}

impl Model for Sieve {
    ghost use Rattle.std.specs.Prelude.{ℕ, List};

    ghost Value = { List ℕ };

    ghost view = { λ sieve. sieve.masks };
}

impl Sieve {
    /// It names no number.
    pub fn new() -> Sieve {
        Sieve { masks: [0; ALL] }
    }

    /// The same once more.
    pub fn copy(&self) -> Sieve
        ensures { result ≡ self.now }
    {
        Sieve { masks: self.masks }
    }

    /// From now on the text of these bytes may have this number.
    pub fn add(&mut self, bytes: &[u8], number: u8)
        requires { number < 64 }
        ensures added { MayBe self.new bytes.now number }
        ensures kept { (other : List ℕ) (k : ℕ) → MayBe self.old other k →
            MayBe self.new other k }
    {
        self.add_at(slot_of(bytes), number);
        self.add_at(SLOTS + last_of(bytes), number);
    }

    // The number is one of this slot.
    fn add_at(&mut self, slot: usize, number: u8)
        requires within { slot < ALL }
        requires small { number < 64 }
        ensures added { bit_at (slice_index_or self.new slot 0) number ≡ 1 }
        ensures kept { (other k : ℕ) → bit_at (slice_index_or self.old other 0) k ≡ 1 →
            bit_at (slice_index_or self.new other 0) k ≡ 1 }
    {
        self.masks[slot] |= 1 << number;
    }

    /// Whether these bytes may have a number: a text ends as they do.
    #[inline(always)]
    pub fn may_be(&self, bytes: &[u8]) -> bool
        ensures { result ≡ false → (k : ℕ) → MayBe self.now bytes.now k → ⊥ }
    {
        self.masks[SLOTS + last_of(bytes)] != 0
    }

    /// The numbers that these bytes may have: bit k stands for number k.
    #[inline(always)]
    pub fn numbers(&self, bytes: &[u8]) -> u64
        ensures { (k : ℕ) → MayBe self.now bytes.now k → bit_at result k ≡ 1 }
    {
        self.masks[slot_of(bytes)] & self.masks[SLOTS + last_of(bytes)]
    }
}

// The last byte; 0 where there is none.
#[inline(always)]
fn last_of(bytes: &[u8]) -> usize
    ensures last { result ≡ last_of bytes.now }
    ensures within { result < 256 }
{
    let len = bytes.len();
    if len == 0 {
        return 0;
    }
    usize::from(bytes[len - 1])
}

// Texts that are numbered differ in their last bytes most often, so these count by themselves.
#[inline(always)]
fn slot_of(bytes: &[u8]) -> usize
    ensures slot { result ≡ slot_of bytes.now }
    ensures within { result < SLOTS }
{
    let len = bytes.len();
    if len == 0 {
        return 0;
    }
    let last = usize::from(bytes[len - 1]);
    let before = usize::from(bytes[len.saturating_sub(2)]);
    let middle = usize::from(bytes[len / 2]);
    (last + 10 * before + 4 * middle + 13 * (len % SLOTS)) % SLOTS
}

/// The lowest bit that is set.
#[inline(always)]
pub fn lowest(bits: u64) -> u8
    requires { bits ≢ 0 }
    ensures within { result < 64 }
    ensures set { bit_at bits result ≡ 1 }
{
    bits.trailing_zeros() as u8
}

/// The bits without this one.
#[inline(always)]
pub fn without(bits: u64, bit: u8) -> u64
    requires within { bit < 64 }
    requires set { bit_at bits bit ≡ 1 }
    ensures less { result < bits }
    ensures kept { (k : ℕ) → k ≢ bit → bit_at bits k ≡ 1 → bit_at result k ≡ 1 }
    ensures no_more { (k : ℕ) → bit_at result k ≡ 1 → bit_at bits k ≡ 1 }
    ensures gone { bit_at result bit ≡ 0 }
{
    bits & !(1 << bit)
}
