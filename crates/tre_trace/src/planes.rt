// What a trace keeps beside its segments: planes of bits, and times.
ghost use Rattle.std.specs.Prelude.{◌≡◌, ◌+◌, ◌*◌, ◌/◌, ◌%◌, ◌≤◌, ◌<◌, [], ◌∷◌, ◌++◌, ℕ, List, length, slice_index, OnOk};
ghost use Rattle.std.specs.Int.{bit_at};
ghost use Rattle.tre_trace.specs.Trace.{end_of};
ghost use Rattle.tre_trace.specs.Block.{IsUnion, IsToldIn};
ghost use Rattle.tre_trace.specs.Planes.{IsPlane};
ghost use Rattle.tre_trace.specs.Starts.{AreStarts};
ghost use Rattle.tre_trace.specs.Words.{words_at, HasRoom, IsStretched, IsWritten};

use crate::Segment;
use crate::block::{bit_of, union_of, word_of};
use crate::plane::{Plane, WORD_BITS};
use std::alloc::{AllocError, Global};

/// How many propositions have a bit in a valuation.
pub(crate) const NUMBERS: usize = 64;

/// Beside each block of 64 segments: when it begins, and a word for each proposition.
#[derive(Drop)]
pub struct Planes {
    /// When each block begins, in ticks.
    pub(crate) starts: Vec<u64>,
    /// Zeros: the words of each proposition that was never true.
    pub(crate) blank: Plane,
    /// By the number of the proposition. Those that were never true have no words.
    pub(crate) own: Vec<Plane>,
}

impl Planes {
    ghost use Rattle.tre_trace.specs.Beside.{AreBeside, AreBesideSome, HasRoomAt};
    ghost use Rattle.tre_trace.specs.declared.segment.Segment.{Segment};

    /// What is beside no segments.
    pub fn new(alloc: Global) -> Planes
        ensures { AreBeside [] result }
    {
        Planes {
            starts: Vec::new(alloc),
            blank: Plane::new(alloc),
            own: Vec::new(alloc),
        }
    }

    /// Makes room for a segment behind so many, which end at `end`.
    pub fn make_room(&mut self, count: usize, end: u64, valuation: u64) -> Result<(), AllocError>
        requires { AreBesideSome count end self.old }
        ensures beside { (segments : List Segment) → count ≡ length segments →
            end ≡ end_of 0 segments → AreBeside segments self.old → AreBeside segments self.new }
        ensures room { OnOk result (HasRoomAt count valuation self.new) }
    {
        begin_block(&mut self.starts, count, end)?;
        self.blank.stretch(count / WORD_BITS + 1)?;
        widen(&mut self.own, valuation)?;
        make_room(&mut self.own, count, valuation)?;
        Ok(())
    }

    /// Adds what is beside a block of segments, behind so many in whole blocks, which end at `end`.
    pub fn add_block(&mut self, count: usize, block: &[Segment], end: u64) -> Result<(), AllocError>
        requires beside { AreBesideSome count end self.old }
        requires whole { count % 64 ≡ 0 }
        requires few { length block.now ≤ 64 }
        ensures { (front : List Segment) → count ≡ length front → end ≡ end_of 0 front →
            AreBeside front self.old → OnOk result (AreBeside (front ++ block.now) self.new) }
    {
        let union = union_of(block);
        begin_block(&mut self.starts, count, end)?;
        self.blank.stretch(count / WORD_BITS + 1)?;
        widen(&mut self.own, union)?;
        put_words(&mut self.own, count, block, union)?;
        Ok(())
    }

    /// Writes the valuation of the segment at the place, behind all others.
    pub fn write(&mut self, place: usize, valuation: u64)
        requires few { length self.old.own.items ≤ 64 }
        requires room { HasRoomAt place valuation self.old }
        ensures { (segments : List Segment) (segment : Segment) → length segments ≡ place →
            segment.val ≡ valuation → AreBeside segments self.old →
            AreBeside (segments ++ segment ∷ []) self.new }
    {
        write(&mut self.own, place, valuation);
    }

    /// When the block of this number begins.
    #[inline(always)]
    pub fn start(&self, block: usize) -> u64
        requires { block < length self.now.starts.items }
        ensures { result ≡ slice_index self.now.starts.items block }
    {
        self.starts[block]
    }

    /// The bits of the proposition of this number on so many segments, all of them.
    pub fn plane(&self, number: u8, count: usize) -> &[u64]
        requires number { number < 64 }
        requires beside { (end : ℕ) × AreBesideSome count end self.now }
        ensures { (segments : List Segment) → count ≡ length segments →
            AreBeside segments self.now → IsPlane number segments result.now }
    {
        let words = count.div_ceil(WORD_BITS);
        let own = words_of(&self.own, usize::from(number));
        if own.is_empty() {
            return &self.blank.words()[..words];
        }
        &own[..words]
    }
}

/// The words of the proposition of this number, if it has any.
fn words_of(own: &[Plane], number: usize) -> &[u64]
    ensures { result.now ≡ words_at own.now number }
{
    match own.get(number) {
        Some(plane) => plane.words(),
        None => &[],
    }
}

/// Notes when the next block begins, where so many segments fill all blocks so far.
fn begin_block(starts: &mut Vec<u64>, count: usize, end: u64) -> Result<(), AllocError>
    requires { count ≤ length starts.old.items * 64 }
    ensures starts { (segments : List Segment) → count ≡ length segments →
        end ≡ end_of 0 segments → AreStarts segments starts.old.items →
        AreStarts segments starts.new.items }
    ensures room { OnOk result (count < length starts.new.items * 64) }
{
    if starts.len() <= count / WORD_BITS {
        starts.push(end)?;
    }
    Ok(())
}

/// Adds planes of no words, until each proposition of the valuation has one.
fn widen(own: &mut Vec<Plane>, valuation: u64) -> Result<(), AllocError>
    requires few { length own.old.items ≤ 64 }
    ensures few { length own.new.items ≤ 64 }
    ensures same { (number : ℕ) → words_at own.new.items number ≡ words_at own.old.items number }
    ensures all { OnOk result ((number : ℕ) → number < 64 → bit_at valuation number ≡ 1 →
        number < length own.new.items) }
{
    let alloc = *own.allocator();
    while own.len() < NUMBERS && valuation >> own.len() != 0 {
        own.push(Plane::new(alloc))?;
    }
    Ok(())
}

/// Makes room in each plane for the bit of its proposition, where it is needed.
fn make_room(own: &mut [Plane], place: usize, valuation: u64) -> Result<(), AllocError>
    requires few { length own.old ≤ 64 }
    ensures stretched { (number : ℕ) →
        IsStretched (place / 64 + 1) (words_at own.old number) (words_at own.new number) }
    ensures ok { OnOk result ((number : ℕ) → number < length own.new →
        HasRoom place (bit_at valuation number) (words_at own.new number)) }
{
    for number in 0..own.len() {
        own[number].make_room(place, bit_of(valuation, number))?;
    }
    Ok(())
}

/// Puts in each plane the word of its proposition on a block that begins at the place.
fn put_words(
    own: &mut [Plane],
    place: usize,
    block: &[Segment],
    union: u64,
) -> Result<(), AllocError>
    requires few { length own.old ≤ 64 }
    requires few_segments { length block.now ≤ 64 }
    requires union { IsUnion block.now union }
    ensures { OnOk result ((number : ℕ) → number < length own.new →
        IsToldIn number (place / 64) block.now (words_at own.old number)
        (words_at own.new number)) }
{
    for number in 0..own.len() {
        own[number].put_word(place, word_of(block, union, number))?;
    }
    Ok(())
}

/// Writes in each plane the bit of its proposition.
fn write(own: &mut [Plane], place: usize, valuation: u64)
    requires few { length own.old ≤ 64 }
    requires room { (number : ℕ) → number < length own.old →
        HasRoom place (bit_at valuation number) (words_at own.old number) }
    ensures { (number : ℕ) → number < length own.new →
        IsWritten place (bit_at valuation number) (words_at own.old number)
        (words_at own.new number) }
{
    for number in 0..own.len() {
        own[number].write(place, bit_of(valuation, number));
    }
}
