ghost use Rattle.std.specs.Prelude.{◌≡◌, ◌+◌, ◌/◌, ◌<◌, ◌≤◌, ℕ, [], length, OnOk, OnErr};
ghost use Rattle.tre_trace.specs.Block.{IsPut};
ghost use Rattle.tre_trace.specs.Words.{HasRoom, IsStretched, IsWritten};

use std::alloc::{AllocError, Global};
use std::marker::Model;

/// How many places one word has bits for.
pub(crate) const WORD_BITS: usize = 64;

/// The words of one proposition: a bit for each segment, the lowest of each word first.
#[derive(Drop)]
pub(crate) struct Plane {
    words: Vec<u64>,
}

impl Model for Plane {
    ghost use Rattle.std.specs.Prelude.{ℕ, List};

    ghost Value = { List ℕ };

    ghost view = { λ plane. plane.words.items };
}

impl Plane {
    /// The plane of no words.
    pub(crate) fn new(alloc: Global) -> Plane
        ensures { result ≡ [] }
    {
        Plane {
            words: Vec::new(alloc),
        }
    }

    pub(crate) fn words(&self) -> &[u64]
        ensures { result.now ≡ self.now }
    {
        &self.words
    }

    /// Adds words of zeros, until there are `count`.
    pub(crate) fn stretch(&mut self, count: usize) -> Result<(), AllocError>
        ensures stretched { IsStretched count self.old self.new }
        ensures ok { OnOk result (count ≤ length self.new) }
        ensures err { OnErr result (self.new ≡ self.old) }
    {
        if self.words.len() < count {
            self.words.resize(count, 0)?;
        }
        Ok(())
    }

    /// Makes room for the bit of the place, where it is 1 or the plane has words already.
    pub(crate) fn make_room(&mut self, place: usize, bit: u64) -> Result<(), AllocError>
        requires { bit ≤ 1 }
        ensures stretched { IsStretched (place / 64 + 1) self.old self.new }
        ensures ok { OnOk result (HasRoom place bit self.new) }
    {
        if bit == 1 || !self.words.is_empty() {
            self.stretch(place / WORD_BITS + 1)?;
        }
        Ok(())
    }

    /// Puts the word that begins at the place, where it has a bit or the plane has words already.
    pub(crate) fn put_word(&mut self, place: usize, word: u64) -> Result<(), AllocError>
        ensures { OnOk result (IsPut (place / 64) word self.old self.new) }
    {
        if word == 0 && self.words.is_empty() {
            return Ok(());
        }
        self.stretch(place / WORD_BITS + 1)?;
        self.words[place / WORD_BITS] = word;
        Ok(())
    }

    /// Writes the bit of the place, which was 0.
    pub(crate) fn write(&mut self, place: usize, bit: u64)
        requires bit { bit ≤ 1 }
        requires room { HasRoom place bit self.old }
        ensures { IsWritten place bit self.old self.new }
    {
        if bit == 1 {
            self.words[place / WORD_BITS] |= 1 << (place % WORD_BITS);
        }
    }
}
