// Signals that definitions may read.
ghost use Rattle.std.specs.Prelude.{◌≡◌, ◌<◌, List, ℕ, false, length, slice_index, take, IfOk, OnOk};
ghost use Rattle.tre_vcd.specs.Bases.{HasFront, HasSignal, HasSignals};
ghost use Rattle.tre_vcd.specs.Unread.{AreUnread};
ghost use Rattle.tre_define.specs.Signals.{SignalDefined};

use crate::needed::add_name;
use indexmap::IndexSet;
use std::alloc::{AllocError, Global};
use tre_define::{SignalDefinition, base_of};
use tre_state::{NAMES_MAX, Sieve};

// The texts of definitions, and what stands before each bracket of them. One of these is the name,
// without its range, of each signal that a definition reads.
#[derive(Drop)]
pub struct Bases {
    pub names: IndexSet<Vec<u8>>,
    // It was told of each of the names: most signals are read by none, and it says so at once.
    pub sieve: Sieve,
}

impl Bases {
    // There is no text.
    pub fn new(alloc: Global) -> Bases {
        Bases {
            names: IndexSet::new(alloc),
            sieve: Sieve::new(),
        }
    }

    // Whether a definition may read a signal of this full name.
    pub fn may_read(&self, full_name: &[u8]) -> bool
        ensures { result ≡ false → (all : List SignalDefined) → HasSignals self.now all →
            AreUnread all full_name.now }
    {
        self.may_have(base_of(full_name))
    }

    // Whether the name may be one of them.
    fn may_have(&self, name: &[u8]) -> bool
        ensures { result ≡ false → HasFront self.now name.now → ⊥ }
    {
        if self.sieve.numbers(name) == 0 {
            return false;
        }
        self.names.contains(name)
    }

    // A name more is one of them.
    fn add(&mut self, name: &[u8]) -> Result<(), AllocError>
        ensures added { OnOk result (HasFront self.new name.now) }
        ensures kept { (other : List ℕ) → HasFront self.old other →
            OnOk result (HasFront self.new other) }
    {
        let number = (self.names.len() % NAMES_MAX) as u8;
        self.sieve.add(name, number);
        add_name(&mut self.names, name)
    }

    // The text of a definition more is there.
    fn add_signal(&mut self, text: &[u8]) -> Result<(), AllocError>
        ensures added { OnOk result (HasSignal self.new text.now) }
        ensures kept { (other : List ℕ) → HasFront self.old other →
            OnOk result (HasFront self.new other) }
    {
        self.add_fronts(text)?;
        self.add(text)
    }

    // What stands before each bracket of a text is there.
    fn add_fronts(&mut self, text: &[u8]) -> Result<(), AllocError>
        ensures added { (k : ℕ) → slice_index text.now k ≡ 91 →
            OnOk result (HasFront self.new (take k text.now)) }
        ensures kept { (other : List ℕ) → HasFront self.old other →
            OnOk result (HasFront self.new other) }
    {
        for place in 0..text.len() {
            self.add_front(text, place)?;
        }
        Ok(())
    }

    // What stands before this place of a text is there, if it is that of a bracket.
    fn add_front(&mut self, text: &[u8], place: usize) -> Result<(), AllocError>
        requires { place < length text.now }
        ensures added { slice_index text.now place ≡ 91 →
            OnOk result (HasFront self.new (take place text.now)) }
        ensures kept { (other : List ℕ) → HasFront self.old other →
            OnOk result (HasFront self.new other) }
    {
        if text[place] != b'[' {
            return Ok(());
        }
        self.add(&text[..place])
    }
}

// Those of these definitions.
pub fn bases_of(alloc: Global, definitions: &[SignalDefinition]) -> Result<Bases, AllocError>
    ensures { IfOk result (λ bases. HasSignals bases definitions.now) }
{
    let mut bases = Bases::new(alloc);
    for definition in definitions {
        bases.add_signal(definition.signal().as_bytes())?;
        bases.add_signal(definition.other().as_bytes())?;
    }
    Ok(bases)
}
