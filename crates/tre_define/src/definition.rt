// What definitions are.
ghost use Rattle.std.specs.Prelude.{◌≡◌};
ghost use Rattle.tre_define.specs.Signals.{part_of_text, test_of};

use crate::comparison::Comparison;
use crate::named::part_named;
use crate::part::Part;
use crate::reads::Reads;
use crate::test::{Asks, Test};
use std::alloc::AllocError;
use std::marker::Model;

/// A name for what is read of a signal of a dump, or of two.
#[derive(Drop)]
pub struct SignalDefinition {
    name: String,
    signal: String,
    reads: Reads,
    // Of the other signal; empty where there is none.
    other: String,
}

impl Model for SignalDefinition {
    ghost use Rattle.std.specs.Prelude.{string_bytes};
    ghost use Rattle.tre_define.specs.Signals.{SignalDefined};

    ghost Value = { SignalDefined };

    ghost view = { λ d. record {
      name = string_bytes d.name;
      signal = string_bytes d.signal;
      reads = d.reads;
      other = string_bytes d.other;
    } };
}

impl SignalDefinition {
    ghost use Rattle.std.specs.Prelude.{◌≡◌, string_bytes, IfOk};
    ghost use Rattle.tre_define.specs.Signals.{SignalDefined, changes_in, part_of_text, test_in};

    /// The definition of a name: what is read of what the signal's text names, and the text of
    /// another signal, which is empty where none is read.
    pub fn new(name: String, signal: String, reads: Reads, other: String) -> SignalDefinition
        ensures { result ≡ record {
          name = string_bytes name;
          signal = string_bytes signal;
          reads = reads;
          other = string_bytes other;
        } }
    {
        SignalDefinition {
            name,
            signal,
            reads,
            other,
        }
    }

    /// The name that is defined.
    pub fn name(&self) -> &str
        ensures { result.now ≡ self.now.name }
    {
        self.name.as_str()
    }

    /// The text that names a signal, or bits of one.
    pub fn signal(&self) -> &str
        ensures { result.now ≡ self.now.signal }
    {
        self.signal.as_str()
    }

    /// The text that names another signal, or bits of one; empty where there is none.
    pub fn other(&self) -> &str
        ensures { result.now ≡ self.now.other }
    {
        self.other.as_str()
    }

    /// What is read of it.
    pub fn reads(&self) -> Reads
        ensures { result ≡ self.now.reads }
    {
        self.reads
    }

    /// The same once more.
    pub fn try_clone(&self) -> Result<SignalDefinition, AllocError>
        ensures { IfOk result (λ copy. copy ≡ self.now) }
    {
        Ok(SignalDefinition {
            name: self.name.clone()?,
            signal: self.signal.clone()?,
            reads: self.reads,
            other: self.other.clone()?,
        })
    }

    /// The test that is defined, where a signal of this full name and size, in bits, has what the
    /// definition reads. None where the name is that of an event, or reads two signals.
    pub fn test_in(&self, full_name: &[u8], size: u64) -> Option<Test>
        ensures { result ≡ test_in self.now full_name.now size }
    {
        test_of(self.reads, self.signal_part(full_name, size)?)
    }

    /// The part whose changes are the event, where a signal of this full name and size, in bits,
    /// has it. None where the name is that of a proposition.
    pub fn changes_in(&self, full_name: &[u8], size: u64) -> Option<Part>
        ensures { result ≡ changes_in self.now full_name.now size }
    {
        match self.reads {
            Reads::Changes => self.signal_part(full_name, size),
            _ => None,
        }
    }

    /// What the signal's text names of a signal of this full name and size, in bits.
    pub fn signal_part(&self, full_name: &[u8], size: u64) -> Option<Part>
        ensures { result ≡ part_of_text self.now.signal full_name.now size }
    {
        part_of_text(self.signal.as_bytes(), full_name, size)
    }

    /// What the text of the other signal names of a signal of this full name and size, in bits.
    pub fn other_part(&self, full_name: &[u8], size: u64) -> Option<Part>
        ensures { result ≡ part_of_text self.now.other full_name.now size }
    {
        part_of_text(self.other.as_bytes(), full_name, size)
    }
}

// What a text names of a signal.
fn part_of_text(text: &[u8], full_name: &[u8], size: u64) -> Option<Part>
    ensures { result ≡ part_of_text text.now full_name.now size }
{
    if size == 0 {
        return None;
    }
    part_named(text, full_name, size)
}

// The test that is read of a part. One bit is true where it is 1, and more bits are neither true
// nor false.
fn test_of(reads: Reads, part: Part) -> Option<Test>
    ensures { result ≡ test_of reads part }
{
    match reads {
        Reads::Compared(comparison, number) => Some(Test {
            part,
            asks: Asks::Compares(comparison, number),
        }),
        Reads::Has(letter) => Some(Test {
            part,
            asks: Asks::Has(letter),
        }),
        Reads::Bit if part.width == 1 => Some(Test {
            part,
            asks: Asks::Compares(Comparison::Equal, 1),
        }),
        _ => None,
    }
}
