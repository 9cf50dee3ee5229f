ghost use Rattle.std.specs.Prelude.{ℕ, ◌≡◌, ◌<◌, ◌↔◌, [], ◌∷◌, ◌++◌, length, map, slice_get, true, false, Some, IsTrue, IsSome, IsOk, IfOk, OnOk, OnErr};
ghost use Rattle.std.specs.Int.{bit_at};
ghost use Rattle.std.specs.String.{string_bytes};
ghost use Rattle.std.specs.Option.{option_map};
ghost use Rattle.tre_state.specs.Name.{IsName};
ghost use Rattle.tre_state.specs.Names.{place_of, IsNameList};

use crate::sieve::{Sieve, lowest, without};
use indexmap::IndexSet;
use std::alloc::{AllocError, Global};
use std::marker::Model;
use thiserror::Error;

/// How many names a pattern may have, one for each bit of a valuation.
pub const NAMES_MAX: usize = 64;

/// Why a name was given no number.
#[derive(Clone, Copy, Debug, Error, PartialEq, Eq)]
pub enum NameFault {
    #[error("TooMany")]
    TooMany,
    #[error("Memory")]
    Memory,
}

impl From<AllocError> for NameFault {
    ghost use Rattle.std.specs.Prelude.{◌≡◌};
    ghost use Rattle.tre_state.specs.declared.names.NameFault.{NameFault};

    ghost from_gives = { λ _ fault. fault ≡ NameFault.Memory };

    fn from(_: AllocError) -> NameFault {
        NameFault::Memory
    }
}

/// The names of a pattern, of its propositions or of its events, in the order in which they were
/// first seen. The place of a name is its number, counted from 0.
#[derive(Drop)]
pub struct Names {
    names: IndexSet<String>,
    // It was told of each name.
    sieve: Sieve,
}

impl Model for Names {
    ghost use Rattle.std.specs.Prelude.{ℕ, List, map};
    ghost use Rattle.std.specs.String.{string_bytes};
    ghost use Rattle.tre_state.specs.Names.{IsNameList};
    ghost use Rattle.tre_state.specs.Sieve.{AreSifted};

    ghost Value = { List (List ℕ) };

    ghost view = { λ held. map string_bytes held.names.keys };

    ghost invariant = { λ held. IsNameList (map string_bytes held.names.keys)
        × AreSifted (map string_bytes held.names.keys) held.sieve };
}

impl Names {
    /// No names. What is added later is kept in memory of the allocator.
    pub fn new(alloc: Global) -> Names
        ensures { result ≡ [] }
    {
        Names {
            names: IndexSet::new(alloc),
            sieve: Sieve::new(),
        }
    }

    /// How many names there are.
    pub fn len(&self) -> usize
        ensures len { result ≡ length self.now }
        ensures list { IsNameList self.now }
    {
        self.names.len()
    }

    /// Whether there is no name.
    pub fn is_empty(&self) -> bool
        ensures { IsTrue result ↔ (self.now ≡ []) }
    {
        self.names.is_empty()
    }

    /// The number of a name, if it is held.
    pub fn find(&self, name: &str) -> Option<u8>
        ensures { result ≡ place_of self.now name.now }
    {
        self.find_bytes(name.as_bytes())
    }

    /// Whether a name may have these bytes: one ends as they do. A reader asks it before it looks
    /// for the number, since most words are no names.
    #[inline(always)]
    pub fn may_hold(&self, bytes: &[u8]) -> bool
        ensures { result ≡ false → place_of self.now bytes.now ≡ None }
    {
        self.sieve.may_be(bytes)
    }

    /// The number of the name that has these bytes, if it is held. They need not be text.
    #[inline(always)]
    pub fn find_bytes(&self, bytes: &[u8]) -> Option<u8>
        ensures place { result ≡ place_of self.now bytes.now }
        ensures list { IsNameList self.now }
    {
        let numbers = self.sieve.numbers(bytes);
        if numbers == 0 {
            return None;
        }
        self.find_among(numbers, bytes)
    }

    // The number of the name that has these bytes, which is among `numbers` if it is held.
    #[inline(always)]
    fn find_among(&self, numbers: u64, bytes: &[u8]) -> Option<u8>
        requires among { (k : ℕ) → slice_get self.now k ≡ Some bytes.now → bit_at numbers k ≡ 1 }
        requires list { IsNameList self.now }
        ensures { result ≡ place_of self.now bytes.now }
    {
        let mut left = numbers;
        while left != 0 {
            let number = lowest(left);
            if self.has_bytes(number, bytes) {
                return Some(number);
            }
            left = without(left, number);
        }
        None
    }

    // Whether the name of this number has these bytes.
    fn has_bytes(&self, number: u8, bytes: &[u8]) -> bool
        ensures { (result ≡ true) ↔ (slice_get self.now number ≡ Some bytes.now) }
    {
        match self.name(number) {
            Some(name) => bytes == name.as_bytes(),
            None => false,
        }
    }

    /// The name of a number, if there is one.
    pub fn name(&self, number: u8) -> Option<&str>
        ensures { option_map (λ name. name.now) result ≡ slice_get self.now number }
    {
        match self.names.get_index(usize::from(number)) {
            Some(name) => Some(name.as_str()),
            None => None,
        }
    }

    /// The number of a name. One that is not held yet goes to the end of the list; that alone can
    /// fail.
    pub fn number(&mut self, name: &str) -> Result<u8, NameFault>
        requires is_name { IsName name.now }
        ensures number { IfOk result (λ number. place_of self.new name.now ≡ Some number) }
        ensures held { IsSome (place_of self.old name.now) → IsOk result × (self.new ≡ self.old) }
        ensures added { place_of self.old name.now ≡ None →
            OnOk result (self.new ≡ self.old ++ name.now ∷ []) }
        ensures too_many { (result ≡ Err NameFault.TooMany) ↔
            ((length self.old ≡ NAMES_MAX) × (place_of self.old name.now ≡ None)) }
        ensures err { OnErr result (self.new ≡ self.old) }
        ensures list { IsNameList self.new }
    {
        if let Some(held) = self.find(name) {
            return Ok(held);
        }
        if self.names.len() == NAMES_MAX {
            return Err(NameFault::TooMany);
        }
        let place = insert_last(&mut self.names, name)?;
        self.sieve.add(name.as_bytes(), place);
        Ok(place)
    }

    /// The same names once more.
    pub fn try_clone(&self) -> Result<Names, AllocError>
        ensures { IfOk result (λ copy. copy ≡ self.now) }
    {
        Ok(Names {
            names: self.names.clone()?,
            sieve: self.sieve.copy(),
        })
    }
}

// Puts a text that is not in the set at its end, and gives its place.
fn insert_last(names: &mut IndexSet<String>, text: &str) -> Result<u8, AllocError>
    requires room { length names.old.keys < NAMES_MAX }
    requires absent { place_of (map string_bytes names.old.keys) text.now ≡ None }
    ensures place { IfOk result (λ place. place ≡ length (map string_bytes names.old.keys)) }
    ensures ok { OnOk result (
        map string_bytes names.new.keys ≡ map string_bytes names.old.keys ++ text.now ∷ []) }
    ensures err { OnErr result (names.new.keys ≡ names.old.keys) }
{
    let owned = String::from_str(*names.allocator(), text)?;
    let (place, _) = names.insert_full(owned)?;
    Ok(place as u8)
}
