ghost use Rattle.std.specs.Prelude.{◌≡◌, ◌↔◌, ◌-◌, ◌%◌, ◌^◌, ◌<◌, ◌≤◌, true, [], ◌∷◌, ◌++◌, bit_and, length, IsSomeAnd, All, IfOk, IfSome, OnOk};
ghost use Rattle.std.specs.Int.{bit_at};
ghost use Rattle.tre_feed.specs.Growth.{Extends};
ghost use Rattle.tre_feed.specs.Taking.{AreInOrder, bits_at};
ghost use Rattle.tre_state.specs.Name.{IsName};
ghost use Rattle.tre_state.specs.Names.{place_of};
ghost use Rattle.tre_state.specs.declared.names.TheConstants.{NAMES_MAX};

use std::alloc::{AllocError, Global};
use tre_state::{NAMES_MAX, NameFault, Names};

/// Where some names stand among others: for each name its place.
#[derive(Drop)]
pub struct Places {
    places: Vec<u8>,
    // Whether they are 0, 1 and so on: then the bits are taken all at once.
    in_order: bool,
    ghost few: { length places.items ≤ NAMES_MAX },
    ghost within: { All (λ place. place < NAMES_MAX) places.items },
    ghost order: { in_order ≡ true ↔ AreInOrder places.items },
}

impl Places {
    ghost use Rattle.std.specs.Prelude.{ℕ, Bool, List};
    ghost use Rattle.tre_trace.specs.Reading.{bits_of};
    ghost use Rattle.tre_feed.specs.Places.{places_of, ArePlaces};

    /// Where each of the names stands among themselves.
    pub(crate) fn own(alloc: Global, names: &Names) -> Result<Places, AllocError>
        ensures { IfOk result (λ places.
            ArePlaces names.now names.now (places_of places)) }
    {
        let mut places = Vec::new(alloc);
        for number in 0..names.len() as u8 {
            places.push(number)?;
        }
        Ok(Places::of(places))
    }

    /// Puts those of the asked names that aren't among all at their end, and says where each then
    /// stands.
    pub(crate) fn join(alloc: Global, all: &mut Names, asked: &Names) -> Result<Places, NameFault>
        ensures places { IfOk result (λ places. ArePlaces asked.now all.new (places_of places)) }
        ensures kept { OnOk result (Extends all.old all.new) }
    {
        let mut places = Vec::new(alloc);
        for number in 0..asked.len() as u8 {
            match asked.name(number) {
                Some(name) => put(all, name, &mut places)?,
                None => unreachable!(),
            }
        }
        Ok(Places::of(places))
    }

    // These places, each of which is one of a group.
    fn of(places: Vec<u8>) -> Places
        requires few { length places.items ≤ NAMES_MAX }
        requires within { All (λ place. place < NAMES_MAX) places.items }
        ensures { places_of result ≡ places.items }
    {
        let in_order = are_in_order(&places);
        Places { places, in_order }
    }

    // The bits of the asked names among those of all names, where they are the first of them.
    pub(crate) fn mask(&self) -> Option<u64>
        ensures bits { IfSome result (λ mask. (bits : ℕ) →
            bit_and bits mask ≡ bits_at (places_of self.now) bits) }
        ensures all { IfSome result (λ mask. (bits : ℕ) →
            bits ≤ mask → bits_at (places_of self.now) bits ≡ bits) }
    {
        if !self.in_order {
            return None;
        }
        Some(all_below(self.places.len()))
    }

    /// The bits of the asked names, where these are those of all names.
    pub fn seen(&self, bits: u64) -> u64
        ensures at { result ≡ bits_at (places_of self.now) bits }
        ensures seen { (asked all : List (List ℕ)) (test : List ℕ → Bool) →
            ArePlaces asked all (places_of self.now) → bits ≡ bits_of test all →
            result ≡ bits_of test asked }
    {
        if self.in_order {
            return bits_below(bits, self.places.len());
        }
        taken(bits, &self.places)
    }
}

// The bits at these places, in this order.
fn taken(bits: u64, places: &[u8]) -> u64
    requires few { length places.now ≤ NAMES_MAX }
    requires within { All (λ place. place < NAMES_MAX) places.now }
    ensures { result ≡ bits_at places.now bits }
{
    let mut seen = 0;
    let mut left = places.len();
    while left > 0 {
        left -= 1;
        seen = 2 * seen + bit_of(bits, places[left]);
    }
    seen
}

// Puts the name among all, if it isn't there yet, and its place behind the places.
fn put(all: &mut Names, name: &str, places: &mut Vec<u8>) -> Result<(), NameFault>
    requires { IsName name.now }
    ensures place { OnOk result (IsSomeAnd (place_of all.new name.now) (λ place.
        places.new.items ≡ places.old.items ++ place ∷ [])) }
    ensures kept { OnOk result (Extends all.old all.new) }
    ensures few { OnOk result (length all.new ≤ NAMES_MAX) }
{
    let place = all.number(name)?;
    match places.push(place) {
        Ok(()) => Ok(()),
        Err(_) => Err(NameFault::Memory),
    }
}

// The bit at this place.
fn bit_of(bits: u64, place: u8) -> u64
    requires { place < NAMES_MAX }
    ensures { result ≡ bit_at bits place }
{
    bits >> place & 1
}

// The bits below this place, each of them set.
fn all_below(place: usize) -> u64
    requires { place ≤ 64 }
    ensures { result ≡ 2 ^ place - 1 }
{
    if place == 64 {
        return u64::MAX;
    }
    (1 << place) - 1
}

// Those of the bits below this place.
fn bits_below(bits: u64, place: usize) -> u64
    requires { place ≤ 64 }
    ensures { result ≡ bits % 2 ^ place }
{
    bits & all_below(place)
}

// Whether the places are 0, 1 and so on.
fn are_in_order(places: &[u8]) -> bool
    ensures { result ≡ true ↔ AreInOrder places.now }
{
    for (number, place) in places.iter().enumerate() {
        if usize::from(*place) != number {
            return false;
        }
    }
    true
}
