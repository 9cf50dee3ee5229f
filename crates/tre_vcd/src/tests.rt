// The tests by which names are defined.
ghost use Rattle.std.specs.Prelude.{◌≡◌, ◌≢◌, ◌<◌, ◌+◌, ◌∷◌, ◌++◌, ℕ, List, [], length, map, true, false, Some, OnOk};
ghost use Rattle.std.specs.Int.{bit_at};
ghost use Rattle.std.specs.Option.{option_map};
ghost use Rattle.tre_define.specs.Signals.{SignalDefined, signal_definition_of};
ghost use Rattle.tre_define.specs.declared.test.Test.{Test};
ghost use Rattle.tre_state.specs.Sieve.{MayBe};
ghost use Rattle.tre_trace.specs.Reading.{bits_of};
ghost use Rattle.tre_vcd.specs.VcdReading.{Form, Statement, var, change, definitions, is_defined, scopes_at, offer_in, Asked, tested_at};
ghost use Rattle.tre_vcd.specs.Kept.{IsQuiet, valuation_behind};
ghost use Rattle.tre_vcd.specs.Taken.{behind_if};
ghost use Rattle.tre_vcd.specs.Signals.{offer_kept, test_kept, test_read, test_told, test_at, bit_told, AreDefined, AreTested, KnowsTests};

use crate::definitions::copy_if;
use crate::offer::Offered;
use crate::variable::set_bit;
use std::alloc::{AllocError, Global};
use tre_define::{SignalDefinition, Test};
use tre_state::{NAMES_MAX, Sieve, lowest, without};

// A test of the values of an identifier.
#[derive(Drop)]
pub struct AskedTest {
    pub identifier: Vec<u8>,
    pub test: Test,
}

// What a name reads by its definition, if it has one, once something of it is declared.
#[derive(Drop)]
pub struct Tested {
    pub definition: Option<SignalDefinition>,
    pub asked: Option<AskedTest>,
}

impl Tested {
    // This is offered. The first declaration counts.
    fn declare(&mut self, alloc: Global, offered: &Offered) -> Result<(), AllocError>
        ensures same { self.new.definition ≡ self.old.definition }
        ensures asks { (past : List Statement) (tokens : List (List ℕ)) →
            offer_in (scopes_at past) tokens ≡ Some (offer_kept offered.now) →
            test_kept self.old ≡ test_read past self.old.definition →
            OnOk result (test_kept self.new ≡ test_read (var tokens ∷ past) self.old.definition) }
    {
        let Some(definition) = &self.definition else {
            return Ok(());
        };
        if self.asked.is_some() {
            return Ok(());
        }
        let Some(test) = definition.test_in(&offered.full_name, offered.size) else {
            return Ok(());
        };
        self.asked = Some(AskedTest {
            identifier: Vec::from_slice(alloc, &offered.identifier)?,
            test,
        });
        Ok(())
    }

    // The sieve is told of its identifier.
    fn sift(&self, sieve: &mut Sieve, number: u8)
        requires { number < 64 }
        ensures told { (asked : Asked Test) → test_kept self.now ≡ Some asked →
            MayBe sieve.new asked.identifier number }
        ensures kept { (other : List ℕ) (k : ℕ) → MayBe sieve.old other k →
            MayBe sieve.new other k }
    {
        if let Some(asked) = &self.asked {
            sieve.add(&asked.identifier, number);
        }
    }

    // What these letters of an identifier say of it, if it reads them.
    fn told(&self, identifier: &[u8], letters: &[u8]) -> Option<bool>
        ensures { result ≡ test_told (test_kept self.now) identifier.now letters.now }
    {
        let Some(asked) = &self.asked else {
            return None;
        };
        if asked.identifier.as_slice() != identifier {
            return None;
        }
        Some(asked.test.passes(letters))
    }
}

// The tests of some names, each with the number of its name.
#[derive(Drop)]
pub struct Tests {
    // One for each name, where one of the names may be defined.
    pub list: Vec<Tested>,
    // It was told of the identifier of each, once the declarations have ended.
    pub sieve: Sieve,
    // Bit k says whether name k is defined.
    pub defined: u64,
    // Bit k is the value of name k, where it is defined.
    pub values: u64,
}

impl Tests {
    // No name is defined.
    pub fn new(alloc: Global) -> Tests
        ensures knows { (all : List SignalDefined) (names : List (List ℕ)) →
            AreDefined all names [] → KnowsTests all names result [] }
        ensures list { result.list.items ≡ [] }
    {
        Tests {
            list: Vec::new(alloc),
            sieve: Sieve::new(),
            defined: 0,
            values: 0,
        }
    }

    // The next name has this definition, or none.
    pub fn add(&mut self, definition: Option<&SignalDefinition>) -> Result<(), AllocError>
        requires few { length self.old.list.items < 64 }
        ensures knows { (all : List SignalDefined) (names : List (List ℕ))
            (name : List ℕ) → KnowsTests all names self.old [] →
            length self.old.list.items ≡ length names →
            option_map (λ own. own.now) definition.entry ≡ signal_definition_of all name →
            OnOk result (KnowsTests all (names ++ name ∷ []) self.new []) }
        ensures len { OnOk result (length self.new.list.items
            ≡ length self.old.list.items + 1) }
    {
        let number = self.list.as_slice().len() as u8;
        let definition = copy_if(definition)?;
        let is_defined = definition.is_some();
        self.list.push(Tested {
            definition,
            asked: None,
        })?;
        set_bit(&mut self.defined, number, is_defined);
        Ok(())
    }

    // This is offered by a declaration.
    pub fn declare(&mut self, alloc: Global, offered: &Offered) -> Result<(), AllocError>
        ensures { (all : List SignalDefined) (names : List (List ℕ))
            (past : List Statement) (tokens : List (List ℕ)) →
            offer_in (scopes_at past) tokens ≡ Some (offer_kept offered.now) →
            IsQuiet past → is_defined past ≡ false →
            KnowsTests all names self.old past →
            OnOk result (KnowsTests all names self.new (var tokens ∷ past)) }
    {
        declare_each(&mut self.list, alloc, offered)
    }

    // The declarations end.
    pub fn sift(&mut self)
        ensures { (all : List SignalDefined) (names : List (List ℕ)) (past : List Statement) →
            KnowsTests all names self.old past →
            KnowsTests all names self.new (definitions ∷ past) }
    {
        sift_each(&self.list, &mut self.sieve);
    }

    // Whether one of them may read values of this identifier.
    #[inline(always)]
    pub fn may_read(&self, identifier: &[u8]) -> bool
        ensures knows { result ≡ false → (all : List SignalDefined) (names : List (List ℕ))
            (past : List Statement) (form : Form) (letters : List ℕ) → is_defined past ≡ true →
            KnowsTests all names self.now past →
            KnowsTests all names self.now (change form identifier.now letters ∷ past) }
        ensures none { result ≡ false → (k : ℕ) → MayBe self.now.sieve identifier.now k → ⊥ }
    {
        self.sieve.may_be(identifier)
    }

    // An identifier has a value of these letters, of which they are told unless one of the numbers
    // that it may have is among others. This says whether they were.
    pub fn change(&mut self, identifier: &[u8], letters: &[u8], others: u64) -> bool
        ensures knows { (all : List SignalDefined) (names : List (List ℕ))
            (past : List Statement) (form : Form) → is_defined past ≡ true →
            KnowsTests all names self.old past → KnowsTests all names self.new
            (behind_if result (change form identifier.now letters.now) past) }
        ensures same { self.new.sieve ≡ self.old.sieve }
        ensures apart { result ≡ true → (k : ℕ) → MayBe self.old.sieve identifier.now k →
            bit_at others k ≡ 1 → ⊥ }
        ensures all { others ≡ 0 → result ≡ true }
    {
        let numbers = self.sieve.numbers(identifier);
        if numbers & others != 0 {
            return false;
        }
        tell(&self.list, &mut self.values, numbers, identifier, letters);
        true
    }

    // These values, with those of the names that are defined in their places.
    #[inline(always)]
    pub fn valuation(&self, plain: u64) -> u64
        ensures { (all : List SignalDefined) (names : List (List ℕ))
            (past : List Statement) → KnowsTests all names self.now past →
            plain ≡ valuation_behind past names →
            result ≡ bits_of (tested_at all past) names }
    {
        (plain ^ (plain & self.defined)) | self.values
    }
}

// This is offered to each of them.
fn declare_each(list: &mut [Tested], alloc: Global, offered: &Offered) -> Result<(), AllocError>
    ensures same { map (λ tested. tested.definition) list.new
        ≡ map (λ tested. tested.definition) list.old }
    ensures asks { (past : List Statement) (tokens : List (List ℕ)) →
        offer_in (scopes_at past) tokens ≡ Some (offer_kept offered.now) →
        AreTested past list.old → OnOk result (AreTested (var tokens ∷ past) list.new) }
{
    let Some((first, others)) = list.split_first_mut() else {
        return Ok(());
    };
    first.declare(alloc, offered)?;
    declare_each(others, alloc, offered)
}

// Each may have its number by its identifier.
fn sift_each(list: &[Tested], sieve: &mut Sieve)
    ensures { (k : ℕ) (asked : Asked Test) → k < 64 → test_at list.now k ≡ Some asked →
        MayBe sieve.new asked.identifier k }
{
    for number in 0..list.len().min(NAMES_MAX) as u8 {
        let place = usize::from(number);
        list[place].sift(sieve, number);
    }
}

// What letters of an identifier say of the name of this number, if it reads them.
fn told_at(list: &[Tested], number: u8, identifier: &[u8], letters: &[u8]) -> Option<bool>
    ensures { result ≡ test_told (test_at list.now number) identifier.now letters.now }
{
    let place = usize::from(number);
    if place >= list.len() {
        return None;
    }
    list[place].told(identifier, letters)
}

// The bit of this number becomes what was told, if anything was.
fn set_told(values: &mut u64, number: u8, told: Option<bool>)
    requires { number < 64 }
    ensures this { bit_at values.new number ≡ bit_told told (bit_at values.old number) }
    ensures others { (k : ℕ) → k ≢ number → bit_at values.new k ≡ bit_at values.old k }
{
    if let Some(value) = told {
        set_bit(values, number, value);
    }
}

// Letters of an identifier are told to those names of these numbers that read them.
fn tell(list: &[Tested], values: &mut u64, numbers: u64, identifier: &[u8], letters: &[u8])
    ensures told { (k : ℕ) → bit_at numbers k ≡ 1 → bit_at values.new k
        ≡ bit_told (test_told (test_at list.now k) identifier.now letters.now)
        (bit_at values.old k) }
    ensures kept { (k : ℕ) → bit_at numbers k ≢ 1 → bit_at values.new k ≡ bit_at values.old k }
{
    let mut left = numbers;
    while left != 0 {
        let number = lowest(left);
        set_told(values, number, told_at(list, number, identifier, letters));
        left = without(left, number);
    }
}
