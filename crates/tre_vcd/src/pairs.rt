// The names that compare two signals.
ghost use Rattle.std.specs.Prelude.{◌≡◌, ◌≢◌, ◌<◌, ◌+◌, ◌∷◌, ◌++◌, ℕ, List, [], length, map, true, false, Option, Some, OnOk};
ghost use Rattle.std.specs.Int.{bit_at};
ghost use Rattle.std.specs.List.{slice_get};
ghost use Rattle.std.specs.Option.{option_map};
ghost use Rattle.tre_define.specs.Signals.{SignalDefined, signal_definition_of};
ghost use Rattle.tre_define.specs.Values.{compares_known};
ghost use Rattle.tre_state.specs.Sieve.{MayBe};
ghost use Rattle.tre_trace.specs.Reading.{bits_of};
ghost use Rattle.tre_vcd.specs.VcdReading.{Form, Statement, var, change, definitions, is_defined, scopes_at, offer_in, tested_at, true_at};
ghost use Rattle.tre_vcd.specs.Kept.{IsQuiet};
ghost use Rattle.tre_vcd.specs.Pairs.{comparison_of, compared_by, holds, number_kept, reads_at, reads_pair, KnowsPairAt, KnowsPaired, KnowsPairs, SamePaired};
ghost use Rattle.tre_vcd.specs.Signals.{offer_kept, AreDefined};
ghost use Rattle.tre_vcd.specs.declared.pairs.Paired.{Paired};

use crate::definitions::copy_if;
use crate::offer::Offered;
use crate::side::Side;
use crate::variable::set_bit;
use std::alloc::{AllocError, Global};
use tre_define::{Comparison, Reads, SignalDefinition, compare_bits};
use tre_state::{NAMES_MAX, Sieve, lowest, without};

// What a name compares by its definition, if it has one that does.
#[derive(Drop)]
pub struct Paired {
    pub definition: Option<SignalDefinition>,
    pub one: Side,
    pub other: Side,
}

impl Paired {
    // This is offered.
    fn declare(&mut self, alloc: Global, offered: &Offered) -> Result<(), AllocError>
        ensures same { self.new.definition ≡ self.old.definition }
        ensures knows { (past : List Statement) (tokens : List (List ℕ)) → IsQuiet past →
            offer_in (scopes_at past) tokens ≡ Some (offer_kept offered.now) →
            KnowsPaired past self.old → OnOk result (KnowsPaired (var tokens ∷ past) self.new) }
    {
        let Some(definition) = &self.definition else {
            return Ok(());
        };
        if comparison_of(definition.reads()).is_none() {
            return Ok(());
        }
        let one = definition.signal_part(&offered.full_name, offered.size);
        let other = definition.other_part(&offered.full_name, offered.size);
        self.one.declare(alloc, &offered.identifier, one)?;
        self.other.declare(alloc, &offered.identifier, other)
    }

    // The sieve is told of its identifiers.
    fn sift(&self, sieve: &mut Sieve, number: u8)
        requires { number < 64 }
        ensures told { (identifier : List ℕ) → reads_pair self.now identifier ≡ true →
            MayBe sieve.new identifier number }
        ensures kept { (other : List ℕ) (k : ℕ) → MayBe sieve.old other k →
            MayBe sieve.new other k }
    {
        self.one.sift(sieve, number);
        self.other.sift(sieve, number);
    }

    // Whether it reads the values of this identifier.
    fn reads(&self, identifier: &[u8]) -> bool
        ensures { result ≡ reads_pair self.now identifier.now }
    {
        self.one.reads(identifier) || self.other.reads(identifier)
    }

    // An identifier has a value of these letters.
    fn say(&mut self, identifier: &[u8], letters: &[u8]) -> Result<(), AllocError>
        ensures knows { (past : List Statement) (form : Form) → KnowsPaired past self.old →
            OnOk result (KnowsPaired (change form identifier.now letters.now ∷ past) self.new) }
        ensures same { self.new.definition ≡ self.old.definition }
        ensures asked { (self.new.one.asked ≡ self.old.one.asked)
            × (self.new.other.asked ≡ self.old.other.asked) }
    {
        self.one.say(identifier, letters)?;
        self.other.say(identifier, letters)
    }

    // Whether the numbers of both are known and the comparison holds.
    fn holds(&self) -> bool
        ensures { result ≡ holds self.now }
    {
        let Some(definition) = &self.definition else {
            return false;
        };
        match comparison_of(definition.reads()) {
            Some(comparison) => compare(comparison, &self.one, &self.other),
            None => false,
        }
    }
}

// How two signals are compared, if they are.
pub fn comparison_of(reads: Reads) -> Option<Comparison>
    ensures { result ≡ comparison_of reads }
{
    match reads {
        Reads::Beside(comparison) => Some(comparison),
        _ => None,
    }
}

// Whether the numbers of both are known and the first is so beside the second.
fn compare(comparison: Comparison, one: &Side, other: &Side) -> bool
    ensures { result ≡ compares_known comparison (number_kept one.now) (number_kept other.now) }
{
    match (one.bits(), other.bits()) {
        (Some(bits), Some(others)) => comparison.allows(compare_bits(bits, others)),
        _ => false,
    }
}

// The comparisons of some names, each with the number of its name.
#[derive(Drop)]
pub struct Pairs {
    // One for each name.
    pub list: Vec<Paired>,
    // Bit k says whether name k compares two signals.
    pub compared: u64,
    // Bit k is the value of name k, where it does.
    pub values: u64,
}

impl Pairs {
    // There is no name.
    pub fn new(alloc: Global) -> Pairs
        ensures knows { (all : List SignalDefined) (sieve : List ℕ) →
            KnowsPairs all [] sieve result [] }
        ensures list { result.list.items ≡ [] }
    {
        Pairs {
            list: Vec::new(alloc),
            compared: 0,
            values: 0,
        }
    }

    // The next name has this definition, or none.
    pub fn add(
        &mut self,
        alloc: Global,
        definition: Option<&SignalDefinition>,
    ) -> Result<(), AllocError>
        requires few { length self.old.list.items < 64 }
        ensures knows { (all : List SignalDefined) (names : List (List ℕ)) (sieve : List ℕ)
            (name : List ℕ) → KnowsPairs all names sieve self.old [] →
            length self.old.list.items ≡ length names →
            option_map (λ own. own.now) definition.entry ≡ signal_definition_of all name →
            OnOk result (KnowsPairs all (names ++ name ∷ []) sieve self.new []) }
        ensures len { OnOk result (length self.new.list.items
            ≡ length self.old.list.items + 1) }
    {
        let number = self.list.as_slice().len() as u8;
        let is_compared = compared_by(definition).is_some();
        let definition = copy_if(definition)?;
        self.list.push(Paired {
            definition,
            one: Side::new(alloc),
            other: Side::new(alloc),
        })?;
        set_bit(&mut self.compared, number, is_compared);
        Ok(())
    }

    // This is offered by a declaration.
    pub fn declare(&mut self, alloc: Global, offered: &Offered) -> Result<(), AllocError>
        ensures { (all : List SignalDefined) (names : List (List ℕ)) (sieve : List ℕ)
            (past : List Statement) (tokens : List (List ℕ)) →
            offer_in (scopes_at past) tokens ≡ Some (offer_kept offered.now) →
            IsQuiet past → is_defined past ≡ false →
            KnowsPairs all names sieve self.old past →
            OnOk result (KnowsPairs all names sieve self.new (var tokens ∷ past)) }
    {
        declare_each(&mut self.list, alloc, offered)
    }

    // The declarations end.
    pub fn sift(&self, sieve: &mut Sieve)
        ensures knows { (all : List SignalDefined) (names : List (List ℕ))
            (past : List Statement) → KnowsPairs all names sieve.old self.now past →
            KnowsPairs all names sieve.new self.now (definitions ∷ past) }
        ensures kept { (other : List ℕ) (k : ℕ) → MayBe sieve.old other k →
            MayBe sieve.new other k }
    {
        sift_each(&self.list, sieve);
    }

    // An identifier, which may have these numbers, has a value of these letters.
    pub fn change(
        &mut self,
        numbers: u64,
        identifier: &[u8],
        letters: &[u8],
    ) -> Result<(), AllocError>
        ensures { (all : List SignalDefined) (names : List (List ℕ)) (sieve : List ℕ)
            (past : List Statement) (form : Form) → is_defined past ≡ true →
            ((k : ℕ) → MayBe sieve identifier.now k → bit_at numbers k ≡ 1) →
            KnowsPairs all names sieve self.old past → OnOk result (KnowsPairs all names sieve
            self.new (change form identifier.now letters.now ∷ past)) }
    {
        let numbers = numbers & self.compared;
        tell(
            &mut self.list,
            &mut self.values,
            numbers,
            identifier,
            letters,
        )?;
        Ok(())
    }

    // These values, with those of the names that compare two signals in their places.
    #[inline(always)]
    pub fn valuation(&self, tested: u64) -> u64
        ensures { (all : List SignalDefined) (names : List (List ℕ)) (sieve : List ℕ)
            (past : List Statement) → KnowsPairs all names sieve self.now past →
            tested ≡ bits_of (tested_at all past) names →
            result ≡ bits_of (true_at all past) names }
    {
        tested | self.values
    }
}

// How two signals are compared by the definition, if there is one that does.
fn compared_by(definition: Option<&SignalDefinition>) -> Option<Comparison>
    ensures { result ≡ compared_by (option_map (λ own. own.now) definition.entry) }
{
    match definition {
        Some(definition) => comparison_of(definition.reads()),
        None => None,
    }
}

// This is offered to each of them.
fn declare_each(list: &mut [Paired], alloc: Global, offered: &Offered) -> Result<(), AllocError>
    ensures same { map (λ paired. paired.definition) list.new
        ≡ map (λ paired. paired.definition) list.old }
    ensures knows { (past : List Statement) (tokens : List (List ℕ)) → IsQuiet past →
        offer_in (scopes_at past) tokens ≡ Some (offer_kept offered.now) →
        (value : ℕ → ℕ) → ((k : ℕ) → KnowsPairAt past (slice_get list.old k) (value k)) →
        OnOk result ((k : ℕ) → KnowsPairAt (var tokens ∷ past) (slice_get list.new k)
        (value k)) }
{
    let Some((first, others)) = list.split_first_mut() else {
        return Ok(());
    };
    first.declare(alloc, offered)?;
    declare_each(others, alloc, offered)
}

// Each may have its number by its identifiers.
fn sift_each(list: &[Paired], sieve: &mut Sieve)
    ensures told { (k : ℕ) (paired : Paired) → k < 64 → slice_get list.now k ≡ Some paired →
        (identifier : List ℕ) → reads_pair paired identifier ≡ true →
        MayBe sieve.new identifier k }
    ensures kept { (other : List ℕ) (k : ℕ) → MayBe sieve.old other k → MayBe sieve.new other k }
{
    for number in 0..list.len().min(NAMES_MAX) as u8 {
        let place = usize::from(number);
        list[place].sift(sieve, number);
    }
}

// Letters of an identifier are told to those names of these numbers that read them.
fn tell(
    list: &mut [Paired],
    values: &mut u64,
    numbers: u64,
    identifier: &[u8],
    letters: &[u8],
) -> Result<(), AllocError>
    ensures told { (past : List Statement) (form : Form) →
        ((k : ℕ) → KnowsPairAt past (slice_get list.old k) (bit_at values.old k)) →
        ((k : ℕ) → bit_at numbers k ≢ 1 →
        reads_at (slice_get list.old k) identifier.now ≡ false) →
        OnOk result ((k : ℕ) → KnowsPairAt (change form identifier.now letters.now ∷ past)
        (slice_get list.new k) (bit_at values.new k)) }
    ensures same { OnOk result (SamePaired list.old list.new) }
{
    let mut left = numbers;
    while left != 0 {
        let number = lowest(left);
        tell_at(list, values, number, identifier, letters)?;
        left = without(left, number);
    }
    Ok(())
}

// Letters of an identifier are told to the name of this number, if it reads them.
fn tell_at(
    list: &mut [Paired],
    values: &mut u64,
    number: u8,
    identifier: &[u8],
    letters: &[u8],
) -> Result<(), AllocError>
    requires within { number < 64 }
    ensures told { (past : List Statement) (form : Form) →
        KnowsPairAt past (slice_get list.old number) (bit_at values.old number) →
        OnOk result (KnowsPairAt (change form identifier.now letters.now ∷ past)
        (slice_get list.new number) (bit_at values.new number)) }
    ensures others { (k : ℕ) → k ≢ number → OnOk result
        ((slice_get list.new k ≡ slice_get list.old k)
        × (bit_at values.new k ≡ bit_at values.old k)) }
    ensures same { OnOk result (SamePaired list.old list.new) }
{
    let place = usize::from(number);
    if place >= list.len() || !list[place].reads(identifier) {
        return Ok(());
    }
    list[place].say(identifier, letters)?;
    set_bit(values, number, list[place].holds());
    Ok(())
}
