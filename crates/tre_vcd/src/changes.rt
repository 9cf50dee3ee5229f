// The changes by which events are defined.
ghost use Rattle.std.specs.Prelude.{◌≡◌, ◌≢◌, ◌↔◌, ◌<◌, ◌+◌, ◌∷◌, ◌++◌, ℕ, List, [], length, map, true, false, Some, OnOk, if◌then◌else◌};
ghost use Rattle.std.specs.Int.{bit_at};
ghost use Rattle.std.specs.Option.{option_map, option_map_or};
ghost use Rattle.tre_define.specs.Signals.{SignalDefined, signal_definition_of};
ghost use Rattle.tre_define.specs.declared.part.Part.{Part};
ghost use Rattle.tre_state.specs.Sieve.{MayBe};
ghost use Rattle.tre_trace.specs.Reading.{bits_of};
ghost use Rattle.tre_vcd.specs.VcdReading.{Form, Statement, var, time, change, definitions, is_defined, time_at, scopes_at, offer_in, Asked, differs, of_changes, happens_at};
ghost use Rattle.tre_vcd.specs.Kept.{IsQuiet, events_at};
ghost use Rattle.tre_vcd.specs.Signals.{offer_kept, occasion_of, letters_kept, part_kept, part_read, reads_part, part_at, watched_at, AreDefined, SignalsAreWatched, KnowsAt, KnowsChanges, SameAsked};

use crate::definitions::copy_if;
use crate::letters::Letters;
use crate::offer::Offered;
use crate::variable::set_bit;
use std::alloc::{AllocError, Global};
use std::mem::swap;
use tre_define::{Part, SignalDefinition};
use tre_state::{NAMES_MAX, Sieve, lowest, without};

// Some bits of the values of an identifier.
#[derive(Drop)]
pub struct AskedPart {
    pub identifier: Vec<u8>,
    pub part: Part,
}

// What an event reads by its definition, if it has one, once something of it is declared.
#[derive(Drop)]
pub struct Watched {
    pub definition: Option<SignalDefinition>,
    pub asked: Option<AskedPart>,
    // The last letters, and those before the first change at this time, if there is one.
    pub latest: Letters,
    pub earlier: Letters,
}

impl Watched {
    // This is offered. The first declaration counts.
    fn declare(&mut self, alloc: Global, offered: &Offered) -> Result<(), AllocError>
        ensures same { self.new.definition ≡ self.old.definition }
        ensures letters { (self.new.latest ≡ self.old.latest)
            × (self.new.earlier ≡ self.old.earlier) }
        ensures asks { (past : List Statement) (tokens : List (List ℕ)) →
            offer_in (scopes_at past) tokens ≡ Some (offer_kept offered.now) →
            option_map occasion_of (part_kept self.old) ≡ part_read past self.old.definition →
            OnOk result (option_map occasion_of (part_kept self.new)
            ≡ part_read (var tokens ∷ past) self.old.definition) }
    {
        let Some(definition) = &self.definition else {
            return Ok(());
        };
        if self.asked.is_some() {
            return Ok(());
        }
        let Some(part) = definition.changes_in(&offered.full_name, offered.size) else {
            return Ok(());
        };
        self.asked = Some(AskedPart {
            identifier: Vec::from_slice(alloc, &offered.identifier)?,
            part,
        });
        Ok(())
    }

    // The sieve is told of its identifier.
    fn sift(&self, sieve: &mut Sieve, number: u8)
        requires { number < 64 }
        ensures told { (asked : Asked Part) → part_kept self.now ≡ Some asked →
            MayBe sieve.new asked.identifier number }
        ensures kept { (other : List ℕ) (k : ℕ) → MayBe sieve.old other k →
            MayBe sieve.new other k }
    {
        if let Some(asked) = &self.asked {
            sieve.add(&asked.identifier, number);
        }
    }

    // Whether it reads the values of this identifier.
    fn reads(&self, identifier: &[u8]) -> bool
        ensures { result ≡ reads_part (part_kept self.now) identifier.now }
    {
        match &self.asked {
            Some(asked) => asked.identifier.as_slice() == identifier,
            None => false,
        }
    }

    // A value of these letters is said, the first one at this time or a later one.
    fn say(&mut self, letters: &[u8], is_first: bool) -> Result<(), AllocError>
        ensures now { OnOk result (letters_kept self.new.latest ≡ Some letters.now) }
        ensures before { self.new.earlier
            ≡ (if is_first then self.old.latest else self.old.earlier) }
        ensures same { (self.new.definition ≡ self.old.definition)
            × (self.new.asked ≡ self.old.asked) }
    {
        if is_first {
            swap(&mut self.earlier, &mut self.latest);
        }
        self.latest.say(letters)
    }

    // Whether its bits have other letters now than before this time.
    fn has_changed(&self) -> bool
        ensures { result ≡ option_map_or (λ asked. differs asked.asks
            (letters_kept self.now.earlier) (letters_kept self.now.latest)) (part_kept self.now)
            false }
    {
        match &self.asked {
            Some(asked) => self.earlier.differ(asked.part, &self.latest),
            None => false,
        }
    }
}

// The changes that some events are, each with the number of its name.
#[derive(Drop)]
pub struct Changes {
    // One for each name, where one of the names may be defined.
    pub list: Vec<Watched>,
    // It was told of the identifier of each, once the declarations have ended.
    pub sieve: Sieve,
    // Bit k says whether name k is defined by changes.
    pub defined: u64,
    // Bit k says whether a value of name k was said at this time.
    pub said: u64,
    // Bit k says whether name k has changed at this time.
    pub happened: u64,
}

impl Changes {
    // No name is defined.
    pub fn new(alloc: Global) -> Changes
        ensures knows { (all : List SignalDefined) (names : List (List ℕ)) →
            AreDefined all names [] → KnowsChanges all names result [] }
        ensures list { result.list.items ≡ [] }
    {
        Changes {
            list: Vec::new(alloc),
            sieve: Sieve::new(),
            defined: 0,
            said: 0,
            happened: 0,
        }
    }

    // The next name has this definition, or none.
    pub fn add(
        &mut self,
        alloc: Global,
        definition: Option<&SignalDefinition>,
    ) -> Result<(), AllocError>
        requires few { length self.old.list.items < 64 }
        ensures knows { (all : List SignalDefined) (names : List (List ℕ)) (name : List ℕ) →
            KnowsChanges all names self.old [] → length self.old.list.items ≡ length names →
            option_map (λ own. own.now) definition.entry ≡ signal_definition_of all name →
            OnOk result (KnowsChanges all (names ++ name ∷ []) self.new []) }
        ensures len { OnOk result (length self.new.list.items
            ≡ length self.old.list.items + 1) }
    {
        let number = self.list.as_slice().len() as u8;
        let definition = copy_if(definition)?;
        let is_defined = definition.is_some();
        self.list.push(Watched {
            definition,
            asked: None,
            latest: Letters::new(alloc),
            earlier: Letters::new(alloc),
        })?;
        set_bit(&mut self.defined, number, is_defined);
        Ok(())
    }

    // This is offered by a declaration.
    pub fn declare(&mut self, alloc: Global, offered: &Offered) -> Result<(), AllocError>
        ensures { (all : List SignalDefined) (names : List (List ℕ))
            (past : List Statement) (tokens : List (List ℕ)) →
            offer_in (scopes_at past) tokens ≡ Some (offer_kept offered.now) →
            IsQuiet past → is_defined past ≡ false →
            KnowsChanges all names self.old past →
            OnOk result (KnowsChanges all names self.new (var tokens ∷ past)) }
    {
        declare_each(&mut self.list, alloc, offered)
    }

    // The declarations end.
    pub fn sift(&mut self)
        ensures { (all : List SignalDefined) (names : List (List ℕ)) (past : List Statement) →
            KnowsChanges all names self.old past →
            KnowsChanges all names self.new (definitions ∷ past) }
    {
        sift_each(&self.list, &mut self.sieve);
    }

    // Another time is reached.
    #[inline(always)]
    pub fn reach(&mut self)
        ensures { (all : List SignalDefined) (names : List (List ℕ)) (past : List Statement)
            (ticks : ℕ) → ticks ≢ time_at past → KnowsChanges all names self.old past →
            KnowsChanges all names self.new (time ticks ∷ past) }
    {
        self.said = 0;
        self.happened = 0;
    }

    // Whether one of them may read values of this identifier.
    #[inline(always)]
    pub fn may_read(&self, identifier: &[u8]) -> bool
        ensures { result ≡ false → (all : List SignalDefined) (names : List (List ℕ))
            (past : List Statement) (form : Form) (letters : List ℕ) → is_defined past ≡ true →
            KnowsChanges all names self.now past →
            KnowsChanges all names self.now (change form identifier.now letters ∷ past) }
    {
        self.sieve.may_be(identifier)
    }

    // An identifier has a value of these letters.
    pub fn change(&mut self, identifier: &[u8], letters: &[u8]) -> Result<(), AllocError>
        ensures { (all : List SignalDefined) (names : List (List ℕ)) (past : List Statement)
            (form : Form) → is_defined past ≡ true → KnowsChanges all names self.old past →
            OnOk result (KnowsChanges all names self.new
            (change form identifier.now letters.now ∷ past)) }
    {
        let numbers = self.sieve.numbers(identifier);
        tell(
            &mut self.list,
            &mut self.said,
            &mut self.happened,
            numbers,
            identifier,
            letters,
        )?;
        Ok(())
    }

    // These events, with those of the names that are defined in their places.
    #[inline(always)]
    pub fn events(&self, plain: u64) -> u64
        ensures { (all : List SignalDefined) (names : List (List ℕ)) (past : List Statement) →
            KnowsChanges (of_changes all) names self.now past → plain ≡ events_at past names →
            result ≡ bits_of (happens_at all past) names }
    {
        (plain ^ (plain & self.defined)) | self.happened
    }
}

// This is offered to each of them.
fn declare_each(list: &mut [Watched], alloc: Global, offered: &Offered) -> Result<(), AllocError>
    ensures same { map (λ watched. watched.definition) list.new
        ≡ map (λ watched. watched.definition) list.old }
    ensures letters { (map (λ watched. watched.latest) list.new
        ≡ map (λ watched. watched.latest) list.old) × (map (λ watched. watched.earlier) list.new
        ≡ map (λ watched. watched.earlier) list.old) }
    ensures asks { (past : List Statement) (tokens : List (List ℕ)) →
        offer_in (scopes_at past) tokens ≡ Some (offer_kept offered.now) →
        SignalsAreWatched past list.old → OnOk result (SignalsAreWatched (var tokens ∷ past)
        list.new) }
{
    let Some((first, others)) = list.split_first_mut() else {
        return Ok(());
    };
    first.declare(alloc, offered)?;
    declare_each(others, alloc, offered)
}

// Each may have its number by its identifier.
fn sift_each(list: &[Watched], sieve: &mut Sieve)
    ensures { (k : ℕ) (asked : Asked Part) → k < 64 → part_at list.now k ≡ Some asked →
        MayBe sieve.new asked.identifier k }
{
    for number in 0..list.len().min(NAMES_MAX) as u8 {
        let place = usize::from(number);
        list[place].sift(sieve, number);
    }
}

// Letters of an identifier are told to those names of these numbers that read them.
fn tell(
    list: &mut [Watched],
    said: &mut u64,
    happened: &mut u64,
    numbers: u64,
    identifier: &[u8],
    letters: &[u8],
) -> Result<(), AllocError>
    ensures told { (past : List Statement) (form : Form) →
        ((k : ℕ) → KnowsAt (watched_at list.old k) (bit_at said.old k) (bit_at happened.old k)
        past) → ((k : ℕ) → bit_at numbers k ≢ 1 →
        reads_part (part_at list.old k) identifier.now ≡ false) →
        OnOk result ((k : ℕ) → KnowsAt (watched_at list.new k) (bit_at said.new k)
        (bit_at happened.new k) (change form identifier.now letters.now ∷ past)) }
    ensures same { OnOk result (SameAsked list.old list.new) }
{
    let mut left = numbers;
    while left != 0 {
        let number = lowest(left);
        tell_at(list, said, happened, number, identifier, letters)?;
        left = without(left, number);
    }
    Ok(())
}

// Letters of an identifier are told to the name of this number, if it reads them.
fn tell_at(
    list: &mut [Watched],
    said: &mut u64,
    happened: &mut u64,
    number: u8,
    identifier: &[u8],
    letters: &[u8],
) -> Result<(), AllocError>
    requires within { number < 64 }
    ensures told { (past : List Statement) (form : Form) →
        KnowsAt (watched_at list.old number) (bit_at said.old number)
        (bit_at happened.old number) past →
        OnOk result (KnowsAt (watched_at list.new number) (bit_at said.new number)
        (bit_at happened.new number) (change form identifier.now letters.now ∷ past)) }
    ensures others { (k : ℕ) → k ≢ number → OnOk result
        ((watched_at list.new k ≡ watched_at list.old k)
        × (bit_at said.new k ≡ bit_at said.old k)
        × (bit_at happened.new k ≡ bit_at happened.old k)) }
    ensures same { OnOk result (SameAsked list.old list.new) }
{
    let place = usize::from(number);
    if place >= list.len() || !list[place].reads(identifier) {
        return Ok(());
    }
    let is_first = !has_bit(*said, number);
    list[place].say(letters, is_first)?;
    set_bit(said, number, true);
    set_bit(happened, number, list[place].has_changed());
    Ok(())
}

// Whether the bit of this number is set.
fn has_bit(bits: u64, number: u8) -> bool
    requires { number < 64 }
    ensures { (result ≡ true) ↔ (bit_at bits number ≡ 1) }
{
    (bits >> number) & 1 == 1
}
