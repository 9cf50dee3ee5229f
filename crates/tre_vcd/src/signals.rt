// What names read by their definitions.
ghost use Rattle.std.specs.Prelude.{◌≡◌, ◌≢◌, ◌==◌, ◌∷◌, ℕ, List, [], length, true, false, Some, None, IfOk, OnOk};
ghost use Rattle.tre_trace.specs.Reading.{bits_of};
ghost use Rattle.tre_vcd.specs.VcdReading.{Form, Statement, var, change, time, definitions, is_defined, scopes_at, offer_in, of_changes, true_at};
ghost use Rattle.tre_vcd.specs.Kept.{IsQuiet, valuation_behind};
ghost use Rattle.tre_vcd.specs.Pairs.{KnowsPairs};
ghost use Rattle.tre_vcd.specs.Taken.{behind_if};
ghost use Rattle.tre_vcd.specs.Signals.{offer_kept, KnowsTests, KnowsChanges};

use crate::changes::Changes;
use crate::definitions::{copy_of, definition_of, of_changes};
use crate::offer::Offered;
use crate::pairs::Pairs;
use crate::tests::Tests;
use std::alloc::{AllocError, Global};
use tre_define::SignalDefinition;
use tre_state::Names;

// The definitions, and what the names of the propositions and of the events read by them.
#[derive(Drop)]
pub struct Signals {
    pub definitions: Vec<SignalDefinition>,
    pub tests: Tests,
    // Of the names that compare two signals. The sieve of the tests was told of these too.
    pub pairs: Pairs,
    pub changes: Changes,
}

impl Signals {
    ghost use Rattle.tre_vcd.specs.Defined.{KnowsSignals};

    // There are these definitions.
    pub fn new(
        alloc: Global,
        names: &Names,
        events: &Names,
        all: &[SignalDefinition],
    ) -> Result<Signals, AllocError>
        ensures knows { IfOk result (λ signals. KnowsSignals names.now events.now signals []) }
        ensures kept { IfOk result (λ signals. signals.definitions.items ≡ all.now) }
    {
        let tests = tests_of(alloc, names, all)?;
        let pairs = pairs_of(alloc, names, all)?;
        let changes = changes_by(alloc, events, all)?;
        let definitions = copy_of(alloc, all)?;
        Ok(Signals {
            definitions,
            tests,
            pairs,
            changes,
        })
    }

    // Whether there is no definition.
    #[inline(always)]
    pub fn is_empty(&self) -> bool
        ensures { result ≡ (length self.now.definitions.items == 0) }
    {
        self.definitions.as_slice().is_empty()
    }

    // This is offered by a declaration.
    pub fn declare(&mut self, alloc: Global, offered: &Offered) -> Result<(), AllocError>
        ensures knows { (names events : List (List ℕ)) (past : List Statement)
            (tokens : List (List ℕ)) →
            offer_in (scopes_at past) tokens ≡ Some (offer_kept offered.now) →
            IsQuiet past → is_defined past ≡ false → KnowsSignals names events self.old past →
            OnOk result (KnowsSignals names events self.new (var tokens ∷ past)) }
        ensures kept { self.new.definitions ≡ self.old.definitions }
    {
        self.tests.declare(alloc, offered)?;
        self.pairs.declare(alloc, offered)?;
        self.changes.declare(alloc, offered)
    }

    // The declarations end.
    pub fn sift(&mut self)
        ensures knows { (names events : List (List ℕ)) (past : List Statement) →
            is_defined past ≡ false → KnowsSignals names events self.old past →
            KnowsSignals names events self.new (definitions ∷ past) }
        ensures kept { self.new.definitions ≡ self.old.definitions }
    {
        self.tests.sift();
        self.pairs.sift(&mut self.tests.sieve);
        self.changes.sift();
    }

    // Whether a definition may read values of this identifier.
    #[inline(always)]
    pub fn may_read(&self, identifier: &[u8]) -> bool
        ensures { result ≡ false → (names events : List (List ℕ)) (past : List Statement)
            (form : Form) (letters : List ℕ) → is_defined past ≡ true →
            KnowsSignals names events self.now past →
            KnowsSignals names events self.now (change form identifier.now letters ∷ past) }
    {
        if self.tests.may_read(identifier) {
            return true;
        }
        self.changes.may_read(identifier)
    }

    // The tests are told that an identifier has a value of these letters, unless an event may be
    // one of its changes, or a comparison of two signals may read it. This says whether they were.
    pub fn change_tests(&mut self, identifier: &[u8], letters: &[u8]) -> bool
        ensures knows { (names events : List (List ℕ)) (past : List Statement) (form : Form) →
            is_defined past ≡ true → KnowsSignals names events self.old past →
            KnowsSignals names events self.new
            (behind_if result (change form identifier.now letters.now) past) }
        ensures kept { self.new.definitions ≡ self.old.definitions }
    {
        if self.changes.may_read(identifier) {
            return false;
        }
        self.tests.change(identifier, letters, self.pairs.compared)
    }

    // An identifier has a value of these letters.
    #[inline(never)]
    pub fn change(&mut self, identifier: &[u8], letters: &[u8]) -> Result<(), AllocError>
        ensures knows { (names events : List (List ℕ)) (past : List Statement) (form : Form) →
            is_defined past ≡ true → KnowsSignals names events self.old past →
            OnOk result (KnowsSignals names events self.new
            (change form identifier.now letters.now ∷ past)) }
        ensures kept { self.new.definitions ≡ self.old.definitions }
    {
        let numbers = self.tests.sieve.numbers(identifier);
        self.tests.change(identifier, letters, 0);
        self.pairs.change(numbers, identifier, letters)?;
        self.changes.change(identifier, letters)
    }

    // These values, with those of the names that are defined in their places.
    #[inline(always)]
    pub fn valuation(&self, plain: u64) -> u64
        ensures { (names events : List (List ℕ)) (past : List Statement) →
            KnowsSignals names events self.now past → plain ≡ valuation_behind past names →
            result ≡ bits_of (true_at self.now.definitions.items past) names }
    {
        self.pairs.valuation(self.tests.valuation(plain))
    }
}

// The tests of the names by these definitions.
fn tests_of(alloc: Global, names: &Names, all: &[SignalDefinition]) -> Result<Tests, AllocError>
    ensures { IfOk result (λ tests. KnowsTests all.now names.now tests []) }
{
    let mut tests = Tests::new(alloc);
    for number in 0..names.len() as u8 {
        match names.name(number) {
            Some(name) => tests.add(definition_of(all, name.as_bytes()))?,
            None => unreachable!(),
        }
    }
    Ok(tests)
}

// The changes of the names by those of the definitions that are of events.
fn changes_by(alloc: Global, names: &Names, all: &[SignalDefinition]) -> Result<Changes, AllocError>
    ensures { IfOk result (λ changes.
        KnowsChanges (of_changes all.now) names.now changes []) }
{
    let changing = of_changes(alloc, all)?;
    changes_of(alloc, names, &changing)
}

// The changes of the names by these definitions.
fn changes_of(alloc: Global, names: &Names, all: &[SignalDefinition]) -> Result<Changes, AllocError>
    ensures { IfOk result (λ changes. KnowsChanges all.now names.now changes []) }
{
    let mut changes = Changes::new(alloc);
    for number in 0..names.len() as u8 {
        match names.name(number) {
            Some(name) => changes.add(alloc, definition_of(all, name.as_bytes()))?,
            None => unreachable!(),
        }
    }
    Ok(changes)
}

// The comparisons of the names by these definitions.
fn pairs_of(alloc: Global, names: &Names, all: &[SignalDefinition]) -> Result<Pairs, AllocError>
    ensures { IfOk result (λ pairs.
        (sieve : List ℕ) → KnowsPairs all.now names.now sieve pairs []) }
{
    let mut pairs = Pairs::new(alloc);
    for number in 0..names.len() as u8 {
        match names.name(number) {
            Some(name) => pairs.add(alloc, definition_of(all, name.as_bytes()))?,
            None => unreachable!(),
        }
    }
    Ok(pairs)
}
