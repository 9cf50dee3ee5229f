// Which of the names that a dump must declare it has declared.
ghost use Rattle.std.specs.Prelude.{◌≡◌, ◌≢◌, ◌<◌, ◌≤◌, ◌∷◌, ◌||◌, ◌&&◌, ℕ, List, Bool, [], true, false, Some, length, map, set, replicate, not, if◌then◌else◌, All, AllPairs, IfOk};
ghost use Rattle.std.specs.List.{list_all};
ghost use Rattle.std.specs.Option.{is_some};
ghost use Rattle.std.specs.Str.{bytes_eq};
ghost use Rattle.tre_state.specs.Names.{place_of};
ghost use Rattle.tre_define.specs.Signals.{SignalDefined, changes_in};
ghost use Rattle.tre_vcd.specs.VcdReading.{Statement, var, scopes_at, is_signal, is_event, offer_in, are_declared, is_proposition};
ghost use Rattle.tre_vcd.specs.Needs.{definitions_of, needs};
ghost use Rattle.tre_vcd.specs.Kept.{KnowsNeeded, AreNoLonger, Declares, DeclaresNone, plain_of, vocabulary_of};
ghost use Rattle.tre_vcd.specs.Offers.{KnowsOffers, is_compared, reads_first, reads_other};
ghost use Rattle.tre_vcd.specs.Signals.{offer_kept};
ghost use Rattle.tre_vcd.specs.Unread.{AreUnread};

use crate::needed::Needed;
use crate::offer::Offered;
use crate::pairs::comparison_of;
use indexmap::IndexSet;
use std::alloc::{AllocError, Global};
use std::rc::Rc;
use tre_define::SignalDefinition;

// The names that are needed, and for each of them whether it is declared.
#[derive(Drop)]
pub struct Found {
    pub needed: Rc<Needed>,
    pub names: Vec<bool>,
    pub events: Vec<bool>,
    // Of the names that are defined: whether the signal that is read is declared, and whether the
    // other one is, where two are compared.
    pub tests: Vec<bool>,
    pub others: Vec<bool>,
    pub changes: Vec<bool>,
}

impl Found {
    // None of them is declared.
    pub fn new(alloc: Global, needed: &Rc<Needed>) -> Result<Found, AllocError>
        ensures needs { IfOk result (λ found. vocabulary_of found ≡ needs needed.now.value) }
        ensures knows { IfOk result (KnowsNeeded []) }
        ensures definitions { IfOk result (λ found. definitions_of found.needed.value
            ≡ definitions_of needed.now.value) }
        ensures offers { IfOk result (λ found.
            KnowsOffers (definitions_of found.needed.value) [] found) }
    {
        let needed = needed.clone()?;
        let (names, events) = undeclared(alloc, needed.names.len(), needed.events.len())?;
        let (tests, changes) = undeclared(
            alloc,
            needed.defined_names().len(),
            needed.defined_events().len(),
        )?;
        let others = alone(alloc, needed.defined_names())?;
        Ok(Found {
            needed,
            names,
            events,
            tests,
            others,
            changes,
        })
    }

    // The definitions of names.
    pub fn definitions(&self) -> &[SignalDefinition]
        ensures { result.now ≡ definitions_of self.now.needed.value }
    {
        &self.needed.definitions
    }

    // Whether one of them may read what is offered.
    pub fn may_read(&self, offered: &Offered) -> bool
        ensures { result ≡ false → AreUnread (definitions_of self.now.needed.value)
            offered.now.full_name.items }
    {
        self.needed.may_read(&offered.full_name)
    }

    // The length of the longest of the names.
    pub fn longest(&self) -> usize
        ensures { AreNoLonger result (plain_of self.now) }
    {
        let names = longest_in(self.needed.names.as_slice());
        let events = longest_in(self.needed.events.as_slice());
        names.max(events)
    }

    // A proposition of this path is declared, if it is one of the names.
    pub fn declare(&mut self, path: &[u8])
        ensures knows { (past : List Statement) (identifier : List ℕ) (tokens : List (List ℕ)) →
            KnowsNeeded past self.old →
            Declares is_signal (scopes_at past) tokens identifier path.now →
            DeclaresNone is_event (scopes_at past) tokens →
            KnowsNeeded (var tokens ∷ past) self.new }
        ensures offers { (all : List SignalDefined) (past : List Statement) →
            KnowsOffers all past self.old → KnowsOffers all past self.new }
        ensures same_names { self.new.needed ≡ self.old.needed }
    {
        flag(&self.needed.names, path, &mut self.names);
    }

    // An event of this path is declared, if it is one of the names.
    pub fn declare_event(&mut self, path: &[u8])
        ensures knows { (past : List Statement) (identifier : List ℕ) (tokens : List (List ℕ)) →
            KnowsNeeded past self.old →
            Declares is_event (scopes_at past) tokens identifier path.now →
            DeclaresNone is_signal (scopes_at past) tokens →
            KnowsNeeded (var tokens ∷ past) self.new }
        ensures offers { (all : List SignalDefined) (past : List Statement) →
            KnowsOffers all past self.old → KnowsOffers all past self.new }
        ensures same_names { self.new.needed ≡ self.old.needed }
    {
        flag(&self.needed.events, path, &mut self.events);
    }

    // This is offered to definitions by a declaration.
    pub fn declare_offered(&mut self, offered: &Offered)
        ensures offers { (all : List SignalDefined) (past : List Statement)
            (tokens : List (List ℕ)) →
            offer_in (scopes_at past) tokens ≡ Some (offer_kept offered.now) →
            KnowsOffers all past self.old → KnowsOffers all (var tokens ∷ past) self.new }
        ensures knows { (past : List Statement) → KnowsNeeded past self.old →
            KnowsNeeded past self.new }
        ensures same_names { self.new.needed ≡ self.old.needed }
    {
        flag_tests(&self.needed.tests, offered, &mut self.tests);
        flag_others(&self.needed.tests, offered, &mut self.others);
        flag_changes(&self.needed.changes, offered, &mut self.changes);
    }

    // Whether all of them are declared.
    pub fn is_declared(&self) -> bool
        ensures { (all : List SignalDefined) (past : List Statement) →
            KnowsNeeded past self.now → KnowsOffers all past self.now →
            result ≡ are_declared all past (vocabulary_of self.now) }
    {
        self.are_propositions() && are_set(&self.events, &self.changes)
    }

    // Whether all of the names are declared.
    fn are_propositions(&self) -> bool
        ensures { (all : List SignalDefined) (past : List Statement) →
            KnowsNeeded past self.now → KnowsOffers all past self.now →
            result ≡ list_all (is_proposition all past) (vocabulary_of self.now).names }
    {
        are_set(&self.names, &self.tests) && all_set(&self.others)
    }
}

// Which of the definitions compare no two signals.
fn alone(alloc: Global, definitions: &[SignalDefinition]) -> Result<Vec<bool>, AllocError>
    ensures { IfOk result (λ flags.
        flags.items ≡ map (λ one. not (is_compared one)) definitions.now) }
{
    let mut flags = Vec::new(alloc);
    for definition in definitions {
        flags.push(!is_compared(definition))?;
    }
    Ok(flags)
}

// Whether the definition compares two signals.
fn is_compared(definition: &SignalDefinition) -> bool
    ensures { result ≡ is_compared definition.now }
{
    comparison_of(definition.reads()).is_some()
}

// None of so many names and of so many events is declared.
fn undeclared(
    alloc: Global,
    names: usize,
    events: usize,
) -> Result<(Vec<bool>, Vec<bool>), AllocError>
    ensures { IfOk result (λ flags. (flags.0.items ≡ replicate names false)
        × (flags.1.items ≡ replicate events false)) }
{
    let names = lowered(alloc, names)?;
    let events = lowered(alloc, events)?;
    Ok((names, events))
}

// So many flags, none of which is set.
fn lowered(alloc: Global, count: usize) -> Result<Vec<bool>, AllocError>
    ensures { IfOk result (λ flags. flags.items ≡ replicate count false) }
{
    let mut flags = Vec::new(alloc);
    flags.resize(count, false)?;
    Ok(flags)
}

// The name of this path is declared, where it is one of the names.
fn flag(names: &IndexSet<Vec<u8>>, path: &[u8], flags: &mut Vec<bool>)
    ensures { (test : List ℕ → Bool) →
        flags.old.items ≡ map test (map (λ name. name.items) names.now.keys) →
        flags.new.items ≡ map (λ name. test name || bytes_eq name path.now)
        (map (λ name. name.items) names.now.keys) }
{
    let Some(number) = place_in(names, path) else {
        return;
    };
    if number < flags.len() {
        flags[number] = true;
    }
}

// Of those names the first signal is declared that read what is offered.
fn flag_tests(definitions: &[SignalDefinition], offered: &Offered, flags: &mut [bool])
    ensures { (test : SignalDefined → Bool) → flags.old ≡ map test definitions.now →
        flags.new ≡ map (λ one. test one || reads_first one offered.now.full_name.items
        offered.now.size) definitions.now }
{
    for place in 0..definitions.len().min(flags.len()) {
        raise(flags, place, reads_first(&definitions[place], offered));
    }
}

// Whether what is offered is the signal that the definition reads, or the first of two.
fn reads_first(definition: &SignalDefinition, offered: &Offered) -> bool
    ensures { result ≡ reads_first definition.now offered.now.full_name.items
        offered.now.size }
{
    if is_compared(definition) {
        let part = definition.signal_part(&offered.full_name, offered.size);
        return part.is_some();
    }
    let test = definition.test_in(&offered.full_name, offered.size);
    test.is_some()
}

// Of those names the other signal is declared that compare one with what is offered.
fn flag_others(definitions: &[SignalDefinition], offered: &Offered, flags: &mut [bool])
    ensures { (test : SignalDefined → Bool) → flags.old ≡ map test definitions.now →
        flags.new ≡ map (λ one. test one || reads_other one offered.now.full_name.items
        offered.now.size) definitions.now }
{
    for place in 0..definitions.len().min(flags.len()) {
        raise(flags, place, reads_other(&definitions[place], offered));
    }
}

// Whether what is offered is the second of two signals that the definition compares.
fn reads_other(definition: &SignalDefinition, offered: &Offered) -> bool
    ensures { result ≡ reads_other definition.now offered.now.full_name.items
        offered.now.size }
{
    if !is_compared(definition) {
        return false;
    }
    let part = definition.other_part(&offered.full_name, offered.size);
    part.is_some()
}

// Those names are declared that are the changes of what is offered.
fn flag_changes(definitions: &[SignalDefinition], offered: &Offered, flags: &mut [bool])
    ensures { (test : SignalDefined → Bool) → flags.old ≡ map test definitions.now →
        flags.new ≡ map (λ one. test one || is_some (changes_in one offered.now.full_name.items
        offered.now.size)) definitions.now }
{
    for place in 0..definitions.len().min(flags.len()) {
        let part = definitions[place].changes_in(&offered.full_name, offered.size);
        raise(flags, place, part.is_some());
    }
}

// The flag at this place is set, if it is raised.
fn raise(flags: &mut [bool], place: usize, is_raised: bool)
    requires { place < length flags.old }
    ensures { flags.new ≡ (if is_raised then set flags.old place true else flags.old) }
{
    if !is_raised {
        return;
    }
    flags[place] = true;
}

// The place of the name of this path, if it is one of the names.
fn place_in(names: &IndexSet<Vec<u8>>, path: &[u8]) -> Option<usize>
    ensures place { result ≡ place_of (map (λ name. name.items) names.now.keys) path.now }
    ensures distinct { AllPairs (λ name other. name ≢ other)
        (map (λ name. name.items) names.now.keys) }
{
    if names.len() == 0 {
        return None;
    }
    names.get_index_of(path)
}

// Whether each of both is true.
fn are_set(plain: &[bool], defined: &[bool]) -> bool
    ensures { result ≡ (list_all (λ flag. flag) plain.now && list_all (λ flag. flag) defined.now) }
{
    all_set(plain) && all_set(defined)
}

// Whether each of them is true.
fn all_set(flags: &[bool]) -> bool
    ensures { result ≡ list_all (λ flag. flag) flags.now }
{
    flags.iter().all(|flag| *flag)
}

// The length of the longest of the names.
fn longest_in(names: &[Vec<u8>]) -> usize
    ensures { All (λ name. length name.items ≤ result) names.now }
{
    let mut longest: usize = 0;
    for name in names {
        longest = longest.max(name.len());
    }
    longest
}
