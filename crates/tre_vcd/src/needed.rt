// The names that a dump must declare.
ghost use Rattle.std.specs.Prelude.{◌≡◌, ◌⊎◌, ◌&&◌, ◌∷◌, ◌++◌, ℕ, List, [], Bool, map, IfOk, OnErr, OnOk};
ghost use Rattle.std.specs.List.{list_all};
ghost use Rattle.tre_trace.specs.Reading.{no_names};
ghost use Rattle.tre_vcd.specs.VcdReading.{of_changes};
ghost use Rattle.tre_vcd.specs.Bases.{HasSignals};
ghost use Rattle.tre_vcd.specs.Sorted.{AreSorted, JoinsNames, wanted};

use crate::bases::{Bases, bases_of};
use crate::definitions::{copy_of, definition_of, of_changes, push_copy};
use indexmap::IndexSet;
use std::alloc::{AllocError, Global};
use tre_define::SignalDefinition;
use tre_state::Names;

/// The names and the events that a dump must declare, and the definitions of names. All readers of
/// one dump share them.
#[derive(Drop)]
pub struct Needed {
    pub(crate) definitions: Vec<SignalDefinition>,
    // Those of events.
    pub(crate) changing: Vec<SignalDefinition>,
    // The names that have no definition, and the definitions of the others.
    pub(crate) names: IndexSet<Vec<u8>>,
    pub(crate) tests: Vec<SignalDefinition>,
    pub(crate) events: IndexSet<Vec<u8>>,
    pub(crate) changes: Vec<SignalDefinition>,
    // Which signals they may read.
    bases: Bases,
    ghost names_sorted: { AreSorted definitions.items (map (λ name. name.items) names.keys)
        tests.items },
    ghost events_sorted: { AreSorted (of_changes definitions.items)
        (map (λ name. name.items) events.keys) changes.items },
    ghost changing_is: { changing.items ≡ of_changes definitions.items },
    ghost bases_has: { HasSignals bases definitions.items },
}

impl Needed {
    ghost use Rattle.std.specs.Prelude.{false};
    ghost use Rattle.tre_vcd.specs.Needs.{definitions_of, needs};
    ghost use Rattle.tre_vcd.specs.Unread.{AreUnread};

    /// No name must be declared, and none is defined.
    pub fn new(alloc: Global) -> Needed
        ensures needs { needs result ≡ no_names }
        ensures definitions { definitions_of result ≡ [] }
    {
        Needed {
            definitions: Vec::new(alloc),
            changing: Vec::new(alloc),
            names: IndexSet::new(alloc),
            tests: Vec::new(alloc),
            events: IndexSet::new(alloc),
            changes: Vec::new(alloc),
            bases: Bases::new(alloc),
        }
    }

    /// These are the definitions of names. To be called before a name is added.
    pub fn define(&mut self, definitions: &[SignalDefinition]) -> Result<(), AllocError>
        requires { needs self.now ≡ no_names }
        ensures definitions { OnOk result (definitions_of self.new ≡ definitions.now) }
        ensures needs { needs self.new ≡ no_names }
    {
        *self = Needed::defined_by(*self.names.allocator(), definitions)?;
        Ok(())
    }

    // No name must be declared, and these are the definitions.
    fn defined_by(alloc: Global, definitions: &[SignalDefinition]) -> Result<Needed, AllocError>
        ensures definitions { IfOk result (λ needed. definitions_of needed ≡ definitions.now) }
        ensures needs { IfOk result (λ needed. needs needed ≡ no_names) }
    {
        let bases = bases_of(alloc, definitions)?;
        let changing = of_changes(alloc, definitions)?;
        let definitions = copy_of(alloc, definitions)?;
        Ok(Needed {
            definitions,
            changing,
            names: IndexSet::new(alloc),
            tests: Vec::new(alloc),
            events: IndexSet::new(alloc),
            changes: Vec::new(alloc),
            bases,
        })
    }

    /// The definitions of the names that must be declared and have one.
    pub(crate) fn defined_names(&self) -> &[SignalDefinition]
        ensures value { result.now ≡ self.now.tests.items }
        ensures sorted { AreSorted self.now.definitions.items
            (map (λ name. name.items) self.now.names.keys) self.now.tests.items }
    {
        &self.tests
    }

    /// The same of the events.
    pub(crate) fn defined_events(&self) -> &[SignalDefinition]
        ensures value { result.now ≡ self.now.changes.items }
        ensures sorted { AreSorted (of_changes self.now.definitions.items)
            (map (λ name. name.items) self.now.events.keys) self.now.changes.items }
    {
        &self.changes
    }

    // Whether one of the definitions may read a signal of this full name.
    pub(crate) fn may_read(&self, full_name: &[u8]) -> bool
        ensures { result ≡ false → AreUnread (definitions_of self.now) full_name.now }
    {
        self.bases.may_read(full_name)
    }

    /// These names and events must be declared too.
    pub fn add(&mut self, names: &Names, events: &Names) -> Result<(), AllocError>
        ensures names { OnOk result (JoinsNames (needs self.old).names names.now
            (needs self.new).names) }
        ensures events { OnOk result (JoinsNames (needs self.old).events events.now
            (needs self.new).events) }
        ensures definitions { definitions_of self.new ≡ definitions_of self.old }
    {
        add_all(&mut self.names, &mut self.tests, &self.definitions, names)?;
        add_all(&mut self.events, &mut self.changes, &self.changing, events)
    }
}

// Puts those of the names that aren't there yet into the set, or their definitions behind the
// others.
fn add_all(
    set: &mut IndexSet<Vec<u8>>,
    defined: &mut Vec<SignalDefinition>,
    definitions: &[SignalDefinition],
    names: &Names,
) -> Result<(), AllocError>
    ensures joins { OnOk result (JoinsNames (wanted (map (λ name. name.items) set.old.keys)
        defined.old.items) names.now (wanted (map (λ name. name.items) set.new.keys)
        defined.new.items)) }
    ensures sorted { AreSorted definitions.now (map (λ name. name.items) set.old.keys)
        defined.old.items → AreSorted definitions.now (map (λ name. name.items) set.new.keys)
        defined.new.items }
{
    for number in 0..names.len() as u8 {
        match names.name(number) {
            Some(name) => add(set, defined, definitions, name.as_bytes())?,
            None => unreachable!(),
        }
    }
    Ok(())
}

// Puts a name into the set, or its definition behind the others, if it isn't there yet.
fn add(
    set: &mut IndexSet<Vec<u8>>,
    defined: &mut Vec<SignalDefinition>,
    definitions: &[SignalDefinition],
    name: &[u8],
) -> Result<(), AllocError>
    ensures joins { OnOk result ((test : List ℕ → Bool) →
        list_all test (wanted (map (λ name. name.items) set.new.keys) defined.new.items)
        ≡ (list_all test (wanted (map (λ name. name.items) set.old.keys) defined.old.items)
        && test name.now)) }
    ensures sorted { AreSorted definitions.now (map (λ name. name.items) set.old.keys)
        defined.old.items → AreSorted definitions.now (map (λ name. name.items) set.new.keys)
        defined.new.items }
{
    match definition_of(definitions, name) {
        Some(definition) => {
            add_definition(defined, definition)?;
            Ok(())
        }
        None => {
            add_name(set, name)?;
            Ok(())
        }
    }
}

// Puts a definition behind the others, if none of them is of its name.
fn add_definition(
    defined: &mut Vec<SignalDefinition>,
    definition: &SignalDefinition,
) -> Result<(), AllocError>
    ensures joins { OnOk result ((test : List ℕ → Bool) →
        list_all test (map (λ one. one.name) defined.new.items)
        ≡ (list_all test (map (λ one. one.name) defined.old.items)
        && test definition.now.name)) }
    ensures either { (defined.new.items ≡ defined.old.items)
        ⊎ (defined.new.items ≡ defined.old.items ++ definition.now ∷ []) }
{
    if definition_of(defined, definition.name().as_bytes()).is_some() {
        return Ok(());
    }
    push_copy(defined, definition)?;
    Ok(())
}

// Puts a name into the set, if it isn't there yet.
pub(crate) fn add_name(set: &mut IndexSet<Vec<u8>>, name: &[u8]) -> Result<(), AllocError>
    ensures err { OnErr result (set.new.keys ≡ set.old.keys) }
    ensures joins { OnOk result ((test : List ℕ → Bool) →
        list_all test (map (λ name. name.items) set.new.keys)
        ≡ (list_all test (map (λ name. name.items) set.old.keys) && test name.now)) }
{
    if set.contains(name) {
        return Ok(());
    }
    let owned = Vec::from_slice(*set.allocator(), name)?;
    set.insert(owned)?;
    Ok(())
}
