// Who reads a table.
ghost use Rattle.std.specs.Prelude.{◌≡◌, ◌∷◌, ◌++◌, [], IfOk, OnOk};

use crate::definition::Definition;
use std::alloc::{AllocError, Global};
use std::marker::Model;
use tre_state::Names;

/// The names of one who reads.
#[derive(Drop)]
pub(crate) struct Asked {
    pub names: Names,
    pub events: Names,
}

impl Model for Asked {
    ghost use Rattle.tre_trace.specs.Reading.{Vocabulary};

    ghost Value = { Vocabulary };

    ghost view = { λ asked. record { names = asked.names; events = asked.events } };
}

/// The names of all who read a table, and the definitions of names. All its readers share them.
#[derive(Drop)]
pub struct Needed {
    pub(crate) definitions: Vec<Definition>,
    pub(crate) declared: Vec<Asked>,
}

impl Needed {
    ghost use Rattle.std.specs.Prelude.{◌≡◌, ◌==◌, ◌∷◌, ◌++◌, [], length, not, OnOk};
    ghost use Rattle.std.specs.List.{list_all};
    ghost use Rattle.tre_num.specs.Needs.{declared_of, definitions_of};

    /// Nobody reads, and these are the definitions.
    pub fn new(alloc: Global, definitions: Vec<Definition>) -> Needed
        ensures declared { declared_of result ≡ [] }
        ensures definitions { definitions_of result ≡ definitions.items }
    {
        Needed {
            definitions,
            declared: Vec::new(alloc),
        }
    }

    /// One more reads, for these names and events.
    pub fn add(&mut self, names: &Names, events: &Names) -> Result<(), AllocError>
        ensures declared { OnOk result (declared_of self.new
            ≡ declared_of self.old ++ record { names = names.now; events = events.now } ∷ []) }
        ensures definitions { definitions_of self.new ≡ definitions_of self.old }
    {
        let asked = asked_for(names, events)?;
        push_asked(&mut self.declared, asked)
    }

    // Whether someone asks for an event.
    pub(crate) fn has_events(&self) -> bool
        ensures { result ≡ not (list_all (λ asked. length asked.events == 0)
            (declared_of self.now)) }
    {
        for asked in &self.declared {
            if !asked.events.is_empty() {
                return true;
            }
        }
        false
    }
}

// One who asks for these names.
fn asked_for(names: &Names, events: &Names) -> Result<Asked, AllocError>
    ensures { IfOk result (λ asked. asked ≡ record { names = names.now; events = events.now }) }
{
    let names = names.try_clone()?;
    let Ok(events) = events.try_clone() else {
        drop(names);
        return Err(AllocError);
    };
    Ok(Asked { names, events })
}

// Puts one more behind the others.
fn push_asked(all: &mut Vec<Asked>, asked: Asked) -> Result<(), AllocError>
    ensures { OnOk result (all.new.items ≡ all.old.items ++ asked ∷ []) }
{
    all.push(asked)?;
    Ok(())
}
