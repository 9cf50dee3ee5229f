ghost use Rattle.std.specs.Prelude.{◌≡◌, None, IfOk, IfSome, OnOk};
ghost use Rattle.tre_feed.specs.Growth.{IsWider};
ghost use Rattle.tre_feed.specs.Shares.{Shows};
ghost use Rattle.tre_syntax.specs.Pattern.{names_of};

use crate::places::Places;
use crate::view::View;
use std::alloc::{AllocError, Global};
use std::marker::Model;
use std::mem;
use tre_state::{NameFault, Names};
use tre_syntax::Pattern;

/// The names that one reader reads, for one pattern or for several.
#[derive(Drop)]
pub struct Group {
    names: Names,
    events: Names,
}

impl Model for Group {
    ghost use Rattle.tre_trace.specs.Reading.{Vocabulary};

    ghost Value = { Vocabulary };

    ghost view = { λ group. record { names = group.names; events = group.events } };
}

impl Group {
    /// The names of the propositions.
    pub fn names(&self) -> &Names
        ensures { result.now ≡ self.now.names }
    {
        &self.names
    }

    /// The names of the events.
    pub fn events(&self) -> &Names
        ensures { result.now ≡ self.now.events }
    {
        &self.events
    }

    /// Both lists once more, for a reader to keep.
    pub fn lists(&self) -> Result<(Names, Names), AllocError>
        ensures { IfOk result (λ lists. record { names = lists.0; events = lists.1 }
            ≡ self.now) }
    {
        let copy = group_of(&self.names, &self.events)?;
        Ok((copy.names, copy.events))
    }

    /// The names of this pattern alone.
    pub(crate) fn of(pattern: &Pattern) -> Result<Group, AllocError>
        ensures { IfOk result (λ group. group ≡ names_of pattern.now) }
    {
        group_of(pattern.names(), pattern.events())
    }

    /// Takes in the names of the pattern, and gives its view of the group, which has this number.
    /// None where the group has no room for them.
    pub(crate) fn admit(
        &mut self,
        alloc: Global,
        number: usize,
        pattern: &Pattern,
    ) -> Result<Option<View>, AllocError>
        ensures shows { IfOk result (λ found. IfSome found (λ view.
            Shows (names_of pattern.now) self.new view)) }
        ensures number { IfOk result (λ found. IfSome found (λ view. view.group ≡ number)) }
        ensures wider { IsWider self.old self.new }
    {
        let mut wider = group_of(&self.names, &self.events)?;
        match joined(alloc, &mut wider.names, &mut wider.events, number, pattern) {
            Ok(view) => {
                drop(mem::replace(self, wider));
                Ok(Some(view))
            }
            Err(fault) => {
                drop(wider);
                no_view(fault)
            }
        }
    }
}

// Names that are too many have no view of the group.
fn no_view(fault: NameFault) -> Result<Option<View>, AllocError>
    ensures { IfOk result (λ found. found ≡ None) }
{
    match fault {
        NameFault::TooMany => Ok(None),
        NameFault::Memory => Err(AllocError),
    }
}

// The group of these names.
fn group_of(names: &Names, events: &Names) -> Result<Group, AllocError>
    ensures { IfOk result (λ group. group ≡ record { names = names.now; events = events.now }) }
{
    let names = names.try_clone()?;
    let Ok(events) = events.try_clone() else {
        drop(names);
        return Err(AllocError);
    };
    Ok(Group { names, events })
}

// Puts the names of the pattern that aren't there behind the others, and gives its view of them.
fn joined(
    alloc: Global,
    names: &mut Names,
    events: &mut Names,
    number: usize,
    pattern: &Pattern,
) -> Result<View, NameFault>
    ensures shows { IfOk result (Shows (names_of pattern.now)
        (record { names = names.new; events = events.new })) }
    ensures number { IfOk result (λ view. view.group ≡ number) }
    ensures wider { OnOk result (IsWider (record { names = names.old; events = events.old })
        (record { names = names.new; events = events.new })) }
{
    let names = Places::join(alloc, names, pattern.names())?;
    let events = Places::join(alloc, events, pattern.events())?;
    Ok(View {
        group: number,
        names,
        events,
    })
}
