// Lists of definitions.
ghost use Rattle.std.specs.Prelude.{◌≡◌, ◌∷◌, ◌++◌, [], is_ok, IfOk, OnOk, if◌then◌else◌};
ghost use Rattle.std.specs.Option.{option_map};
ghost use Rattle.tre_define.specs.Signals.{signal_definition_of};
ghost use Rattle.tre_vcd.specs.VcdReading.{is_changes, of_changes};

use std::alloc::{AllocError, Global};
use tre_define::{Reads, SignalDefinition};

// Copies of the definitions.
pub fn copy_of(
    alloc: Global,
    definitions: &[SignalDefinition],
) -> Result<Vec<SignalDefinition>, AllocError>
    ensures { IfOk result (λ copies. copies.items ≡ definitions.now) }
{
    let mut copies = Vec::new(alloc);
    for definition in definitions {
        push_copy(&mut copies, definition)?;
    }
    Ok(copies)
}

// Puts a copy of the definition behind the others.
pub fn push_copy(
    list: &mut Vec<SignalDefinition>,
    definition: &SignalDefinition,
) -> Result<(), AllocError>
    ensures { list.new.items
        ≡ (if is_ok result then list.old.items ++ definition.now ∷ [] else list.old.items) }
{
    list.push(definition.try_clone()?)?;
    Ok(())
}

// Copies of those that are of events.
pub fn of_changes(
    alloc: Global,
    definitions: &[SignalDefinition],
) -> Result<Vec<SignalDefinition>, AllocError>
    ensures { IfOk result (λ changing. changing.items ≡ of_changes definitions.now) }
{
    let mut changing = Vec::new(alloc);
    for definition in definitions {
        add_changing(&mut changing, definition)?;
    }
    Ok(changing)
}

// Puts a copy of the definition behind the others, if it is of an event.
fn add_changing(
    changing: &mut Vec<SignalDefinition>,
    definition: &SignalDefinition,
) -> Result<(), AllocError>
    ensures { OnOk result (changing.new.items
        ≡ changing.old.items ++ of_changes (definition.now ∷ [])) }
{
    if !is_changes(definition.reads()) {
        return Ok(());
    }
    push_copy(changing, definition)?;
    Ok(())
}

// Whether an event is defined.
fn is_changes(reads: Reads) -> bool
    ensures { result ≡ is_changes reads }
{
    matches!(reads, Reads::Changes)
}

// A copy of the definition, if there is one.
pub fn copy_if(
    definition: Option<&SignalDefinition>,
) -> Result<Option<SignalDefinition>, AllocError>
    ensures { IfOk result (λ copy. copy ≡ option_map (λ own. own.now) definition.entry) }
{
    match definition {
        Some(definition) => Ok(Some(definition.try_clone()?)),
        None => Ok(None),
    }
}

// The first definition of a name.
pub fn definition_of<'a>(
    definitions: &'a [SignalDefinition],
    name: &[u8],
) -> Option<&'a SignalDefinition>
    ensures { option_map (λ found. found.now) result
        ≡ signal_definition_of definitions.now name.now }
{
    for definition in definitions {
        if definition.name().as_bytes() == name {
            return Some(definition);
        }
    }
    None
}
