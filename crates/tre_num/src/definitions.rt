// The definitions of a text.
ghost use Rattle.std.specs.Prelude.{◌≡◌, ◌≢◌, ◌+◌, ◌∷◌, ◌++◌, [], length, None, IfOk, IfErr, OnOk};
ghost use Rattle.tre_num.specs.Defined.{Defined, name_of_let};
ghost use Rattle.tre_num.specs.Definitions.{Spells, Define, LetsAreRefused};
ghost use Rattle.tre_num.specs.Rows.{definition_of};
ghost use Rattle.tre_define.specs.Texts.{PartHasFault, parts_of};
ghost use Rattle.tre_define.specs.declared.let_fault.LetFault.{LetFault};

use crate::columns::definition_of;
use crate::definition::Definition;
use crate::parts::parts_in;
use std::alloc::Global;
use tre_define::{LetFault, first_part, skip_spaces};

/// The definitions of a text, in their order: `name = column op number` each, with `;` between two,
/// where the op is one of `<`, `<=`, `>`, `>=`, `==` and `!=`, and the number is whole, from -2^63
/// to 2^63 - 1. Spaces alone may stand round each part. A text of spaces alone has no definition.
/// The first that is none, or that has the name of an earlier one, is told by its number.
pub fn read_definitions(alloc: Global, text: &str) -> Result<Vec<Definition>, LetFault>
    ensures definitions { IfOk result (λ definitions.
        Define (parts_of text.now) definitions.items) }
    ensures refused { IfErr result (λ fault. fault ≢ LetFault.Memory →
        LetsAreRefused (parts_of text.now) fault) }
{
    let mut definitions = Vec::new(alloc);
    let mut rest = text.as_bytes();
    if skip_spaces(rest).is_empty() {
        return Ok(definitions);
    }
    loop {
        let (part, behind) = first_part(rest);
        add_definition(alloc, &mut definitions, part)?;
        match behind {
            Some(behind) => rest = behind,
            None => return Ok(definitions),
        }
    }
}

/// Puts the definition that a part is behind the others. One that is none, or that has the name of
/// an earlier one, is refused with the number that it would have.
pub fn add_definition(
    alloc: Global,
    definitions: &mut Vec<Definition>,
    part: &[u8],
) -> Result<(), LetFault>
    ensures added { OnOk result ((defined : Defined)
        × (definitions.new.items ≡ definitions.old.items ++ defined ∷ [])
        × Spells part.now defined
        × (definition_of definitions.old.items defined.name ≡ None)) }
    ensures fault { IfErr result (λ fault. fault ≢ LetFault.Memory →
        PartHasFault Spells name_of_let definitions.old.items (length definitions.old.items + 1)
        part.now fault) }
{
    let at = definitions.len() as u64 + 1;
    let Some(parts) = parts_in(part) else {
        return Err(LetFault::BadLet { at });
    };
    if definition_of(definitions, parts.name).is_some() {
        return Err(LetFault::Twice { at });
    }
    let name = String::from_str(alloc, parts.name)?;
    let column = String::from_str(alloc, parts.column)?;
    let definition = Definition::new(name, column, parts.comparison, parts.value);
    if definitions.push(definition).is_err() {
        return Err(LetFault::Memory);
    }
    Ok(())
}
