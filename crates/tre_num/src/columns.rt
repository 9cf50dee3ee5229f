// The columns that the names of a pattern compare.
ghost use Rattle.std.specs.Prelude.{◌≡◌, ◌≢◌, ◌<◌, [], length, Some, None, IfOk, IfErr, slice_index_or};
ghost use Rattle.std.specs.Option.{option_map};
ghost use Rattle.std.specs.Str.{bytes_eq};
ghost use Rattle.csv.specs.Records.{fields_of};
ghost use Rattle.tre_num.specs.Rows.{definition_of, place_in, compared_column, columns_of};
ghost use Rattle.tre_trace.specs.Reading.{IsPlaced};
ghost use Rattle.tre_trace.specs.declared.fault.TraceKind.TheVariants.{UnknownName, Spent, Memory};

use crate::column::Column;
use crate::definition::Definition;
use csv::ByteRecord;
use std::alloc::Global;
use tre_state::Names;
use tre_trace::{TraceFault, TraceKind};

/// A name has no definition, or the header has no column for one, or there is an event.
pub(crate) const UNKNOWN: TraceFault = TraceFault {
    place: 1,
    kind: TraceKind::UnknownName,
};

/// No memory was found.
pub(crate) const NO_MEMORY: TraceFault = TraceFault {
    place: 0,
    kind: TraceKind::Memory,
};

/// The columns of the names, in their order.
pub(crate) fn columns_of(
    alloc: Global,
    definitions: &[Definition],
    header: &ByteRecord,
    names: &Names,
) -> Result<Vec<Column>, TraceFault>
    ensures found { IfOk result (λ columns.
        columns_of definitions.now (fields_of header.now) names.now ≡ Some columns.items) }
    ensures unknown { IfErr result (λ fault. fault.kind ≢ Memory →
        (columns_of definitions.now (fields_of header.now) names.now ≡ None)
        × (fault ≡ record { place = 1; kind = UnknownName })) }
    ensures placed { IfErr result IsPlaced }
    ensures never_spent { IfErr result (λ fault. fault.kind ≢ Spent) }
{
    let mut columns = Vec::new(alloc);
    for number in 0..names.len() as u8 {
        let Some(column) = column_at(definitions, header, names, number) else {
            return Err(UNKNOWN);
        };
        if columns.push(column).is_err() {
            return Err(NO_MEMORY);
        }
    }
    Ok(columns)
}

/// The column of the name of this number, if it is defined and the header has it.
pub(crate) fn column_at(
    definitions: &[Definition],
    header: &ByteRecord,
    names: &Names,
    number: u8,
) -> Option<Column>
    requires { number < length names.now }
    ensures { result ≡ compared_column definitions.now (fields_of header.now)
        (slice_index_or names.now number []) }
{
    match names.name(number) {
        Some(name) => column_for(definitions, header, name),
        None => None,
    }
}

// The column of a name, if it is defined and the header has it.
fn column_for(definitions: &[Definition], header: &ByteRecord, name: &str) -> Option<Column>
    ensures { result ≡ compared_column definitions.now (fields_of header.now) name.now }
{
    let definition = definition_of(definitions, name)?;
    let place = place_in(header, definition.column().as_bytes())?;
    Some(Column {
        place,
        comparison: definition.comparison(),
        value: definition.value(),
    })
}

// The definition of a name.
pub(crate) fn definition_of<'a>(definitions: &'a [Definition], name: &str) -> Option<&'a Definition>
    ensures { option_map (λ found. found.now) result ≡ definition_of definitions.now name.now }
{
    for definition in definitions {
        if definition.name() == name {
            return Some(definition);
        }
    }
    None
}

// The place of the first column of this name. The first field of the header names the durations.
fn place_in(header: &ByteRecord, name: &[u8]) -> Option<usize>
    ensures { result ≡ place_in (fields_of header.now) name.now }
{
    for place in 1..header.len() {
        if is_at(header, place, name) {
            return Some(place);
        }
    }
    None
}

// Whether the field at a place of the header is the name.
fn is_at(header: &ByteRecord, place: usize, name: &[u8]) -> bool
    requires { place < length (fields_of header.now) }
    ensures { result ≡ bytes_eq (slice_index_or (fields_of header.now) place []) name.now }
{
    match header.get(place) {
        Some(field) => field == name,
        None => false,
    }
}
