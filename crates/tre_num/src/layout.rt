// How the rows under a header are read.
ghost use Rattle.std.specs.Prelude.{◌≡◌, ◌≢◌, ◌≤◌, Some, None, length, map, flat_map, IfErr, IfOk};
ghost use Rattle.std.specs.List.{list_any};
ghost use Rattle.csv.specs.Records.{fields_of};
ghost use Rattle.tre_decimal.specs.declared.TheConstants.{SCALE_MAX};
ghost use Rattle.tre_num.specs.Needs.{declared_of, definitions_of};
ghost use Rattle.tre_num.specs.Rows.{columns_of, compared, compared_column};
ghost use Rattle.tre_num.specs.Told.{IsUnder, TableTerms, others_of, stands_at};
ghost use Rattle.tre_state.specs.declared.names.TheConstants.{NAMES_MAX};
ghost use Rattle.tre_trace.specs.Reading.{IsPlaced};
ghost use Rattle.tre_trace.specs.declared.fault.TraceKind.TheVariants.{Memory, Spent, UnknownName};

use crate::column::{Column, Layout};
use crate::columns::{NO_MEMORY, column_at, columns_of};
use crate::definition::Definition;
use crate::needed::Needed;
use csv::ByteRecord;
use std::alloc::{AllocError, Global};
use tre_state::Names;
use tre_trace::TraceFault;

/// How rows under this header are read for these names, where all who read have these columns.
pub(crate) fn layout_of(
    alloc: Global,
    definitions: &[Definition],
    header: &ByteRecord,
    names: &Names,
    all: Vec<Column>,
    scale: u8,
) -> Result<Layout, TraceFault>
    requires { scale ≤ SCALE_MAX }
    ensures lies { IfOk result (λ layout. (by : TableTerms) →
        by.terms.definitions ≡ definitions.now → by.terms.scale ≡ scale →
        by.names.names ≡ names.now →
        compared by.terms (fields_of header.now) ≡ Some all.items →
        IsUnder by (fields_of header.now) layout) }
    ensures memory { IfErr result (λ fault. fault ≡ record { place = 0; kind = Memory }) }
{
    let Ok(own) = own_columns(alloc, definitions, header, names) else {
        drop(all);
        return Err(NO_MEMORY);
    };
    let Ok(others) = others_of(alloc, &own, &all) else {
        drop(own);
        drop(all);
        return Err(NO_MEMORY);
    };
    Ok(Layout {
        own,
        all,
        others,
        width: header.len(),
        scale,
    })
}

/// The columns of all who read, in their order.
pub(crate) fn all_columns(
    alloc: Global,
    needed: &Needed,
    header: &ByteRecord,
) -> Result<Vec<Column>, TraceFault>
    ensures found { IfOk result (λ columns.
        columns_of (definitions_of needed.now) (fields_of header.now)
        (flat_map (λ asked. asked.names) (declared_of needed.now)) ≡ Some columns.items) }
    ensures unknown { IfErr result (λ fault. fault.kind ≢ Memory →
        (columns_of (definitions_of needed.now) (fields_of header.now)
        (flat_map (λ asked. asked.names) (declared_of needed.now)) ≡ None)
        × (fault ≡ record { place = 1; kind = UnknownName })) }
    ensures placed { IfErr result IsPlaced }
    ensures never_spent { IfErr result (λ fault. fault.kind ≢ Spent) }
{
    let mut all = Vec::new(alloc);
    for asked in &needed.declared {
        let columns = columns_of(alloc, &needed.definitions, header, &asked.names)?;
        if all.extend_from_slice(&columns).is_err() {
            return Err(NO_MEMORY);
        }
    }
    Ok(all)
}

/// For each name its column, if it has one.
pub(crate) fn own_columns(
    alloc: Global,
    definitions: &[Definition],
    header: &ByteRecord,
    names: &Names,
) -> Result<Vec<Option<Column>>, AllocError>
    ensures are { IfOk result (λ own.
        own.items ≡ map (compared_column definitions.now (fields_of header.now)) names.now) }
    ensures few { IfOk result (λ own. length own.items ≤ NAMES_MAX) }
{
    let mut own = Vec::new(alloc);
    for number in 0..names.len() as u8 {
        own.push(column_at(definitions, header, names, number))?;
    }
    Ok(own)
}

/// Those of all columns at whose places none of its own stands.
pub(crate) fn others_of(
    alloc: Global,
    own: &[Option<Column>],
    all: &[Column],
) -> Result<Vec<Column>, AllocError>
    ensures { IfOk result (λ others. others.items ≡ others_of own.now all.now) }
{
    let mut others = Vec::new(alloc);
    for column in all {
        if !stands_among(own, column.place) {
            others.push(*column)?;
        }
    }
    Ok(others)
}

// Whether one of the columns stands at the place.
fn stands_among(columns: &[Option<Column>], place: usize) -> bool
    ensures { result ≡ list_any (stands_at place) columns.now }
{
    for column in columns {
        if stands_at(column, place) {
            return true;
        }
    }
    false
}

// Whether it is a column, and stands at the place.
fn stands_at(column: &Option<Column>, place: usize) -> bool
    ensures { result ≡ stands_at place column.now }
{
    match column {
        Some(column) => column.place == place,
        None => false,
    }
}
