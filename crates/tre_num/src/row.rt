// What one row says.
ghost use Rattle.std.specs.Prelude.{◌≡◌, ◌≢◌, ◌+◌, ◌≤◌, length, if◌then◌else◌, slice_get, IfErr, IfOk};
ghost use Rattle.std.specs.List.{list_all};
ghost use Rattle.std.specs.Option.{is_some, option_map};
ghost use Rattle.tre_trace.specs.declared.fault.TraceKind.TheVariants.{Memory, Spent};
ghost use Rattle.csv.specs.Records.{fields_of};
ghost use Rattle.tre_decimal.specs.declared.TheConstants.{SCALE_MAX};
ghost use Rattle.tre_pairs.specs.declared.TheConstants.{TIME_MAX};
ghost use Rattle.tre_state.specs.declared.names.TheConstants.{NAMES_MAX};
ghost use Rattle.tre_num.specs.Durations.{duration_says};
ghost use Rattle.tre_num.specs.Rows.{are_whole, told_by};
ghost use Rattle.tre_num.specs.Told.{holds_in, is_whole_in, row_gives, valuation_in, valuation_of};

use crate::column::{Column, Layout};
use crate::whole::read_whole;
use csv::ByteRecord;
use tre_decimal::read_units;
use tre_pairs::TIME_MAX;
use tre_trace::{Segment, TraceKind};

/// What a row says behind a trace that ends at `end`.
pub(crate) fn read_row(layout: &Layout, end: u64, row: &ByteRecord) -> Result<Segment, TraceKind>
    requires in_time { end ≤ TIME_MAX }
    ensures gives { result ≡ row_gives layout.now end (fields_of row.now) }
    ensures fits { IfOk result (λ segment. (1 ≤ segment.len) × (end + segment.len ≤ TIME_MAX)) }
    ensures kinds { IfErr result (λ kind. (kind ≢ Memory) × (kind ≢ Spent)) }
{
    if row.len() < layout.width {
        return Err(TraceKind::CutShort);
    }
    let len = match read_duration(layout.scale, end, row) {
        Ok(len) => len,
        Err(kind) => return Err(kind),
    };
    match valuation_in(layout, row) {
        Some(val) => Ok(Segment::plain(len, val)),
        None => Err(TraceKind::BadNumber),
    }
}

// How long the segment of a row lasts.
fn read_duration(scale: u8, end: u64, row: &ByteRecord) -> Result<u64, TraceKind>
    requires scale { scale ≤ SCALE_MAX }
    requires in_time { end ≤ TIME_MAX }
    ensures says { result ≡ duration_says scale end (fields_of row.now) }
    ensures fits { IfOk result (λ len. (1 ≤ len) × (end + len ≤ TIME_MAX)) }
    ensures kinds { IfErr result (λ kind. (kind ≢ Memory) × (kind ≢ Spent)) }
{
    let Some(field) = field_of(row, 0) else {
        return Err(TraceKind::BadNumber);
    };
    let Some(len) = read_units(field, scale) else {
        return Err(TraceKind::BadNumber);
    };
    if len == 0 {
        return Err(TraceKind::Zero);
    }
    if len > TIME_MAX - end {
        return Err(TraceKind::TooLate);
    }
    Ok(len)
}

// The valuation of a row. None where a column that somebody reads has no whole number.
#[inline(always)]
fn valuation_in(layout: &Layout, row: &ByteRecord) -> Option<u64>
    ensures { result ≡ valuation_in layout.now (fields_of row.now) }
{
    let told = told_in(&layout.own, row);
    // What was read for its own names need not be read again.
    let judged = if told.are_whole {
        &layout.others
    } else {
        &layout.all
    };
    if !are_whole(judged, row) {
        return None;
    }
    Some(told.valuation)
}

// Whether each of the columns has a whole number in a row.
#[inline(always)]
fn are_whole(columns: &[Column], row: &ByteRecord) -> bool
    ensures { result ≡ are_whole columns.now (fields_of row.now) }
{
    for column in columns {
        if !has_number(column, row) {
            return false;
        }
    }
    true
}

// Whether a column has a whole number in a row.
fn has_number(column: &Column, row: &ByteRecord) -> bool
    ensures { result ≡ is_some (told_by column.now (fields_of row.now)) }
{
    match field_of(row, column.place) {
        Some(field) => read_whole(field).is_some(),
        None => false,
    }
}

// What a row says of some names, of which bit i is the i-th, and whether all their columns have a
// whole number.
#[derive(Clone, Copy)]
struct Told {
    valuation: u64,
    are_whole: bool,
}

// What a row says of the names with these columns.
#[inline(always)]
fn told_in(columns: &[Option<Column>], row: &ByteRecord) -> Told
    requires few { length columns.now ≤ NAMES_MAX }
    ensures valuation { result.valuation ≡ valuation_of columns.now (fields_of row.now) }
    ensures whole { result.are_whole ≡ list_all (is_whole_in (fields_of row.now)) columns.now }
{
    let mut valuation = 0;
    let mut are_whole = true;
    let mut left = columns.len();
    while left > 0 {
        left -= 1;
        let one = told_of(&columns[left], row);
        valuation = 2 * valuation + one.valuation;
        are_whole = one.are_whole && are_whole;
    }
    Told {
        valuation,
        are_whole,
    }
}

// What a row says of the name with this column, if it has one.
#[inline(always)]
fn told_of(column: &Option<Column>, row: &ByteRecord) -> Told
    ensures valuation { result.valuation
        ≡ (if holds_in (fields_of row.now) column.now then 1 else 0) }
    ensures whole { result.are_whole ≡ is_whole_in (fields_of row.now) column.now }
    ensures bit { result.valuation ≤ 1 }
{
    let Some(column) = column else {
        return Told {
            valuation: 0,
            are_whole: true,
        };
    };
    match told_by(column, row) {
        Some(told) => Told {
            valuation: u64::from(told),
            are_whole: true,
        },
        None => Told {
            valuation: 0,
            are_whole: false,
        },
    }
}

// Whether the comparison of a column holds of a row.
#[inline(always)]
fn told_by(column: &Column, row: &ByteRecord) -> Option<bool>
    ensures { result ≡ told_by column.now (fields_of row.now) }
{
    let number = read_whole(field_of(row, column.place)?)?;
    Some(
        column
            .comparison
            .holds(i128::from(number), i128::from(column.value)),
    )
}

// The field at a place of a row.
fn field_of(row: &ByteRecord, place: usize) -> Option<&[u8]>
    ensures { option_map (λ field. field.now) result ≡ slice_get (fields_of row.now) place }
{
    row.get(place)
}
