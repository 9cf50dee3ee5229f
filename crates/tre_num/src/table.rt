// Reading a table: a header, and rows behind it.
ghost use Rattle.std.specs.Prelude.{◌≡◌, ◌≢◌, ◌≤◌, ℕ, List, [], Some, None, true, false, IfErr, IfOk, OnOk};
ghost use Rattle.csv.specs.Records.{fields_of};
ghost use Rattle.tre_decimal.specs.declared.TheConstants.{SCALE_MAX};
ghost use Rattle.tre_num.specs.Left.{IsLeft, IsNextRecord};
ghost use Rattle.tre_num.specs.Needs.{terms_of};
ghost use Rattle.tre_num.specs.Records.{records_of};
ghost use Rattle.tre_num.specs.Rows.{compared, rows_recording, table_says};
ghost use Rattle.tre_num.specs.Told.{IsUnder, TableTerms, rows_under};
ghost use Rattle.tre_parts.specs.Format.{nothing};
ghost use Rattle.tre_trace.specs.Reading.{Adds, IsPlaced, IsRefused};
ghost use Rattle.tre_trace.specs.declared.fault.TraceKind.TheVariants.{Memory, Spent, UnknownName};

use crate::column::Layout;
use crate::columns::{NO_MEMORY, UNKNOWN};
use crate::layout::{all_columns, layout_of};
use crate::needed::Needed;
use crate::row::read_row;
use csv::{ByteRecord, Reader, ReaderBuilder};
use std::alloc::Global;
use std::io::Read;
use std::marker::Model;
use std::rc::Rc;
use tre_state::Names;
use tre_trace::{Segment, TraceFault};

/// What a table is read by, and for which names.
#[derive(Drop)]
pub(crate) struct Table {
    needed: Rc<Needed>,
    names: Names,
    events: Names,
    scale: u8,
}

impl Model for Table {
    ghost use Rattle.std.specs.Prelude.{◌≤◌};
    ghost use Rattle.tre_decimal.specs.declared.TheConstants.{SCALE_MAX};
    ghost use Rattle.tre_num.specs.Needs.{terms_of};
    ghost use Rattle.tre_num.specs.Told.{TableTerms};

    ghost Value = { TableTerms };

    ghost view = { λ t. record {
      terms = terms_of t.needed.value t.scale;
      names = record { names = t.names; events = t.events };
    } };

    ghost invariant = { λ t. t.scale ≤ SCALE_MAX };
}

impl Table {
    /// A table of which these names are read, among all who share what is needed.
    pub(crate) fn new(needed: Rc<Needed>, names: Names, events: Names, scale: u8) -> Table
        requires { scale ≤ SCALE_MAX }
        ensures { result ≡ record {
          terms = terms_of needed.value scale;
          names = record { names = names; events = events };
        } }
    {
        Table {
            needed,
            names,
            events,
            scale,
        }
    }

    /// Reads the rows of a source, and puts their segments behind the others.
    pub(crate) fn read<R: Read + Drop>(
        &self,
        alloc: Global,
        source: R,
        segments: &mut Vec<Segment>,
    ) -> Result<(), TraceFault>
        ensures whole { (bytes : List ℕ) → R.remaining source ≡ Some bytes →
            OnOk result ((rows_recording self.now.terms true bytes).fault ≡ None) }
        ensures adds { (bytes : List ℕ) → R.remaining source ≡ Some bytes →
            OnOk result (Adds self.now.names segments.old.items segments.new.items nothing
            (rows_recording self.now.terms true bytes)) }
        ensures refused { (bytes : List ℕ) → R.remaining source ≡ Some bytes →
            IfErr result (IsRefused self.now.names segments.old.items segments.new.items
            nothing (rows_recording self.now.terms true bytes)) }
        ensures placed { IfErr result IsPlaced }
        ensures never_spent { IfErr result (λ fault. fault.kind ≢ Spent) }
    {
        let mut rows = records_of(alloc, source);
        let mut row = ByteRecord::new(alloc);
        self.read_left(alloc, &mut rows, &mut row, segments)
    }

    // Reads the records that are left, one after the other: a header, and rows behind it.
    fn read_left<R: Read + Drop>(
        &self,
        alloc: Global,
        rows: &mut Reader<R>,
        row: &mut ByteRecord,
        segments: &mut Vec<Segment>,
    ) -> Result<(), TraceFault>
        ensures whole { (left : List (List (List ℕ))) → IsLeft R.remaining rows.old left →
            OnOk result ((table_says self.now.terms left).fault ≡ None) }
        ensures adds { (left : List (List (List ℕ))) → IsLeft R.remaining rows.old left →
            OnOk result (Adds self.now.names segments.old.items segments.new.items nothing
            (table_says self.now.terms left)) }
        ensures refused { (left : List (List (List ℕ))) → IsLeft R.remaining rows.old left →
            IfErr result (IsRefused self.now.names segments.old.items segments.new.items
            nothing (table_says self.now.terms left)) }
        ensures placed { IfErr result IsPlaced }
        ensures never_spent { IfErr result (λ fault. fault.kind ≢ Spent) }
    {
        let found = next_row(rows, row)?;
        let layout = self.layout_under(alloc, row)?;
        if !found {
            return Ok(());
        }
        read_behind(rows, row, &layout, segments)
    }

    // How rows are read under this header.
    fn layout_under(&self, alloc: Global, header: &ByteRecord) -> Result<Layout, TraceFault>
        ensures under { IfOk result (IsUnder self.now (fields_of header.now)) }
        ensures unknown { IfErr result (λ fault. fault.kind ≢ Memory →
            (compared self.now.terms (fields_of header.now) ≡ None)
            × (fault ≡ record { place = 1; kind = UnknownName })) }
        ensures placed { IfErr result IsPlaced }
        ensures never_spent { IfErr result (λ fault. fault.kind ≢ Spent) }
    {
        if self.needed.has_events() {
            return Err(UNKNOWN);
        }
        let all = all_columns(alloc, &self.needed, header)?;
        layout_of(
            alloc,
            &self.needed.definitions,
            header,
            &self.names,
            all,
            self.scale,
        )
    }
}

// The records of a source: no header among them, and of any lengths.
fn records_of<R: Read + Drop>(alloc: Global, source: R) -> Reader<R>
    ensures { (bytes : List ℕ) → R.remaining source ≡ Some bytes →
        IsLeft R.remaining result (records_of bytes) }
{
    ReaderBuilder::new()
        .has_headers(false)
        .flexible(true)
        .from_reader(alloc, source)
}

// Reads the next record, if there is one. Where there is none, the row has no fields.
fn next_row<R: Read + Drop>(rows: &mut Reader<R>, row: &mut ByteRecord) -> Result<bool, TraceFault>
    ensures next { (left : List (List (List ℕ))) → IsLeft R.remaining rows.old left →
        IfOk result (λ found. IsNextRecord R.remaining found (fields_of row.new) rows.new left) }
    ensures none { IfOk result (λ found. found ≡ false → fields_of row.new ≡ []) }
    ensures fault { IfErr result (λ fault. fault ≡ record { place = 0; kind = Memory }) }
{
    let Ok(found) = rows.read_byte_record(row) else {
        return Err(NO_MEMORY);
    };
    if found {
        return Ok(true);
    }
    row.clear();
    Ok(false)
}

// Reads the rows behind a header, and puts their segments behind the others.
fn read_behind<R: Read + Drop>(
    rows: &mut Reader<R>,
    row: &mut ByteRecord,
    layout: &Layout,
    segments: &mut Vec<Segment>,
) -> Result<(), TraceFault>
    ensures whole { (by : TableTerms) (header : List (List ℕ)) (left : List (List (List ℕ))) →
        IsUnder by header layout.now → IsLeft R.remaining rows.old left →
        OnOk result ((rows_under by header layout.now left).fault ≡ None) }
    ensures adds { (by : TableTerms) (header : List (List ℕ)) (left : List (List (List ℕ))) →
        IsUnder by header layout.now → IsLeft R.remaining rows.old left →
        OnOk result (Adds by.names segments.old.items segments.new.items nothing
        (rows_under by header layout.now left)) }
    ensures refused { (by : TableTerms) (header : List (List ℕ)) (left : List (List (List ℕ))) →
        IsUnder by header layout.now → IsLeft R.remaining rows.old left →
        IfErr result (IsRefused by.names segments.old.items segments.new.items nothing
        (rows_under by header layout.now left)) }
    ensures placed { IfErr result IsPlaced }
    ensures never_spent { IfErr result (λ fault. fault.kind ≢ Spent) }
{
    let before = segments.len();
    let mut end = 0;
    // No input has so many rows.
    for _ in 0..u64::MAX {
        let found = next_row(rows, row)?;
        if !found {
            return Ok(());
        }
        let segment = match read_row(layout, end, row) {
            Ok(segment) => segment,
            Err(kind) => {
                let place = (segments.len() - before) as u64 + 2;
                return Err(TraceFault { place, kind });
            }
        };
        if segments.push(segment).is_err() {
            return Err(NO_MEMORY);
        }
        end += segment.len;
    }
    Err(NO_MEMORY)
}
