// Reading rows that lie in memory.
ghost use Rattle.std.specs.Prelude.{◌≡◌, ◌≢◌, ◌≤◌, ℕ, Some, None, true, IfOk, IfErr};
ghost use Rattle.tre_decimal.specs.declared.TheConstants.{SCALE_MAX};
ghost use Rattle.tre_num.specs.Needs.{terms_alone, terms_of};
ghost use Rattle.tre_num.specs.Rows.{rows_recording};
ghost use Rattle.tre_trace.specs.Reading.{IsPlaced, reading_for};
ghost use Rattle.tre_trace.specs.Trace.{quiet, IsTrace};
ghost use Rattle.tre_trace.specs.declared.fault.TraceKind.TheVariants.{Memory};

use crate::columns::NO_MEMORY;
use crate::definition::Definition;
use crate::needed::Needed;
use crate::table::Table;
use std::alloc::{AllocError, Global};
use std::rc::Rc;
use tre_state::Names;
use tre_trace::{Segment, Trace, TraceFault};

/// The trace of comma-separated rows, as a `ColumnsReader` reads them.
pub fn read_rows(
    alloc: Global,
    bytes: &[u8],
    definitions: Vec<Definition>,
    names: Names,
    events: Names,
    scale: u8,
) -> Result<Trace, TraceFault>
    requires { scale ≤ SCALE_MAX }
    ensures trace { IfOk result (λ trace.
        reading_for (record { names = names; events = events })
        (rows_recording (terms_alone definitions.items names events scale) true bytes.now)
        ≡ record { segments = trace.segments; last = trace.last; fault = None }) }
    ensures fault { IfErr result (λ fault. fault.kind ≢ Memory →
        (rows_recording (terms_alone definitions.items names events scale) true bytes.now).fault
        ≡ Some fault) }
    ensures placed { IfErr result IsPlaced }
{
    let Ok(needed) = needed_alone(alloc, definitions, &names, &events) else {
        return Err(NO_MEMORY);
    };
    let table = Table::new(needed, names, events, scale);
    trace_by(alloc, bytes, &table)
}

// What is needed where one alone reads, for these names.
fn needed_alone(
    alloc: Global,
    definitions: Vec<Definition>,
    names: &Names,
    events: &Names,
) -> Result<Rc<Needed>, AllocError>
    ensures { IfOk result (λ needed. (scale : ℕ) →
        terms_of needed.value scale ≡ terms_alone definitions.items names.now events.now scale) }
{
    let mut needed = Needed::new(alloc, definitions);
    let Ok(()) = needed.add(names, events) else {
        drop(needed);
        return Err(AllocError);
    };
    match Rc::new(alloc, needed) {
        Ok(needed) => Ok(needed),
        Err(_) => Err(AllocError),
    }
}

// The trace of the rows, by a table.
fn trace_by(alloc: Global, bytes: &[u8], table: &Table) -> Result<Trace, TraceFault>
    ensures trace { IfOk result (λ trace.
        reading_for table.now.names (rows_recording table.now.terms true bytes.now)
        ≡ record { segments = trace.segments; last = trace.last; fault = None }) }
    ensures fault { IfErr result (λ fault. fault.kind ≢ Memory →
        (rows_recording table.now.terms true bytes.now).fault ≡ Some fault) }
    ensures placed { IfErr result IsPlaced }
{
    let mut segments = Vec::new(alloc);
    table.read(alloc, bytes, &mut segments)?;
    trace_of(alloc, segments)
}

// The trace of segments that are one.
fn trace_of(alloc: Global, segments: Vec<Segment>) -> Result<Trace, TraceFault>
    requires { IsTrace segments.items }
    ensures trace { IfOk result (λ trace. trace ≡ quiet segments.items) }
    ensures fault { IfErr result (λ fault. fault.kind ≡ Memory) }
    ensures placed { IfErr result IsPlaced }
{
    match Trace::of_segments(alloc, segments) {
        Ok(trace) => Ok(trace),
        Err(_) => Err(NO_MEMORY),
    }
}
