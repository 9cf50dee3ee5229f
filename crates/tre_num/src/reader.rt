// A reader of pieces of a table.
ghost use Rattle.std.specs.Prelude.{◌≡◌, ◌≤◌, [], refl};
ghost use Rattle.tre_decimal.specs.declared.TheConstants.{SCALE_MAX};
ghost use Rattle.tre_num.specs.Kept.{HasKept};
ghost use Rattle.tre_num.specs.Times.{rows-grow, rows-are_trace, rows-start};
ghost use Rattle.tre_num.specs.Needs.{terms_of};
ghost use Rattle.tre_num.specs.Rows.{ColumnTerms, rows_recording};

use crate::columns::NO_MEMORY;
use crate::kept_bytes::KeptBytes;
use crate::needed::Needed;
use crate::table::Table;
use std::alloc::Global;
use std::mem;
use std::rc::Rc;
use tre_state::Names;
use tre_trace::{Segment, TraceFault, TraceKind, TraceReader};

/// Reads comma-separated rows that come in pieces. It keeps all bytes, and says what they say when
/// the input is closed.
///
/// Bit i of a segment's valuation says whether the comparison of the i-th name holds of the row. A
/// duration is a decimal, in units of the scale.
///
/// All who read a table find the same first fault, whichever their names are: the names are judged
/// that any of them reads. The place of a fault is the number of its record, from 1. `UnknownName`
/// at 1 comes first: a name has no definition, or the header no column for one, or there is an
/// event. Then of each row `CutShort`, where it has fewer fields than the header, `BadNumber`,
/// `Zero` and `TooLate` of its duration, and `BadNumber` of a field that isn't a whole number where
/// a name reads one. Fields that no name reads, and those past the header's, may be anything.
#[derive(Drop)]
pub struct ColumnsReader {
    alloc: Global,
    table: Table,
    kept: KeptBytes,
    fed: u64,
    is_spent: bool,
}

impl ColumnsReader {
    /// Nothing is fed.
    pub fn new(
        alloc: Global,
        needed: Rc<Needed>,
        names: Names,
        events: Names,
        scale: u8,
    ) -> ColumnsReader
        requires { scale ≤ SCALE_MAX }
        ensures fed { ⟦<ColumnsReader as TraceReader>⟧.represents result [] }
        ensures begins { ⟦<ColumnsReader as TraceReader>⟧.fed_of result ≡ 0 }
        ensures terms { ⟦<ColumnsReader as TraceReader>⟧.terms result
            ≡ terms_of needed.value scale }
        ensures names { ⟦<ColumnsReader as TraceReader>⟧.names result
            ≡ record { names = names; events = events } }
    {
        let table = Table::new(needed, names, events, scale);
        ColumnsReader {
            alloc,
            table,
            kept: KeptBytes::new(alloc),
            fed: 0,
            is_spent: false,
        }
    }
}

impl TraceReader for ColumnsReader {
    ghost Terms = { ColumnTerms };

    ghost terms = { λ reader. reader.table.terms };

    ghost recording = { rows_recording };

    ghost names = { λ reader. reader.table.names };

    ghost represents = { λ reader bytes.
        HasKept reader.kept reader.fed reader.is_spent bytes };

    ghost fed_of = { λ reader. reader.fed };

    ghost is_spent = { λ reader. reader.is_spent };

    ghost counts = { λ reader bytes kept. (kept.counts, kept.goes_on) };

    ghost faultless = { λ reader bytes kept. refl };

    ghost starts = { rows-start };

    ghost grows = { rows-grow };

    ghost is_trace = { rows-are_trace };

    fn feed(&mut self, piece: &[u8], _segments: &mut Vec<Segment>) -> Result<(), TraceFault> {
        if self.is_spent {
            return Err(spent());
        }
        if self.kept.push(self.alloc, piece).is_err() {
            self.is_spent = true;
            return Err(NO_MEMORY);
        }
        self.fed += piece.len() as u64;
        Ok(())
    }

    fn finish(&mut self, segments: &mut Vec<Segment>) -> Result<u64, TraceFault> {
        if self.is_spent {
            return Err(spent());
        }
        self.is_spent = true;
        let kept = mem::replace(&mut self.kept, KeptBytes::new(self.alloc));
        self.table.read(self.alloc, kept, segments)?;
        Ok(0)
    }

    fn fed(&self) -> u64 {
        self.fed
    }
}

// The answer of a reader that was refused or finished before.
fn spent() -> TraceFault
    ensures { result ≡ record { place = 0; kind = TraceKind.Spent } }
{
    let kind = TraceKind::Spent;
    TraceFault { place: 0, kind }
}
