// Tests of tre_num: rows that lie in memory, and a reader that is finished.
use crate::feeding::feed;
use std::alloc::{AllocError, Global};
use std::rc::Rc;
use std::test::Fail;
use tests_support::names_of;
use tre_decimal::SCALE_MAX;
use tre_define::Comparison::Less;
use tre_num::{ColumnsReader, Definition, Needed, read_definitions, read_rows};
use tre_state::Names;
use tre_trace::TraceKind::{BadNumber, CutShort, Spent, TooLate, Zero};
use tre_trace::{Segment, Trace, TraceFault, TraceKind, TraceReader};

// What the names mean: of two definitions of a name the first counts.
const DEFINED: &str = "hot = temp >= 80; low = level < 5; full = level > 9; \
    least = temp <= -9223372036854775808; gone = none < 0";

// What rows say: segments, each as its length and its valuation, or a fault with its record.
type Said = Result<&'static [(u64, u64)], (TraceKind, u64)>;

// The names of propositions, a scale, rows, and what they say.
const ROWS: [(&str, u8, &str, Said); 14] = [
    (
        "hot",
        0,
        "dt,temp\n2,79\n3,\"80\"\n1,-5\n",
        Ok(&[(2, 0), (3, 1), (1, 0)]),
    ),
    ("", 0, "", Ok(&[])),
    ("hot", 0, "dt,temp\n1,80\n0,x", Err((Zero, 3))),
    (
        "hot",
        0,
        "dt,temp\n1099511627776,80\n1,x",
        Err((TooLate, 3)),
    ),
    ("hot", 0, "\u{feff}dt,temp\n1,80", Ok(&[(1, 1)])),
    (
        "hot",
        0,
        "dt,temp\r\n1,80\r\n\r\n\n1,7\r1,80",
        Ok(&[(1, 1), (1, 0), (1, 1)]),
    ),
    ("hot", 0, "dt,temp\n1,80\n\n\n1", Err((CutShort, 3))),
    ("hot", 0, "dt,note,temp\n1,\"a,b\nc\",80", Ok(&[(1, 1)])),
    (
        "full low hot",
        0,
        "dt,temp,level\n1,80,10\n1,79,4\n1,80,4\n1,0,7",
        Ok(&[(1, 5), (1, 2), (1, 6), (1, 0)]),
    ),
    (
        "low",
        0,
        "dt,temp,level\n1,x,4\n1,,9",
        Ok(&[(1, 1), (1, 0)]),
    ),
    ("hot", 1, "dt,temp\n0.5,80\n1.20,1", Ok(&[(5, 1), (12, 0)])),
    ("hot", 1, "dt,temp\n0.5,80\n1.25,1", Err((BadNumber, 3))),
    ("hot", 0, "dt,temp\n\"1,80", Err((CutShort, 2))),
    ("", 0, "dt\n1\n2,x\n3", Ok(&[(1, 0), (2, 0), (3, 0)])),
];

fn are(segments: &[Segment], lengths: &[(u64, u64)]) -> bool {
    segments.len() == lengths.len()
        && segments.iter().zip(lengths).all(|(segment, (len, val))| *segment
            == Segment::plain(*len, *val))
}

fn is_said(answer: &Result<Trace, TraceFault>, said: &Said) -> bool {
    match answer {
        Ok(trace) => match said {
            Ok(lengths) => are(trace.segments(), *lengths),
            Err(_) => false,
        },
        Err(fault) => *said == Err((fault.kind, fault.place)),
    }
}

// A second definition of a name, which says something else.
fn second_of_hot(alloc: Global) -> Result<Definition, AllocError> {
    let name = String::from_str(alloc, "hot")?;
    let column = String::from_str(alloc, "level")?;
    Ok(Definition::new(name, column, Less, 0))
}

fn definitions(alloc: Global) -> Result<Vec<Definition>, Fail> {
    let mut definitions = read_definitions(alloc, DEFINED)?;
    definitions.push(second_of_hot(alloc)?)?;
    Ok(definitions)
}

// The trace of the rows, or their fault.
fn read_all(
    alloc: Global,
    names: &str,
    scale: u8,
    rows: &[u8],
) -> Result<Result<Trace, TraceFault>, Fail> {
    let names = names_of(alloc, names)?;
    let definitions = definitions(alloc)?;
    let scale = scale.min(SCALE_MAX);
    Ok(read_rows(alloc, rows, definitions, names, Names::new(alloc), scale))
}

fn are_read(alloc: Global, names: &str, scale: u8, rows: &str, said: &Said) -> Result<bool, Fail> {
    Ok(is_said(&read_all(alloc, names, scale, rows.as_bytes())?, said))
}

#[test]
fn rows_in_memory_are_read(rt: HostRuntime) -> Result<(), Fail> {
    for (names, scale, rows, said) in &ROWS {
        assert!(rt;
            are_read(rt.alloc(), *names, *scale, *rows, said)?,
            "{rows}"
        );
    }
    Ok(())
}

// So many rows of one tick, and one of two.
fn many_rows(alloc: Global) -> Result<Vec<u8>, AllocError> {
    let mut rows = Vec::new(alloc);
    rows.extend_from_slice(b"dt,temp\n")?;
    for _ in 0..300_000 {
        rows.extend_from_slice(b"1,80\n")?;
    }
    rows.extend_from_slice(b"2,79\n")?;
    Ok(rows)
}

fn has_size(answer: &Result<Trace, TraceFault>, count: usize, end: u64) -> bool {
    match answer {
        Ok(trace) => trace.segments().len() == count && trace.end() == end,
        Err(_) => false,
    }
}

fn are_many_read(alloc: Global) -> Result<bool, Fail> {
    let rows = many_rows(alloc)?;
    Ok(has_size(&read_all(alloc, "hot", 0, &rows)?, 300_001, 300_002))
}

#[test]
fn many_rows_are_read(rt: HostRuntime) -> Result<(), Fail> {
    assert!(rt; are_many_read(rt.alloc())?);
    Ok(())
}

// Whether the reader takes no more bytes once it is finished.
fn is_spent_then(reader: &mut ColumnsReader, segments: &mut Vec<Segment>) -> bool {
    let spent = TraceFault {
        place: 0,
        kind: Spent,
    };
    feed(reader, b"dt,temp\n1,80", segments) == Ok(())
        && segments.is_empty()
        && reader.finish(segments) == Ok(0)
        && feed(reader, b"", segments) == Err(spent)
        && reader.finish(segments) == Err(spent)
        && segments.len() == 1
        && reader.fed() == 12
}

fn is_spent(alloc: Global) -> Result<bool, Fail> {
    let names = names_of(alloc, "hot")?;
    let definitions = definitions(alloc)?;
    let mut needed = Needed::new(alloc, definitions);
    needed.add(&names, &Names::new(alloc))?;
    let needed = Rc::new(alloc, needed)?;
    let mut reader = ColumnsReader::new(alloc, needed, names, Names::new(alloc), 0);
    Ok(is_spent_then(&mut reader, &mut Vec::new(alloc)))
}

#[test]
fn reader_is_spent_once_it_is_finished(rt: HostRuntime) -> Result<(), Fail> {
    assert!(rt; is_spent(rt.alloc())?);
    Ok(())
}
