// Tests of tre_text.
use crate::feeding::feed;
use std::alloc::{AllocError, Global};
use std::test::Fail;
use tests_support::names_of;
use tre_text::{LineReader, TextReader};
use tre_trace::TraceKind::{LineTooLong, Spent, Zero};
use tre_trace::{Segment, TraceFault, TraceKind, TraceReader};

fn reader(alloc: Global, names: &str, events: &str) -> Result<TextReader, Fail> {
    let lines = LineReader::new(names_of(alloc, names)?, names_of(alloc, events)?, 0);
    Ok(TextReader::new(alloc, lines))
}

fn fault<T>(place: u64, kind: TraceKind) -> Result<T, TraceFault> {
    Err(TraceFault { place, kind })
}

// Whether each segment comes with the end of its line, or that of the bytes.
fn come_with_line_ends(reader: &mut TextReader, segments: &mut Vec<Segment>) -> bool {
    let both = [Segment::plain(2, 1), Segment::plain(3, 0)];
    feed(reader, b"2 p", segments) == Ok(())
        && segments.is_empty()
        && feed(reader, b"\n3", segments) == Ok(())
        && segments.as_slice() == &both[..1]
        && reader.finish(segments) == Ok(0)
        && segments.as_slice() == both.as_slice()
}

// Whether the reader takes no more bytes once it is finished.
fn is_spent_then(reader: &mut TextReader, segments: &mut Vec<Segment>) -> bool {
    feed(reader, b"2 p\n3", segments) == Ok(())
        && reader.finish(segments) == Ok(0)
        && feed(reader, b"1\n", segments) == fault(0, Spent)
        && reader.finish(segments) == fault(0, Spent)
        && segments.len() == 2
        && reader.fed() == 5
}

const SPACES: [u8; 256] = [b' '; 256];

// Whether 65,536 bytes of a line are read, and no more.
fn refuses_more(reader: &mut TextReader, segments: &mut Vec<Segment>) -> bool {
    (0..256u32).all(|_| feed(reader, &SPACES, segments) == Ok(()))
        && feed(reader, b" ", segments) == fault(1, LineTooLong)
        && feed(reader, b"\n", segments) == fault(0, Spent)
        && segments.is_empty()
}

// What is tried of a new reader.
#[derive(Clone, Copy)]
enum Trial {
    LineEnds,
    Finished,
    LongLine,
}

fn is_as_tried(reader: &mut TextReader, trial: Trial, segments: &mut Vec<Segment>) -> bool {
    match trial {
        Trial::LineEnds => come_with_line_ends(reader, segments),
        Trial::Finished => is_spent_then(reader, segments),
        Trial::LongLine => refuses_more(reader, segments),
    }
}

fn holds(alloc: Global, trial: Trial) -> Result<bool, Fail> {
    let mut reader = reader(alloc, "p", "")?;
    Ok(is_as_tried(&mut reader, trial, &mut Vec::new(alloc)))
}

const TRIALS: [(&str, Trial); 3] = [
    ("segments come with their line ends", Trial::LineEnds),
    ("a finished reader is spent", Trial::Finished),
    ("a line may have no more bytes", Trial::LongLine),
];

#[test]
fn readers_do_as_they_should(rt: HostRuntime) -> Result<(), Fail> {
    for (name, trial) in &TRIALS {
        assert!(rt; holds(rt.alloc(), *trial)?, "{name}");
    }
    Ok(())
}

// Lines of one tick, on every other of which `p` is true, and behind them one of none.
fn many_lines(alloc: Global) -> Result<Vec<u8>, AllocError> {
    let mut lines = Vec::new(alloc);
    for _ in 0..20_000 {
        lines.extend_from_slice(b"1 p\n1\n")?;
    }
    lines.extend_from_slice(b"0\n1\n")?;
    Ok(lines)
}

// Whether all of them are read up to the fault.
fn reads_to_fault(reader: &mut TextReader, lines: &[u8], segments: &mut Vec<Segment>) -> bool {
    let both = [Segment::plain(1, 1), Segment::plain(1, 0)];
    feed(reader, lines, segments) == fault(40_001, Zero)
        && segments.len() == 40_000
        && segments.chunks(2).all(|two| two == both.as_slice())
}

fn are_read(alloc: Global, lines: &[u8]) -> Result<bool, Fail> {
    let mut reader = reader(alloc, "p", "")?;
    Ok(reads_to_fault(&mut reader, lines, &mut Vec::new(alloc)))
}

fn are_many_read(alloc: Global) -> Result<bool, Fail> {
    let lines = many_lines(alloc)?;
    are_read(alloc, &lines)
}

// A run gives no piece of more than 65,536 bytes.
#[test]
fn a_piece_may_have_more_bytes_than_a_line(rt: HostRuntime) -> Result<(), Fail> {
    assert!(rt; are_many_read(rt.alloc())?);
    Ok(())
}
