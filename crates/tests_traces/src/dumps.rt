// Tests of tre_vcd.
use crate::feeding::feed;
use std::alloc::{AllocError, Global};
use std::rc::Rc;
use std::test::Fail;
use tests_support::names_of;
use tre_trace::TraceKind::{LineTooLong, Spent};
use tre_trace::{Segment, TraceFault, TraceKind, TraceReader};
use tre_vcd::{Needed, TokenReader, VcdReader};

fn reader(alloc: Global, names: &str, events: &str) -> Result<VcdReader, Fail> {
    let names = names_of(alloc, names)?;
    let events = names_of(alloc, events)?;
    let needed = Rc::new(alloc, Needed::new(alloc))?;
    let tokens = TokenReader::new(alloc, names, events, 0, None, &needed)?;
    Ok(VcdReader::new(alloc, tokens))
}

// The propositions p and q, and the event e.
const DECLARING: &str = "$var wire 1 ! p $end $var wire 1 \" q $end $var event 1 % e $end \
    $enddefinitions $end #1 1! 1% #3";

// Whether the reader, which is asked for r and p and for f and e, says of the dump that neither
// holds for a tick, and p for two, at the begin of which e happens.
fn says(reader: &mut VcdReader, segments: &mut Vec<Segment>) -> bool {
    let second = Segment {
        len: 2,
        val: 2,
        ev: 2,
    };
    feed(reader, DECLARING.as_bytes(), segments) == Ok(())
        && reader.finish(segments) == Ok(0)
        && segments.as_slice() == [Segment::plain(1, 0), second].as_slice()
}

fn need_not_be_declared(alloc: Global) -> Result<bool, Fail> {
    let mut reader = reader(alloc, "r p", "f e")?;
    Ok(says(&mut reader, &mut Vec::new(alloc)))
}

// Names that are read need not be declared where nothing says that they must.
#[test]
fn names_need_not_be_declared(rt: HostRuntime) -> Result<(), Fail> {
    assert!(rt; need_not_be_declared(rt.alloc())?);
    Ok(())
}

fn fault(place: u64, kind: TraceKind) -> Result<(), TraceFault> {
    Err(TraceFault { place, kind })
}

// A token of as many bytes as one may have.
fn long_token(alloc: Global) -> Result<Vec<u8>, AllocError> {
    let mut long = Vec::new(alloc);
    long.resize(65_536, b'x')?;
    Ok(long)
}

// Whether two such tokens are read, and then no further byte of the second.
fn refuses_more(reader: &mut VcdReader, long: &[u8], segments: &mut Vec<Segment>) -> bool {
    feed(reader, b"$date ", segments) == Ok(())
        && feed(reader, long, segments) == Ok(())
        && feed(reader, b" ", segments) == Ok(())
        && feed(reader, long, segments) == Ok(())
        && feed(reader, b"x", segments) == fault(65_543, LineTooLong)
        && feed(reader, b" ", segments) == fault(0, Spent)
        && reader.finish(segments).is_err()
}

fn is_limited(alloc: Global, long: &[u8]) -> Result<bool, Fail> {
    let mut reader = reader(alloc, "", "")?;
    Ok(refuses_more(&mut reader, long, &mut Vec::new(alloc)))
}

fn refuses_longer(alloc: Global) -> Result<bool, Fail> {
    let long = long_token(alloc)?;
    is_limited(alloc, &long)
}

#[test]
fn a_token_may_have_so_many_bytes(rt: HostRuntime) -> Result<(), Fail> {
    assert!(rt; refuses_longer(rt.alloc())?);
    Ok(())
}
