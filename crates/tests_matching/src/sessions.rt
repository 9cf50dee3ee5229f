// What sessions tell of the segments that come, and what they keep.

use crate::given::pattern;
use std::alloc::Global;
use std::test::Fail;
use tre_online::Session;
use tre_trace::{PushFault, Segment};

fn session(alloc: Global, text: &str) -> Result<Session, Fail> {
    Ok(Session::new(alloc, pattern(alloc, text)?)?)
}

// Whether a segment of p of this length is refused for this, and the session stays at this time.
fn refuses(session: &mut Session, len: u64, why: PushFault, at: u64) -> bool {
    session.segment(Segment::plain(len, 1)).err() == Some(why) && session.at() == at
}

// Whether two more ticks of p make a match from the start to this time.
fn tells_until(session: &mut Session, end: u64) -> bool {
    session.segment(Segment::plain(2, 1)).is_ok()
        && session.told().iter().any(|zone| zone.holds(0, end, 1))
}

fn is_unchanged(session: &mut Session) -> bool {
    let late = PushFault::TooLate {
        end: 1_099_511_627_778,
    };
    refuses(session, 0, PushFault::Zero, 0)
        && tells_until(session, 2)
        && refuses(session, 1 << 40, late, 2)
        && tells_until(session, 4)
        && session.pattern().nodes() == 2
        && session.kept_nodes() == 1
}

fn refuses_unchanged(alloc: Global) -> Result<bool, Fail> {
    let mut session = session(alloc, "p")?;
    Ok(is_unchanged(&mut session))
}

#[test]
fn a_refused_segment_changes_nothing(rt: HostRuntime) -> Result<(), Fail> {
    assert!(rt; refuses_unchanged(rt.alloc())?);
    Ok(())
}

// Whether so many nodes are kept after one more tick of this valuation.
fn keeps(session: &mut Session, val: u64, nodes: u64) -> bool {
    session.segment(Segment::plain(1, val)).is_ok() && session.kept_nodes() == nodes
}

// Whether so many are kept after each of the ticks on which these hold in turn.
fn keeps_always(session: &mut Session, vals: [u64; 2], turns: u16, nodes: u64) -> bool {
    for _ in 0..turns {
        if !keeps(session, vals[0], nodes) || !keeps(session, vals[1], nodes) {
            return false;
        }
    }
    true
}

/// A pattern, what holds on ticks in turn, how many turns there are, and how many nodes are kept
/// before the first tick and after each of them: one for each form, whether or not it has begun.
struct Kept {
    text: &'static str,
    vals: [u64; 2],
    turns: u16,
    nodes: u64,
}

fn is_small(alloc: Global, row: &Kept) -> Result<bool, Fail> {
    let mut session = session(alloc, row.text)?;
    Ok(
        session.kept_nodes() == row.nodes
            && keeps_always(&mut session, row.vals, row.turns, row.nodes),
    )
}

const KEPT: [Kept; 4] = [
    Kept {
        text: "(p;q)*",
        vals: [1, 2],
        turns: 500,
        nodes: 4,
    },
    Kept {
        text: "p % [0,3]",
        vals: [1, 1],
        turns: 50,
        nodes: 2,
    },
    Kept {
        text: "p & p",
        vals: [1, 1],
        turns: 50,
        nodes: 3,
    },
    Kept {
        text: "p;q",
        vals: [1, 2],
        turns: 1,
        nodes: 3,
    },
];

#[test]
fn what_is_kept_stays_small(rt: HostRuntime) -> Result<(), Fail> {
    for row in &KEPT {
        let text = row.text;
        assert!(rt; is_small(rt.alloc(), row)?, "{text}");
    }
    Ok(())
}
