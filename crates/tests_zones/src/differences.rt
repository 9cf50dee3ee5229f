// Tests of tre_minus.
use std::alloc::Global;
use std::test::Fail;
use tests_support::{has_lines, set_of};
use tre_minus::minus;

// A set, what is taken away from it, and what is left.
struct Row {
    set: &'static [&'static str],
    taken: &'static [&'static str],
    left: &'static [&'static str],
}

const LONG: &str = "[0,9) (0,9] (0,9]";

const RUN: &str = "[0,3) (0,3] (0,3]";

const ROWS: [Row; 10] = [
    // What lasts at most one tick, from a run.
    Row {
        set: &[RUN],
        taken: &["[0,3) (0,3] (0,1]"],
        left: &["[0,2) (1,3] (1,3]"],
    },
    // One of two runs that touch.
    Row {
        set: &["[0,1) (0,1] (0,1]", "[1,2) (1,2] (0,1]"],
        taken: &["[0,1) (0,1] (0,1]"],
        left: &["[1,2) (1,2] (0,1]"],
    },
    // A set from itself.
    Row {
        set: &[RUN],
        taken: &[RUN],
        left: &[],
    },
    Row {
        set: &[RUN, "[0,4] [0,4] [0,0]", "[3,9) (5,9] (2,6]"],
        taken: &["[0,4] [0,4] [0,0]", "[3,9) (5,9] (2,6]", RUN],
        left: &[],
    },
    // What shares no pair: a run that touches, nothing at all.
    Row {
        set: &[RUN],
        taken: &["[3,6) (3,6] (0,3]"],
        left: &[RUN],
    },
    Row {
        set: &[RUN],
        taken: &[],
        left: &[RUN],
    },
    // The middle of a run.
    Row {
        set: &[LONG],
        taken: &["[3,6) (3,6] (0,3]"],
        left: &[
            "[0,3) (0,9] (0,9]",
            "[3,6) (6,9] (0,6]",
            "[6,9) (6,9] (0,3]",
        ],
    },
    // Both its ends.
    Row {
        set: &[LONG],
        taken: &["[0,3) (0,3] (0,3]", "[6,9) (6,9] (0,3]"],
        left: &["[0,3) (3,9] (0,9]", "[3,6) (3,9] (0,6]"],
    },
    // One instant of many.
    Row {
        set: &["[0,4] [0,4] [0,0]"],
        taken: &["[2,2] [2,2] [0,0]"],
        left: &["[0,2) [0,2) [0,0]", "(2,4] (2,4] [0,0]"],
    },
    // One duration, in parts by begins first.
    Row {
        set: &[RUN],
        taken: &["[0,2] [1,3] [1,1]"],
        left: &[
            "(2,3) (2,3] (0,1)",
            "[0,1) (0,1) (0,1)",
            "(0,2] [1,3) (0,1)",
            "[0,2) (1,3] (1,3]",
        ],
    },
];

fn is_left(alloc: Global, row: &Row) -> Result<bool, Fail> {
    let set = set_of(alloc, row.set)?;
    let taken = set_of(alloc, row.taken)?;
    Ok(has_lines(&minus(alloc, &set, &taken)?, row.left))
}

#[test]
fn left(rt: HostRuntime) -> Result<(), Fail> {
    for row in &ROWS {
        assert!(rt; is_left(rt.alloc(), row)?);
    }
    Ok(())
}
