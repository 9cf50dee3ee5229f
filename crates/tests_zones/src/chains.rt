// Tests of tre_star.
use std::alloc::Global;
use std::test::Fail;
use tests_support::{has_lines, set_of};
use tre_pairs::TIME_MAX;
use tre_star::{closure, compose_sets};
use tre_zone::{Interval, Zone};
use tre_zoneset::ZoneSet;

// Two zones, and the pairs of the first that go on by one of the second, if there are any.
const COMPOSED: [(&str, &str, &[&str]); 3] = [
    (
        "[1,1] [1,1] [0,0]",
        "[1,3) (1,3] (0,2)",
        &["[1,1] (1,3) (0,2)"],
    ),
    (
        "[0,0] [1,1] [1,1]",
        "[1,1] (1,3) (0,2)",
        &["[0,0] (1,3) (1,3)"],
    ),
    ("[1,1] (1,3) (0,2)", "[0,0] [1,1] [1,1]", &[]),
];

// Whether the sets of two zones are composed to that of the lines.
fn composes(alloc: Global, first: &str, second: &str, lines: &[&str]) -> Result<bool, Fail> {
    let (first, second) = (set_of(alloc, &[first])?, set_of(alloc, &[second])?);
    Ok(has_lines(&compose_sets(alloc, &first, &second)?, lines))
}

#[test]
fn composed(rt: HostRuntime) -> Result<(), Fail> {
    for (first, second, lines) in COMPOSED {
        assert!(rt;
            composes(rt.alloc(), first, second, lines)?,
            "{first} and {second}"
        );
    }
    Ok(())
}

// Steps, the range of the chains, and the chains.
const CLOSED: [(&[&str], u8, u8, &[&str]); 3] = [
    (
        &["[0,2] [1,3] [1,1]"],
        0,
        3,
        &[
            "[0,0] [3,3] [3,3]",
            "[0,1] [2,3] [2,2]",
            "[0,2] [1,3] [1,1]",
            "[0,3] [0,3] [0,0]",
        ],
    ),
    (&[], 1, 4, &["[1,4] [1,4] [0,0]"]),
    (
        &["[0,1) (0,1] (0,1]"],
        0,
        1,
        &["[0,1) (0,1] (0,1]", "[0,1] [0,1] [0,0]"],
    ),
];

// Whether the chains of the steps are those of the lines.
fn closes(alloc: Global, steps: &[&str], from: u8, to: u8, lines: &[&str]) -> Result<bool, Fail> {
    if from > to {
        return Ok(false);
    }
    let steps = set_of(alloc, steps)?;
    let chains = closure(alloc, &steps, u64::from(from), u64::from(to))?;
    Ok(has_lines(&chains, lines))
}

#[test]
fn closed(rt: HostRuntime) -> Result<(), Fail> {
    for (steps, from, to, lines) in CLOSED {
        assert!(rt;
            closes(rt.alloc(), steps, from, to, lines)?,
            "{from} to {to}"
        );
    }
    Ok(())
}

// The steps that last at least four ticks and less than six, at any time.
fn long_steps(alloc: Global) -> Result<ZoneSet, Fail> {
    let between = Interval::new(4, true, Some(6), false).ok_or("no interval")?;
    let mut all = ZoneSet::new(alloc);
    all.add(Zone::span(0, TIME_MAX))?;
    let steps = all.into_within(&between)?;
    Ok(steps)
}

// Whether their chains are those of the lines.
fn are_chains(alloc: Global, lines: &[&str]) -> Result<bool, Fail> {
    let steps = long_steps(alloc)?;
    let chains = closure(alloc, &steps, 0, TIME_MAX)?;
    Ok(has_lines(&chains, lines))
}

// Rounds are few where durations lie between two different ends: without the limit they would
// be as many as steps fit into the time.
#[test]
fn powers(rt: HostRuntime) -> Result<(), Fail> {
    let lines = [
        "[0,1099511627776] [0,1099511627776] [0,0]",
        "[0,1099511627772] [4,1099511627776] [4,6)",
        "[0,1099511627768] [8,1099511627776] [8,12)",
        "[0,1099511627764] [12,1099511627776] [12,1099511627776]",
    ];
    assert!(rt; are_chains(rt.alloc(), &lines)?);
    Ok(())
}

// Whether a step and then any more, of two steps, are those of the lines.
fn are_longer(alloc: Global, lines: &[&str]) -> Result<bool, Fail> {
    let steps = set_of(alloc, &["[0,0] [1,1] [1,1]", "[1,1] [2,2] [1,1]"])?;
    let any = closure(alloc, &steps, 0, 2)?;
    Ok(has_lines(&compose_sets(alloc, &steps, &any)?, lines))
}

// A step and then any more, of two steps that touch: the instants stand last among the chains.
#[test]
fn lengthened(rt: HostRuntime) -> Result<(), Fail> {
    let lines = [
        "[0,0] [1,1] [1,1]",
        "[0,0] [2,2] [2,2]",
        "[1,1] [2,2] [1,1]",
    ];
    assert!(rt; are_longer(rt.alloc(), &lines)?);
    Ok(())
}
