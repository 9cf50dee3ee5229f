// Tests of what touches: what two zones of tre_zone hold together, and sets of tre_zoneset that
// have zones as one.
use crate::support::is;
use std::alloc::Global;
use std::test::Fail;
use tests_support::{are_lines, set_of, zone_of};
use tre_zoneset::ZoneSet;

/// Of each row: two zones, and the one zone of what they hold together, if there is one.
const UNITED: [(&str, &str, Option<&str>); 7] = [
    (
        "[0,1) [2,2] (1,2]",
        "[1,2) [2,2] (0,1]",
        Some("[0,2) [2,2] (0,2]"),
    ),
    (
        "[0,1] [2,2] [1,2]",
        "(1,2) [2,2] (0,1)",
        Some("[0,2) [2,2] (0,2]"),
    ),
    // Between these there is an instant.
    ("[0,1) [2,2] (1,2]", "(1,2) [2,2] (0,1)", None),
    ("[0,1] [4,4] [3,4]", "[2,3] [4,4] [1,2]", None),
    (
        "[0,3) (0,3] (0,3]",
        "[0,1) (0,1] (0,1]",
        Some("[0,3) (0,3] (0,3]"),
    ),
    (
        "[0,1] [0,1] [0,0]",
        "[1,3] [1,3] [0,0]",
        Some("[0,3] [0,3] [0,0]"),
    ),
    // Two runs one after the other are no run.
    ("[0,1) (0,1] (0,1]", "[1,2) (1,2] (0,1]", None),
];

fn unites(one: &str, other: &str, want: Option<&str>) -> Result<bool, Fail> {
    let one = zone_of(one).ok_or("no zone")?;
    let other = zone_of(other).ok_or("no zone")?;
    Ok(is(&one.united(&other), want) && is(&other.united(&one), want))
}

#[test]
fn united(rt: HostRuntime) -> Result<(), Fail> {
    for (one, other, want) in &UNITED {
        assert!(rt; unites(*one, *other, *want)?, "{one} {other}");
    }
    Ok(())
}

const EARLY: &str = "[0,1) [3,3] (2,3]";

const MIDDLE: &str = "[1,2) [3,3] (1,2]";

const LATE: &str = "[2,3) [3,3] (0,1]";

// Whether these zones, all of which end at one time, become those of the lines.
fn turn_into(alloc: Global, lines: &[&str], want: &[&str]) -> Result<bool, Fail> {
    let mut zones = Vec::new(alloc);
    for line in lines {
        zones.push(zone_of(line).ok_or("no zone")?)?;
    }
    let set = ZoneSet::of_touching(alloc, zones)?;
    Ok(are_lines(set.zones(), want))
}

#[test]
fn of_touching(rt: HostRuntime) -> Result<(), Fail> {
    assert!(rt; turn_into(rt.alloc(), &[LATE, EARLY, MIDDLE], &["[0,3) [3,3] (0,3]"])?);
    assert!(rt; turn_into(rt.alloc(), &[LATE, EARLY], &[EARLY, LATE])?);
    assert!(rt; turn_into(rt.alloc(), &[], &[])?);
    Ok(())
}

// Whether the zones of both sets become those of the lines.
fn are_one(alloc: Global, one: &[&str], other: &[&str], lines: &[&str]) -> Result<bool, Fail> {
    let one = set_of(alloc, one)?;
    let other = set_of(alloc, other)?;
    let both = ZoneSet::of_both(alloc, &one, &other)?;
    Ok(are_lines(both.zones(), lines))
}

#[test]
fn of_both(rt: HostRuntime) -> Result<(), Fail> {
    assert!(rt;
        are_one(
            rt.alloc(),
            &[EARLY, LATE],
            &[MIDDLE],
            &["[0,3) [3,3] (0,3]"]
        )?
    );
    Ok(())
}
