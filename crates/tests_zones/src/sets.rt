// Tests of tre_zoneset.
use std::alloc::{AllocError, Global};
use std::test::Fail;
use tests_support::{are_lines, set_of, zone_of};
use tre_zone::{Interval, Zone};
use tre_zoneset::ZoneSet;

const UNIT: &str = "[0,1) (0,1] (0,1]";

const TICK: &str = "[0,0] [1,1] [1,1]";

const EARLY: &str = "[0,2) (0,2] (0,2]";

const LATE: &str = "[1,3) (1,3] (0,2]";

// The zones of the lines, one after another.
fn list(alloc: Global, lines: &[&str]) -> Result<Vec<Zone>, Fail> {
    let mut zones = Vec::new(alloc);
    for line in lines {
        zones.push(zone_of(line).ok_or("no zone")?)?;
    }
    Ok(zones)
}

// Whether the set has the zones of these lines, in this order.
fn is(set: &ZoneSet, lines: &[&str]) -> bool {
    are_lines(set.zones(), lines)
}

// Whether adding the zone of the second line to the set of the first answers this and leaves those.
fn adds(
    alloc: Global,
    first: &str,
    second: &str,
    answer: bool,
    lines: &[&str],
) -> Result<bool, Fail> {
    let zone = zone_of(second).ok_or("no zone")?;
    let mut set = set_of(alloc, &[first])?;
    Ok(set.add(zone)? == answer && is(&set, lines))
}

#[test]
fn added(rt: HostRuntime) -> Result<(), Fail> {
    let table = [
        (UNIT, TICK, false, [UNIT].as_slice()),
        (TICK, UNIT, true, [UNIT].as_slice()),
        (EARLY, LATE, true, [EARLY, LATE].as_slice()),
    ];
    for (first, second, answer, lines) in table {
        assert!(rt;
            adds(rt.alloc(), first, second, answer, lines)?,
            "{first} {second}"
        );
    }
    Ok(())
}

// Whether what both sets hold is that of the lines.
fn meet(alloc: Global, one: &[&str], other: &[&str], lines: &[&str]) -> Result<bool, Fail> {
    let one = set_of(alloc, one)?;
    let other = set_of(alloc, other)?;
    Ok(is(&one.meet(&other)?, lines))
}

// Whether what the set holds up to this end is that of the lines.
fn ends(alloc: Global, zone: &str, end: u32, lines: &[&str]) -> Result<bool, Fail> {
    let set = set_of(alloc, &[zone])?;
    Ok(is(&set.ending_at(u64::from(end))?, lines))
}

#[test]
fn met_and_ended(rt: HostRuntime) -> Result<(), Fail> {
    assert!(rt; meet(rt.alloc(), &[EARLY], &[LATE], &["[1,2) (1,2] (0,1]"])?);
    assert!(rt; meet(rt.alloc(), &[EARLY], &[], &[])?);
    assert!(rt; ends(rt.alloc(), "[0,3) (0,3] (0,3]", 2, &["[0,2) [2,2] (0,2]"])?);
    assert!(rt; ends(rt.alloc(), "[0,3) (0,3] (0,3]", 4, &[])?);
    Ok(())
}

// Whether both calls give the line of what lasts so long in the set of the first.
fn lasts(alloc: Global, line: &str, interval: &Interval, want: &str) -> Result<bool, Fail> {
    let set = set_of(alloc, &[line])?;
    Ok(is(&set.within(interval)?, &[want]) && is(&set.into_within(interval)?, &[want]))
}

#[test]
fn within(rt: HostRuntime) -> Result<(), Fail> {
    let two = Interval::new(2, true, Some(2), true).ok_or("no interval")?;
    let short = Interval::new(0, false, Some(2), true).ok_or("no interval")?;
    assert!(rt; lasts(rt.alloc(), "[0,3) (0,3] (0,3]", &two, "[0,1] [2,3] [2,2]")?);
    assert!(rt; lasts(rt.alloc(), EARLY, &short, EARLY)?);
    Ok(())
}

// Whether the zones of a list of lines are gathered as these.
fn gathers(alloc: Global, zones: &[&str], lines: &[&str]) -> Result<bool, Fail> {
    let zones = list(alloc, zones)?;
    Ok(is(&ZoneSet::of_zones(alloc, zones)?, lines))
}

// Lists of one begin, of which the ends rise or not, and lists that are mixed.
#[test]
fn gathered(rt: HostRuntime) -> Result<(), Fail> {
    let table = [
        ([UNIT, EARLY, LATE], [EARLY, LATE]),
        ([LATE, UNIT, EARLY], [EARLY, LATE]),
        ([EARLY, LATE, LATE], [EARLY, LATE]),
    ];
    for (zones, lines) in &table {
        assert!(rt; gathers(rt.alloc(), zones, lines)?);
    }
    Ok(())
}

// What lasts for 1, 2 and 3 ticks within three ticks from 0, 4 and 8 on.
const RISING: [&str; 9] = [
    "[0,2] [1,3] [1,1]",
    "[0,1] [2,3] [2,2]",
    "[0,0] [3,3] [3,3]",
    "[4,6] [5,7] [1,1]",
    "[4,5] [6,7] [2,2]",
    "[4,4] [7,7] [3,3]",
    "[8,10] [9,11] [1,1]",
    "[8,9] [10,11] [2,2]",
    "[8,8] [11,11] [3,3]",
];

// The same, and a zone that the first includes.
const MIXED: [&str; 10] = [
    "[8,10] [9,11] [1,1]",
    "[8,9] [10,11] [2,2]",
    "[8,8] [11,11] [3,3]",
    "[4,6] [5,7] [1,1]",
    "[4,5] [6,7] [2,2]",
    "[4,4] [7,7] [3,3]",
    "[0,2] [1,3] [1,1]",
    "[0,1] [2,3] [2,2]",
    "[0,0] [3,3] [3,3]",
    TICK,
];

// Zones of like begins, of which each ends alike and lasts longer than the one before it: as they
// stand, mixed, and with one that another includes.
#[test]
fn lasting_longer(rt: HostRuntime) -> Result<(), Fail> {
    for lines in [RISING.as_slice(), &MIXED[..9], MIXED.as_slice()] {
        assert!(rt; gathers(rt.alloc(), lines, &RISING)?);
    }
    Ok(())
}

// Whether a copy of the set has these lines.
fn is_copied(set: &ZoneSet, lines: &[&str]) -> Result<bool, AllocError> {
    Ok(is(&set.try_clone()?, lines))
}

fn is_tick(set: &ZoneSet) -> bool {
    is(set, &[TICK]) && set.holds(0, 1, 1)
}

fn is_both(set: &ZoneSet) -> bool {
    is(set, &[EARLY, LATE]) && set.holds(5, 6, 2) && !set.holds(1, 5, 2)
}

fn joins(joined: &mut ZoneSet, both: &ZoneSet) -> Result<bool, Fail> {
    let first = is_tick(joined) && is_copied(both, &[EARLY, LATE])?;
    joined.join(both)?;
    Ok(first && is_both(joined))
}

fn are_joined(alloc: Global) -> Result<bool, Fail> {
    let both = set_of(alloc, &[EARLY, LATE])?;
    let mut joined = set_of(alloc, &[TICK])?;
    joins(&mut joined, &both)
}

#[test]
fn joined(rt: HostRuntime) -> Result<(), Fail> {
    assert!(rt; are_joined(rt.alloc())?);
    Ok(())
}

#[test]
fn pushed(rt: HostRuntime) -> Result<(), Fail> {
    let mut set = ZoneSet::new(rt.alloc());
    set.push_disjoint(Zone::span(0, 2))?;
    assert!(rt; is(&set, &[EARLY]));
    Ok(())
}
