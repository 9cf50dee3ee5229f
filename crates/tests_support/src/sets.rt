// Sets of zones by their lines.
use crate::line::{has_line, zone_of};
use std::alloc::Global;
use std::test::Fail;
use tre_zone::Zone;
use tre_zoneset::ZoneSet;

/// The set of the zones of the lines.
pub fn set_of(alloc: Global, lines: &[&str]) -> Result<ZoneSet, Fail> {
    let mut set = ZoneSet::new(alloc);
    for line in lines {
        let zone = zone_of(line).ok_or("no zone")?;
        set.add(zone)?;
    }
    Ok(set)
}

/// Whether the zones are those of the lines, in this order.
pub fn are_lines(zones: &[Zone], lines: &[&str]) -> bool {
    zones.len() == lines.len()
        && zones
            .iter()
            .zip(lines)
            .all(|(zone, line)| has_line(zone, line))
}

/// Whether the set has just the zones of the lines, in any order. No two lines are the same.
pub fn has_lines(set: &ZoneSet, lines: &[&str]) -> bool {
    let zones = set.zones();
    zones.len() == lines.len()
        && lines
            .iter()
            .all(|line| zones.iter().any(|zone| has_line(zone, line)))
}
