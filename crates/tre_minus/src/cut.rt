ghost use Rattle.std.specs.Prelude.{OnOk};
ghost use Rattle.tre_pairs.specs.Except.{Except};
ghost use Rattle.tre_zone.specs.Zone.{ZoneHolds};
ghost use Rattle.tre_zoneset.specs.ZoneSet.{FoundHolds};
ghost use Rattle.tre_minus.specs.Parts.{AreAdded};

use crate::side::SIDES;
use std::alloc::AllocError;
use tre_zone::Zone;

/// A zone that shares no pair with the taken zones before the place `from`.
#[derive(Clone, Copy)]
pub(crate) struct Part {
    pub zone: Zone,
    pub from: usize,
}

// Adds what is left of the zone without the taken one, in parts that are to be compared with the
// taken zones from `from` on.
pub(crate) fn take_away(
    parts: &mut Vec<Part>,
    zone: &Zone,
    taken: &Zone,
    from: usize,
) -> Result<(), AllocError>
    ensures { OnOk result (AreAdded from 6 (Except (ZoneHolds zone.now) (ZoneHolds taken.now))
        parts.old.items parts.new.items) }
{
    if zone.meet(taken).is_some() {
        cut(parts, zone, taken, from)?;
        return Ok(());
    }
    // The index finds zones that only touch too: for such a one it would be cut for nothing.
    parts.push(Part { zone: *zone, from })?;
    Ok(())
}

// The same, by the six bounds of the taken zone.
fn cut(parts: &mut Vec<Part>, zone: &Zone, taken: &Zone, from: usize) -> Result<(), AllocError>
    ensures { OnOk result (AreAdded from 6 (Except (ZoneHolds zone.now) (ZoneHolds taken.now))
        parts.old.items parts.new.items) }
{
    let taken = taken.bounds();
    let mut inside = zone.bounds();
    for side in &SIDES {
        add_found(parts, Zone::new(&side.missing(&inside, &taken)), from)?;
        inside = side.meeting(&inside, &taken);
    }
    Ok(())
}

fn add_found(parts: &mut Vec<Part>, zone: Option<Zone>, from: usize) -> Result<(), AllocError>
    ensures { OnOk result (AreAdded from 1 (FoundHolds zone) parts.old.items parts.new.items) }
{
    if let Some(zone) = zone {
        parts.push(Part { zone, from })?;
    }
    Ok(())
}
