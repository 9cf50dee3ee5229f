// What lasts longer than what counts.
ghost use Rattle.std.specs.Prelude.{OnOk};
ghost use Rattle.tre_pairs.specs.Pairs.{Either, Lasting};
ghost use Rattle.tre_zone.specs.Longest.{IsLongest, LastsUpTo};
ghost use Rattle.tre_zone.specs.ZoneList.{SetHolds, HoldExactly};
ghost use Rattle.tre_node.specs.Telling.{AreShortened};

use std::alloc::AllocError;
use std::mem;
use tre_zone::Zone;
use tre_zoneset::gather;

/// Leaves out what lasts longer than `longest`, where there is such. `aux` is room.
pub fn shorten(
    zones: &mut Vec<Zone>,
    aux: &mut Vec<Zone>,
    longest: Option<u64>,
) -> Result<(), AllocError>
    requires { IsLongest longest }
    ensures { OnOk result (AreShortened longest zones.old.items zones.new.items) }
{
    if are_short(zones, longest) {
        return Ok(());
    }
    aux.clear();
    gather_short(aux, zones, longest)?;
    mem::swap(zones, aux);
    Ok(())
}

// Whether each zone lasts at most `longest`.
#[inline(always)]
fn are_short(zones: &[Zone], longest: Option<u64>) -> bool
    requires { IsLongest longest }
{
    for zone in zones {
        if !zone.is_up_to(longest) {
            return false;
        }
    }
    true
}

fn gather_short(
    found: &mut Vec<Zone>,
    zones: &[Zone],
    longest: Option<u64>,
) -> Result<(), AllocError>
    requires { IsLongest longest }
    ensures { OnOk result (HoldExactly found.new.items (Either (SetHolds found.old.items)
        (Lasting (LastsUpTo longest) (SetHolds zones.now)))) }
{
    for zone in zones {
        gather(found, zone.up_to(longest))?;
    }
    Ok(())
}
