ghost use Rattle.std.specs.Prelude.{OnOk};
ghost use Rattle.tre_pairs.specs.Pairs.{Either, Lasting};
ghost use Rattle.tre_zone.specs.Longest.{LastsUpTo, IsLongest};
ghost use Rattle.tre_zone.specs.ZoneList.{SetHolds, HoldExactly};
ghost use Rattle.tre_zoneset.specs.ZoneSet.{FoundHolds};

use std::alloc::AllocError;
use tre_zone::Zone;
use tre_zoneset::gather;

// Adds the pairs of the zone that was found that last at most `longest`, if there are any.
#[inline(always)]
pub(crate) fn gather_up_to(
    found: &mut Vec<Zone>,
    zone: Option<Zone>,
    longest: Option<u64>,
) -> Result<(), AllocError>
    requires { IsLongest longest }
    ensures { OnOk result (HoldExactly found.new.items
        (Either (SetHolds found.old.items) (Lasting (LastsUpTo longest) (FoundHolds zone)))) }
{
    match zone {
        Some(zone) => gather(found, zone.up_to(longest)),
        None => Ok(()),
    }
}
