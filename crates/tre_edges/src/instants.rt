// Single instants, where something was found there.
ghost use Rattle.std.specs.Prelude.{◌+◌, ◌≤◌, OnOk};
ghost use Rattle.tre_pairs.specs.Pairs.{Either};
ghost use Rattle.tre_pairs.specs.declared.TheConstants.{TIME_MAX};
ghost use Rattle.tre_zone.specs.Zone.{GivesZone};
ghost use Rattle.tre_zone.specs.ZoneList.{SetHolds, HoldExactly};
ghost use Rattle.tre_edges.specs.Ends.{EndBefore};
ghost use Rattle.tre_edges.specs.Instants.{AreInstants};
ghost use Rattle.tre_edges.specs.Truth.{IsFoundAt};

use std::alloc::AllocError;
use tre_zone::Zone;
use tre_zoneset::ZoneSet;

/// Adds the instant, where something was found there.
pub(crate) fn add_instant(zones: &mut ZoneSet, instant: u64, found: bool) -> Result<(), AllocError>
    requires instants { AreInstants 0 zones.old }
    requires ended { EndBefore instant zones.old }
    requires limit { instant ≤ TIME_MAX }
    ensures held { OnOk result
        (HoldExactly zones.new (Either (SetHolds zones.old) (IsFoundAt found instant))) }
    ensures instants { OnOk result (AreInstants 0 zones.new) }
    ensures ended { OnOk result (EndBefore (instant + 1) zones.new) }
{
    if found {
        zones.push_disjoint(Zone::instants(instant, instant))?;
    }
    Ok(())
}

/// The instant, where something was found there.
pub(crate) fn instant_of(instant: u64, found: bool) -> Option<Zone>
    requires { instant ≤ TIME_MAX }
    ensures { GivesZone result (IsFoundAt found instant) }
{
    if found {
        return Some(Zone::instants(instant, instant));
    }
    None
}
