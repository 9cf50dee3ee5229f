// The moments of a trace.
ghost use Rattle.std.specs.Prelude.{IfOk};
ghost use Rattle.tre_syntax.specs.PatternTree.{empty};
ghost use Rattle.tre_syntax.specs.Rest.{whole, AtomMatches};
ghost use Rattle.tre_zone.specs.ZoneList.{HoldExactly};

use std::alloc::{AllocError, Global};
use tre_packed::AnyTrace;
use tre_zone::Zone;
use tre_zoneset::ZoneSet;

/// Every moment of the trace, its begin and its end among them, as one zone: the matches of `eps`.
pub fn moments<T: AnyTrace>(alloc: Global, trace: &T) -> Result<ZoneSet, AllocError>
    ensures { IfOk result (λ zones.
        HoldExactly zones (AtomMatches (whole (T.timeline trace.now)) empty)) }
{
    let mut zones = ZoneSet::new(alloc);
    zones.add(Zone::instants(0, trace.end()))?;
    Ok(zones)
}
