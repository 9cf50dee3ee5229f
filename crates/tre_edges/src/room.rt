// Sets with room for what will be found, which so don't grow: growing holds what is there twice.
ghost use Rattle.std.specs.Prelude.{◌≡◌, [], IfOk};

use std::alloc::{AllocError, Global};
use tre_zoneset::ZoneSet;

/// The empty set, with room for one zone for each run of bits.
pub(crate) fn room_for_runs(alloc: Global, words: &[u64]) -> Result<ZoneSet, AllocError>
    ensures { IfOk result (λ zones. zones ≡ []) }
{
    // A set stands in the memory of the vector that it is made of.
    let room = Vec::with_capacity(alloc, run_count(words))?;
    let zones = ZoneSet::of_zones(alloc, room)?;
    // For the proof: the call says that each zone holds some pair, and so there is none.
    let _zones = zones.zones();
    Ok(zones)
}

/// How many runs of bits there are, where each word goes on where the one before it ends.
pub(crate) fn run_count(words: &[u64]) -> usize {
    let mut count: usize = 0;
    let mut before = 0;
    for word in words {
        let begins = word & !(word << 1 | before);
        count = count.saturating_add(begins.count_ones() as usize);
        before = word >> 63;
    }
    count
}
