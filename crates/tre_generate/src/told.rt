// The zones that a session tells.
ghost use Rattle.std.specs.Prelude.{◌≡◌, List, IfOk, OnOk};
ghost use Rattle.tre_online.specs.Session.{pattern_of, StandsFor};
ghost use Rattle.tre_syntax.specs.Pattern.{pattern_tree};
ghost use Rattle.tre_trace.specs.declared.segment.Segment.{Segment};
ghost use Rattle.tre_generate.specs.Told.{MatchesAreTold, CanRead, TellingGoesOn};

use std::alloc::{AllocError, Global};
use tre_online::{Session, want_of_memory};
use tre_syntax::Pattern;
use tre_trace::{Segment, Trace};
use tre_zoneset::ZoneSet;

/// The zones that a session of the pattern tells of the segments of the trace, one segment after
/// another. The end isn't told.
pub fn told_zones(alloc: Global, pattern: Pattern, trace: &Trace) -> Result<ZoneSet, AllocError>
    ensures { IfOk result (λ zones.
        MatchesAreTold (pattern_tree pattern) trace.now.segments zones) }
{
    let mut session = Session::new(alloc, pattern)?;
    let mut zones = Vec::new(alloc);
    for segment in trace.segments() {
        read(&mut session, *segment)?;
        zones.extend_from_slice(session.told())?;
    }
    let told = ZoneSet::of_zones(alloc, zones)?;
    Ok(told)
}

// The session reads a segment that it can read.
fn read(session: &mut Session, segment: Segment) -> Result<(), AllocError>
    requires { CanRead session.old segment }
    ensures goes_on { (segments : List Segment) → StandsFor session.old segments →
        OnOk result (TellingGoesOn session.old session.new segments segment) }
    ensures tree { pattern_tree (pattern_of session.new) ≡ pattern_tree (pattern_of session.old) }
{
    match session.segment(segment) {
        Ok(()) => Ok(()),
        Err(fault) => Err(want_of_memory(fault)),
    }
}
