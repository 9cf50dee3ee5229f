// What two sets of zones hold of the probes.
ghost use Rattle.std.specs.Prelude.{◌≤◌, length};
ghost use Rattle.tre_generate.specs.Tallies.{TallyIsFew, IsTallied, IsTally};
ghost use Rattle.tre_generate.specs.declared.made_run.TheConstants.{SEGMENTS_MAX};

use crate::made_run::SEGMENTS_MAX;
use tre_trace::Trace;
use tre_zoneset::ZoneSet;

/// How many probes count, and of how many of them two things are so.
#[derive(Clone, Copy)]
pub struct Tally {
    pub probes: u64,
    /// The zones of the whole match hold it.
    pub held: u64,
    /// Both sets of zones hold it, or neither does.
    pub alike: u64,
}

/// A pair of times, both in half ticks.
#[derive(Clone, Copy)]
struct Probe {
    begin: u64,
    end: u64,
}

/// The tally of the probes of all segments.
pub fn count_probes(trace: &Trace, whole: &ZoneSet, told: &ZoneSet) -> Tally
    requires { length trace.now.segments ≤ SEGMENTS_MAX }
    ensures { IsTally whole.now told.now trace.now.segments (length trace.now.segments) result }
{
    let last = 2 * trace.end();
    let mut tally = Tally {
        probes: 0,
        held: 0,
        alike: 0,
    };
    let mut begin = 0;
    for segment in trace.segments() {
        let end = begin + segment.len;
        let probe = Probe {
            begin: 2 * begin,
            end: 2 * end + 3,
        };
        tally = with_probe(tally, &probe, last, whole, told);
        begin = end;
    }
    tally
}

// The tally with the probe, which counts where it ends no later than `last`.
fn with_probe(tally: Tally, probe: &Probe, last: u64, whole: &ZoneSet, told: &ZoneSet) -> Tally
    requires { TallyIsFew tally }
    ensures { IsTallied whole.now told.now probe.now last tally result }
{
    if probe.end > last {
        return tally;
    }
    let held = whole.holds(probe.begin, probe.end, 2);
    let alike = told.holds(probe.begin, probe.end, 2) == held;
    Tally {
        probes: tally.probes + 1,
        held: tally.held + u64::from(held),
        alike: tally.alike + u64::from(alike),
    }
}
