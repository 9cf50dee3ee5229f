ghost use Rattle.std.specs.Prelude.{◌≡◌, [], length, List, OnOk, IfOk, IfErr, IfSome, map, slice_get};
ghost use Rattle.std.specs.Option.{option_map};
ghost use Rattle.tre_zoneset.specs.ZoneSet.{IsZoneSet};
ghost use Rattle.tre_online.specs.declared.session.Session.{Session};
ghost use Rattle.tre_online.specs.Giving.{IsNewFor, AreNewFor, SessionGoes, SessionCloses, Become, IsRefusedByOne};

use crate::session::Session;
use std::alloc::{AllocError, Global};
use tre_syntax::Pattern;
use tre_trace::{PushFault, Segment};
use tre_zone::Zone;

/// Sessions of several patterns, each over a trace of its own: the same input, as it is read with
/// the names of that pattern. All the traces end at one time.
#[derive(Drop)]
pub struct Watch {
    // In the order of the patterns.
    sessions: Vec<Session>,
}

impl Watch {
    ghost use Rattle.tre_syntax.specs.Pattern.{pattern_tree};
    ghost use Rattle.tre_trace.specs.declared.segment.Segment.{Segment};
    ghost use Rattle.tre_online.specs.Watch.{trees_of, ended_of_each, time_of, Watches, AreAlike, pushed_each, FitEach, TellEach, TellLastEach, AreRefusedFor};

    /// A session for a copy of each pattern; none of them has read a segment.
    pub fn new(alloc: Global, patterns: &[Pattern]) -> Result<Watch, AllocError>
        ensures stands { IfOk result (λ watch. Watches watch (map (λ _. []) patterns.now)) }
        ensures ended { IfOk result (λ watch. ended_of_each watch ≡ map (λ _. []) patterns.now) }
        ensures trees { IfOk result (λ watch. trees_of watch ≡ map pattern_tree patterns.now) }
    {
        let sessions = sessions_for(alloc, patterns)?;
        Ok(Watch { sessions })
    }

    /// How many patterns there are.
    pub fn len(&self) -> usize
        ensures { result ≡ length (trees_of self.now) }
    {
        self.sessions.len()
    }

    /// When the traces end so far, in ticks: 0 where there is no pattern.
    pub fn at(&self) -> u64
        ensures { result ≡ time_of self.now }
    {
        match self.sessions.first() {
            Some(session) => session.at(),
            None => 0,
        }
    }

    /// Reads a segment for each pattern. What each session tells of it is then
    /// [`told`](Watch::told). After a refusal the watch is of no use.
    pub fn segment(&mut self, segments: &[Segment]) -> Result<(), PushFault>
        requires count { length segments.now ≡ length (trees_of self.old) }
        requires alike { AreAlike segments.now }
        // Whatever traces it stood for, it then stands for these, each with its segment.
        ensures stands { (traces : List (List Segment)) → Watches self.old traces →
            OnOk result (Watches self.new (pushed_each traces segments.now)) }
        ensures fits { (traces : List (List Segment)) → Watches self.old traces →
            OnOk result (FitEach traces segments.now) }
        ensures tells { (traces : List (List Segment)) → Watches self.old traces →
            OnOk result (TellEach (trees_of self.old) traces segments.now
            (ended_of_each self.old) (ended_of_each self.new)) }
        ensures trees { OnOk result (trees_of self.new ≡ trees_of self.old) }

        // Each fault comes exactly where it says.
        ensures refused { (traces : List (List Segment)) → Watches self.old traces →
            IfErr result (AreRefusedFor traces segments.now) }
    {
        give_each(&mut self.sessions, segments)
    }

    /// What the session of the pattern at this place told last: None exactly where there are fewer
    /// patterns.
    pub fn told(&self, place: usize) -> Option<&[Zone]>
        ensures told { option_map (λ zones. zones.now) result
            ≡ slice_get (ended_of_each self.now) place }
        ensures set { IfSome result (λ zones. IsZoneSet zones.now) }
    {
        match self.sessions.get(place) {
            Some(session) => Some(session.told()),
            None => None,
        }
    }

    /// The traces have ended, and these events happen at their ends, given for each pattern. What
    /// has become a match with them is then [`told`](Watch::told). No segment may follow.
    pub fn close(&mut self, events: &[u64]) -> Result<(), AllocError>
        requires count { length events.now ≡ length (trees_of self.old) }
        ensures tells { (traces : List (List Segment)) → Watches self.old traces →
            OnOk result (TellLastEach (trees_of self.old) traces events.now
            (ended_of_each self.old) (ended_of_each self.new)) }
        ensures trees { OnOk result (trees_of self.new ≡ trees_of self.old) }
    {
        close_each(&mut self.sessions, events)
    }
}

// A session for a copy of each pattern.
fn sessions_for(alloc: Global, patterns: &[Pattern]) -> Result<Vec<Session>, AllocError>
    ensures { IfOk result (λ sessions. AreNewFor patterns.now sessions.items) }
{
    let mut sessions = Vec::new(alloc);
    for pattern in patterns {
        let session = session_for(alloc, pattern)?;
        sessions.push(session)?;
    }
    Ok(sessions)
}

fn session_for(alloc: Global, pattern: &Pattern) -> Result<Session, AllocError>
    ensures { IfOk result (IsNewFor pattern.now) }
{
    let copy = pattern.try_clone(alloc)?;
    let session = Session::new(alloc, copy)?;
    Ok(session)
}

// Gives each session its segment.
fn give_each(sessions: &mut [Session], segments: &[Segment]) -> Result<(), PushFault>
    requires { length segments.now ≡ length sessions.old }
    ensures ok { OnOk result (Become SessionGoes sessions.old segments.now sessions.new) }
    ensures err { IfErr result (IsRefusedByOne sessions.old segments.now) }
{
    for (place, segment) in segments.iter().enumerate() {
        sessions[place].go_on(*segment)?;
    }
    Ok(())
}

// Closes each session, with the events at its end.
fn close_each(sessions: &mut [Session], events: &[u64]) -> Result<(), AllocError>
    requires { length events.now ≡ length sessions.old }
    ensures { OnOk result (Become SessionCloses sessions.old events.now sessions.new) }
{
    for (place, here) in events.iter().enumerate() {
        sessions[place].close(*here)?;
    }
    Ok(())
}
