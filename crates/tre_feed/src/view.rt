ghost use Rattle.std.specs.Prelude.{◌≡◌, ◌≤◌, ◌∷◌, ◌++◌, [], ℕ, All, Bool, IfOk, IsTrue, List, length, map};
ghost use Rattle.tre_feed.specs.Shown.{masked_segment, shown_segment};
ghost use Rattle.tre_syntax.specs.Pattern.{names_of};
ghost use Rattle.tre_trace.specs.Reading.{Stretch, Vocabulary, events_for, segment_for};

use crate::places::Places;
use std::alloc::{AllocError, Global};
use tre_syntax::Pattern;
use tre_trace::Segment;

/// How the names of a pattern stand among those of its group.
#[derive(Drop)]
pub struct View {
    pub(crate) group: usize,
    pub(crate) names: Places,
    pub(crate) events: Places,
}

impl View {
    ghost use Rattle.tre_feed.specs.Shares.{IsViewOf, Shows, group_of};
    ghost use Rattle.tre_feed.specs.Shown.{shown_events};

    // The view of a group of this number that reads the names of the pattern alone.
    pub(crate) fn own(alloc: Global, group: usize, pattern: &Pattern) -> Result<View, AllocError>
        ensures { (groups : List Vocabulary) → group ≡ length groups → IfOk result
            (IsViewOf (groups ++ names_of pattern.now ∷ []) (names_of pattern.now)) }
    {
        let names = Places::own(alloc, pattern.names())?;
        let Ok(events) = Places::own(alloc, pattern.events()) else {
            return Err(AllocError);
        };
        Ok(View {
            group,
            names,
            events,
        })
    }

    /// Which group it is, counted from 0.
    pub fn group(&self) -> usize
        ensures { result ≡ group_of self.now }
    {
        self.group
    }

    /// What a segment that was read for the group is for the pattern.
    pub fn segment(&self, wide: Segment) -> Segment
        ensures shown { result ≡ shown_segment self.now wide }
        ensures seen { (asked all : Vocabulary) (stretch : Stretch) → Shows asked all self.now →
            wide ≡ segment_for all stretch → result ≡ segment_for asked stretch }
    {
        Segment {
            len: wide.len,
            val: self.names.seen(wide.val),
            ev: self.events.seen(wide.ev),
        }
    }

    /// Which events of the pattern happen where those of the group do.
    pub fn events(&self, wide: u64) -> u64
        ensures shown { result ≡ shown_events self.now wide }
        ensures seen { (asked all : Vocabulary) (happens : List ℕ → Bool) →
            Shows asked all self.now → wide ≡ events_for all happens →
            result ≡ events_for asked happens }
    {
        self.events.seen(wide)
    }

    /// Whether it is seen at a glance that all that is true or happens in these segments is the
    /// pattern's: then each is for the pattern what it was read as. False says nothing.
    pub fn shows_all(&self, row: &[Segment]) -> bool
        ensures { IsTrue result → map (shown_segment self.now) row.now ≡ row.now }
    {
        let Some(names) = self.names.mask() else {
            return false;
        };
        let Some(events) = self.events.mask() else {
            return false;
        };
        are_up_to(names, events, row)
    }

    /// Leaves of each segment that was read for the group what it is for the pattern.
    pub fn narrow(&self, row: &mut [Segment])
        ensures { row.new ≡ map (shown_segment self.now) row.old }
    {
        let Some(names) = self.names.mask() else {
            return show_each(self, row);
        };
        let Some(events) = self.events.mask() else {
            return show_each(self, row);
        };
        mask_each(names, events, row);
    }
}

// Whether no segment has a greater number of values, or of events.
fn are_up_to(names: u64, events: u64, row: &[Segment]) -> bool
    ensures { IsTrue result →
        All (λ segment. (segment.val ≤ names) × (segment.ev ≤ events)) row.now }
{
    // A number is at most what it is put together with: so a bit operation each is enough.
    let mut values = 0;
    let mut happen = 0;
    for segment in row {
        values |= segment.val;
        happen |= segment.ev;
    }
    values <= names && happen <= events
}

// Leaves of each segment what the view shows.
fn show_each(view: &View, row: &mut [Segment])
    ensures { row.new ≡ map (shown_segment view.now) row.old }
{
    for segment in row {
        *segment = view.segment(*segment);
    }
}

// Leaves of each segment these bits, which are the same for all: so it takes few instructions.
fn mask_each(names: u64, events: u64, row: &mut [Segment])
    ensures { row.new ≡ map (masked_segment names events) row.old }
{
    for segment in row {
        *segment = Segment {
            len: segment.len,
            val: segment.val & names,
            ev: segment.ev & events,
        };
    }
}
