// An input that is read piece by piece, for several lists of names at once.
ghost use Rattle.std.specs.Prelude.{◌≡◌, ◌<◌, ◌≤◌, [], length, All, IfOk};
ghost use Rattle.std.specs.List.{AllByRecursion};
ghost use Rattle.tre_feed.specs.Shares.{group_of};
ghost use Rattle.tre_trace.specs.declared.reader.TheConstants.{FED_MAX};
ghost use Rattle.tre_feed.specs.Each.{readers_in};
ghost use Rattle.tre_feed.specs.declared.TheConstants.{PIECE};

use crate::PIECE;
use crate::each::{Fed, clear_each, waiting_in};
use crate::fault::Fault;
use crate::lists::put_last;
use crate::piece::buffer_of;
use crate::seen::{lasts_of, no_traces, pack_rows, put_column, set_lasts};
use crate::turn::feed_next;
use crate::view::View;
use std::alloc::{AllocError, Global};
use tre_io::Source;
use tre_packed::Packed;
use tre_trace::{Segment, TraceReader};

/// An input, as far as it was read: the readers of its bytes, each for a group of names, and what
/// of it waits to be taken. Each who asks sees his names by a view of a group.
#[derive(Drop)]
pub struct Input<R: Drop> {
    limit: usize,
    taken: usize,
    buffer: Vec<u8>,
    each: Vec<Fed<R>>,
    views: Vec<View>,
    ghost bounded: { limit ≤ FED_MAX },
    ghost size: { length buffer.items ≡ PIECE },
    ghost some: { 0 < length each.items },
    ghost within: { All (λ view. group_of view < length each.items) views.items },
}

// Each reader, with nothing read.
fn fed_each<R: TraceReader + Drop>(
    alloc: Global,
    readers: Vec<R>,
) -> Result<Vec<Fed<R>>, AllocError>
    ensures readers { IfOk result (λ each. readers_in each.items ≡ readers.items) }
    ensures none { IfOk result (λ each.
        AllByRecursion (λ fed. fed.row.items ≡ []) each.items) }
{
    let mut each = Vec::new(alloc);
    for reader in readers {
        put_last(&mut each, Fed::new(alloc, reader))?;
    }
    Ok(each)
}

impl<R: TraceReader + Drop> Input<R> {
    ghost use Rattle.std.specs.Prelude.{◌+◌, ◌++◌, ℕ, Bool, List, Option, Some, map, get_or, IsTrue, IsErrOf, IfErr, IfSome, OnOk, OnErr, false};
    ghost use Rattle.tre_trace.specs.Reading.{Stretch, Recording, Vocabulary, events_for, segment_for};
    ghost use Rattle.tre_io.specs.Told.{SourceTold};
    ghost use Rattle.tre_feed.specs.Input.{HasReadCause, HasTakenMore, KeepsSource, TakesAtMost, input_told};
    ghost use Rattle.tre_feed.specs.Standing.{AreFor, Asks, CanReadOn, HasEnded, HasPlace, IsAsked, IsNew, Wait, WereFed, limit_of, stretch_behind, recording_of, taken_of};
    ghost use Rattle.tre_feed.specs.Packing.{ArePacked, CanPackMore, KeepsViews};
    ghost use Rattle.tre_feed.specs.Traces.{IsWhole, StopsReading, trace_for};
    ghost use Rattle.tre_feed.specs.Turn.{EndsTurn, TurnIsFed};

    /// An input of which at most `limit` bytes count, and nothing was read. Each who asks has a
    /// view of the group that one of the readers reads, counted from 0.
    pub fn new(
        alloc: Global,
        each: Vec<R>,
        views: Vec<View>,
        limit: usize,
    ) -> Result<Input<R>, AllocError>
        requires fits { limit ≤ FED_MAX }
        requires some { 0 < length each.items }
        requires within { All (λ view. group_of view < length each.items) views.items }
        ensures new { (terms : R.Terms) → AllByRecursion
            (λ reader. (R.terms reader ≡ terms) × R.represents reader []) each.items →
            IfOk result (IsNew R.terms R.represents R.names) }
        ensures asks { (asked : List Vocabulary) →
            AreFor asked (map R.names each.items) views.items →
            IfOk result (λ input. Asks R.names input asked) }
        ensures recording { (terms : R.Terms) → AllByRecursion
            (λ reader. (R.terms reader ≡ terms) × R.represents reader []) each.items →
            IfOk result (λ input. recording_of R.recording R.terms input ≡ R.recording terms) }
        ensures limit { IfOk result (λ input. limit_of input ≡ limit) }
    {
        let Ok(buffer) = buffer_of(alloc, PIECE) else {
            return Err(AllocError);
        };
        let Ok(each) = fed_each(alloc, each) else {
            return Err(AllocError);
        };
        Ok(Input {
            limit,
            taken: 0,
            buffer,
            each,
            views,
        })
    }

    /// Opens the source under this name, to be read from its first byte on.
    pub fn open<S: Source>(&self, name: &str, source: &mut S) -> Result<(), Fault>
        requires closed { (S.told source.old).opened ≡ false }
        ensures opened { OnOk result (IsTrue (S.told source.new).opened) }
        ensures fed { IsNew R.terms R.represents R.names self.now → OnOk result
            (TurnIsFed (WereFed R.terms R.represents self.now) (limit_of self.now)
            (input_told (S.told source.old) (S.told source.new)) (taken_of self.now) []) }
        ensures by_name { IsTrue (S.told source.new).opened →
            IfSome (S.told source.old).name (λ told. told ≡ name.now) }
        ensures read { IfErr result (λ fault. fault ≡ Fault.Read) }
        ensures refused { OnErr result ((S.told source.new).opened ≡ false) }
        ensures cause { HasReadCause (S.told source.old).faults (S.told source.new).faults result }
        ensures sound { IsTrue (S.told source.old).sound → (S.told source.old).name ≡ Some
            name.now →
            IsErrOf result Fault.Read → ⊥ }
        ensures same_sound { (S.told source.new).sound ≡ (S.told source.old).sound }
    {
        source.open(name)?;
        Ok(())
    }

    /// Reads a piece of the source, as far as the limit; where none comes, it is at its end. Says
    /// whether it may go on. The stretches that become complete wait behind those that did, also
    /// where it stops.
    pub fn next<S: Source>(&mut self, source: &mut S) -> Result<bool, Fault>
        requires opened { IsTrue (S.told source.old).opened }
        requires reads_on { CanReadOn R.terms R.represents self.old }
        ensures ends { (before : SourceTold) (bytes : List ℕ) →
            TurnIsFed (WereFed R.terms R.represents self.old) (limit_of self.old)
            (input_told before (S.told source.old)) (taken_of self.old) bytes →
            EndsTurn (WereFed R.terms R.represents self.new) (HasEnded R.names self.new)
            (recording_of R.recording R.terms self.old) (limit_of self.old)
            (input_told before (S.told source.new)) (taken_of self.new) bytes
            (Wait R.names self.old) (Wait R.names self.new) result }
        ensures taken { IfOk result (λ more. IsTrue more →
            HasTakenMore (limit_of self.new) (taken_of self.old) (taken_of self.new)) }
        ensures same { IsAsked R.names R.terms R.recording self.old self.new }
        ensures views { KeepsViews R.names self.old self.new }
        ensures source { KeepsSource (S.told source.old) (S.told source.new) result }
    {
        feed_next(
            self.limit,
            &mut self.taken,
            &mut self.buffer,
            &mut self.each,
            source,
        )
    }

    /// How many stretches wait.
    pub fn waiting(&self) -> usize
        ensures { (stretches : List Stretch) → Wait R.names self.now stretches →
            result ≡ length stretches }
    {
        waiting_in(&self.each)
    }

    /// The segments of the stretch at this place of those that wait, one for each who asks, in
    /// place of those that were in `segments`.
    pub fn column(&self, place: usize, segments: &mut Vec<Segment>) -> Result<(), AllocError>
        requires { HasPlace R.names self.now place }
        ensures { (asked : List Vocabulary) (stretches : List Stretch) →
            Asks R.names self.now asked → Wait R.names self.now stretches →
            OnOk result (segments.new.items
            ≡ map (λ names. segment_for names (get_or stretches place stretch_behind)) asked) }
    {
        put_column(&self.each, place, &self.views, segments)
    }

    /// The events at the end, once that was read: one list for each who asks.
    pub fn lasts(&self, alloc: Global) -> Result<Vec<u64>, AllocError>
        ensures { (asked : List Vocabulary) (last : List ℕ → Bool) →
            Asks R.names self.now asked → HasEnded R.names self.now last →
            IfOk result (λ lasts. lasts.items ≡ map (λ names. events_for names last) asked) }
    {
        lasts_of(alloc, &self.each, &self.views)
    }

    /// Drops the stretches that wait.
    pub fn clear(&mut self)
        ensures none { Wait R.names self.new [] }
        ensures fed { (bytes : List ℕ) → WereFed R.terms R.represents self.old bytes →
            WereFed R.terms R.represents self.new bytes }
        ensures ended { (last : List ℕ → Bool) → HasEnded R.names self.old last →
            HasEnded R.names self.new last }
        ensures same { IsAsked R.names R.terms R.recording self.old self.new }
        ensures views { KeepsViews R.names self.old self.new }
        ensures taken { taken_of self.new ≡ taken_of self.old }
    {
        clear_each(&mut self.each);
    }

    // Puts what waits behind the traces, one for each who asks. The room is to make it in.
    fn pack(&self, room: &mut Vec<Segment>, traces: &mut [Packed]) -> Result<(), AllocError>
        requires { CanPackMore R.names self.now traces.old }
        ensures { (told waiting : List Stretch) → ArePacked R.names self.now traces.old told →
            Wait R.names self.now waiting →
            OnOk result (ArePacked R.names self.now traces.new (told ++ waiting)) }
    {
        pack_rows(&self.each, &self.views, room, traces)
    }

    // Puts the events at the end into the traces.
    fn end_traces(&self, traces: &mut [Packed])
        ensures { (asked : List Vocabulary) (said : Recording) → Asks R.names self.now asked →
            ArePacked R.names self.now traces.old said.stretches →
            HasEnded R.names self.now said.last →
            traces.new ≡ map (trace_for said) asked }
    {
        set_lasts(&self.each, &self.views, traces);
    }

    /// Reads the traces that the source of this name is: one for each who asks.
    pub fn read_traces<S: Source>(
        mut self,
        alloc: Global,
        name: &str,
        source: &mut S,
    ) -> Result<Vec<Packed>, Fault>
        requires closed { (S.told source.old).opened ≡ false }
        requires new { IsNew R.terms R.represents R.names self }
        ensures read { (asked : List Vocabulary) → Asks R.names self asked →
            IfOk result (λ traces. IsWhole asked (recording_of R.recording R.terms self)
            (limit_of self) (input_told (S.told source.old) (S.told source.new)) traces.items) }
        ensures stops { IfErr result (StopsReading (recording_of R.recording R.terms self)
            (limit_of self) name.now (input_told (S.told source.old) (S.told source.new))) }
        ensures bounded { IsTrue (S.told source.new).opened →
            TakesAtMost (limit_of self + 1) (S.told source.old).file (S.told source.new).left }
        ensures by_name { IsTrue (S.told source.new).opened →
            IfSome (S.told source.old).name (λ told. told ≡ name.now) }
    {
        let mut traces = no_traces(alloc, &self.views)?;
        let mut room = Vec::new(alloc);
        self.collect(name, source, &mut room, &mut traces)?;
        Ok(traces)
    }

    // Reads the whole source into the traces, of which none has a segment yet. The room is to make
    // them in.
    fn collect<S: Source>(
        &mut self,
        name: &str,
        source: &mut S,
        room: &mut Vec<Segment>,
        traces: &mut [Packed],
    ) -> Result<(), Fault>
        requires closed { (S.told source.old).opened ≡ false }
        requires new { IsNew R.terms R.represents R.names self.old }
        requires empty { ArePacked R.names self.old traces.old [] }
        ensures read { (asked : List Vocabulary) → Asks R.names self.old asked →
            OnOk result (IsWhole asked (recording_of R.recording R.terms self.old)
            (limit_of self.old) (input_told (S.told source.old) (S.told source.new)) traces.new) }
        ensures stops { IfErr result (StopsReading (recording_of R.recording R.terms self.old)
            (limit_of self.old) name.now (input_told (S.told source.old) (S.told source.new))) }
        ensures bounded { IsTrue (S.told source.new).opened →
            TakesAtMost (limit_of self.old + 1) (S.told source.old).file (S.told source.new).left }
        ensures by_name { IsTrue (S.told source.new).opened →
            IfSome (S.told source.old).name (λ told. told ≡ name.now) }
    {
        self.open(name, source)?;
        loop {
            let more = self.next(source)?;
            self.pack(room, traces)?;
            self.clear();
            if !more {
                break;
            }
        }
        self.end_traces(traces);
        Ok(())
    }
}
