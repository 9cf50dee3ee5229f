// Readers of one input, each with the row that it has read for its names.
ghost use Rattle.std.specs.Prelude.{◌≡◌, ℕ, ◌+◌, ◌<◌, ◌≤◌, Bool, List, [], ◌++◌, length, true, false, IsTrue, OnOk};
ghost use Rattle.std.specs.List.{AllByRecursion};
ghost use Rattle.tre_trace.specs.Reading.{Recording, Stretch, events_for};
ghost use Rattle.tre_trace.specs.declared.reader.TheConstants.{FED_MAX};
ghost use Rattle.tre_feed.specs.Each.{AllEnded, AllStand, AllWait, AllWereFed, FaultsAre, LastsAre, RowsAre, RowsBegin, TakesOne, all_asked, asked_by, recording_by};
ghost use Rattle.tre_feed.specs.Stops.{IsOfReaders, IsToldOf, TakesIn};

use crate::fault::Fault;
use std::alloc::Global;
use tre_trace::{Segment, TraceFault, TraceKind, TraceReader};

// A reader, the segments that it has read and nobody has taken, the events at the end once it was
// told that, and the first fault of the input once it was found.
#[derive(Drop)]
pub struct Fed<R: Drop> {
    pub reader: R,
    pub row: Vec<Segment>,
    pub last: u64,
    pub fault: Option<TraceFault>,
}

impl<R: TraceReader + Drop> Fed<R> {
    // Nothing was read yet.
    pub fn new(alloc: Global, reader: R) -> Fed<R>
        ensures reader { result.reader ≡ reader }
        ensures none { result.row.items ≡ [] }
    {
        Fed {
            reader,
            row: Vec::new(alloc),
            last: 0,
            fault: None,
        }
    }

    // Feeds a piece. Says whether there was memory.
    fn feed(&mut self, piece: &[u8]) -> bool
        requires room { R.fed_of self.old.reader + length piece.now ≤ FED_MAX }
        ensures goes_on { (bytes : List ℕ) → R.represents self.old.reader bytes →
            IsTrue result → (R.recording (R.terms self.old.reader) false
            (bytes ++ piece.now)).fault ≡ None →
            R.represents self.new.reader (bytes ++ piece.now) }
        ensures takes { (bytes : List ℕ) → R.represents self.old.reader bytes →
            TakesOne (R.names self.old.reader) self.old.row.items self.new.row.items
            (R.recording (R.terms self.old.reader) false bytes)
            (R.recording (R.terms self.old.reader) false (bytes ++ piece.now))
            self.new.fault result }
        ensures same { asked_by R.names R.terms self.new.reader
            ≡ asked_by R.names R.terms self.old.reader }
    {
        match self.reader.feed(piece, &mut self.row) {
            Ok(()) => {
                self.fault = None;
                true
            }
            Err(fault) => {
                self.fault = Some(fault);
                fault.kind != TraceKind::Memory
            }
        }
    }

    // Tells the end. Says whether there was memory.
    fn finish(&mut self) -> bool
        ensures last { (bytes : List ℕ) → R.represents self.old.reader bytes →
            IsTrue result → (R.recording (R.terms self.old.reader) true bytes).fault ≡ None →
            self.new.last ≡ events_for (R.names self.old.reader)
            (R.recording (R.terms self.old.reader) true bytes).last }
        ensures takes { (bytes : List ℕ) → R.represents self.old.reader bytes →
            TakesOne (R.names self.old.reader) self.old.row.items self.new.row.items
            (R.recording (R.terms self.old.reader) false bytes)
            (R.recording (R.terms self.old.reader) true bytes) self.new.fault result }
        ensures same { asked_by R.names R.terms self.new.reader
            ≡ asked_by R.names R.terms self.old.reader }
    {
        match self.reader.finish(&mut self.row) {
            Ok(last) => {
                self.last = last;
                self.fault = None;
                true
            }
            Err(fault) => {
                self.fault = Some(fault);
                fault.kind != TraceKind::Memory
            }
        }
    }
}

// Feeds a piece to each, also behind one that has a fault, since all have the same. Says whether
// there was memory.
fn feed_each<R: TraceReader + Drop>(each: &mut [Fed<R>], piece: &[u8]) -> bool
    requires room { AllByRecursion (λ fed. R.fed_of fed.reader + length piece.now ≤ FED_MAX)
        each.old }
    ensures rows { (terms : R.Terms) (bytes : List ℕ) (added waiting : List Stretch) →
        AllStand R.terms R.represents terms bytes each.old →
        (R.recording terms false (bytes ++ piece.now)).stretches
        ≡ (R.recording terms false bytes).stretches ++ added →
        RowsAre R.names each.old waiting → IsTrue result →
        RowsAre R.names each.new (waiting ++ added) }
    ensures goes_on { (terms : R.Terms) (bytes : List ℕ) →
        AllStand R.terms R.represents terms bytes each.old →
        (R.recording terms false (bytes ++ piece.now)).fault ≡ None →
        IsTrue result → AllStand R.terms R.represents terms (bytes ++ piece.now) each.new }
    ensures faults { (terms : R.Terms) (bytes : List ℕ) →
        AllStand R.terms R.represents terms bytes each.old → IsTrue result →
        FaultsAre (R.recording terms false (bytes ++ piece.now)) each.new }
    ensures front { (terms : R.Terms) (bytes : List ℕ) (waiting : List Stretch) →
        AllStand R.terms R.represents terms bytes each.old →
        RowsAre R.names each.old waiting → RowsBegin R.names each.new waiting }
    ensures same { all_asked R.names R.terms each.new ≡ all_asked R.names R.terms each.old }
{
    let Some((first, later)) = each.split_first_mut() else {
        return true;
    };
    if !first.feed(piece) {
        return false;
    }
    feed_each(later, piece)
}

// Tells each the end, also behind one that has a fault, since all have the same. Says whether there
// was memory.
fn finish_each<R: TraceReader + Drop>(each: &mut [Fed<R>]) -> bool
    ensures rows { (terms : R.Terms) (bytes : List ℕ) (added waiting : List Stretch) →
        AllStand R.terms R.represents terms bytes each.old →
        (R.recording terms true bytes).stretches
        ≡ (R.recording terms false bytes).stretches ++ added →
        RowsAre R.names each.old waiting → IsTrue result →
        RowsAre R.names each.new (waiting ++ added) }
    ensures lasts { (terms : R.Terms) (bytes : List ℕ) →
        AllStand R.terms R.represents terms bytes each.old →
        (R.recording terms true bytes).fault ≡ None →
        IsTrue result → LastsAre R.names each.new (R.recording terms true bytes).last }
    ensures faults { (terms : R.Terms) (bytes : List ℕ) →
        AllStand R.terms R.represents terms bytes each.old → IsTrue result →
        FaultsAre (R.recording terms true bytes) each.new }
    ensures front { (terms : R.Terms) (bytes : List ℕ) (waiting : List Stretch) →
        AllStand R.terms R.represents terms bytes each.old →
        RowsAre R.names each.old waiting → RowsBegin R.names each.new waiting }
    ensures same { all_asked R.names R.terms each.new ≡ all_asked R.names R.terms each.old }
{
    let Some((first, later)) = each.split_first_mut() else {
        return true;
    };
    if !first.finish() {
        return false;
    }
    finish_each(later)
}

// Cuts each row to its first segments, as many as `count`.
fn cut_each<R: TraceReader + Drop>(each: &mut [Fed<R>], count: usize)
    ensures rows { (waiting : List Stretch) → length waiting ≡ count →
        RowsBegin R.names each.old waiting → RowsAre R.names each.new waiting }
    ensures same { all_asked R.names R.terms each.new ≡ all_asked R.names R.terms each.old }
{
    let Some((first, later)) = each.split_first_mut() else {
        return;
    };
    first.row.truncate(count);
    cut_each(later, count);
}

// The first fault that they have told, if there is one.
fn told_by<R: Drop>(each: &[Fed<R>]) -> Result<(), Fault>
    requires some { 0 < length each.now }
    ensures told { (now : Recording) → FaultsAre now each.now → IsToldOf now result }
    ensures of_readers { IsOfReaders result }
{
    match each[0].fault {
        None => Ok(()),
        Some(fault) => Err(Fault::Trace(fault)),
    }
}

// How many stretches wait.
pub fn waiting_in<R: TraceReader + Drop>(each: &[Fed<R>]) -> usize
    requires { 0 < length each.now }
    ensures { (stretches : List Stretch) → RowsAre R.names each.now stretches →
        result ≡ length stretches }
{
    each[0].row.len()
}

// Feeds a piece to all of them. Where there is no memory for one, those stretches wait that did.
pub fn feed_all<R: TraceReader + Drop>(each: &mut [Fed<R>], piece: &[u8]) -> Result<(), Fault>
    requires some { 0 < length each.old }
    requires room { AllByRecursion (λ fed. R.fed_of fed.reader + length piece.now ≤ FED_MAX)
        each.old }
    ensures goes_on { (bytes : List ℕ) → AllWereFed R.terms R.represents each.old bytes →
        OnOk result (AllWereFed R.terms R.represents each.new (bytes ++ piece.now)) }
    ensures takes { (bytes : List ℕ) → AllWereFed R.terms R.represents each.old bytes →
        TakesIn (AllWait R.names each.old) (AllWait R.names each.new)
        (recording_by R.recording R.terms each.old false bytes)
        (recording_by R.recording R.terms each.old false (bytes ++ piece.now)) result }
    ensures of_readers { IsOfReaders result }
    ensures same { all_asked R.names R.terms each.new ≡ all_asked R.names R.terms each.old }
{
    let waiting = waiting_in(each);
    if !feed_each(each, piece) {
        cut_each(each, waiting);
        return Err(Fault::Memory);
    }
    told_by(each)
}

// Tells all of them the end. Where there is no memory for one, those stretches wait that did.
pub fn finish_all<R: TraceReader + Drop>(each: &mut [Fed<R>]) -> Result<(), Fault>
    requires some { 0 < length each.old }
    ensures ended { (bytes : List ℕ) → AllWereFed R.terms R.represents each.old bytes →
        OnOk result (AllEnded R.names each.new
        (recording_by R.recording R.terms each.old true bytes).last) }
    ensures takes { (bytes : List ℕ) → AllWereFed R.terms R.represents each.old bytes →
        TakesIn (AllWait R.names each.old) (AllWait R.names each.new)
        (recording_by R.recording R.terms each.old false bytes)
        (recording_by R.recording R.terms each.old true bytes) result }
    ensures of_readers { IsOfReaders result }
    ensures same { all_asked R.names R.terms each.new ≡ all_asked R.names R.terms each.old }
{
    let waiting = waiting_in(each);
    if !finish_each(each) {
        cut_each(each, waiting);
        return Err(Fault::Memory);
    }
    told_by(each)
}

// Drops the segments of each.
pub fn clear_each<R: TraceReader + Drop>(each: &mut [Fed<R>])
    ensures none { RowsAre R.names each.new [] }
    ensures fed { (terms : R.Terms) (bytes : List ℕ) →
        AllStand R.terms R.represents terms bytes each.old →
        AllStand R.terms R.represents terms bytes each.new }
    ensures lasts { (last : List ℕ → Bool) → LastsAre R.names each.old last →
        LastsAre R.names each.new last }
    ensures same { all_asked R.names R.terms each.new ≡ all_asked R.names R.terms each.old }
{
    let Some((first, later)) = each.split_first_mut() else {
        return;
    };
    first.row.clear();
    clear_each(later);
}
