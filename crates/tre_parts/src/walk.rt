// Where a reader is in its input.
ghost use Rattle.std.specs.Prelude.{◌≡◌, ◌≢◌, ℕ, ◌+◌, ◌≤◌, List, [], ◌∷◌, None, ◌++◌, length, drop, true, false, OnOk, IfErr};
ghost use Rattle.tre_parts.specs.Format.{recording_of, part_says};
ghost use Rattle.tre_parts.specs.Skims.{IsFed};
ghost use Rattle.tre_parts.specs.Walk.{HasNoSeparator, IsAt, AddsPart, IsRefusedPart, IsEnded, TakesBytes};
ghost use Rattle.tre_trace.specs.Reading.{IsPlaced, Vocabulary};
ghost use Rattle.tre_trace.specs.declared.fault.TraceKind.TheVariants.{Spent};
ghost use Rattle.tre_trace.specs.declared.segment.Segment.{Segment};

use crate::{PART_MAX, PartReader, Said, Spot};
use std::alloc::Global;
use tre_trace::{FED_MAX, Segment, TraceFault, TraceKind};

// The readers of the parts, the part that isn't ended yet, and where it begins.
#[derive(Drop)]
pub struct Walk<R: Drop> {
    pub reader: R,
    pub part: Vec<u8>,
    pub spot: Spot,
}

// Reads a part, and puts the segment that it says behind the others.
#[inline(always)]
fn add_part<R: PartReader + Drop>(
    reader: &mut R,
    spot: Spot,
    part: &[u8],
    segments: &mut Vec<Segment>,
) -> Result<(), TraceFault>
    ensures adds { (state : R.State) → R.holds reader.old state →
        OnOk result (AddsPart (R.names reader.old) (part_says (R.format (R.terms reader.old)) state
        part.now)
        (R.holds reader.new) segments.old.items segments.new.items) }
    ensures refused { (state : R.State) → R.holds reader.old state →
        IfErr result (IsRefusedPart (part_says (R.format (R.terms reader.old)) state part.now)
        ((R.format (R.terms reader.old)).place spot) segments.old.items segments.new.items) }
    ensures never_spent { IfErr result (λ fault. fault.kind ≢ Spent) }
    ensures placed { IfErr result IsPlaced }
    ensures same_terms { R.terms reader.new ≡ R.terms reader.old }
    ensures same_names { R.names reader.new ≡ R.names reader.old }
{
    let place = reader.place(spot);
    if part.len() > PART_MAX {
        let kind = TraceKind::LineTooLong;
        return Err(TraceFault { place, kind });
    }
    match reader.read(part) {
        Said::Nothing => Ok(()),
        Said::Says(segment) => match segments.push(segment) {
            Ok(()) => Ok(()),
            Err(_) => Err(out_of_memory()),
        },
        Said::Wrong(TraceKind::Memory) => Err(out_of_memory()),
        Said::Wrong(kind) => Err(TraceFault { place, kind }),
    }
}

fn out_of_memory() -> TraceFault
    ensures { result ≡ record { place = 0; kind = TraceKind.Memory } }
{
    let kind = TraceKind::Memory;
    TraceFault { place: 0, kind }
}

// The first bytes, at most so many.
#[inline(always)]
fn first_bytes(bytes: &[u8], most: usize) -> &[u8]
    ensures cut { bytes.now ≡ result.now ++ drop (length result.now) bytes.now }
    ensures within { length result.now ≤ length bytes.now }
    ensures short { length result.now ≤ most }
{
    if bytes.len() <= most {
        return bytes;
    }
    &bytes[..most]
}

impl<R: PartReader + Drop> Walk<R> {
    // Keeps bytes of a part that isn't ended yet.
    fn keep(&mut self, more: &[u8]) -> Result<(), TraceFault>
        ensures takes { (asked : Vocabulary) (terms : R.Terms) (bytes : List ℕ)
            (segments : List Segment) →
            IsAt R.terms R.format R.holds terms self.old.reader self.old.part.items self.old.spot
            bytes →
            HasNoSeparator (R.format terms).separates more.now →
            TakesBytes asked (λ _. IsAt R.terms R.format R.holds terms self.new.reader
            self.new.part.items
            self.new.spot (bytes ++ more.now))
            segments segments (recording_of (R.format terms) false bytes)
            (recording_of (R.format terms) false (bytes ++ more.now)) result }
        ensures never_spent { IfErr result (λ fault. fault.kind ≢ Spent) }
        ensures placed { IfErr result IsPlaced }
        ensures same_reader { self.new.reader ≡ self.old.reader }
    {
        if self.part.len() + more.len() > PART_MAX {
            let place = self.reader.place(self.spot);
            let kind = TraceKind::LineTooLong;
            return Err(TraceFault { place, kind });
        }
        match self.part.extend_from_slice(more) {
            Ok(()) => Ok(()),
            Err(_) => Err(out_of_memory()),
        }
    }

    // Reads a part that lies whole in these bytes, behind which a separator stands.
    #[inline(always)]
    fn end_here(&mut self, part: &[u8], segments: &mut Vec<Segment>) -> Result<(), TraceFault>
        requires { self.old.part.items ≡ [] }
        ensures takes { (terms : R.Terms) (bytes : List ℕ) (separator : ℕ) →
            IsAt R.terms R.format R.holds terms self.old.reader self.old.part.items self.old.spot
            bytes →
            HasNoSeparator (R.format terms).separates part.now → (R.format terms).separates
            separator
            ≡ true →
            length bytes + length part.now + 1 ≤ FED_MAX →
            TakesBytes (R.names self.old.reader) (λ _. IsAt R.terms R.format R.holds terms
            self.new.reader self.new.part.items
            self.new.spot (bytes ++ (part.now ++ separator ∷ [])))
            segments.old.items segments.new.items (recording_of (R.format terms) false bytes)
            (recording_of (R.format terms) false (bytes ++ (part.now ++ separator ∷ []))) result }
        ensures never_spent { IfErr result (λ fault. fault.kind ≢ Spent) }
        ensures placed { IfErr result IsPlaced }
        ensures same_terms { R.terms self.new.reader ≡ R.terms self.old.reader }
        ensures same_names { R.names self.new.reader ≡ R.names self.old.reader }
    {
        add_part(&mut self.reader, self.spot, part, segments)?;
        self.spot = self.spot.after(part.len());
        Ok(())
    }

    // Reads the part that was kept, behind which a separator stands.
    fn end_kept(&mut self, segments: &mut Vec<Segment>) -> Result<(), TraceFault>
        ensures takes { (terms : R.Terms) (bytes : List ℕ) (separator : ℕ) →
            IsAt R.terms R.format R.holds terms self.old.reader self.old.part.items self.old.spot
            bytes →
            (R.format terms).separates separator ≡ true → length bytes + 1 ≤ FED_MAX →
            TakesBytes (R.names self.old.reader) (λ _. IsAt R.terms R.format R.holds terms
            self.new.reader self.new.part.items
            self.new.spot (bytes ++ separator ∷ []))
            segments.old.items segments.new.items (recording_of (R.format terms) false bytes)
            (recording_of (R.format terms) false (bytes ++ separator ∷ [])) result }
        ensures never_spent { IfErr result (λ fault. fault.kind ≢ Spent) }
        ensures placed { IfErr result IsPlaced }
        ensures same_terms { R.terms self.new.reader ≡ R.terms self.old.reader }
        ensures same_names { R.names self.new.reader ≡ R.names self.old.reader }
    {
        add_part(&mut self.reader, self.spot, &self.part, segments)?;
        self.spot = self.spot.after(self.part.len());
        self.part.clear();
        Ok(())
    }

    // Reads the part that ends behind these bytes, where a separator stands.
    #[inline(always)]
    fn end_part(&mut self, front: &[u8], segments: &mut Vec<Segment>) -> Result<(), TraceFault>
        ensures takes { (terms : R.Terms) (bytes : List ℕ) (separator : ℕ) →
            IsAt R.terms R.format R.holds terms self.old.reader self.old.part.items self.old.spot
            bytes →
            HasNoSeparator (R.format terms).separates front.now → (R.format terms).separates
            separator
            ≡ true →
            length bytes + length front.now + 1 ≤ FED_MAX →
            TakesBytes (R.names self.old.reader) (λ _. IsAt R.terms R.format R.holds terms
            self.new.reader self.new.part.items
            self.new.spot (bytes ++ (front.now ++ separator ∷ [])))
            segments.old.items segments.new.items (recording_of (R.format terms) false bytes)
            (recording_of (R.format terms) false (bytes ++ (front.now ++ separator ∷ []))) result }
        ensures never_spent { IfErr result (λ fault. fault.kind ≢ Spent) }
        ensures placed { IfErr result IsPlaced }
        ensures same_terms { R.terms self.new.reader ≡ R.terms self.old.reader }
        ensures same_names { R.names self.new.reader ≡ R.names self.old.reader }
    {
        if self.part.is_empty() {
            self.end_here(front, segments)?;
            return Ok(());
        }
        self.keep(front)?;
        self.end_kept(segments)?;
        Ok(())
    }

    // Reads whole parts at once from the front of the bytes on, where no part was begun, and gives
    // what is left.
    #[inline(always)]
    fn skim<'a>(&mut self, bytes: &'a [u8], segments: &mut Vec<Segment>) -> &'a [u8]
        ensures fed { IsFed R.names R.terms R.format R.holds self.old.reader self.old.part.items
            self.old.spot segments.old.items bytes.now self.new.reader self.new.part.items
            self.new.spot segments.new.items result.now }
        ensures shorter { length result.now ≤ length bytes.now }
    {
        if !self.part.is_empty() {
            return bytes;
        }
        let read = self.reader.skim(first_bytes(bytes, PART_MAX), segments);
        self.spot = self.spot.behind(read);
        &bytes[read.bytes..]
    }

    // Reads a piece: the parts that end in it, and then what is kept of it.
    pub fn feed(&mut self, piece: &[u8], segments: &mut Vec<Segment>) -> Result<(), TraceFault>
        ensures takes { (terms : R.Terms) (bytes : List ℕ) →
            IsAt R.terms R.format R.holds terms self.old.reader self.old.part.items self.old.spot
            bytes →
            length bytes + length piece.now ≤ FED_MAX →
            TakesBytes (R.names self.old.reader) (λ _. IsAt R.terms R.format R.holds terms
            self.new.reader self.new.part.items
            self.new.spot (bytes ++ piece.now))
            segments.old.items segments.new.items (recording_of (R.format terms) false bytes)
            (recording_of (R.format terms) false (bytes ++ piece.now)) result }
        ensures never_spent { IfErr result (λ fault. fault.kind ≢ Spent) }
        ensures placed { IfErr result IsPlaced }
        ensures same_terms { R.terms self.new.reader ≡ R.terms self.old.reader }
        ensures same_names { R.names self.new.reader ≡ R.names self.old.reader }
    {
        let mut rest = self.skim(piece, segments);
        while let Some(place) = self.reader.separator_in(rest) {
            self.end_part(&rest[..place], segments)?;
            rest = self.skim(&rest[place + 1..], segments);
        }
        self.keep(rest)?;
        Ok(())
    }

    // Reads the end of the input, which is at this offset, and tells the events there.
    pub fn finish(&mut self, end: u64, segments: &mut Vec<Segment>) -> Result<u64, TraceFault>
        ensures takes { (terms : R.Terms) (bytes : List ℕ) →
            IsAt R.terms R.format R.holds terms self.old.reader self.old.part.items self.old.spot
            bytes →
            end ≡ length bytes →
            TakesBytes (R.names self.old.reader) (IsEnded (R.names self.old.reader)
            (recording_of (R.format terms) true bytes)) segments.old.items
            segments.new.items
            (recording_of (R.format terms) false bytes) (recording_of (R.format terms) true bytes)
            result }
        ensures never_spent { IfErr result (λ fault. fault.kind ≢ Spent) }
        ensures placed { IfErr result IsPlaced }
        ensures same_terms { R.terms self.new.reader ≡ R.terms self.old.reader }
        ensures same_names { R.names self.new.reader ≡ R.names self.old.reader }
    {
        add_part(&mut self.reader, self.spot, &self.part, segments)?;
        match self.reader.at_end() {
            None => Ok(self.reader.last()),
            Some(kind) => Err(TraceFault { place: end, kind }),
        }
    }
}
