// A reader of pieces of a format whose bytes are parts.
ghost use Rattle.std.specs.Prelude.{◌≡◌, ◌+◌, [], true, false};
ghost use Rattle.tre_parts.specs.Format.{recording_of};
ghost use Rattle.tre_parts.specs.Parts.{IsFedWith};
ghost use Rattle.tre_parts.specs.Growing.{reading-grows, reading-starts};
ghost use Rattle.tre_parts.specs.Times.{reading-is_trace};

use crate::walk::Walk;
use crate::{PartReader, Spot};
use std::alloc::Global;
use tre_trace::{Segment, TraceFault, TraceKind, TraceReader};

/// Reads a format part by part. It keeps the part that isn't ended yet, and what the reader of the
/// parts keeps.
#[derive(Drop)]
pub struct Parts<R: Drop> {
    walk: Walk<R>,
    fed: u64,
    is_spent: bool,
}

impl<R: PartReader + Drop> Parts<R> {
    /// Nothing is fed. The reader must be at the beginning of its format.
    pub fn new(alloc: Global, reader: R) -> Parts<R>
        requires begins { R.holds reader (R.format (R.terms reader)).start }
        ensures fed { ⟦<Parts<R> as TraceReader>⟧.represents result [] }
        ensures begins { ⟦<Parts<R> as TraceReader>⟧.fed_of result ≡ 0 }
        ensures terms { ⟦<Parts<R> as TraceReader>⟧.terms result ≡ R.terms reader }
        ensures names { ⟦<Parts<R> as TraceReader>⟧.names result ≡ R.names reader }
    {
        let spot = Spot {
            number: 1,
            offset: 0,
        };
        let part = Vec::new(alloc);
        let walk = Walk { reader, part, spot };
        Parts {
            walk,
            fed: 0,
            is_spent: false,
        }
    }
}

impl<R: PartReader + Drop> TraceReader for Parts<R> {
    ghost Terms = { R.Terms };

    ghost terms = { λ parts. R.terms parts.walk.reader };

    ghost recording = { λ terms closed bytes. recording_of (R.format terms) closed bytes };

    ghost names = { λ parts. R.names parts.walk.reader };

    ghost represents = { λ parts bytes. IsFedWith R.terms R.format R.holds parts.walk.reader
        parts.walk.part.items parts.walk.spot parts.fed parts.is_spent bytes };

    ghost fed_of = { λ parts. parts.fed };

    ghost is_spent = { λ parts. parts.is_spent };

    ghost counts = { λ parts bytes fed. (fed.counts, fed.goes_on) };

    ghost faultless = { λ parts bytes fed. fed.faultless };

    ghost starts = { λ terms. reading-starts (R.format terms) };

    ghost grows = { λ terms closed first more. reading-grows (R.format terms) closed first more };

    ghost is_trace = { λ terms asked closed bytes.
        reading-is_trace asked (R.format terms) closed bytes (R.keeps_time terms) };

    fn feed(&mut self, piece: &[u8], segments: &mut Vec<Segment>) -> Result<(), TraceFault> {
        if self.is_spent {
            return Err(spent());
        }
        self.is_spent = true;
        self.walk.feed(piece, segments)?;
        self.fed += piece.len() as u64;
        self.is_spent = false;
        Ok(())
    }

    fn finish(&mut self, segments: &mut Vec<Segment>) -> Result<u64, TraceFault> {
        if self.is_spent {
            return Err(spent());
        }
        self.is_spent = true;
        let last = self.walk.finish(self.fed, segments)?;
        Ok(last)
    }

    fn fed(&self) -> u64 {
        self.fed
    }
}

fn spent() -> TraceFault
    ensures { result ≡ record { place = 0; kind = TraceKind.Spent } }
{
    let kind = TraceKind::Spent;
    TraceFault { place: 0, kind }
}
