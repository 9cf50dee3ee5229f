// The lines of a text trace, one after the other.
ghost use Rattle.std.specs.Prelude.{◌≡◌, ◌≢◌, AllPairs, ℕ, ◌≤◌, []};
ghost use Rattle.tre_decimal.specs.declared.TheConstants.{SCALE_MAX};
ghost use Rattle.tre_text.specs.TextReading.{Past, past_at, text_format};
ghost use Rattle.tre_text.specs.Times.{text-keeps_time};
ghost use Rattle.tre_text.specs.Lines.{Knows};

use crate::found::Found;
use crate::known::Known;
use crate::line::read_line;
use crate::line_end::line_end_in;
use crate::skim::skim_lines;
use std::alloc::Global;
use tre_parts::{PartReader, Said, Skimmed, Spot};
use tre_state::Names;
use tre_trace::{Segment, TraceKind};

/// Reads the lines of a text trace for the propositions and the events of its names, where
/// durations have its scale.
#[derive(Drop)]
pub struct LineReader {
    names: Names,
    events: Names,
    scale: u8,
    known: Known,
    ghost small: { scale ≤ SCALE_MAX },
    ghost distinct: { AllPairs (λ name other. name ≢ other) names },
    ghost events_distinct: { AllPairs (λ name other. name ≢ other) events },
}

impl LineReader {
    /// Nothing is read.
    pub fn new(names: Names, events: Names, scale: u8) -> LineReader
        requires { scale ≤ SCALE_MAX }
        ensures begins { ⟦<LineReader as PartReader>⟧.holds result (past_at 0 []) }
        ensures terms { ⟦<LineReader as PartReader>⟧.terms result ≡ scale }
        ensures names { ⟦<LineReader as PartReader>⟧.names result
            ≡ record { names = names; events = events } }
    {
        // For the proof: the calls say that no name stands twice in a list.
        let _ = names.len();
        let _ = events.len();
        let known = Known { end: 0, pending: 0 };
        LineReader {
            names,
            events,
            scale,
            known,
        }
    }
}

impl PartReader for LineReader {
    ghost State = { Past };

    ghost Terms = { ℕ };

    ghost terms = { λ reader. reader.scale };

    ghost names = { λ reader. record { names = reader.names; events = reader.events } };

    ghost format = { text_format };

    ghost holds = { λ reader past. Knows reader.events reader.known past };

    ghost keeps_time = { text-keeps_time };

    #[inline(always)]
    fn separator_in(&self, bytes: &[u8]) -> Option<usize> {
        line_end_in(bytes)
    }

    #[inline(always)]
    fn skim(&mut self, bytes: &[u8], segments: &mut Vec<Segment>) -> Skimmed {
        if bytes.len() < 16 {
            return Skimmed { bytes: 0, parts: 0 };
        }
        skim_lines(&self.names, self.scale, &mut self.known, bytes, segments)
    }

    #[inline(always)]
    fn read(&mut self, part: &[u8]) -> Said {
        match read_line(&self.names, &self.events, self.scale, self.known, part) {
            Found::Nothing => Said::Nothing,
            Found::Events(pending) => {
                self.known.pending = pending;
                Said::Nothing
            }
            Found::Entry(len, val) => {
                let ev = self.known.pending;
                self.known.end += len;
                self.known.pending = 0;
                Said::Says(Segment { len, val, ev })
            }
            Found::Wrong(kind) => Said::Wrong(kind),
        }
    }

    fn at_end(&self) -> Option<TraceKind> {
        None
    }

    fn last(&self) -> u64 {
        self.known.pending
    }

    fn place(&self, spot: Spot) -> u64 {
        spot.number
    }
}
