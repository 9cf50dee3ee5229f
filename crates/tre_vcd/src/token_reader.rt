// The tokens of a dump, one after the other.
ghost use Rattle.std.specs.Prelude.{◌≡◌, ◌≤◌, List, [], ◌∷◌, length, not, ◌&&◌, All, IfOk};
ghost use Rattle.tre_decimal.specs.declared.TheConstants.{SCALE_MAX};
ghost use Rattle.tre_parts.specs.declared.said.Said.{Said};
ghost use Rattle.tre_vcd.specs.VcdReading.{Terms, Statement, first_place, Place, number, is_defined, has_tick, vcd_format};
ghost use Rattle.tre_vcd.specs.Sections.{Holds, KnowsPast, asked_of_reader, terms_kept, is_nothing};
ghost use Rattle.tre_vcd.specs.Needs.{definitions_of, needs};
ghost use Rattle.tre_vcd.specs.Times.{vcd-keeps_time};

use crate::found::Found;
use crate::inside::Inside;
use crate::needed::Needed;
use crate::past::Past;
use crate::scale::Scale;
use crate::signals::Signals;
use crate::token::is_bit;
use crate::white::White;
use std::alloc::{AllocError, Global};
use std::rc::Rc;
use tre_parts::{PartReader, Said, Skimmed, Spot, first_of};
use tre_state::Names;
use tre_trace::{Segment, TraceKind};
use tre_unit::TimeUnit;

/// Reads the tokens of a dump for the propositions and the events of its names.
///
/// It keeps what later tokens need of the past, what is open, the first tokens of an open section,
/// and of the names that the dump must declare those that it has declared.
#[derive(Drop)]
pub struct TokenReader {
    pub(crate) names: Names,
    pub(crate) events: Names,
    pub(crate) needed: Found,
    // No name that is asked or needed is longer.
    pub(crate) longest: usize,
    pub(crate) scale: Scale,
    pub(crate) past: Past,
    // What names read by their definitions.
    pub(crate) signals: Signals,
    pub(crate) inside: Inside,
    pub(crate) tokens: Vec<Vec<u8>>,
    // Those of the vector that waits for its identifier, where there are definitions.
    pub(crate) letters: Vec<u8>,
}

impl TokenReader {
    /// Nothing was read. The dump must declare what is needed, whether it is read or not, and names
    /// are read as its definitions say. A tick of the dump is 10^scale units; where a unit of time
    /// is asked for, a unit is 10^-scale of that, however long a tick takes by the `$timescale`.
    pub fn new(
        alloc: Global,
        names: Names,
        events: Names,
        scale: u8,
        unit: Option<TimeUnit>,
        needed: &Rc<Needed>,
    ) -> Result<TokenReader, AllocError>
        requires scale { scale ≤ SCALE_MAX }
        ensures begins { IfOk result (λ reader.
            ⟦<TokenReader as PartReader>⟧.holds reader first_place) }
        ensures terms { IfOk result (λ reader. ⟦<TokenReader as PartReader>⟧.terms reader
            ≡ record {
              declared = needs needed.now.value ∷ [];
              scale = scale;
              unit = unit;
              definitions = definitions_of needed.now.value;
            }) }
        ensures names { IfOk result (λ reader. ⟦<TokenReader as PartReader>⟧.names reader
            ≡ record { names = names; events = events }) }
    {
        let found = Found::new(alloc, needed)?;
        let signals = Signals::new(alloc, &names, &events, found.definitions())?;
        let own = longest_of(&names).max(longest_of(&events));
        let longest = own.max(found.longest());
        Ok(TokenReader {
            names,
            events,
            needed: found,
            longest,
            scale: Scale::new(scale, unit),
            past: Past::new(alloc),
            signals,
            inside: Inside::Nothing,
            tokens: Vec::new(alloc),
            letters: Vec::new(alloc),
        })
    }

    // Whether the next token is one among the values, where nothing is open.
    #[inline(always)]
    fn reads_values(&self) -> bool
        ensures { result ≡ (self.now.past.is_defined && is_nothing self.now.inside) }
    {
        self.past.is_defined && self.inside.is_nothing()
    }

    // Whether it is known how long a tick takes, where a unit is asked for.
    pub(crate) fn has_tick(&self) -> bool
        ensures { (past : List Statement) → KnowsPast self.now past →
            result ≡ has_tick (terms_kept self.now) past }
    {
        self.scale.unit.is_none() || self.past.tick().is_some()
    }

    // Whether the input may end here.
    fn is_whole(&self) -> bool
        ensures { result ≡ (self.now.past.is_defined && not self.now.past.in_dump
            && is_nothing self.now.inside) }
    {
        self.past.is_defined && !self.past.in_dump && self.inside.is_nothing()
    }
}

impl PartReader for TokenReader {
    ghost State = { Place };

    ghost Terms = { Terms };

    ghost terms = { terms_kept };

    ghost names = { asked_of_reader };

    ghost format = { vcd_format };

    ghost holds = { Holds };

    ghost keeps_time = { vcd-keeps_time };

    #[inline(always)]
    fn separator_in(&self, bytes: &[u8]) -> Option<usize> {
        first_of::<White>(bytes)
    }

    #[inline(always)]
    fn skim(&mut self, bytes: &[u8], segments: &mut Vec<Segment>) -> Skimmed {
        if bytes.len() < 16 {
            return Skimmed { bytes: 0, parts: 0 };
        }
        if !self.reads_values() {
            return Skimmed { bytes: 0, parts: 0 };
        }
        self.skim_values(bytes, segments)
    }

    #[inline(always)]
    fn read(&mut self, part: &[u8]) -> Said {
        let Some((first, rest)) = part.split_first() else {
            return Said::Nothing;
        };
        let letter = *first;
        if self.reads_values() {
            // Most tokens are changes of one bit.
            if is_bit(letter) && !rest.is_empty() && self.signals.is_empty() {
                self.past.change_scalar(rest, letter == b'1');
                return Said::Nothing;
            }
            return self.read_value(part);
        }
        match self.inside {
            Inside::Nothing => self.read_command(part),
            Inside::Section(command) => self.read_inside(command, part),
            Inside::Comment => self.read_comment(part),
            Inside::Vector(value) => self.read_identifier(value, part),
            Inside::Number => self.pass_over(),
        }
    }

    fn at_end(&self) -> Option<TraceKind> {
        if self.is_whole() {
            return None;
        }
        Some(TraceKind::CutShort)
    }

    fn last(&self) -> u64 {
        self.signals.changes.events(self.past.events())
    }

    fn place(&self, spot: Spot) -> u64 {
        spot.offset
    }
}

// The length of the longest of the names.
fn longest_of(names: &Names) -> usize
    ensures { All (λ name. length name ≤ result) names.now }
{
    let mut longest: usize = 0;
    for number in 0..names.len() as u8 {
        match names.name(number) {
            Some(name) => longest = longest.max(name.len()),
            None => unreachable!(),
        }
    }
    longest
}
