// The input that is a dump.
ghost use Rattle.std.specs.Prelude.{◌≡◌, ◌<◌, ◌≤◌, ◌∷◌, [], length, map, IfOk, OnOk};
ghost use Rattle.std.specs.List.{AllByRecursion};
ghost use Rattle.tre_decimal.specs.declared.TheConstants.{SCALE_MAX};
ghost use Rattle.tre_feed.specs.Standing.{Asks, IsNew, limit_of, recording_of};
ghost use Rattle.tre_feed.specs.Dump.{NeedsAll, dump_terms};
ghost use Rattle.tre_syntax.specs.Pattern.{names_of};
ghost use Rattle.tre_trace.specs.Reading.{no_names};
ghost use Rattle.tre_trace.specs.declared.reader.TheConstants.{FED_MAX};
ghost use Rattle.tre_vcd.specs.Needs.{definitions_of, needs};
ghost use Rattle.tre_vcd.specs.VcdReading.{vcd_recording};

use crate::group::Group;
use crate::input::Input;
use crate::lists::put_last;
use crate::shares::share;
use std::alloc::{AllocError, Global};
use std::rc::Rc;
use tre_define::SignalDefinition;
use tre_syntax::Pattern;
use tre_trace::TraceReader;
use tre_unit::TimeUnit;
use tre_vcd::{Needed, TokenReader, VcdReader};

/// A dump that is read for these patterns, whose names mean what the definitions say, as far as the
/// limit, with its times in the unit, if there is one. It must declare what the names of all
/// patterns read. Nothing of it was read.
pub fn dump_input(
    alloc: Global,
    patterns: &[Pattern],
    definitions: &[SignalDefinition],
    scale: u8,
    unit: Option<TimeUnit>,
    limit: usize,
) -> Result<Input<VcdReader>, AllocError>
    requires some { 0 < length patterns.now }
    requires scale { scale ≤ SCALE_MAX }
    requires fits { limit ≤ FED_MAX }
    ensures new { IfOk result (IsNew ⟦<VcdReader as TraceReader>⟧.terms
        ⟦<VcdReader as TraceReader>⟧.represents ⟦<VcdReader as TraceReader>⟧.names) }
    ensures asks { IfOk result (λ input. Asks ⟦<VcdReader as TraceReader>⟧.names input
        (map names_of patterns.now)) }
    ensures recording { IfOk result (λ input.
        recording_of ⟦<VcdReader as TraceReader>⟧.recording
        ⟦<VcdReader as TraceReader>⟧.terms input
        ≡ vcd_recording (dump_terms (map names_of patterns.now) scale unit definitions.now)) }
    ensures limit { IfOk result (λ input. limit_of input ≡ limit) }
{
    let shares = share(alloc, patterns)?;
    let (groups, views) = shares.into_parts();
    let needed = needed_by(alloc, patterns, definitions)?;
    let Ok(readers) = dump_readers(alloc, &groups, &needed, scale, unit) else {
        return Err(AllocError);
    };
    Input::new(alloc, readers, views, limit)
}

// The names that a dump for these patterns must declare, to be shared by its readers.
fn needed_by(
    alloc: Global,
    patterns: &[Pattern],
    definitions: &[SignalDefinition],
) -> Result<Rc<Needed>, AllocError>
    ensures needs { IfOk result (λ needed.
        NeedsAll (needs needed.value) (map names_of patterns.now)) }
    ensures definitions { IfOk result (λ needed.
        definitions_of needed.value ≡ definitions.now) }
{
    let mut needed = Needed::new(alloc);
    let Ok(()) = need_all(&mut needed, patterns, definitions) else {
        drop(needed);
        return Err(AllocError);
    };
    shared(alloc, needed)
}

// Needs the names of each of the patterns, by the definitions, where none was needed.
fn need_all(
    needed: &mut Needed,
    patterns: &[Pattern],
    definitions: &[SignalDefinition],
) -> Result<(), AllocError>
    requires { needs needed.old ≡ no_names }
    ensures needs { OnOk result (NeedsAll (needs needed.new) (map names_of patterns.now)) }
    ensures definitions { OnOk result (definitions_of needed.new ≡ definitions.now) }
{
    needed.define(definitions)?;
    for pattern in patterns {
        needed.add(pattern.names(), pattern.events())?;
    }
    Ok(())
}

// The value, to be shared.
fn shared<T: Drop>(alloc: Global, value: T) -> Result<Rc<T>, AllocError>
    ensures { IfOk result (λ one. one.value ≡ value) }
{
    match Rc::new(alloc, value) {
        Ok(one) => Ok(one),
        Err(_) => Err(AllocError),
    }
}

// A reader of the dump for each group, at its place.
fn dump_readers(
    alloc: Global,
    groups: &[Group],
    needed: &Rc<Needed>,
    scale: u8,
    unit: Option<TimeUnit>,
) -> Result<Vec<VcdReader>, AllocError>
    requires scale { scale ≤ SCALE_MAX }
    ensures names { IfOk result (λ readers.
        map ⟦<VcdReader as TraceReader>⟧.names readers.items ≡ groups.now) }
    ensures fresh { IfOk result (λ readers. AllByRecursion
        (λ reader. (⟦<VcdReader as TraceReader>⟧.terms reader
        ≡ dump_terms (needs needed.now.value ∷ []) scale unit (definitions_of needed.now.value))
        × ⟦<VcdReader as TraceReader>⟧.represents reader []) readers.items) }
{
    let mut readers = Vec::new(alloc);
    for group in groups {
        put_last(
            &mut readers,
            dump_reader(alloc, group, needed, scale, unit)?,
        )?;
    }
    Ok(readers)
}

// A reader of the dump for the names of the group, which must declare these names.
fn dump_reader(
    alloc: Global,
    group: &Group,
    needed: &Rc<Needed>,
    scale: u8,
    unit: Option<TimeUnit>,
) -> Result<VcdReader, AllocError>
    requires scale { scale ≤ SCALE_MAX }
    ensures fresh { IfOk result (λ reader. ⟦<VcdReader as TraceReader>⟧.represents reader []) }
    ensures terms { IfOk result (λ reader. ⟦<VcdReader as TraceReader>⟧.terms reader
        ≡ dump_terms (needs needed.now.value ∷ []) scale unit
        (definitions_of needed.now.value)) }
    ensures names { IfOk result (λ reader. ⟦<VcdReader as TraceReader>⟧.names reader
        ≡ group.now) }
{
    let (names, events) = group.lists()?;
    let tokens = TokenReader::new(alloc, names, events, scale, unit, needed)?;
    Ok(VcdReader::new(alloc, tokens))
}
