// The input that is a text trace.
ghost use Rattle.std.specs.Prelude.{◌≡◌, ◌<◌, ◌≤◌, [], length, map, IfOk};
ghost use Rattle.std.specs.List.{AllByRecursion};
ghost use Rattle.tre_decimal.specs.declared.TheConstants.{SCALE_MAX};
ghost use Rattle.tre_feed.specs.Standing.{Asks, IsNew, limit_of, recording_of};
ghost use Rattle.tre_syntax.specs.Pattern.{names_of};
ghost use Rattle.tre_text.specs.TextReading.{text_recording};
ghost use Rattle.tre_trace.specs.declared.reader.TheConstants.{FED_MAX};

use crate::group::Group;
use crate::input::Input;
use crate::lists::put_last;
use crate::shares::share;
use std::alloc::{AllocError, Global};
use tre_syntax::Pattern;
use tre_text::{LineReader, TextReader};
use tre_trace::TraceReader;

/// A text trace that is read for these patterns, as far as the limit. Nothing of it was read.
pub fn text_input(
    alloc: Global,
    patterns: &[Pattern],
    scale: u8,
    limit: usize,
) -> Result<Input<TextReader>, AllocError>
    requires some { 0 < length patterns.now }
    requires scale { scale ≤ SCALE_MAX }
    requires fits { limit ≤ FED_MAX }
    ensures new { IfOk result (IsNew ⟦<TextReader as TraceReader>⟧.terms
        ⟦<TextReader as TraceReader>⟧.represents ⟦<TextReader as TraceReader>⟧.names) }
    ensures asks { IfOk result (λ input. Asks ⟦<TextReader as TraceReader>⟧.names input
        (map names_of patterns.now)) }
    ensures recording { IfOk result (λ input.
        recording_of ⟦<TextReader as TraceReader>⟧.recording
        ⟦<TextReader as TraceReader>⟧.terms input ≡ text_recording scale) }
    ensures limit { IfOk result (λ input. limit_of input ≡ limit) }
{
    let shares = share(alloc, patterns)?;
    let (groups, views) = shares.into_parts();
    let Ok(readers) = text_readers(alloc, &groups, scale) else {
        return Err(AllocError);
    };
    Input::new(alloc, readers, views, limit)
}

// A reader of text for each group, at its place.
fn text_readers(alloc: Global, groups: &[Group], scale: u8) -> Result<Vec<TextReader>, AllocError>
    requires { scale ≤ SCALE_MAX }
    ensures names { IfOk result (λ readers.
        map ⟦<TextReader as TraceReader>⟧.names readers.items ≡ groups.now) }
    ensures fresh { IfOk result (λ readers. AllByRecursion
        (λ reader. (⟦<TextReader as TraceReader>⟧.terms reader ≡ scale)
        × ⟦<TextReader as TraceReader>⟧.represents reader []) readers.items) }
{
    let mut readers = Vec::new(alloc);
    for group in groups {
        put_last(&mut readers, text_reader(alloc, group, scale)?)?;
    }
    Ok(readers)
}

// A reader of text for the names of the group.
fn text_reader(alloc: Global, group: &Group, scale: u8) -> Result<TextReader, AllocError>
    requires { scale ≤ SCALE_MAX }
    ensures fresh { IfOk result (λ reader. ⟦<TextReader as TraceReader>⟧.represents reader []) }
    ensures terms { IfOk result (λ reader. ⟦<TextReader as TraceReader>⟧.terms reader ≡ scale) }
    ensures names { IfOk result (λ reader. ⟦<TextReader as TraceReader>⟧.names reader
        ≡ group.now) }
{
    let (names, events) = group.lists()?;
    Ok(TextReader::new(alloc, LineReader::new(names, events, scale)))
}
