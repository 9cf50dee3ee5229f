// The input of rows.
ghost use Rattle.std.specs.Prelude.{◌≡◌, ◌<◌, ◌≤◌, ◌∷◌, ◌++◌, [], length, map, IfOk, OnOk};
ghost use Rattle.std.specs.List.{AllByRecursion};
ghost use Rattle.tre_decimal.specs.declared.TheConstants.{SCALE_MAX};
ghost use Rattle.tre_feed.specs.Standing.{Asks, IsNew, limit_of, recording_of};
ghost use Rattle.tre_num.specs.Needs.{declared_of, definitions_of, terms_of};
ghost use Rattle.tre_num.specs.Rows.{rows_recording};
ghost use Rattle.tre_syntax.specs.Pattern.{names_of};
ghost use Rattle.tre_trace.specs.declared.reader.TheConstants.{FED_MAX};

use std::alloc::{AllocError, Global};
use std::rc::Rc;
use tre_feed::{Group, Input, share};
use tre_num::{ColumnsReader, Definition, Needed};
use tre_syntax::Pattern;
use tre_trace::TraceReader;

/// An input of rows for these patterns, of which the definitions say what names mean. The columns
/// that any of them reads are judged. At most `limit` of its bytes count.
pub fn column_input(
    alloc: Global,
    patterns: &[Pattern],
    definitions: Vec<Definition>,
    scale: u8,
    limit: usize,
) -> Result<Input<ColumnsReader>, AllocError>
    requires some { 0 < length patterns.now }
    requires scale { scale ≤ SCALE_MAX }
    requires fits { limit ≤ FED_MAX }
    ensures new { IfOk result (IsNew ⟦<ColumnsReader as TraceReader>⟧.terms
        ⟦<ColumnsReader as TraceReader>⟧.represents ⟦<ColumnsReader as TraceReader>⟧.names) }
    ensures asks { IfOk result (λ input. Asks ⟦<ColumnsReader as TraceReader>⟧.names input
        (map names_of patterns.now)) }
    ensures recording { IfOk result (λ input. recording_of
        ⟦<ColumnsReader as TraceReader>⟧.recording ⟦<ColumnsReader as TraceReader>⟧.terms input
        ≡ rows_recording (record {
          definitions = definitions.items;
          declared = map names_of patterns.now;
          scale = scale;
        })) }
    ensures limit { IfOk result (λ input. limit_of input ≡ limit) }
{
    let needed = needed_by(alloc, patterns, definitions)?;
    let Ok(shares) = share(alloc, patterns) else {
        drop(needed);
        return Err(AllocError);
    };
    let (groups, views) = shares.into_parts();
    let Ok(readers) = column_readers(alloc, &groups, &needed, scale) else {
        return Err(AllocError);
    };
    Input::new(alloc, readers, views, limit)
}

// The names of the patterns, to be shared by the readers.
fn needed_by(
    alloc: Global,
    patterns: &[Pattern],
    definitions: Vec<Definition>,
) -> Result<Rc<Needed>, AllocError>
    ensures declared { IfOk result (λ needed.
        declared_of needed.value ≡ map names_of patterns.now) }
    ensures definitions { IfOk result (λ needed.
        definitions_of needed.value ≡ definitions.items) }
{
    let mut needed = Needed::new(alloc, definitions);
    let Ok(()) = need_all(&mut needed, patterns) else {
        drop(needed);
        return Err(AllocError);
    };
    match Rc::new(alloc, needed) {
        Ok(needed) => Ok(needed),
        Err(_) => Err(AllocError),
    }
}

// Each of the patterns reads, where nobody did.
fn need_all(needed: &mut Needed, patterns: &[Pattern]) -> Result<(), AllocError>
    requires { declared_of needed.old ≡ [] }
    ensures declared { OnOk result (declared_of needed.new ≡ map names_of patterns.now) }
    ensures definitions { definitions_of needed.new ≡ definitions_of needed.old }
{
    for pattern in patterns {
        needed.add(pattern.names(), pattern.events())?;
    }
    Ok(())
}

// A reader of the rows for each group, at its place.
fn column_readers(
    alloc: Global,
    groups: &[Group],
    needed: &Rc<Needed>,
    scale: u8,
) -> Result<Vec<ColumnsReader>, AllocError>
    requires scale { scale ≤ SCALE_MAX }
    ensures names { IfOk result (λ readers.
        map ⟦<ColumnsReader as TraceReader>⟧.names readers.items ≡ groups.now) }
    ensures fresh { IfOk result (λ readers. AllByRecursion
        (λ reader. (⟦<ColumnsReader as TraceReader>⟧.terms reader
        ≡ terms_of needed.now.value scale)
        × ⟦<ColumnsReader as TraceReader>⟧.represents reader []) readers.items) }
{
    let mut readers = Vec::new(alloc);
    for group in groups {
        put_last(&mut readers, column_reader(alloc, group, needed, scale)?)?;
    }
    Ok(readers)
}

// A reader of the rows for the names of the group.
fn column_reader(
    alloc: Global,
    group: &Group,
    needed: &Rc<Needed>,
    scale: u8,
) -> Result<ColumnsReader, AllocError>
    requires scale { scale ≤ SCALE_MAX }
    ensures fresh { IfOk result (λ reader.
        ⟦<ColumnsReader as TraceReader>⟧.represents reader []) }
    ensures terms { IfOk result (λ reader. ⟦<ColumnsReader as TraceReader>⟧.terms reader
        ≡ terms_of needed.now.value scale) }
    ensures names { IfOk result (λ reader. ⟦<ColumnsReader as TraceReader>⟧.names reader
        ≡ group.now) }
{
    let needed = needed.clone()?;
    let Ok(lists) = group.lists() else {
        drop(needed);
        return Err(AllocError);
    };
    let (names, events) = lists;
    Ok(ColumnsReader::new(alloc, needed, names, events, scale))
}

// Puts a reader behind the others.
fn put_last(readers: &mut Vec<ColumnsReader>, reader: ColumnsReader) -> Result<(), AllocError>
    ensures { OnOk result (readers.new.items ≡ readers.old.items ++ reader ∷ []) }
{
    readers.push(reader)?;
    Ok(())
}
