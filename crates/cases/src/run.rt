// One run over memory.
ghost use Rattle.std.specs.Prelude.{◌≡◌, IfOk, false};

use crate::case::Case;
use crate::device::{Device, MISSING, SOUND, failing};
use std::alloc::{AllocError, Global};
use tre_io::{MemSink, MemSource};
use tre_tool::run_all;

/// A case, and the words and the input of its run.
#[derive(Clone, Copy)]
pub(crate) struct Given<'a> {
    pub(crate) case: Case<'a>,
    pub(crate) words: &'a [String],
    pub(crate) input: &'a [u8],
}

/// How a run ended, and what it wrote.
#[derive(Drop)]
pub(crate) struct Ran {
    pub(crate) code: u8,
    pub(crate) out: MemSink,
    pub(crate) err: MemSink,
}

/// Runs with the file of checks and the devices of the case.
pub(crate) fn run(alloc: Global, given: &Given<'_>, reads: Device) -> Result<Ran, AllocError> {
    let mut checks = checks_of(alloc, &given.case)?;
    let mut input = input_of(alloc, given, &reads)?;
    run_over(alloc, given, &mut checks, &mut input)
}

fn run_over(
    alloc: Global,
    given: &Given<'_>,
    checks: &mut MemSource,
    input: &mut MemSource,
) -> Result<Ran, AllocError>
    requires checks_closed { checks.old.opened ≡ false }
    requires input_closed { input.old.opened ≡ false }
{
    let mut ran = Ran {
        code: 0,
        out: sink_of(alloc, &given.case, "writes")?,
        err: sink_of(alloc, &given.case, "tells")?,
    };
    let status = run_all(
        alloc,
        given.words,
        checks,
        input,
        &mut ran.out,
        &mut ran.err,
    );
    ran.code = status.code();
    Ok(ran)
}

// The file `f` of checks. Where no line says what is in it, to open it fails.
fn checks_of(alloc: Global, case: &Case<'_>) -> Result<MemSource, AllocError>
    ensures { IfOk result (λ source. source.opened ≡ false) }
{
    let other = match case.text("checks") {
        Some(_) => SOUND,
        None => MISSING,
    };
    let device = case.device("asks").unwrap_or(other);
    source_of(alloc, "f", case.texts(alloc, "checks")?, &device)
}

fn input_of(alloc: Global, given: &Given<'_>, reads: &Device) -> Result<MemSource, AllocError>
    ensures { IfOk result (λ source. source.opened ≡ false) }
{
    let name = given.case.text("file").unwrap_or("-");
    source_of(alloc, name, given.input.to_vec(alloc)?, reads)
}

// A file of this name, not opened.
fn source_of(
    alloc: Global,
    name: &str,
    bytes: Vec<u8>,
    device: &Device,
) -> Result<MemSource, AllocError>
    ensures { IfOk result (λ source. source.opened ≡ false) }
{
    let fails = failing(alloc, device)?;
    let name = String::from_str(alloc, name)?;
    Ok(MemSource::new(name, bytes, device.most, fails))
}

fn sink_of(alloc: Global, case: &Case<'_>, word: &str) -> Result<MemSink, AllocError> {
    let device = case.device(word).unwrap_or(SOUND);
    let fails = failing(alloc, &device)?;
    Ok(MemSink::new(alloc, device.most, fails))
}
