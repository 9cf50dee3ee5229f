// Runs over memory: what they are given, and what they must come to.
ghost use Rattle.std.specs.Prelude.{◌≡◌, ◌<◌, IfOk, false};

use std::alloc::{AllocError, Global};
use tre_io::{MemSink, MemSource, Sink, Source};
use tre_tool::{Status, run_all};

/// How many bytes a call of a source or a sink takes at most, and the call that fails, or 0.
#[derive(Clone, Copy)]
pub(crate) struct Device {
    pub(crate) most: usize,
    pub(crate) fails: u64,
    ghost takes_some: { 0 < most },
}

pub(crate) const SOUND: Device = Device {
    most: 4096,
    fails: 0,
};

pub(crate) const FIRST_FAILS: Device = Device {
    most: 4096,
    fails: 1,
};

/// The lines of the text.
pub(crate) fn lines_of(alloc: Global, text: &str) -> Result<Vec<String>, AllocError> {
    let mut lines = Vec::new(alloc);
    for line in text.lines() {
        lines.push(String::from_str(alloc, line)?)?;
    }
    Ok(lines)
}

/// The number of the call that fails, if one does. A source without such a call is sound.
fn failing(alloc: Global, device: Device) -> Result<Vec<u64>, AllocError> {
    if device.fails == 0 {
        return Ok(Vec::new(alloc));
    }
    [device.fails].to_vec(alloc)
}

/// A file of this name, not opened.
pub(crate) fn source_of(
    alloc: Global,
    name: &str,
    bytes: &[u8],
    device: Device,
) -> Result<MemSource, AllocError>
    ensures { IfOk result (λ source. source.opened ≡ false) }
{
    let name = String::from_str(alloc, name)?;
    let bytes = bytes.to_vec(alloc)?;
    Ok(MemSource::new(name, bytes, device.most, failing(alloc, device)?))
}

pub(crate) fn sink_of(alloc: Global, device: Device) -> Result<MemSink, AllocError> {
    Ok(MemSink::new(alloc, device.most, failing(alloc, device)?))
}

/// A file of checks that no run without a watch looks at: a call of it would fail.
pub(crate) fn no_checks(alloc: Global) -> Result<MemSource, AllocError>
    ensures { IfOk result (λ source. source.opened ≡ false) }
{
    source_of(alloc, "none", b"", FIRST_FAILS)
}

/// How a run for `p` ends.
pub(crate) fn ended<S: Source, O: Sink, E: Sink>(
    alloc: Global,
    input: &mut S,
    out: &mut O,
    err: &mut E,
) -> Result<Status, AllocError>
    requires { (S.told input.old).opened ≡ false }
{
    let words = lines_of(alloc, "p")?;
    let mut checks = no_checks(alloc)?;
    Ok(run_all(alloc, &words, &mut checks, input, out, err))
}

/// What a run must come to.
#[derive(Clone, Copy)]
pub(crate) struct Wanted<'a> {
    pub(crate) code: u8,
    pub(crate) out: &'a [u8],
    pub(crate) err: &'a [u8],
}

/// Whether a run over standard input with this text comes to this: the input and the output do what
/// the devices say.
pub(crate) fn comes_to(
    alloc: Global,
    text: &str,
    read: Device,
    write: Device,
    want: Wanted,
) -> Result<bool, AllocError> {
    let mut input = source_of(alloc, "-", text.as_bytes(), read)?;
    let mut out = sink_of(alloc, write)?;
    let mut err = sink_of(alloc, SOUND)?;
    let status = ended(alloc, &mut input, &mut out, &mut err)?;
    Ok(status.code() == want.code && out.bytes() == want.out && err.bytes() == want.err)
}
