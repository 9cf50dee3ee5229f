// The front of an input, read whole.
ghost use Rattle.std.specs.Prelude.{◌≡◌, ◌≢◌, ◌<◌, ◌≤◌, false, length, IsTrue, IfOk, IfErr, IfSome};
ghost use Rattle.std.specs.Io.KnownBytes.{IsAtEnd};
ghost use Rattle.tre_feed.specs.Front.{IsFrontRead, IsReadOn, StopsFront};
ghost use Rattle.tre_feed.specs.Input.{KeepsSource, TakesAtMost, input_told};

use crate::PIECE;
use crate::fault::Fault;
use crate::piece::{buffer_of, read_piece};
use std::alloc::Global;
use tre_io::Source;

/// Reads the input of this name from its first byte: all of it, or its first `most` bytes where it
/// has more.
pub fn read_front<S: Source>(
    alloc: Global,
    name: &str,
    most: usize,
    input: &mut S,
) -> Result<Vec<u8>, Fault>
    requires closed { (S.told input.old).opened ≡ false }
    ensures read { IfOk result (λ bytes. IsFrontRead most
        (input_told (S.told input.old) (S.told input.new)) bytes.items) }
    ensures stops { IfErr result (StopsFront name.now
        (input_told (S.told input.old) (S.told input.new))) }
    ensures bounded { IsTrue (S.told input.new).opened →
        TakesAtMost most (S.told input.old).file (S.told input.new).left }
    ensures by_name { IsTrue (S.told input.new).opened →
        IfSome (S.told input.old).name (λ told. told ≡ name.now) }
{
    input.open(name)?;
    let mut buffer = buffer_of(alloc, PIECE)?;
    let mut bytes = Vec::new(alloc);
    while read_more(most, &mut bytes, &mut buffer, input)? {}
    Ok(bytes)
}

// Reads a piece behind the bytes, as far as there may be more of them. Says whether there may be.
fn read_more<S: Source>(
    most: usize,
    bytes: &mut Vec<u8>,
    buffer: &mut [u8],
    input: &mut S,
) -> Result<bool, Fault>
    requires opened { IsTrue (S.told input.old).opened }
    requires room { 0 < length buffer.old }
    requires few { length bytes.old.items ≤ most }
    ensures read { IsReadOn most bytes.old.items bytes.new.items (S.told input.old).left
        (S.told input.new).left result }
    ensures end { IfOk result (λ more. more ≡ false → length bytes.new.items < most →
        IsAtEnd (S.told input.new).left) }
    ensures rises { IfOk result (λ more. IsTrue more →
        length bytes.old.items < length bytes.new.items) }
    ensures length { length buffer.new ≡ length buffer.old }
    ensures named { IfErr result (λ fault. fault ≢ Fault.Read → fault ≢ Fault.Memory →
        ⊥) }
    ensures source { KeepsSource (S.told input.old) (S.told input.new) result }
{
    let room = buffer.len().min(most - bytes.len());
    if room == 0 {
        return Ok(false);
    }
    let count = read_piece(input, &mut buffer[..room])?;
    bytes.extend_from_slice(&buffer[..count])?;
    Ok(count > 0)
}
