// One read of an input.
ghost use Rattle.std.specs.Prelude.{◌≡◌, ◌<◌, length, IsTrue, IfOk, IfErr, OnErr};
ghost use Rattle.std.specs.Io.KnownBytes.{Keeps};
ghost use Rattle.tre_feed.specs.Input.{IsPiece, KeepsSource};

use crate::fault::Fault;
use std::alloc::{AllocError, Global};
use tre_io::Source;

pub(crate) fn buffer_of(alloc: Global, len: usize) -> Result<Vec<u8>, AllocError>
    ensures { IfOk result (λ buffer. length buffer.items ≡ len) }
{
    vec![in alloc; 0u8; len]
}

// Reads once, into the front of the buffer.
pub(crate) fn read_piece<S: Source>(input: &mut S, buffer: &mut [u8]) -> Result<usize, Fault>
    requires opened { IsTrue (S.told input.old).opened }
    requires room { 0 < length buffer.old }
    ensures read { IfOk result (IsPiece (S.told input.old).left (S.told input.new).left
        buffer.new) }
    ensures length { length buffer.new ≡ length buffer.old }
    ensures finds { Keeps (S.told input.new).found (S.told input.old).left }
    ensures failed { IfErr result (λ fault. fault ≡ Fault.Read) }
    ensures kept { OnErr result (Keeps (S.told input.old).left (S.told input.new).left) }
    ensures source { KeepsSource (S.told input.old) (S.told input.new) result }
{
    let count = input.read(buffer)?;
    Ok(count)
}
