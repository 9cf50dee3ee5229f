// What is written to an output, with the fault that ends the work where it fails.
ghost use Rattle.std.specs.Prelude.{◌≡◌, IfErr, OnOk, OnErr};
ghost use Rattle.std.specs.Io.KnownBytes.{Appends};
ghost use Rattle.tre_io.specs.Faults.{count_after};
ghost use Rattle.tre_io.specs.Written.{AppendsPart};

use crate::fault::Fault;
use tre_io::{Sink, put_all};

/// Writes a text, in one call of `put_all`.
pub fn write_text<O: Sink>(text: &str, out: &mut O) -> Result<(), Fault>
    ensures all { OnOk result (Appends (O.told out.old).written (O.told out.new).written text.now) }
    ensures good { OnOk result ((O.told out.new).faults ≡ (O.told out.old).faults) }
    ensures part { OnErr result (AppendsPart (O.told out.old).written (O.told out.new).written
        text.now) }
    ensures cause { OnErr result ((O.told out.new).faults ≡ count_after (O.told out.old).faults) }
    ensures fault { IfErr result (λ fault. fault ≡ Fault.Write) }
{
    write_bytes(text.as_bytes(), out)
}

/// The same of bytes.
#[inline(always)]
pub fn write_bytes<O: Sink>(bytes: &[u8], out: &mut O) -> Result<(), Fault>
    ensures all { OnOk result (Appends (O.told out.old).written (O.told out.new).written
        bytes.now) }
    ensures good { OnOk result ((O.told out.new).faults ≡ (O.told out.old).faults) }
    ensures part { OnErr result (AppendsPart (O.told out.old).written (O.told out.new).written
        bytes.now) }
    ensures cause { OnErr result ((O.told out.new).faults ≡ count_after (O.told out.old).faults) }
    ensures fault { IfErr result (λ fault. fault ≡ Fault.Write) }
{
    match put_all(out, bytes) {
        Ok(()) => Ok(()),
        Err(_) => Err(Fault::Write),
    }
}
