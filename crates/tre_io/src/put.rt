// All bytes, however few a sink takes at a time.
ghost use Rattle.std.specs.Prelude.{OnOk, OnErr};
ghost use Rattle.std.specs.Io.KnownBytes.{Appends};
ghost use Rattle.tre_io.specs.Faults.{HasCause};
ghost use Rattle.tre_io.specs.Written.{AppendsPart};

use crate::faults::Failed;
use crate::sink::Sink;

/// Writes all these bytes, in as many calls as the sink needs. Of no bytes it makes no call.
///
/// At `Failed` the sink has taken a first part of them, which may be empty and isn't the whole.
pub fn put_all<K: Sink>(sink: &mut K, bytes: &[u8]) -> Result<(), Failed>
    ensures all { OnOk result
        (Appends (K.told sink.old).written (K.told sink.new).written bytes.now) }
    ensures part { OnErr result
        (AppendsPart (K.told sink.old).written (K.told sink.new).written bytes.now) }
    ensures cause { HasCause (K.told sink.old).faults (K.told sink.new).faults result }
{
    let mut done = 0;
    while done < bytes.len() {
        let taken = sink.write(&bytes[done..])?;
        done += taken;
    }
    Ok(())
}
