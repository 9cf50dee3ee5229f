// The block of a column, and what stands behind all blocks, given to the output as one text each.
ghost use Rattle.std.specs.Prelude.{◌≡◌, ◌≤◌, ℕ, List, Option, OnOk, IfErr, length, map, string_bytes};
ghost use Rattle.tre_decimal.specs.declared.TheConstants.{SCALE_MAX};
ghost use Rattle.tre_online.specs.Watch.{trees_of, ended_of_each, Watches, pushed_each, TellEach};
ghost use Rattle.tre_tell.specs.Sought.{Sought};
ghost use Rattle.tre_tell.specs.Telling.{CanTell, HasRows, HasTold, StopsAtColumn, HasWriteCause, EndsClosing};
ghost use Rattle.tre_trace.specs.declared.segment.Segment.{Segment};

use crate::text::write_told;
use tre_feed::{Fault, write_bytes};
use tre_io::Sink;
use tre_online::{Watch, want_of_memory};
use tre_trace::Segment;

// Gives the watch the next column, which only want of memory can refuse.
#[inline(always)]
fn step(column: &[Segment], watch: &mut Watch) -> Result<(), Fault>
    requires { CanTell watch.old column.now }
    ensures stands { (rows : List (List Segment)) → Watches watch.old rows →
        OnOk result (Watches watch.new (pushed_each rows column.now)) }
    ensures tells { (rows : List (List Segment)) → Watches watch.old rows →
        OnOk result (TellEach (trees_of watch.old) rows column.now (ended_of_each watch.old)
        (ended_of_each watch.new)) }
    ensures trees { OnOk result (trees_of watch.new ≡ trees_of watch.old) }
    ensures failed { IfErr result (λ fault. fault ≡ Fault.Memory) }
{
    match watch.segment(column) {
        Ok(()) => Ok(()),
        Err(fault) => Err(Fault::from(want_of_memory(fault))),
    }
}

/// Gives the column to the watch, and writes its block. The text is room to make it in.
pub fn tell_block<O: Sink>(
    column: &[Segment],
    labels: &[String],
    scale: u8,
    watch: &mut Watch,
    text: &mut Vec<u8>,
    out: &mut O,
) -> Result<(), Fault>
    requires comes { CanTell watch.old column.now }
    requires labels { length labels.now ≡ length (trees_of watch.old) }
    requires scale { scale ≤ SCALE_MAX }
    ensures stands { (rows : List (List Segment)) → Watches watch.old rows →
        OnOk result (Watches watch.new (pushed_each rows column.now)) }
    ensures trees { OnOk result (trees_of watch.new ≡ trees_of watch.old) }
    ensures told { (patterns : List Sought) (rows : List (List Segment))
        (before : Option (List ℕ)) →
        HasTold watch.old (map string_bytes labels.now) scale patterns rows before
        (O.told out.old).written →
        OnOk result (HasTold watch.new (map string_bytes labels.now) scale patterns
        (pushed_each rows column.now) before (O.told out.new).written) }
    ensures stops { (patterns : List Sought) (rows : List (List Segment))
        (before : Option (List ℕ)) →
        HasTold watch.old (map string_bytes labels.now) scale patterns rows before
        (O.told out.old).written →
        IfErr result (StopsAtColumn scale patterns rows column.now before
        (O.told out.new).written) }
    ensures cause { HasWriteCause (O.told out.old).faults (O.told out.new).faults result }
{
    step(column, watch)?;
    let begin = write_told(labels, watch, "at ", watch.at(), scale, text)?;
    write_bytes(&text[begin..], out)?;
    Ok(())
}

/// Writes what the ends of the traces complete, and then where they are, as one text.
pub fn tell_end<O: Sink>(
    lasts: &[u64],
    labels: &[String],
    scale: u8,
    watch: &mut Watch,
    text: &mut Vec<u8>,
    out: &mut O,
) -> Result<(), Fault>
    requires reads { HasRows watch.old }
    requires count { length lasts.now ≡ length (trees_of watch.old) }
    requires labels { length labels.now ≡ length (trees_of watch.old) }
    requires scale { scale ≤ SCALE_MAX }
    ensures tells { (patterns : List Sought) (rows : List (List Segment))
        (before : Option (List ℕ)) →
        HasTold watch.old (map string_bytes labels.now) scale patterns rows before
        (O.told out.old).written →
        EndsClosing scale patterns rows lasts.now before (O.told out.new).written result }
    ensures cause { HasWriteCause (O.told out.old).faults (O.told out.new).faults result }
{
    let end = watch.at();
    watch.close(lasts)?;
    let begin = write_told(labels, watch, "end ", end, scale, text)?;
    write_bytes(&text[begin..], out)?;
    Ok(())
}
