// A turn of reading an input: one read, and what the readers are given of it.
ghost use Rattle.std.specs.Prelude.{◌≡◌, ℕ, ◌+◌, ◌<◌, ◌≤◌, List, length, IsTrue, IfOk};
ghost use Rattle.std.specs.Io.KnownBytes.{Keeps};
ghost use Rattle.std.specs.List.{AllByRecursion};
ghost use Rattle.tre_io.specs.Told.{SourceTold};
ghost use Rattle.tre_trace.specs.declared.reader.TheConstants.{FED_MAX};
ghost use Rattle.tre_feed.specs.Each.{AllEnded, AllWait, AllWereFed, WereGiven, all_asked, recording_by};
ghost use Rattle.tre_feed.specs.Input.{HasPieceRoom, HasTakenMore, IsPiece, KeepsSource, input_told};
ghost use Rattle.tre_feed.specs.Stops.{EndsPiece};
ghost use Rattle.tre_feed.specs.Turn.{EndsTurn, TurnIsFed};

use crate::each::{Fed, feed_all, finish_all};
use crate::fault::Fault;
use crate::piece::read_piece;
use tre_io::Source;
use tre_trace::TraceReader;

// Reads once, and feeds what came as far as it is allowed. No byte comes only at the end.
fn feed_piece<S: Source, R: TraceReader + Drop>(
    allowed: usize,
    buffer: &mut [u8],
    each: &mut [Fed<R>],
    source: &mut S,
) -> Result<usize, Fault>
    requires opened { IsTrue (S.told source.old).opened }
    requires room { 0 < length buffer.old }
    requires some { 0 < length each.old }
    requires fits { AllByRecursion (λ fed. R.fed_of fed.reader + allowed ≤ FED_MAX) each.old }
    ensures read { IfOk result (IsPiece (S.told source.old).left (S.told source.new).left
        buffer.new) }
    ensures feeds { (bytes : List ℕ) → AllWereFed R.terms R.represents each.old bytes →
        EndsPiece (AllWereFed R.terms R.represents each.new)
        (recording_by R.recording R.terms each.old) allowed (length buffer.old) buffer.new bytes
        (S.told source.old).left (S.told source.new).left (AllWait R.names each.old)
        (AllWait R.names each.new) result }
    ensures same { all_asked R.names R.terms each.new ≡ all_asked R.names R.terms each.old }
    ensures length { length buffer.new ≡ length buffer.old }
    ensures finds { Keeps (S.told source.new).found (S.told source.old).left }
    ensures source { KeepsSource (S.told source.old) (S.told source.new) result }
{
    let count = read_piece(source, buffer)?;
    feed_all(each, &buffer[..count.min(allowed)])?;
    Ok(count)
}

// Reads a piece, and feeds it as far as the limit. Where none comes, the readers are told the end.
// Says whether the input may go on.
pub fn feed_next<S: Source, R: TraceReader + Drop>(
    limit: usize,
    taken: &mut usize,
    buffer: &mut [u8],
    each: &mut [Fed<R>],
    source: &mut S,
) -> Result<bool, Fault>
    requires opened { IsTrue (S.told source.old).opened }
    requires fits { limit ≤ FED_MAX }
    requires readers { WereGiven R.fed_of taken.old each.old }
    requires buffer { HasPieceRoom buffer.old }
    ensures ends { (before : SourceTold) (bytes : List ℕ) →
        TurnIsFed (AllWereFed R.terms R.represents each.old) limit
        (input_told before (S.told source.old)) taken.old bytes →
        EndsTurn (AllWereFed R.terms R.represents each.new) (AllEnded R.names each.new)
        (recording_by R.recording R.terms each.old) limit
        (input_told before (S.told source.new)) taken.new bytes (AllWait R.names each.old)
        (AllWait R.names each.new) result }
    ensures taken { IfOk result (λ more. IsTrue more → HasTakenMore limit taken.old taken.new) }
    ensures same { all_asked R.names R.terms each.new ≡ all_asked R.names R.terms each.old }
    ensures length { length buffer.new ≡ length buffer.old }
    ensures source { KeepsSource (S.told source.old) (S.told source.new) result }
{
    if *taken > limit {
        return Err(Fault::TooLong);
    }
    let allowed = limit - *taken;
    let room = buffer.len().min(allowed + 1);
    let count = feed_piece(allowed, &mut buffer[..room], each, source)?;
    if count == 0 {
        finish_all(each)?;
        return Ok(false);
    }
    *taken += count;
    Ok(true)
}
