//! Laws of the text that is told as the input comes, each as a function whose contract it is.

ghost use Rattle.std.specs.Prelude.{◌≡◌, ◌<◌, ◌≤◌, ◌*◌, ◌++◌, ◌∷◌, ℕ, suc, All, Bool, false, List, [], Option, None, Some, length, map, take};
ghost use Rattle.tre_feed.specs.Input.{InputTold};
ghost use Rattle.tre_syntax.specs.Meaning.{Matches};
ghost use Rattle.tre_syntax.specs.Rest.{prefixed};
ghost use Rattle.tre_tell.specs.Blocks.{AreAccounts, blocks_text, ending_text};
ghost use Rattle.tre_tell.specs.Ends.{StandsAtMemory};
ghost use Rattle.tre_tell.specs.Lines.{SaysSoFar, SaysAll};
ghost use Rattle.tre_tell.specs.OnlineText.{AreBlocksOf, AreWatched, AreWatchedSoFar, online_text};
ghost use Rattle.tre_tell.specs.Outputs.{OutputTold, NothingWritten};
ghost use Rattle.tre_tell.specs.Request.{Request};
ghost use Rattle.tre_tell.specs.Sought.{Sought};
ghost use Rattle.tre_tell.specs.Transcript.{Account, IsClosing, IsTranscript, zones_in_blocks};
ghost use Rattle.tre_trace.specs.Trace.{Timeline, end_of, IsTrace};
ghost use Rattle.tre_trace.specs.declared.segment.Segment.{Segment};
ghost use Rattle.tre_zone.specs.ZoneList.{HoldExactly, SetHolds};
ghost use Rattle.tre_zone.specs.declared.zone_bounds.ZoneBounds.{ZoneBounds};

use tre_decimal::{begins_with_a_digit, written_is_read};
use tre_show::laws::one_front;

/// What is told of one pattern without a label is the text of its blocks, and of what closes them.
pub fn one_pattern_text()
    ensures blocks { (scale : ℕ) (account : Account) (segments : List Segment) →
        account.pattern.label ≡ [] →
        length account.blocks ≡ length segments →
        blocks_text scale (account ∷ []) segments ≡ online_text scale account.blocks None segments }
    ensures whole { (scale : ℕ) (account : Account) (segments : List Segment) →
        account.pattern.label ≡ [] →
        length account.blocks ≡ length segments →
        blocks_text scale (account ∷ []) segments ++ ending_text scale (account ∷ []) segments
        ≡ online_text scale account.blocks (Some account.closing) segments }
{}

/// A text that is told as the input comes is that of one list of blocks and of what closes them, of
/// segments of one list of lengths. What was true on the segments it doesn't tell, nor which events
/// happened.
pub fn one_online_text()
    ensures blocks { (scale : ℕ) (blocks others : List (List ZoneBounds))
        (closing ending : Option (List ZoneBounds)) (trace other : List Segment) →
        AreBlocksOf blocks closing trace → AreBlocksOf others ending other →
        online_text scale blocks closing trace ≡ online_text scale others ending other →
        blocks ≡ others }
    ensures closings { (scale : ℕ) (blocks others : List (List ZoneBounds))
        (closing ending : Option (List ZoneBounds)) (trace other : List Segment) →
        AreBlocksOf blocks closing trace → AreBlocksOf others ending other →
        online_text scale blocks closing trace ≡ online_text scale others ending other →
        closing ≡ ending }
    ensures lengths { (scale : ℕ) (blocks others : List (List ZoneBounds))
        (closing ending : Option (List ZoneBounds)) (trace other : List Segment) →
        AreBlocksOf blocks closing trace → AreBlocksOf others ending other →
        online_text scale blocks closing trace ≡ online_text scale others ending other →
        map (λ segment. segment.len) trace ≡ map (λ segment. segment.len) other }
{
    one_front();
}

/// A text that is told of several patterns as the input comes, each behind a label of its own, is
/// that of one list of blocks for each and of what closes them, of segments of one list of lengths.
/// Each line shows of which pattern it is: a label is a name and a space, and a line of a zone
/// begins with a bracket, where the lines `at` and `end` go on with a digit.
pub fn one_watch_text()
    ensures blocks { (scale : ℕ) (accounts others : List Account)
        (segments seconds : List Segment) →
        AreWatched accounts segments → AreWatched others seconds →
        map (λ account. account.pattern.label) accounts
        ≡ map (λ account. account.pattern.label) others →
        blocks_text scale accounts segments ++ ending_text scale accounts segments
        ≡ blocks_text scale others seconds ++ ending_text scale others seconds →
        map (λ account. account.blocks) accounts ≡ map (λ account. account.blocks) others }
    ensures closings { (scale : ℕ) (accounts others : List Account)
        (segments seconds : List Segment) →
        AreWatched accounts segments → AreWatched others seconds →
        map (λ account. account.pattern.label) accounts
        ≡ map (λ account. account.pattern.label) others →
        blocks_text scale accounts segments ++ ending_text scale accounts segments
        ≡ blocks_text scale others seconds ++ ending_text scale others seconds →
        map (λ account. account.closing) accounts ≡ map (λ account. account.closing) others }
    ensures lengths { (scale : ℕ) (accounts others : List Account)
        (segments seconds : List Segment) →
        AreWatched accounts segments → AreWatched others seconds →
        map (λ account. account.pattern.label) accounts
        ≡ map (λ account. account.pattern.label) others →
        blocks_text scale accounts segments ++ ending_text scale accounts segments
        ≡ blocks_text scale others seconds ++ ending_text scale others seconds →
        map (λ segment. segment.len) segments ≡ map (λ segment. segment.len) seconds }
{
    one_front();
    written_is_read();
    begins_with_a_digit();
}

/// The same of blocks that no end follows, as a run leaves them that ended with a fault, a failed
/// read or for want of memory.
pub fn one_watch_front()
    ensures blocks { (scale : ℕ) (accounts others : List Account)
        (segments seconds : List Segment) →
        AreWatchedSoFar accounts segments → AreWatchedSoFar others seconds →
        map (λ account. account.pattern.label) accounts
        ≡ map (λ account. account.pattern.label) others →
        blocks_text scale accounts segments ≡ blocks_text scale others seconds →
        map (λ account. account.blocks) accounts ≡ map (λ account. account.blocks) others }
    ensures lengths { (scale : ℕ) (accounts others : List Account)
        (segments seconds : List Segment) →
        AreWatchedSoFar accounts segments → AreWatchedSoFar others seconds →
        map (λ account. account.pattern.label) accounts
        ≡ map (λ account. account.pattern.label) others →
        blocks_text scale accounts segments ≡ blocks_text scale others seconds →
        map (λ segment. segment.len) segments ≡ map (λ segment. segment.len) seconds }
{
    one_front();
    written_is_read();
    begins_with_a_digit();
}

/// The blocks that a transcript tells, and what closes them, have canonical bounds, as the laws on
/// texts ask for.
pub fn told_is_canonical()
    ensures so_far { (account : Account) → IsTrace account.trace.segments →
        IsTranscript account → AreBlocksOf account.blocks None account.trace.segments }
    ensures whole { (account : Account) → IsTrace account.trace.segments →
        IsTranscript account → IsClosing account →
        AreBlocksOf account.blocks (Some account.closing) account.trace.segments }
{}

/// What is told is told by lines of three ranges, and a pair lies in the three ranges of a line up
/// to a block exactly where it is a match up to the block's end. So nobody has to know the bounds
/// of zones to read a text.
pub fn told_in_lines()
    ensures so_far { (scale : ℕ) (patterns : List Sought) (traces : List Timeline)
        (accounts : List Account) (segments : List Segment) →
        AreAccounts patterns traces accounts → All (λ trace. IsTrace trace.segments) traces →
        SaysSoFar scale patterns traces segments (blocks_text scale accounts segments) }
    ensures whole { (scale : ℕ) (patterns : List Sought) (traces : List Timeline)
        (accounts : List Account) (segments : List Segment) →
        AreAccounts patterns traces accounts → All IsClosing accounts →
        All (λ trace. IsTrace trace.segments) traces →
        SaysAll scale patterns traces segments
        (blocks_text scale accounts segments ++ ending_text scale accounts segments) }
{}

/// What was told stays true, and nothing is late. Whatever comes behind the segment at place `i`,
/// each pair that the blocks up to that place hold is a match of the longer trace, and each match
/// of the longer trace that ends before the segment's end is held by these blocks.
pub fn told_for_good()
    ensures stays_true { (account : Account) (next : Timeline) (i a b n : ℕ) →
        IsTranscript account → i < length account.trace.segments → 0 < n → a ≤ b →
        SetHolds (zones_in_blocks (take (suc i) account.blocks)) a b n →
        Matches account.pattern.tree (prefixed (take (suc i) account.trace.segments) next) a b n }
    ensures in_time { (account : Account) (next : Timeline) (i a b n : ℕ) →
        IsTranscript account → i < length account.trace.segments → 0 < n →
        b < end_of 0 (take (suc i) account.trace.segments) * n →
        Matches account.pattern.tree (prefixed (take (suc i) account.trace.segments) next) a b n →
        SetHolds (zones_in_blocks (take (suc i) account.blocks)) a b n }
{}

/// Once the input has ended, all that was told of a pattern holds exactly the matches over its
/// trace, as the answer of a whole run does. Of a trace without a segment nothing is told where no
/// event happens: `eps` matches its one moment, which a whole run tells.
pub fn told_in_all()
    ensures { (account : Account) →
        0 < length account.trace.segments → IsTranscript account → IsClosing account →
        HoldExactly (zones_in_blocks account.blocks ++ account.closing)
        (Matches account.pattern.tree account.trace) }
{}

/// Of an input that wasn't opened nothing is told: where nothing was written, all its blocks stand
/// there, which are none.
pub fn nothing_told()
    ensures { (request : Request) (input : InputTold) (output : OutputTold) →
        (request.recording false []).stretches ≡ [] → input.now.opened ≡ false →
        NothingWritten output → StandsAtMemory request input output }
{}
