// An input that is told as it comes: a block for each stretch, and what its end completes.
ghost use Rattle.std.specs.Prelude.{◌≡◌, ◌≤◌, ◌<◌, ◌+◌, ◌++◌, ℕ, List, Option, [], IsTrue, OnOk, IfErr, IfSome, false, true, length, map, string_bytes};
ghost use Rattle.tre_decimal.specs.declared.TheConstants.{SCALE_MAX};
ghost use Rattle.tre_feed.specs.Input.{input_told, TakesAtMost};
ghost use Rattle.tre_feed.specs.Standing.{Asks, IsNew, Wait, limit_of, recording_of};
ghost use Rattle.tre_online.specs.Watch.{trees_of};
ghost use Rattle.tre_syntax.specs.Pattern.{names_of};
ghost use Rattle.tre_tell.specs.Ends.{EndsTelling, as_it_comes};
ghost use Rattle.tre_tell.specs.Outputs.{output_told};
ghost use Rattle.tre_tell.specs.Request.{request_by};
ghost use Rattle.tre_tell.specs.Sought.{Sought, all_names};
ghost use Rattle.tre_tell.specs.Telling.{rows_for, CanTellWaiting, HasTold, StopsWithin, HasWriteCause};
ghost use Rattle.tre_trace.specs.Reading.{Stretch};

use crate::block::{tell_block, tell_end};
use std::alloc::Global;
use tre_feed::{Fault, Input};
use tre_io::{Sink, Source};
use tre_online::Watch;
use tre_syntax::Pattern;
use tre_trace::{Segment, TraceReader};
use tre_words::Job;

// Room that each column and each text is made in.
#[derive(Drop)]
struct Room {
    column: Vec<Segment>,
    text: Vec<u8>,
}

impl Room {
    fn new(alloc: Global) -> Room {
        Room {
            column: Vec::new(alloc),
            text: Vec::new(alloc),
        }
    }
}

// Gives the stretches that wait to the watch, column by column, and writes each block before the
// next is taken.
fn tell_blocks<R: TraceReader + Drop, O: Sink>(
    labels: &[String],
    scale: u8,
    input: &Input<R>,
    watch: &mut Watch,
    room: &mut Room,
    out: &mut O,
) -> Result<(), Fault>
    requires comes { CanTellWaiting R.names watch.old input.now }
    requires labels { length labels.now ≡ length (trees_of watch.old) }
    requires scale { scale ≤ SCALE_MAX }
    ensures trees { OnOk result (trees_of watch.new ≡ trees_of watch.old) }
    ensures told { (patterns : List Sought) (told waiting : List Stretch)
        (before : Option (List ℕ)) → Asks R.names input.now (all_names patterns) →
        Wait R.names input.now waiting → HasTold watch.old (map string_bytes labels.now) scale patterns
        (rows_for (all_names patterns) told) before (O.told out.old).written →
        OnOk result (HasTold watch.new (map string_bytes labels.now) scale patterns
        (rows_for (all_names patterns) (told ++ waiting)) before (O.told out.new).written) }
    ensures stops { (patterns : List Sought) (told waiting : List Stretch)
        (before : Option (List ℕ)) → Asks R.names input.now (all_names patterns) →
        Wait R.names input.now waiting → HasTold watch.old (map string_bytes labels.now) scale patterns
        (rows_for (all_names patterns) told) before (O.told out.old).written →
        IfErr result (StopsWithin scale patterns told waiting before (O.told out.new).written) }
    ensures cause { HasWriteCause (O.told out.old).faults (O.told out.new).faults result }
{
    for place in 0..input.waiting() {
        input.column(place, &mut room.column)?;
        tell_block(&room.column, labels, scale, watch, &mut room.text, out)?;
    }
    Ok(())
}

/// Tells the patterns of a job as its input comes from the source: the block of each stretch, as
/// soon as it is read, and at the end what that completes. The input is read for the names of each
/// pattern, and each has its label, at its place.
pub fn tell_matches<S: Source, R: TraceReader + Drop, O: Sink>(
    alloc: Global,
    job: &Job,
    patterns: &[Pattern],
    labels: &[String],
    input: &mut Input<R>,
    source: &mut S,
    out: &mut O,
) -> Result<(), Fault>
    requires closed { (S.told source.old).opened ≡ false }
    requires comes { as_it_comes job.now.mode ≡ true }
    requires scale { job.now.scale ≤ SCALE_MAX }
    requires some { 0 < length patterns.now }
    requires labels { length labels.now ≡ length patterns.now }
    requires limit { limit_of input.old ≡ job.now.max_bytes }
    requires asks { Asks R.names input.old (map names_of patterns.now) }
    requires new { IsNew R.terms R.represents R.names input.old }
    ensures ends { EndsTelling (request_by job.now [] (map string_bytes labels.now) patterns.now
        (recording_of R.recording R.terms input.old))
        (input_told (S.told source.old) (S.told source.new))
        (output_told (O.told out.old) (O.told out.new)) result }
    ensures bounded { IsTrue (S.told source.new).opened →
        TakesAtMost (job.now.max_bytes + 1) (S.told source.old).file (S.told source.new).left }
    ensures by_name { IsTrue (S.told source.new).opened →
        IfSome (S.told source.old).name (λ told. told ≡ job.now.input) }
{
    let mut watch = Watch::new(alloc, patterns)?;
    let mut room = Room::new(alloc);
    input.open(job.input.text(), source)?;
    loop {
        let read = input.next(source);
        tell_blocks(labels, job.scale, input, &mut watch, &mut room, out)?;
        input.clear();
        if !read? {
            break;
        }
    }
    let lasts = input.lasts(alloc)?;
    tell_end(&lasts, labels, job.scale, &mut watch, &mut room.text, out)
}
