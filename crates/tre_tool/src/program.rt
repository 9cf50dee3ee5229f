// The whole program, but for the words that the system hands over.
ghost use Rattle.tre_tool.specs.Program.{EndsWithCode};
ghost use Rattle.tre_tool.specs.Run.{Gives};

use crate::whole_run::run_all;
use std::alloc::Global;
use std::io::{Input, Write};
use std::rt::Files;
use tre_io::{FileSource, StdSink};

/// Runs over the system's files, its standard input and these two writers, and gives the program's
/// exit status.
pub fn exit_code<R: Files + Input, O: Write + Drop, E: Write + Drop>(
    rt: &R,
    alloc: Global,
    words: &[String],
    out: O,
    err: E,
) -> u8
    ensures { EndsWithCode (Gives words.now) (O.contents out) (E.contents err) result }
{
    let mut checks = FileSource::new(rt);
    let mut input = FileSource::new(rt);
    let mut out = StdSink::over(out);
    let mut err = StdSink::over(err);
    let status = run_all(alloc, words, &mut checks, &mut input, &mut out, &mut err);
    status.code()
}
