//! Runs of the program over memory, as files of cases say them: what a run is given, and what it
//! must come to.
//!
//! A file of cases begins with a comment. A case is a block of lines, and each line is a word and,
//! behind a blank, a text.
//!
//! ```text
//! # Two stretches of p, of which the second goes on.
//! montre --online 'p;q'
//! < 2 p\n
//! < 3 q\n
//! > at 2\n[0,2) (2,5] (0,5]\nat 5\nend 5\n
//! ```
//!
//! - `montre`: a case begins, with the words of the run; in `'..'` a word may have blanks.
//! - `word`: a text behind the last of these words.
//! - `<`: the bytes of the input.
//! - `again`: those of the case before, in front of its own.
//! - `checks`: the bytes of the file `f` of checks; where neither this nor `asks` stands, to open
//!   it fails.
//! - `>` and `!`: what the output and standard error are given.
//! - `ends`, in the place of `>`: what the output ends with, and `zones`, how many zones it has.
//! - `=`: the code with which the run ends, where it isn't 0.
//! - `file`: the name of the input, where it isn't `-`.
//! - `reads`, `asks`, `writes`, `tells`: how many bytes a call takes at most, and which call fails
//!   (0: none), of the input, of the file of checks, of the output, of standard error.
//! - `alike`, in the place of all that must come: on so many halves of ticks, the blocks of a run
//!   with `--online` over the first lines of the input, however many, tell just what the run finds.
//! - `says`, in the place of all that must come: what a watch of the checks `p0`, `p1` .. and `e0`,
//!   `e1` .. tells of the input, with short reads too: each segment as its length and its
//!   valuation, with `@` and the events at its begin, and then the events at the end, or the fault.
//! - `cuts`: with reads of each number of bytes up to this one, that is told too.
//! - `holds` and `lacks`, in the place of all that must come: the number of a block and a pair of
//!   times, as `2 0 1.5`, that a zone of the block holds, or none. A run without `--online` has one
//!   block; behind the last block, in the place of the next, stands what the end completes.
//! - `times`: a number and one of these lines, which is taken so many times.
//!
//! Texts of several lines of one word follow one another as they are. In a text `\n`, `\r`, `\t`
//! and `\\` are one byte, and so is `\x` with two digits. Behind `#` is a comment.
//!
//! A case is run with reads of 4,096 bytes and again with reads of one byte, but where `reads` says
//! otherwise. The program prints what differs, and how many cases each file has.
#![tactic(auto)]

mod alike;
mod case;
mod checking;
mod device;
mod pairs;
mod run;
mod says;
mod text;

use crate::checking::run_file;
use std::alloc::Global;
use std::{env, fs};

fn main(rt: HostRuntime) -> Result<(), anyhow::Error> {
    let alloc = rt.alloc();
    let words = env::args(&rt)?.collect::<Vec<String>>(alloc)?;
    for name in words.iter().skip(1) {
        run_named(&rt, alloc, name.as_str())?;
    }
    Ok(())
}

fn run_named(rt: &HostRuntime, alloc: Global, name: &str) -> Result<(), anyhow::Error> {
    let text = fs::read_to_string(rt, name)?;
    run_file(rt, alloc, name, text.as_str())
}
