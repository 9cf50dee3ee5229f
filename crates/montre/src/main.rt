//! The program `montre`: one run over the system's streams.
//!
//! `main` hands the words and the system's streams to `tre_tool::exit_code`, and ends with that
//! code. Nothing is decided here.
#![tactic(auto)]

use std::env;
use std::process::ExitCode;
use tre_tool::exit_code;

/// Where the system doesn't hand over the words; no run ends with this code.
const NO_WORDS: u8 = 1;

fn main(rt: HostRuntime) -> ExitCode {
    let alloc = rt.alloc();
    let Ok(all) = env::args(&rt) else {
        return ExitCode::from(NO_WORDS);
    };
    let Ok(words) = all.skip(1).collect::<Vec<String>>(alloc) else {
        return ExitCode::from(NO_WORDS);
    };
    ExitCode::from(exit_code(&rt, alloc, &words, rt.stdout(), rt.stderr()))
}
