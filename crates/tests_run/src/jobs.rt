// What the words of a command line ask for.

use crate::memory::lines_of;
use std::alloc::Global;
use std::test::Fail;
use tre_words::{Format, Job, Mode, Word, read_words};

fn says(word: &Option<Word>, text: &str) -> bool {
    match word {
        Some(word) => word.text() == text,
        None => false,
    }
}

fn is_plain(job: &Job) -> bool {
    matches!(job.mode, Mode::Offline)
        && job.format == Format::Text
        && job.input.text() == "-"
        && job.max_bytes == 1_073_741_824
        && job.scale == 0
        && !job.normal
        && job.max_zones.is_none()
        && job.minus.is_none()
        && job.lets.is_none()
        && job.expr.text() == "p"
}

fn is_difference(job: &Job) -> bool {
    matches!(job.mode, Mode::Offline)
        && job.scale == 9
        && job.normal
        && job.max_zones == Some(7)
        && says(&job.minus, "q")
        && job.expr.text() == "p"
}

fn is_of_columns(job: &Job) -> bool {
    matches!(job.mode, Mode::Show)
        && job.format == Format::Csv
        && says(&job.lets, "hot = temp >= 80")
        && job.minus.is_none()
}

fn is_made(job: &Job) -> bool {
    matches!(job.mode, Mode::Generate { count: 10_000 })
        && job.scale == 0
        && !job.normal
        && job.max_zones.is_none()
        && job.minus.is_none()
        && job.lets.is_none()
        && job.expr.text() == ""
}

fn watched(mode: &Mode) -> &str {
    match mode {
        Mode::Watch { file } => file.text(),
        _ => "",
    }
}

fn is_watch(job: &Job) -> bool {
    watched(&job.mode) == "bus.checks"
        && job.input.text() == "bus"
        && job.format == Format::Text
        && job.scale == 3
        && !job.normal
        && job.expr.text() == ""
}

// What jobs ask for.
#[derive(Clone, Copy)]
enum Kind {
    // What a pattern alone asks for.
    Plain,
    // The strips of a difference.
    Difference,
    // A pattern over columns, with a definition.
    Columns,
    Made,
    Watch,
}

fn is_of(job: &Job, kind: Kind) -> bool {
    match kind {
        Kind::Plain => is_plain(job),
        Kind::Difference => is_difference(job),
        Kind::Columns => is_of_columns(job),
        Kind::Made => is_made(job),
        Kind::Watch => is_watch(job),
    }
}

fn ask_for(alloc: Global, words: &[String], kind: Kind) -> Result<bool, Fail> {
    let job = read_words(alloc, words)?;
    Ok(is_of(&job, kind))
}

// Words, each on a line, and what they ask for.
const WORDS: [(&str, Kind); 6] = [
    ("p", Kind::Plain),
    (
        "--normal\n--scale\n09\n--max-zones\n007\n--minus\nq\np",
        Kind::Difference,
    ),
    (
        "--format\ncsv\n--let\nhot = temp >= 80\n--show\nhot",
        Kind::Columns,
    ),
    ("--generate\n10000", Kind::Made),
    ("--generate\n010000", Kind::Made),
    ("--watch\n--scale\n3\nbus.checks\n--input\nbus", Kind::Watch),
];

fn is_asked(alloc: Global, text: &str, kind: Kind) -> Result<bool, Fail> {
    let words = lines_of(alloc, text)?;
    ask_for(alloc, &words, kind)
}

#[test]
fn words_ask_for_jobs(rt: HostRuntime) -> Result<(), Fail> {
    for (text, kind) in &WORDS {
        assert!(rt; is_asked(rt.alloc(), *text, *kind)?, "{text}");
    }
    Ok(())
}
