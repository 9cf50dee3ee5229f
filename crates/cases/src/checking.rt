// Whether runs come to what their cases say.

use crate::alike::is_alike;
use crate::case::Case;
use crate::device::{Device, SLOW, SOUND};
use crate::run::{Given, Ran, run};
use crate::says::says;
use crate::text::{text_of, words_of};
use std::alloc::{AllocError, Global};
use std::io;
use tests_support::zone_of;

/// How many cases there are, and how many of them differ.
#[derive(Clone, Copy)]
struct Count {
    all: u64,
    differ: u64,
}

/// Runs the cases of a file, and prints those that differ, and how many there are. What stands in
/// front of the first case is no line of one.
pub(crate) fn run_file(
    rt: &impl Print,
    alloc: Global,
    name: &str,
    text: &str,
) -> Result<(), anyhow::Error> {
    let mut input = Vec::new(alloc);
    let mut count = Count { all: 0, differ: 0 };
    for block in text.split("\nmontre").skip(1) {
        run_case(rt, alloc, Case::new(block), &mut input, &mut count)?;
    }
    println!(rt; "{name}: {} cases, {} differ", count.all, count.differ)?;
    Ok(())
}

// Runs a case and counts it. The input is that of the case before, and then its own.
fn run_case(
    rt: &impl Print,
    alloc: Global,
    case: Case<'_>,
    input: &mut Vec<u8>,
    count: &mut Count,
) -> Result<(), anyhow::Error> {
    if let Some(line) = case.unknown() {
        println!(rt; "montre{}: no line of a case: {line}", case.words)?;
    }
    if case.text("again").is_none() {
        input.clear();
    }
    case.put_texts(input, "<")?;
    count.all = count.all.saturating_add(1);
    if !is_as_said(rt, alloc, case, input)? {
        count.differ = count.differ.saturating_add(1);
    }
    Ok(())
}

fn is_as_said(
    rt: &impl Print,
    alloc: Global,
    case: Case<'_>,
    input: &[u8],
) -> Result<bool, anyhow::Error> {
    let words = words_of(alloc, "", &case)?;
    let words = words.as_slice();
    comes_so(rt, alloc, &Given { case, words, input })
}

fn comes_so(rt: &impl Print, alloc: Global, given: &Given<'_>) -> Result<bool, anyhow::Error> {
    if let Some(same) = is_told(alloc, given)? {
        if !same {
            println!(rt; "montre{}: something else is told", given.case.words)?;
        }
        return Ok(same);
    }
    match given.case.device("reads") {
        Some(reads) => comes_to(rt, alloc, given, reads),
        None => Ok(comes_to(rt, alloc, given, SOUND)? && comes_to(rt, alloc, given, SLOW)?),
    }
}

// Whether what is told is what the case says, where it says no output.
fn is_told(alloc: Global, given: &Given<'_>) -> Result<Option<bool>, AllocError> {
    let case = given.case;
    if let Some(halves) = case.number("alike") {
        return Ok(Some(is_alike(alloc, given, halves)?));
    }
    if let Some(want) = case.text("says") {
        return Ok(Some(says(alloc, given, want)?));
    }
    if case.text("holds").is_none() && case.text("lacks").is_none() {
        return Ok(None);
    }
    Ok(Some(tells_pairs(alloc, given, SOUND)? && tells_pairs(alloc, given, SLOW)?))
}

// Whether the run ends well, and its blocks tell the pairs of the case as they say.
fn tells_pairs(alloc: Global, given: &Given<'_>, reads: Device) -> Result<bool, AllocError> {
    let ran = run(alloc, given, reads)?;
    let (case, out) = (given.case, ran.out.bytes());
    Ok(ran.code == 0 && case.all_pairs("holds", out, true) && case.all_pairs("lacks", out, false))
}

// Whether the run comes to what the case says. Where it doesn't, prints what it comes to.
fn comes_to(
    rt: &impl Print,
    alloc: Global,
    given: &Given<'_>,
    reads: Device,
) -> Result<bool, anyhow::Error> {
    let ran = run(alloc, given, reads)?;
    let same = is_wanted(alloc, &given.case, &ran)?;
    if !same {
        tell(rt, &given.case, &ran)?;
    }
    Ok(same)
}

fn tell(rt: &impl Print, case: &Case<'_>, ran: &Ran) -> Result<(), anyhow::Error> {
    println!(rt; "montre{}", case.words)?;
    println!(rt; "> {:?}", text_of(ran.out.bytes()))?;
    println!(rt; "! {:?}", text_of(ran.err.bytes()))?;
    println!(rt; "= {}", ran.code)?;
    Ok(())
}

fn is_wanted(alloc: Global, case: &Case<'_>, ran: &Ran) -> Result<bool, AllocError> {
    let code = case.number("=").unwrap_or(0);
    Ok(
        u16::from(ran.code) == code
            && is_text(alloc, case, "!", ran.err.bytes())?
            && is_out(alloc, case, ran.out.bytes())?,
    )
}

fn is_out(alloc: Global, case: &Case<'_>, out: &[u8]) -> Result<bool, AllocError> {
    if case.text("ends").is_none() {
        return is_text(alloc, case, ">", out);
    }
    let end = case.texts(alloc, "ends")?;
    Ok(out.ends_with(&end) && has_zones(out, case.number("zones")))
}

fn is_text(alloc: Global, case: &Case<'_>, word: &str, bytes: &[u8]) -> Result<bool, AllocError> {
    let text = case.texts(alloc, word)?;
    Ok(bytes == text.as_slice())
}

// Whether the output has so many zones, where that is said.
fn has_zones(out: &[u8], zones: Option<u16>) -> bool {
    let Some(zones) = zones else {
        return true;
    };
    let lines = text_of(out).lines();
    lines.filter(|line| zone_of(line).is_some()).count() == usize::from(zones)
}
