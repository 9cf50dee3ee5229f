// What a watch tells of the segments of an input, and of their begins.

use crate::device::Device;
use crate::run::{Given, Ran, run};
use crate::text::text_of;
use std::alloc::{AllocError, Global};
use tests_support::zone_of;
use tre_zone::Zone;

/// How many bytes a read gives.
const READS: [usize; 7] = [4096, 1, 2, 3, 5, 16, 40];

/// Whether the input says this: each segment as its length and its valuation, with `@` and the
/// events at its begin, and then `@` and the events at the end, or the fault. The checks `p0`, `p1`
/// and so on are propositions, and `e0` and so on events.
pub(crate) fn says(alloc: Global, given: &Given<'_>, want: &str) -> Result<bool, AllocError> {
    for most in READS {
        if !says_cut(alloc, given, most, want)? {
            return Ok(false);
        }
    }
    let cuts = given.case.number("cuts").unwrap_or(0);
    for most in 1..=usize::from(cuts) {
        if !says_cut(alloc, given, most, want)? {
            return Ok(false);
        }
    }
    Ok(true)
}

// The same of reads that give so many bytes.
fn says_cut(alloc: Global, given: &Given<'_>, most: usize, want: &str) -> Result<bool, AllocError> {
    let most = most.max(1);
    let ran = run(alloc, given, Device { most, fails: 0 })?;
    is_said(alloc, &ran, want)
}

fn is_said(alloc: Global, ran: &Ran, want: &str) -> Result<bool, AllocError> {
    let mut said = Said {
        text: String::new(alloc),
        told: Vec::new(alloc),
        begin: 0,
    };
    said.put(alloc, ran)?;
    Ok(said.text.as_str().trim_end() == want)
}

// A zone that is told, the kind of its check, and the number in its name.
#[derive(Clone, Copy)]
struct Told {
    is_event: bool,
    number: u8,
    zone: Zone,
}

// The numbers of the checks of this kind that tell this pair of times, as bits.
fn bits_of(told: &[Told], is_event: bool, begin: u64, end: u64) -> u64 {
    let mut bits = 0;
    for it in told {
        if it.is_event == is_event && it.zone.holds(begin, end, 1) {
            bits |= 1 << (it.number % 64);
        }
    }
    bits
}

// What is told of the segments so far, of the next one, and when that begins.
#[derive(Drop)]
struct Said {
    text: String,
    told: Vec<Told>,
    begin: u64,
}

impl Said {
    // Puts what the output and the line of standard error tell.
    fn put(&mut self, alloc: Global, ran: &Ran) -> Result<(), AllocError> {
        for line in text_of(ran.out.bytes()).lines() {
            let (label, rest) = line.split_once(' ').unwrap_or((line, ""));
            let plain = without_points(alloc, rest)?;
            self.put_line(label, plain.as_str())?;
        }
        put_fault(&mut self.text, text_of(ran.err.bytes()))
    }

    fn put_line(&mut self, label: &str, rest: &str) -> Result<(), AllocError> {
        match label {
            "at" => self.put_segment(rest.parse::<u64>().unwrap_or(0)),
            "end" => self.put_events(),
            _ => match told_by(label, rest) {
                Some(it) => Ok(self.told.push(it)?),
                None => Ok(()),
            },
        }
    }

    fn put_segment(&mut self, end: u64) -> Result<(), AllocError> {
        let len = end.saturating_sub(self.begin);
        let bits = bits_of(&self.told, false, self.begin, end);
        write!(self.text, "{len}:{bits}")?;
        self.put_events()?;
        self.begin = end;
        self.told.clear();
        self.text.push(' ')
    }

    fn put_events(&mut self) -> Result<(), AllocError> {
        match bits_of(&self.told, true, self.begin, self.begin) {
            0 => Ok(()),
            events => write!(self.text, "@{events}"),
        }
    }
}

// Decimals at a scale, as numbers of units.
fn without_points(alloc: Global, text: &str) -> Result<String, AllocError> {
    let mut plain = String::new(alloc);
    for part in text.split('.') {
        plain.push_str(part)?;
    }
    Ok(plain)
}

fn told_by(label: &str, zone: &str) -> Option<Told> {
    let (is_event, number) = match label.strip_prefix('e') {
        Some(number) => (true, number),
        None => (false, label.strip_prefix('p')?),
    };
    Some(Told {
        is_event,
        number: number.parse::<u8>().ok()?,
        zone: zone_of(zone)?,
    })
}

// A fault of the trace, as its kind and its place.
fn put_fault(text: &mut String, line: &str) -> Result<(), AllocError> {
    let Some(fault) = line.trim_end().strip_prefix("montre: trace: ") else {
        return text.push_str(line);
    };
    match fault.split_once(" at ") {
        Some((kind, place)) => write!(text, "{kind} {place}"),
        None => text.push_str(fault),
    }
}
