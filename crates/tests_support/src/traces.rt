// Traces and names.
use std::alloc::Global;
use std::test::Fail;
use tre_state::{Names, is_name};
use tre_trace::{PushFault, Segment, Trace};

/// The trace of segments, each with its length and its valuation. No event happens.
pub fn trace_of(alloc: Global, segments: &[(u64, u64)]) -> Result<Trace, PushFault> {
    let mut trace = Trace::new(alloc);
    for (len, val) in segments {
        trace.push(Segment::plain(*len, *val))?;
    }
    Ok(trace)
}

/// The names that stand in the text, with one space between two; of no text there are none.
pub fn names_of(alloc: Global, text: &str) -> Result<Names, Fail> {
    let mut names = Names::new(alloc);
    for name in text.split(' ') {
        if is_name(name) {
            names.number(name)?;
        }
    }
    Ok(names)
}
