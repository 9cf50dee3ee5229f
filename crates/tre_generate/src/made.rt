// The made trace.
ghost use Rattle.std.specs.Prelude.{◌≡◌, ◌≤◌, [], ◌∷◌, ◌++◌, IfOk, OnOk};
ghost use Rattle.tre_trace.specs.Trace.{Fits, quiet};
ghost use Rattle.tre_generate.specs.Made.{made_segment, made_trace};
ghost use Rattle.tre_generate.specs.declared.made_run.TheConstants.{SEGMENTS_MAX};

use crate::made_run::SEGMENTS_MAX;
use std::alloc::{AllocError, Global};
use tre_online::want_of_memory;
use tre_trace::{Trace, generated};

/// The first segments of the made trace.
pub fn made_trace(alloc: Global, count: u64) -> Result<Trace, AllocError>
    requires { count ≤ SEGMENTS_MAX }
    ensures { IfOk result (λ trace. trace ≡ quiet (made_trace count)) }
{
    let mut trace = Trace::new(alloc);
    for number in 0..count {
        push_made(&mut trace, number)?;
    }
    Ok(trace)
}

// Puts the segment of a number behind others, where it fits.
fn push_made(trace: &mut Trace, number: u64) -> Result<(), AllocError>
    requires { Fits trace.old.segments (made_segment number) }
    ensures { OnOk result (trace.new ≡ quiet (trace.old.segments ++ made_segment number ∷ [])) }
{
    match trace.push(generated(number)) {
        Ok(()) => Ok(()),
        Err(fault) => Err(want_of_memory(fault)),
    }
}
