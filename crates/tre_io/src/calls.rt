// The calls of an object in memory: they are counted, and those that a test chose fail.
ghost use Rattle.std.specs.Prelude.{◌≡◌, ◌^◌, ◌<◌, OnOk, OnErr, false, true};
ghost use Rattle.tre_io.specs.Calls.{new_calls, is_next_failing, after_call, after_fault, with_fault};
ghost use Rattle.tre_io.specs.Faults.{HasCause};

use crate::faults::{Failed, count_fault};
use std::marker::Model;

#[derive(Drop)]
pub struct Calls {
    fails: Vec<u64>,
    made: u64,
    faults: u64,
}

impl Model for Calls {
    ghost use Rattle.tre_io.specs.Calls.{CallCounts};

    ghost Value = { CallCounts };

    ghost view = { λ calls. record {
      fails = calls.fails.items;
      made = calls.made;
      faults = calls.faults;
    } };
}

impl Calls {
    // No call yet; those with these numbers are to fail.
    pub fn new(fails: Vec<u64>) -> Calls
        ensures { result ≡ new_calls fails.items }
    {
        Calls {
            fails,
            made: 0,
            faults: 0,
        }
    }

    // Counts a call, and a fault too where this call is to fail.
    pub fn begin(&mut self) -> Result<(), Failed>
        ensures goes_on { OnOk result (is_next_failing self.old ≡ false) }
        ensures fails { OnErr result (is_next_failing self.old ≡ true) }
        ensures ok { OnOk result (self.new ≡ after_call self.old) }
        ensures err { OnErr result (self.new ≡ after_fault self.old) }
        ensures cause { HasCause self.old.faults self.new.faults result }
    {
        self.made = self.made.saturating_add(1);
        if self.fails.contains(&self.made) {
            return Err(self.fail());
        }
        Ok(())
    }

    // Counts a fault of a call that has begun.
    pub fn fail(&mut self) -> Failed
        ensures one_more { self.new ≡ with_fault self.old }
        ensures fits { self.old.faults < 2 ^ 64 }
    {
        count_fault(&mut self.faults)
    }
}
