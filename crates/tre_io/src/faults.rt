// How a call fails, and how failures are counted.
ghost use Rattle.std.specs.Prelude.{◌≡◌, ◌^◌, ◌<◌};
ghost use Rattle.tre_io.specs.Faults.{count_after};

/// A call didn't do its work. The object's count of faults says that this came from outside.
#[derive(Clone, Copy, Debug, PartialEq, Eq)]
pub struct Failed;

// One fault more. The count stays at its last value once it is there.
pub fn count_fault(faults: &mut u64) -> Failed
    ensures one_more { faults.new ≡ count_after faults.old }
    ensures fits { faults.old < 2 ^ 64 }
{
    *faults = faults.saturating_add(1);
    Failed
}
