// The refusal of a segment that fits.
ghost use Rattle.std.specs.Prelude.{◌≡◌};

use std::alloc::AllocError;
use tre_trace::PushFault;

/// What it comes to: only memory can have been wanting.
pub fn want_of_memory(fault: PushFault) -> AllocError
    requires { fault ≡ PushFault.Memory }
{
    AllocError
}
