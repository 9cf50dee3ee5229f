ghost use Rattle.std.specs.Prelude.{◌≡◌, Ok, IfOk};

use std::alloc::AllocError;
use tre_residual::Residual;
use tre_syntax::both;
use tre_zoneset::ZoneSet;

/// What reading a piece makes of a residual.
#[derive(Drop)]
pub struct Stepped {
    /// The pairs that are known with the piece read: each ends at the end of the piece or earlier.
    pub told: ZoneSet,
    /// What is left at the end of the piece.
    pub rest: Residual,
}

impl Stepped {
    /// Of what is told and what is left, where memory was enough for both.
    pub(crate) fn of(
        told: Result<ZoneSet, AllocError>,
        rest: Result<Residual, AllocError>,
    ) -> Result<Stepped, AllocError>
        ensures told { IfOk result (λ whole. told ≡ Ok whole.told) }
        ensures rest { IfOk result (λ whole. rest ≡ Ok whole.rest) }
    {
        let (told, rest) = both(told, rest)?;
        Ok(Stepped { told, rest })
    }
}
