ghost use Rattle.std.specs.Prelude.{◌≡◌, ◌+◌, ◌<◌, ◌≤◌};
ghost use Rattle.tre_parts.specs.declared.TheConstants.{PART_MAX};
ghost use Rattle.tre_parts.specs.declared.skimmed.Skimmed.{Skimmed};

/// How far whole parts were read.
#[derive(Clone, Copy)]
pub struct Skimmed {
    /// How many bytes they are, with the separator behind each.
    pub bytes: usize,
    /// How many parts they are.
    pub parts: u32,
}

impl Skimmed {
    /// One part more was read, whose separator stands at this place.
    #[inline(always)]
    pub fn with_part(self, place: usize) -> Skimmed
        requires few { place < PART_MAX }
        ensures is { self.parts ≤ self.bytes → self.bytes ≤ place →
            result ≡ record { bytes = place + 1; parts = self.parts + 1 } }
        ensures bytes { result.bytes ≡ place + 1 }
    {
        Skimmed {
            bytes: place + 1,
            parts: self.parts.wrapping_add(1),
        }
    }
}
