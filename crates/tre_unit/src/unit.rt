/// A unit of time.
#[derive(Clone, Copy, PartialEq, Eq)]
pub enum TimeUnit {
    /// `s`
    Seconds,
    /// `ms`
    Milliseconds,
    /// `us`
    Microseconds,
    /// `ns`
    Nanoseconds,
    /// `ps`
    Picoseconds,
    /// `fs`
    Femtoseconds,
}

impl TimeUnit {
    ghost use Rattle.std.specs.Prelude.{◌≡◌, ◌≤◌};
    ghost use Rattle.tre_unit.specs.Units.{places_of, unit_named};

    /// The unit of this name. None where it is no unit's, also where it has letters of the other
    /// case.
    pub fn named(name: &[u8]) -> Option<TimeUnit>
        ensures { result ≡ unit_named name.now }
    {
        match name {
            [b's'] => Some(TimeUnit::Seconds),
            [b'm', b's'] => Some(TimeUnit::Milliseconds),
            [b'u', b's'] => Some(TimeUnit::Microseconds),
            [b'n', b's'] => Some(TimeUnit::Nanoseconds),
            [b'p', b's'] => Some(TimeUnit::Picoseconds),
            [b'f', b's'] => Some(TimeUnit::Femtoseconds),
            _ => None,
        }
    }

    /// How many decimals of a second it is: it is 10^-places of a second.
    pub fn places(self) -> u8
        ensures places { result ≡ places_of self }
        ensures small { result ≤ 15 }
    {
        match self {
            TimeUnit::Seconds => 0,
            TimeUnit::Milliseconds => 3,
            TimeUnit::Microseconds => 6,
            TimeUnit::Nanoseconds => 9,
            TimeUnit::Picoseconds => 12,
            TimeUnit::Femtoseconds => 15,
        }
    }
}
