// How long a tick of a dump takes.
ghost use Rattle.std.specs.Prelude.{◌≡◌, ◌≤◌, ◌∷◌, [], length, map};
ghost use Rattle.std.specs.Char.{is_ascii_digit};
ghost use Rattle.std.specs.List.{prefix_len};
ghost use Rattle.tre_unit.specs.Units.{unit_named};
ghost use Rattle.tre_vcd.specs.Timescale.{tens_of, tick_of, tick_by};

use crate::token::is;
use tre_state::front_len;
use tre_unit::TimeUnit;

/// A tick of 10^tens of a unit.
#[derive(Clone, Copy)]
pub struct Tick {
    pub tens: u8,
    pub unit: TimeUnit,
}

/// The tick that the tokens of a `$timescale` say.
pub fn tick_of(tokens: &[Vec<u8>]) -> Option<Tick>
    ensures { result ≡ tick_of (map (λ token. token.items) tokens.now) }
{
    match tokens {
        [both] => tick_in(both),
        [number, unit] => tick_by(number, unit),
        _ => None,
    }
}

// The tick that digits with a unit behind them say.
fn tick_in(both: &[u8]) -> Option<Tick>
    ensures { result ≡ tick_of (both.now ∷ []) }
{
    let len = digits_len(both);
    tick_by(&both[..len], &both[len..])
}

// How many digits stand in front.
fn digits_len(bytes: &[u8]) -> usize
    ensures len { result ≡ prefix_len is_ascii_digit bytes.now }
    ensures within { result ≤ length bytes.now }
{
    front_len(bytes, |byte| byte.is_ascii_digit())
}

// The tick that a number of a unit is.
fn tick_by(number: &[u8], unit: &[u8]) -> Option<Tick>
    ensures { result ≡ tick_by (tens_of number.now) (unit_named unit.now) }
{
    let tens = tens_of(number)?;
    let unit = TimeUnit::named(unit)?;
    Some(Tick { tens, unit })
}

// 1, 10 and 100 by their powers of ten.
fn tens_of(number: &[u8]) -> Option<u8>
    ensures { result ≡ tens_of number.now }
{
    if is(number, "1") {
        Some(0)
    } else if is(number, "10") {
        Some(1)
    } else if is(number, "100") {
        Some(2)
    } else {
        None
    }
}
