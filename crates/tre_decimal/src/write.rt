// The text of a number.
ghost use Rattle.std.specs.Prelude.{◌≡◌, ◌≤◌, ◌++◌, string_bytes, decimal, OnOk};
ghost use Rattle.tre_decimal.specs.declared.TheConstants.{SCALE_MAX};
ghost use Rattle.tre_decimal.specs.Decimal.{last_digits, number_text};

use itoa::Buffer;
use std::alloc::AllocError;

/// Appends a number of units, with as many decimals as the scale is. After an error a part of it
/// may stand at the end of the text.
pub fn push_units(text: &mut String, units: u64, scale: u8) -> Result<(), AllocError>
    requires { scale ≤ SCALE_MAX }
    ensures { OnOk result
        (string_bytes text.new ≡ string_bytes text.old ++ number_text scale units) }
{
    if scale == 0 {
        return push_decimal(text, units);
    }
    push_decimal(text, units / 10u64.pow(u32::from(scale)))?;
    text.push_str(".")?;
    push_last(text, units, scale)?;
    Ok(())
}

// Appends the last digits of a number, so many of them.
fn push_last(text: &mut String, number: u64, count: u8) -> Result<(), AllocError>
    ensures { OnOk result
        (string_bytes text.new ≡ string_bytes text.old ++ last_digits count number) }
{
    if count == 0 {
        return Ok(());
    }
    push_last(text, number / 10, count - 1)?;
    push_decimal(text, number % 10)?;
    Ok(())
}

// Appends a number in decimal digits.
fn push_decimal(text: &mut String, number: u64) -> Result<(), AllocError>
    ensures { OnOk result (string_bytes text.new ≡ string_bytes text.old ++ decimal number) }
{
    let mut buffer = Buffer::new();
    text.push_str(buffer.format(number))?;
    Ok(())
}
