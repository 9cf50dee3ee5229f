ghost use Rattle.std.specs.Prelude.{◌≡◌, ◌≢◌, ◌↔◌, ◌<◌, ℕ, Some, true, if◌then◌else◌, OnOk};
ghost use Rattle.std.specs.Int.{bit_at};
ghost use Rattle.std.specs.Option.{option_map, option_or};
ghost use Rattle.tre_vcd.specs.Kept.{identifier_kept, has_identifier, identifier_at};

use std::alloc::{AllocError, Global};
use tre_state::{lowest, without};

// The identifier of one name, once it is declared.
#[derive(Drop)]
pub struct Variable {
    pub identifier: Option<Vec<u8>>,
}

impl Variable {
    // It isn't declared yet.
    pub fn new() -> Variable
        ensures { result ≡ record { identifier = None } }
    {
        Variable { identifier: None }
    }

    // It is declared with this identifier. The first declaration counts.
    pub fn declare(&mut self, alloc: Global, identifier: &[u8]) -> Result<(), AllocError>
        ensures { OnOk result (identifier_kept self.new
            ≡ option_or (identifier_kept self.old) (Some identifier.now)) }
    {
        if self.identifier.is_none() {
            self.identifier = Some(Vec::from_slice(alloc, identifier)?);
        }
        Ok(())
    }

    // Its identifier, if it is declared.
    fn identifier(&self) -> Option<&[u8]>
        ensures { option_map (λ bytes. bytes.now) result ≡ identifier_kept self.now }
    {
        match &self.identifier {
            Some(own) => Some(own.as_slice()),
            None => None,
        }
    }

    // Whether this is its identifier.
    fn has_identifier(&self, identifier: &[u8]) -> bool
        ensures { result ≡ has_identifier (identifier_kept self.now) identifier.now }
    {
        match &self.identifier {
            Some(own) => own.as_slice() == identifier,
            None => false,
        }
    }
}

// The identifier of the variable of this number, if it has one.
pub fn identifier_of(variables: &[Variable], number: u8) -> Option<&[u8]>
    ensures { option_map (λ bytes. bytes.now) result ≡ identifier_at variables.now number }
{
    let place = usize::from(number);
    if place >= variables.len() {
        return None;
    }
    variables[place].identifier()
}

// Whether the variable of this number has this identifier.
fn has_identifier_at(variables: &[Variable], number: u8, identifier: &[u8]) -> bool
    ensures { (result ≡ true) ↔ (identifier_at variables.now number ≡ Some identifier.now) }
{
    let place = usize::from(number);
    if place >= variables.len() {
        return false;
    }
    variables[place].has_identifier(identifier)
}

// The bits without this one, unless the variable of this number has this identifier.
fn tested(bits: u64, number: u8, variables: &[Variable], identifier: &[u8]) -> u64
    requires within { number < 64 }
    requires set { bit_at bits number ≡ 1 }
    ensures others { (k : ℕ) → k ≢ number → (bit_at result k ≡ 1) ↔ (bit_at bits k ≡ 1) }
    ensures this { (bit_at result number ≡ 1)
        ↔ (identifier_at variables.now number ≡ Some identifier.now) }
{
    if has_identifier_at(variables, number, identifier) {
        return bits;
    }
    without(bits, number)
}

// Which variables of these numbers have this identifier: bit k stands for number k.
#[inline(always)]
pub fn having(variables: &[Variable], numbers: u64, identifier: &[u8]) -> u64
    ensures sound { (k : ℕ) → bit_at result k ≡ 1 →
        identifier_at variables.now k ≡ Some identifier.now }
    ensures whole { (k : ℕ) → bit_at numbers k ≡ 1 →
        identifier_at variables.now k ≡ Some identifier.now → bit_at result k ≡ 1 }
{
    let mut left = numbers;
    let mut having = numbers;
    while left != 0 {
        let number = lowest(left);
        having = tested(having, number, variables, identifier);
        left = without(left, number);
    }
    having
}

// Gives those of the bits this value.
#[inline(always)]
pub fn set_value(values: &mut u64, bits: u64, value: bool)
    ensures changed { (k : ℕ) → bit_at bits k ≡ 1 →
        bit_at values.new k ≡ (if value then 1 else 0) }
    ensures kept { (k : ℕ) → bit_at bits k ≢ 1 → bit_at values.new k ≡ bit_at values.old k }
{
    if bits == 0 {
        return;
    }
    if value {
        *values |= bits;
        return;
    }
    *values ^= *values & bits;
}

// Gives the bit of this number this value.
pub fn set_bit(values: &mut u64, number: u8, value: bool)
    requires { number < 64 }
    ensures this { bit_at values.new number ≡ (if value then 1 else 0) }
    ensures others { (k : ℕ) → k ≢ number → bit_at values.new k ≡ bit_at values.old k }
{
    set_value(values, 1 << number, value);
}
