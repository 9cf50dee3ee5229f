// Identifiers of one byte and of two, which most are.
ghost use Rattle.std.specs.Prelude.{◌≡◌, ◌≢◌, ◌<◌, ◌≤◌, ℕ, List, length, Option, None};
ghost use Rattle.tre_vcd.specs.Brief.{IsBriefOf, and_told, first_slot, second_slot};
ghost use Rattle.tre_vcd.specs.Kept.{AreHaving, IsSieveOf, identifier_at};

use crate::variable::{Variable, identifier_of};
use crate::variables::Variables;
use tre_state::Names;

// What the identifiers of some variables begin with, and which of them are short: bit k stands for
// the variable of number k.
#[derive(Drop)]
pub struct Brief {
    // Those that begin with this byte.
    pub firsts: [u64; 256],
    // Those of more than two bytes, those of one, and those of two by the second.
    pub seconds: [u64; 258],
}

impl Brief {
    // There is no identifier.
    pub fn new() -> Brief
        ensures { IsBriefOf (λ number. None) result }
    {
        Brief {
            firsts: [0; 256],
            seconds: [0; 258],
        }
    }

    // The identifiers of the variables of these names.
    pub fn of(names: &Names, variables: &[Variable]) -> Brief
        ensures { length variables.now ≤ length names.now →
            IsBriefOf (identifier_at variables.now) result }
    {
        let mut brief = Brief::new();
        for number in 0..names.len() as u8 {
            if let Some(identifier) = identifier_of(variables, number) {
                brief.add(identifier, number);
            }
        }
        brief
    }

    // The variable of this number, which had none, has this identifier.
    fn add(&mut self, identifier: &[u8], number: u8)
        requires { number < 64 }
        ensures { (identified : ℕ → Option (List ℕ)) → identified number ≡ None →
            IsBriefOf identified self.old →
            IsBriefOf (and_told identified number identifier.now) self.new }
    {
        self.firsts[first_slot(identifier)] |= 1 << number;
        self.seconds[second_slot(identifier)] |= 1 << number;
    }

    // Which of the variables have this identifier.
    #[inline(always)]
    pub fn having(&self, variables: &Variables, identifier: &[u8]) -> u64
        ensures { IsBriefOf (identifier_at variables.now.list.items) self.now →
            IsSieveOf variables.now.list.items variables.now.sieve →
            AreHaving variables.now.list.items identifier.now result }
    {
        let numbers = self.firsts[first_slot(identifier)];
        if numbers == 0 {
            return 0;
        }
        let slot = second_slot(identifier);
        if slot == 0 {
            return variables.having_apart(identifier);
        }
        numbers & self.seconds[slot]
    }
}

// The first byte; 0 where there is none.
#[inline(always)]
fn first_slot(identifier: &[u8]) -> usize
    ensures slot { result ≡ first_slot identifier.now }
    ensures within { result < 256 }
{
    match identifier {
        [] => 0,
        [first, ..] => usize::from(*first),
    }
}

// The second byte, counted from 2, of two bytes; 1 of one byte, and 0 of others.
#[inline(always)]
fn second_slot(identifier: &[u8]) -> usize
    ensures slot { result ≡ second_slot identifier.now }
    ensures within { result < 258 }
{
    match identifier {
        [_] => 1,
        [_, second] => 2 + usize::from(*second),
        _ => 0,
    }
}
