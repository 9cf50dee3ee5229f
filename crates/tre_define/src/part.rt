// Parts of values.
ghost use Rattle.std.specs.Prelude.{◌≡◌, true, IfSome};
ghost use Rattle.std.specs.List.{list_all};
ghost use Rattle.std.specs.Option.{option_map};
ghost use Rattle.std.specs.Str.Parse.{digits_value};
ghost use Rattle.tre_define.specs.Values.{differ, has, is_bit, is_known, number_of_part};

use crate::letters::{are_bits, is_bit, letter_at, letters_of};

/// Bits of a value: so many from the lowest of them on. Bit 0 is the last letter.
#[derive(Clone, Copy)]
pub struct Part {
    pub low: u64,
    pub width: u64,
}

impl Part {
    /// Whether one of the bits has another letter in one value than in the other, of either case
    /// alike. Left of its letters a value goes on with `0` before `0` or `1`, and else with its
    /// first letter (IEEE 1364-2005, 18.2.1).
    pub fn differs(self, old: &[u8], new: &[u8]) -> bool
        ensures { result ≡ differ self old.now new.now }
    {
        let most = old.len().max(new.len()) as u64;
        // One bit past the letters tells of all others there.
        let count = self.width.min(most.saturating_sub(self.low) + 1);
        for step in 0..count {
            let bit = self.low + step;
            if letter_at(old, bit) != letter_at(new, bit) {
                return true;
            }
        }
        false
    }

    /// Whether one of the bits has this letter, which is in lower case; a value's may be of either.
    /// Left of its letters a value goes on as above.
    pub fn has(self, letters: &[u8], letter: u8) -> bool
        ensures { result ≡ has self letter letters.now }
    {
        let most = letters.len() as u64;
        // One bit past the letters tells of all others there.
        let count = self.width.min(most.saturating_sub(self.low) + 1);
        for step in 0..count {
            if letter_at(letters, self.low + step) == letter {
                return true;
            }
        }
        false
    }

    /// The letters of the part that stand in those of a value, which write its number: those left
    /// of them are 0. None where a bit of the part is unknown.
    pub fn bits(self, letters: &[u8]) -> Option<&[u8]>
        ensures number { option_map (λ bits. digits_value 2 bits.now) result
            ≡ number_of_part self letters.now }
        ensures bits { IfSome result (λ bits. list_all is_bit bits.now ≡ true) }
    {
        if !is_known(self, letters) {
            return None;
        }
        let bits = letters_of(self, letters);
        if are_bits(bits) { Some(bits) } else { None }
    }
}

// Whether the part stands in the letters, or what stands left of them is 0.
fn is_known(part: Part, letters: &[u8]) -> bool
    ensures { result ≡ is_known part letters.now }
{
    let len = letters.len() as u64;
    if part.low <= len && part.width <= len - part.low {
        return true;
    }
    match letters {
        [] => false,
        [first, ..] => is_bit(*first),
    }
}
