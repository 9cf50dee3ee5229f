// The letters of values, and bytes that are put together or copied.
ghost use Rattle.std.specs.Prelude.{◌≡◌, ◌++◌, None, Some, IfOk, OnOk};
ghost use Rattle.tre_vcd.specs.VcdReading.{differs};
ghost use Rattle.tre_vcd.specs.Signals.{letters_kept};

use std::alloc::{AllocError, Global};
use tre_define::Part;

// The letters of a value, once one was said. Their room is used again.
#[derive(Drop)]
pub struct Letters {
    pub are_said: bool,
    pub bytes: Vec<u8>,
}

impl Letters {
    // No value was said.
    pub fn new(alloc: Global) -> Letters
        ensures { letters_kept result ≡ None }
    {
        Letters {
            are_said: false,
            bytes: Vec::new(alloc),
        }
    }

    // A value of these letters is said.
    pub fn say(&mut self, letters: &[u8]) -> Result<(), AllocError>
        ensures { OnOk result (letters_kept self.new ≡ Some letters.now) }
    {
        copy_into(&mut self.bytes, letters)?;
        self.are_said = true;
        Ok(())
    }

    // Whether some of the bits have other letters in the one value than in the other, where both
    // were said.
    pub fn differ(&self, part: Part, new: &Letters) -> bool
        ensures { result ≡ differs part (letters_kept self.now) (letters_kept new.now) }
    {
        if !self.are_said || !new.are_said {
            return false;
        }
        part.differs(&self.bytes, &new.bytes)
    }
}

// The one text and the other behind it.
pub fn joined(alloc: Global, front: &[u8], back: &[u8]) -> Result<Vec<u8>, AllocError>
    ensures { IfOk result (λ both. both.items ≡ front.now ++ back.now) }
{
    let mut both = Vec::from_slice(alloc, front)?;
    both.extend_from_slice(back)?;
    Ok(both)
}

// Puts these letters in the place of others.
pub fn copy_into(letters: &mut Vec<u8>, others: &[u8]) -> Result<(), AllocError>
    ensures { OnOk result (letters.new.items ≡ others.now) }
{
    letters.clear();
    letters.extend_from_slice(others)?;
    Ok(())
}
