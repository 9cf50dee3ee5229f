// One of two signals that a name compares.
ghost use Rattle.std.specs.Prelude.{◌≡◌, ◌<◌, ◌∷◌, List, ℕ, Option, Some, true, OnOk, IfSome};
ghost use Rattle.std.specs.List.{list_all};
ghost use Rattle.std.specs.Option.{option_map, option_or};
ghost use Rattle.std.specs.Str.Parse.{digits_value};
ghost use Rattle.tre_define.specs.Values.{is_bit};
ghost use Rattle.tre_define.specs.declared.part.Part.{Part};
ghost use Rattle.tre_state.specs.Sieve.{MayBe};
ghost use Rattle.tre_vcd.specs.VcdReading.{Form, Statement, Asked, change};
ghost use Rattle.tre_vcd.specs.Pairs.{number_kept, side_asked, KnowsSide};
ghost use Rattle.tre_vcd.specs.Signals.{asked_of_part, letters_kept, reads_part};

use crate::changes::AskedPart;
use crate::letters::Letters;
use std::alloc::{AllocError, Global};
use tre_define::Part;
use tre_state::Sieve;

// What is read of the signal, once something of it is declared, and its last letters.
#[derive(Drop)]
pub struct Side {
    pub asked: Option<AskedPart>,
    pub latest: Letters,
}

impl Side {
    // Nothing is declared.
    pub fn new(alloc: Global) -> Side
        ensures asked { side_asked result ≡ None }
        ensures letters { letters_kept result.latest ≡ None }
    {
        Side {
            asked: None,
            latest: Letters::new(alloc),
        }
    }

    // This part of an identifier is declared, if there is one. The first declaration counts.
    pub fn declare(
        &mut self,
        alloc: Global,
        identifier: &[u8],
        part: Option<Part>,
    ) -> Result<(), AllocError>
        ensures asks { OnOk result (side_asked self.new ≡ option_or (side_asked self.old)
            (option_map (λ own. record { identifier = identifier.now; asks = own }) part)) }
        ensures same { self.new.latest ≡ self.old.latest }
    {
        let Some(part) = part else {
            return Ok(());
        };
        if self.asked.is_some() {
            return Ok(());
        }
        self.asked = Some(AskedPart {
            identifier: Vec::from_slice(alloc, identifier)?,
            part,
        });
        Ok(())
    }

    // The sieve is told of its identifier.
    pub fn sift(&self, sieve: &mut Sieve, number: u8)
        requires { number < 64 }
        ensures told { (identifier : List ℕ) → reads_part (side_asked self.now) identifier ≡ true →
            MayBe sieve.new identifier number }
        ensures kept { (other : List ℕ) (k : ℕ) → MayBe sieve.old other k →
            MayBe sieve.new other k }
    {
        if let Some(asked) = &self.asked {
            sieve.add(&asked.identifier, number);
        }
    }

    // Whether it reads the values of this identifier.
    pub fn reads(&self, identifier: &[u8]) -> bool
        ensures { result ≡ reads_part (side_asked self.now) identifier.now }
    {
        match &self.asked {
            Some(asked) => asked.identifier.as_slice() == identifier,
            None => false,
        }
    }

    // An identifier has a value of these letters, which is kept where it is read.
    pub fn say(&mut self, identifier: &[u8], letters: &[u8]) -> Result<(), AllocError>
        ensures knows { (past : List Statement) (form : Form) (text : Option (List ℕ)) →
            KnowsSide past text self.old → OnOk result (KnowsSide
            (change form identifier.now letters.now ∷ past) text self.new) }
        ensures same { self.new.asked ≡ self.old.asked }
    {
        if !self.reads(identifier) {
            return Ok(());
        }
        self.latest.say(letters)
    }

    // The bits of its number, if that is known.
    pub fn bits(&self) -> Option<&[u8]>
        ensures number { option_map (λ bits. digits_value 2 bits.now) result
            ≡ number_kept self.now }
        ensures bits { IfSome result (λ bits. list_all is_bit bits.now ≡ true) }
    {
        let Some(asked) = &self.asked else {
            return None;
        };
        if !self.latest.are_said {
            return None;
        }
        asked.part.bits(&self.latest.bytes)
    }
}
