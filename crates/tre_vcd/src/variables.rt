// The variables of some names.
ghost use Rattle.std.specs.Prelude.{◌≡◌, ◌==◌, ℕ, List, length, Option, None, OnOk};
ghost use Rattle.tre_vcd.specs.Kept.{KeepsNames, IsSieveOf, AreHaving, and_declared};

use crate::variable::{Variable, having};
use std::alloc::{AllocError, Global};
use tre_parts::find_name;
use tre_state::{Names, Sieve};

// The identifiers of some names, each with the number of its name.
#[derive(Drop)]
pub struct Variables {
    // Those of the first names; a name that has none yet isn't declared.
    pub list: Vec<Variable>,
    // It was told of the identifier of each variable.
    pub sieve: Sieve,
}

impl Variables {
    // No name is declared.
    pub fn new(alloc: Global) -> Variables
        ensures { (names : List (List ℕ)) → KeepsNames (λ name. None) names result }
    {
        Variables {
            list: Vec::new(alloc),
            sieve: Sieve::new(),
        }
    }

    // There is a variable for each name.
    fn fill(&mut self, names: &Names) -> Result<(), AllocError>
        ensures known { (identified : List ℕ → Option (List ℕ)) →
            KeepsNames identified names.now self.old →
            OnOk result (KeepsNames identified names.now self.new) }
        ensures len { (identified : List ℕ → Option (List ℕ)) →
            KeepsNames identified names.now self.old →
            OnOk result (length self.new.list.items ≡ length names.now) }
    {
        for _ in self.list.as_slice().len()..names.len() {
            self.list.push(Variable::new())?;
        }
        Ok(())
    }

    // A name is declared with this identifier, where it is one of the names.
    pub fn declare(
        &mut self,
        alloc: Global,
        names: &Names,
        name: &[u8],
        identifier: &[u8],
    ) -> Result<(), AllocError>
        ensures { (identified : List ℕ → Option (List ℕ)) →
            KeepsNames identified names.now self.old →
            OnOk result (KeepsNames (and_declared identified name.now identifier.now) names.now
            self.new) }
    {
        self.fill(names)?;
        if let Some(place) = find_name(names, name) {
            let number = usize::from(place);
            if number < self.list.as_slice().len() {
                self.list[number].declare(alloc, identifier)?;
                self.sieve.add(identifier, place);
            }
        }
        Ok(())
    }

    // Whether no name is declared.
    #[inline(always)]
    pub fn is_empty(&self) -> bool
        ensures { result ≡ (length self.now.list.items == 0) }
    {
        self.list.as_slice().is_empty()
    }

    // The same as `having`, apart from the code of its caller.
    #[inline(never)]
    pub fn having_apart(&self, identifier: &[u8]) -> u64
        ensures { IsSieveOf self.now.list.items self.now.sieve →
            AreHaving self.now.list.items identifier.now result }
    {
        self.having(identifier)
    }

    // Which of them have this identifier: bit k stands for number k.
    #[inline(always)]
    pub fn having(&self, identifier: &[u8]) -> u64
        ensures { IsSieveOf self.now.list.items self.now.sieve →
            AreHaving self.now.list.items identifier.now result }
    {
        let numbers = self.sieve.numbers(identifier);
        if numbers == 0 {
            return 0;
        }
        having(&self.list, numbers, identifier)
    }
}
