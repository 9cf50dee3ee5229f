use std::alloc::AllocError;

/// Why the text of definitions was refused. `at` is the number of the definition, from 1.
#[derive(Clone, Copy, Debug, PartialEq, Eq)]
pub enum LetFault {
    /// It is no definition.
    BadLet { at: u64 },
    /// An earlier one has its name.
    Twice { at: u64 },
    Memory,
}

impl From<AllocError> for LetFault {
    ghost use Rattle.std.specs.Prelude.{◌≡◌};
    ghost use Rattle.tre_define.specs.declared.let_fault.LetFault.{LetFault};

    ghost from_gives = { λ _ fault. fault ≡ LetFault.Memory };

    fn from(_: AllocError) -> LetFault {
        LetFault::Memory
    }
}
