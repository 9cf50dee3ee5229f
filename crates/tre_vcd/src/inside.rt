ghost use Rattle.std.specs.Prelude.{◌≡◌};
ghost use Rattle.tre_vcd.specs.Sections.{is_nothing};

use crate::command::Command;

/// What is open behind a token.
#[derive(Clone, Copy)]
pub enum Inside {
    Nothing,
    /// A section of the declarations.
    Section(Command),
    /// A comment among the values.
    Comment,
    /// A vector of this value, which waits for its identifier.
    Vector(bool),
    /// A real or a string, which waits for its identifier.
    Number,
}

impl Inside {
    /// Whether nothing is open.
    pub fn is_nothing(self) -> bool
        ensures { result ≡ is_nothing self }
    {
        matches!(self, Inside::Nothing)
    }
}
