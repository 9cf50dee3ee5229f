ghost use Rattle.std.specs.Prelude.{◌≡◌};
ghost use Rattle.tre_vcd.specs.Sections.{command_of};

use crate::token::is;

/// What a section of the declarations is read for.
#[derive(Clone, Copy)]
pub enum Command {
    Scope,
    Upscope,
    Var,
    Timescale,
    EndDefinitions,
    /// It is passed over.
    Other,
}

/// The command that this token is.
pub fn command_of(token: &[u8]) -> Command
    ensures { result ≡ command_of token.now }
{
    if is(token, "$scope") {
        Command::Scope
    } else if is(token, "$upscope") {
        Command::Upscope
    } else if is(token, "$var") {
        Command::Var
    } else if is(token, "$timescale") {
        Command::Timescale
    } else if is(token, "$enddefinitions") {
        Command::EndDefinitions
    } else {
        Command::Other
    }
}
