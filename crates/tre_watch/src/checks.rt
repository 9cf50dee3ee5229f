use crate::form::Form;
use tre_define::SignalDefinition;
use tre_num::Definition;
use tre_state::Names;
use tre_syntax::Pattern;

/// What names mean, in the format of the input: definitions of the kind that it has.
#[derive(Drop)]
pub enum Meanings {
    /// In lines of text there are none.
    Nothing,
    /// Of the signals of a dump.
    Signals(Vec<SignalDefinition>),
    /// Of columns.
    Columns(Vec<Definition>),
}

/// What a file of checks says: at most 64 checks, in the order of their lines, and no two of one
/// name.
#[derive(Drop)]
pub struct Checks {
    pub names: Names,
    /// As many as names.
    pub forms: Vec<Form>,
    /// Those of all checks, one behind another: two where the form has an arrow, else one.
    pub patterns: Vec<Pattern>,
    /// The definitions that were there, and behind them those of the file.
    pub meanings: Meanings,
}
