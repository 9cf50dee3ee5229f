use tre_define::SignalDefinition;
use tre_num::Definition;
use tre_syntax::Pattern;
use tre_watch::Form;

/// Patterns that are looked for, and the label of each: it stands before each line on its pattern
/// where they are told as the input comes.
///
/// Where a whole input is matched at once, the matches of the first pattern are wanted that are
/// matches of none of the others. Where there are checks, they stand behind one another, each with
/// the name of its check as the label.
#[derive(Drop)]
pub struct Asked {
    pub patterns: Vec<Pattern>,
    pub labels: Vec<String>,
    /// The form of each check, where there are checks.
    pub forms: Vec<Form>,
}

/// What names mean that a text defines, in the format of the input; none in the others.
#[derive(Drop)]
pub struct Definitions {
    /// Comparisons of columns.
    pub columns: Vec<Definition>,
    /// Tests and changes of the signals of a dump.
    pub signals: Vec<SignalDefinition>,
}
