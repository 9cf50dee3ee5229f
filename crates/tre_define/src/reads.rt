use crate::comparison::Comparison;

/// What a definition reads of what a signal's text names.
#[derive(Clone, Copy)]
pub enum Reads {
    /// It is one bit, which is 1.
    Bit,
    /// Its number is so beside this one.
    Compared(Comparison, u64),
    /// It changes: an event.
    Changes,
    /// One of its bits has this letter, in lower case here.
    Has(u8),
    /// Its number is so beside that of what the text of another signal names.
    Beside(Comparison),
}
