ghost use Rattle.std.specs.Prelude.{◌≤◌, length};
ghost use Rattle.tre_decimal.specs.declared.TheConstants.{SCALE_MAX};
ghost use Rattle.tre_state.specs.declared.names.TheConstants.{NAMES_MAX};

use tre_define::Comparison;

/// What the comparison of a name reads: the field at a place.
#[derive(Clone, Copy)]
pub(crate) struct Column {
    pub place: usize,
    pub comparison: Comparison,
    pub value: i64,
}

/// How the rows under a header are read for the names of a reader.
#[derive(Drop)]
pub(crate) struct Layout {
    /// For each of its own names the column, if it has one.
    pub own: Vec<Option<Column>>,
    /// The columns of all who read the table.
    pub all: Vec<Column>,
    /// Those of them at whose places none of its own stands.
    pub others: Vec<Column>,
    /// How many fields the header has.
    pub width: usize,
    pub scale: u8,
    ghost few: { length own.items ≤ NAMES_MAX },
    ghost fine: { scale ≤ SCALE_MAX },
}
