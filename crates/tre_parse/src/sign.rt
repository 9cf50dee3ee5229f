//! The bytes of the signs, as they are read and as a pattern is printed.

/// Opens an expression, a state in an operand, or an interval without its low end.
pub const LEFT_PAREN: &str = "(";

/// Closes what `(` opened, or an interval without its high end.
pub const RIGHT_PAREN: &str = ")";

/// Opens an interval with its low end.
pub const LEFT_BRACKET: &str = "[";

/// Closes an interval with its high end.
pub const RIGHT_BRACKET: &str = "]";

/// Opens a state that is a literal.
pub const LEFT_BRACE: &str = "{";

/// Closes a state that is a literal.
pub const RIGHT_BRACE: &str = "}";

/// Stands between the ends of an interval.
pub const COMMA: &str = ",";

/// The one expression, and then the other.
pub const SEMICOLON: &str = ";";

/// The one expression or the other.
pub const BAR: &str = "|";

/// The one state or the other.
pub const DOUBLE_BAR: &str = "||";

/// Both expressions.
pub const AMPERSAND: &str = "&";

/// Both states.
pub const DOUBLE_AMPERSAND: &str = "&&";

/// Not the state.
pub const BANG: &str = "!";

/// Any number of times.
pub const STAR: &str = "*";

/// Once or more often.
pub const PLUS: &str = "+";

/// Once or not at all.
pub const QUESTION: &str = "?";

/// Lasting as long as an interval says.
pub const PERCENT: &str = "%";

/// The state of a literal rises where it begins.
pub const BEGINS: &str = "<:";

/// The state of a literal falls where it ends.
pub const ENDS: &str = ":>";
