//! What may stand behind the lines of the grammar that begin a reading.

/// What stands behind a line.
#[derive(Clone, Copy, Debug, PartialEq, Eq)]
pub enum End {
    /// A closer of an Expr.
    Expression,
    /// A closer of an Assign.
    Assign,
    /// The closer of a Left.
    Left,
}
