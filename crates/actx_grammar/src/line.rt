//! The lines of the grammar that a node reaches again for the nodes right in it.

/// A line of the grammar whose tree is an expression.
#[derive(Clone, Copy, Debug, PartialEq, Eq)]
pub enum Line {
    /// Expr
    Expr,
    /// Assign
    Assign,
    /// Unary
    Unary,
    /// Unary (0), Prod (1), Sum (2), Rel (3), Eq (4), And (5), Or (6)
    Level(usize),
    /// Left
    Left,
    /// Primary or New
    Made,
}
