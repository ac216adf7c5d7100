// Where a phrase within a phrase begins.

/// A form by which a phrase may begin within another: the rows of the grammar that lead back to themselves.
#[derive(Clone, Copy, Debug, PartialEq, Eq)]
pub enum Entry {
    /// Any expression but a walrus.
    Test,
    /// Behind the `in` of a comprehension, and its conditions.
    Or,
    /// Behind `not`.
    Not,
    /// Behind a star.
    BitOr,
    /// Behind a sign, and as an exponent.
    Factor,
    /// A pattern within a pattern.
    Pattern,
}
