// What is counted of a function.

/// A size of a function that all its nodes add to.
#[derive(Clone, Copy, Debug, PartialEq, Eq)]
pub enum Size {
    Returns,
    Branches,
    Statements,
}
