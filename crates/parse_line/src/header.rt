// Kinds of headers.

/// A header as it is read. `with` items are read in two ways.
#[derive(Clone, Copy, Debug, PartialEq, Eq)]
pub enum Header {
    If,
    Elif,
    Else,
    While,
    For,
    AsyncFor,
    Try,
    Except,
    /// `except*`.
    ExceptStar,
    Finally,
    With,
    /// Items in round brackets.
    ParenthesizedWith,
    AsyncWith,
    /// The same behind `async`.
    AsyncParenthesizedWith,
    FunctionDef,
    AsyncFunctionDef,
    ClassDef,
    Match,
    Case,
}
