// Kinds of logical lines.

/// What a logical line is: simple statements, a decorator, or the header of a statement or of one of its clauses.
#[derive(Clone, Copy, Debug, PartialEq, Eq)]
pub enum Head {
    /// Simple statements.
    Simple,
    /// `@` and an expression.
    Decorator,
    If,
    Elif,
    Else,
    While,
    For,
    AsyncFor,
    Try,
    Except,
    /// `except*`.
    ExceptStar,
    Finally,
    With,
    AsyncWith,
    FunctionDef,
    AsyncFunctionDef,
    ClassDef,
    Match,
    Case,
}
