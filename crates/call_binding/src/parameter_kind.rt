// Kinds of parameters.

/// How a parameter takes a value, by the names of Python's `inspect`.
#[derive(Clone, Copy, Debug, PartialEq, Eq)]
pub enum ParameterKind {
    /// Before `/`.
    PositionalOnly,
    PositionalOrKeyword,
    /// `*args`.
    VarPositional,
    /// Behind `*` or `*args`.
    KeywordOnly,
    /// `**options`.
    VarKeyword,
}
