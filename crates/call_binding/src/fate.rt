// What comes of a parameter and of a keyword.

/// What a parameter gets.
#[derive(Clone, Copy, Debug, PartialEq, Eq)]
pub enum ParamFate {
    /// The argument of this number. The plain arguments are numbered first, then those with a keyword.
    Arg(u32),
    /// The receiver, which comes before the arguments.
    Receiver,
    /// Its default.
    Default,
    /// As `*` or `**`, what no other parameter takes, which may be nothing.
    Rest,
    /// Nothing, and it has no default.
    Missing,
}

/// What becomes of a keyword.
#[derive(Clone, Copy, Debug, PartialEq, Eq)]
pub enum KeyFate {
    /// The parameter of this number gets its value.
    Takes(u32),
    /// `**` takes it.
    Rest,
    /// No parameter has its name.
    Unexpected,
    /// The parameter of this number, to which it goes, has another value; or is `**` and has that name already.
    Twice(u32),
    /// Only a parameter before `/` has its name.
    PositionalOnly,
}
