// How far a list of parameters has come.

/// What stands before in a list of parameters, as far as it decides what may follow.
#[derive(Clone, Copy, Debug, PartialEq, Eq)]
pub enum Stage {
    /// Nothing.
    Start,
    /// Parameters without defaults.
    Plain,
    /// Parameters, the last of which has a default.
    Defaulted,
    /// `/`, and no default before.
    PlainBehindSlash,
    /// `/`, and a default before.
    DefaultedBehindSlash,
    /// A bare `*`.
    BareStar,
    /// `*args`, or a bare `*` and a parameter.
    Keywords,
    /// `**options`.
    End,
}
