// Truth values whose parts are known beforehand.
ghost use Rattle.std.specs.Prelude.{◌≡◌, ◌&&◌, ◌||◌};

/// Both.
pub(crate) fn both(first: bool, second: bool) -> bool
    ensures { result ≡ (first && second) }
{
    first && second
}

/// One of the two, or both.
pub(crate) fn either(first: bool, second: bool) -> bool
    ensures { result ≡ (first || second) }
{
    first || second
}
