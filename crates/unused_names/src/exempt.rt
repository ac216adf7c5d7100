// Names that say themselves that they are unused.
ghost use Rattle.std.specs.Prelude.{◌≡◌, codes, nat_eq};
ghost use Rattle.std.specs.List.{starts_with};
ghost use Rattle.std.specs.Str.{bytes_eq};
ghost use Rattle.unused_names.specs.Exempt.{is_exempt};

fn is_behind(name: &[u8], front: &[u8]) -> bool
    ensures { result ≡ starts_with nat_eq name.now front.now }
{
    name.starts_with(front)
}

fn is_dummy(name: &str) -> bool
    ensures { result ≡ bytes_eq name.now (codes "dummy") }
{
    name == "dummy"
}

/// Whether a name begins with `_`, `ignored_` or `unused_`, or is `dummy`.
#[tactic(auto, unfolding(crate::specs::Exempt::is_exempt))]
pub(crate) fn is_exempt(name: &str) -> bool
    ensures { result ≡ is_exempt name.now }
{
    let bytes = name.as_bytes();
    is_behind(bytes, b"_")
        || is_behind(bytes, b"ignored_")
        || is_behind(bytes, b"unused_")
        || is_dummy(name)
}
