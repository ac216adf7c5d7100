// Names among others.
ghost use Rattle.std.specs.Prelude.{◌≡◌};
ghost use Rattle.check_names.specs.Nodes.{is_among};

use lint_values::Text;

/// Whether a name is one of these.
pub(crate) fn is_among(names: &[Text], name: &str) -> bool
    ensures { result ≡ is_among names.now name.now }
{
    names.iter().any(|other| name == other.as_str())
}
