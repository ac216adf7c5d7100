// Names as they are read inside a class.
ghost use Rattle.std.specs.Prelude.{◌≡◌, option_copied, IfOk};
ghost use Rattle.scope_rules.specs.Mangling.{begins_private, ends_special, is_private, bare, prefixed, mangled};

use lint_values::{Memory, Text};
use std::alloc::Global;

#[tactic(auto, unfolding(scope_rules::specs::Mangling::begins_private))]
pub(crate) fn begins_private(name: &[u8]) -> bool
    ensures { result ≡ begins_private name.now }
{
    match name {
        [first, second, ..] => *first == b'_' && *second == b'_',
        _ => false,
    }
}

#[tactic(auto, unfolding(scope_rules::specs::Mangling::ends_special))]
pub(crate) fn ends_special(name: &[u8]) -> bool
    ensures { result ≡ ends_special name.now }
{
    let end = name.len().saturating_sub(2);
    begins_private(&name[end..])
}

#[tactic(auto, unfolding(scope_rules::specs::Mangling::is_private))]
fn is_private(name: &str) -> bool
    ensures { result ≡ is_private name.now }
{
    begins_private(name.as_bytes()) && !ends_special(name.as_bytes())
}

/// A name without the underscores in front.
fn bare(name: &str) -> &str
    ensures { result.now ≡ bare name.now }
{
    name.trim_start_matches('_')
}

/// A name behind an underscore and the bare name of a class.
#[tactic(auto, unfolding(scope_rules::specs::Mangling::prefixed))]
fn prefixed(alloc: Global, class: &str, name: &str) -> Result<Text, Memory>
    ensures { IfOk result (λ text. text ≡ prefixed class.now name.now) }
{
    if class.is_empty() {
        Text::from_str(alloc, name)
    } else {
        Ok(Text::from_string(format!(in alloc; "_{class}{name}")?))
    }
}

/// A name as it is read inside the class of that name.
#[tactic(auto, unfolding(scope_rules::specs::Mangling::mangled))]
fn in_class(alloc: Global, class: &str, name: &str) -> Result<Text, Memory>
    ensures { IfOk result (λ text. text ≡ mangled (Some class.now) name.now) }
{
    if is_private(name) {
        prefixed(alloc, bare(class), name)
    } else {
        Text::from_str(alloc, name)
    }
}

/// A name as it is read inside the class of that name, or outside classes.
#[tactic(auto, unfolding(scope_rules::specs::Mangling::mangled))]
pub(crate) fn mangled(alloc: Global, class: Option<&str>, name: &str) -> Result<Text, Memory>
    ensures { IfOk result (λ text. text ≡ mangled (option_copied class.entry) name.now) }
{
    match class {
        None => Text::from_str(alloc, name),
        Some(class) => in_class(alloc, class, name),
    }
}
