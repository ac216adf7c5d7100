// Names of parameters as they are read, and keywords as they are written.
ghost use Rattle.std.specs.Prelude.{◌≡◌, ◌<◌, ◌++◌, true, [], unwrap_or, option_copied, IfSome};
ghost use Rattle.std.specs.Str.{bytes_eq};
ghost use Rattle.tree_nodes.specs.Trees.{count_of};
ghost use Rattle.scope_rules.specs.Kinds.{is_parameter};
ghost use Rattle.scope_rules.specs.Nodes.{kind_of};
ghost use Rattle.scope_rules.specs.Places.{around};
ghost use Rattle.scope_rules.specs.Mangling.{begins_private, ends_special, is_private, bare, prefixed, mangled, class_from, name_at as class_name_at, read_at, spelled};
ghost use Rattle.call_binding.specs.Reading.{written};

use crate::places::class_around;
use lint_values::NodeId;
use tree_nodes::Tree;

#[tactic(auto, unfolding(scope_rules::specs::Mangling::begins_private))]
fn begins_private(name: &[u8]) -> bool
    ensures { result ≡ begins_private name.now }
{
    match name {
        [first, second, ..] => *first == b'_' && *second == b'_',
        _ => false,
    }
}

#[tactic(auto, unfolding(scope_rules::specs::Mangling::ends_special))]
fn ends_special(name: &[u8]) -> bool
    ensures { result ≡ ends_special name.now }
{
    let end = name.len().saturating_sub(2);
    begins_private(&name[end..])
}

/// Whether a name begins with two underscores and does not end with two.
#[tactic(auto, unfolding(scope_rules::specs::Mangling::is_private))]
pub(crate) fn is_private(name: &str) -> bool
    ensures { result ≡ is_private name.now }
{
    begins_private(name.as_bytes()) && !ends_special(name.as_bytes())
}

// The name, or nothing.
fn name_or_none<'n>(name: Option<&'n str>) -> &'n str
    ensures { result.now ≡ unwrap_or (option_copied name.entry) [] }
{
    match name {
        Some(name) => name,
        None => "",
    }
}

/// A node's name as written, or nothing.
pub(crate) fn written(tree: &Tree, n: NodeId) -> &str
    requires { n.0 < count_of tree.now }
    ensures { result.now ≡ written tree.now n.0 }
{
    name_or_none(tree.name(n))
}

/// A name without the underscores in front.
fn bare(name: &str) -> &str
    ensures { result.now ≡ bare name.now }
{
    name.trim_start_matches('_')
}

/// Whether a text is two others, one behind the other.
fn is_joined(front: &[u8], back: &[u8], whole: &[u8]) -> bool
    ensures { result ≡ bytes_eq (front.now ++ back.now) whole.now }
{
    let mut rest = whole;
    let mut left = front;
    while let [byte, tail @ ..] = left {
        match rest {
            [first, behind @ ..] => {
                if *byte != *first {
                    return false;
                }
                rest = behind;
            }
            [] => return false,
        }
        left = tail;
    }
    back == rest
}

/// Whether a keyword is `_`, the bare name of a class and a name.
#[tactic(auto, unfolding(scope_rules::specs::Mangling::prefixed))]
fn is_prefixed(class: &[u8], name: &[u8], keyword: &[u8]) -> bool
    ensures { result ≡ bytes_eq (prefixed class.now name.now) keyword.now }
{
    if class.is_empty() {
        return name == keyword;
    }
    match keyword {
        [first, rest @ ..] => *first == b'_' && is_joined(class, name, rest),
        [] => false,
    }
}

/// Whether a private name is read as this keyword inside the class of that name.
#[tactic(auto, unfolding(scope_rules::specs::Mangling::mangled))]
fn is_mangled(class: Option<&str>, name: &str, keyword: &str) -> bool
    requires { is_private name.now ≡ true }
    ensures { result ≡ bytes_eq (mangled (option_copied class.entry) name.now) keyword.now }
{
    match class {
        Some(class) => is_prefixed(bare(class).as_bytes(), name.as_bytes(), keyword.as_bytes()),
        None => name == keyword,
    }
}

/// The name of a class, if there is one.
fn class_name(tree: &Tree, class: Option<u32>) -> Option<&str>
    requires { IfSome class (λ c. c < count_of tree.now) }
    ensures { option_copied result ≡ class_name_at tree.now class }
{
    match class {
        Some(class) => tree.name(NodeId(class)),
        None => None,
    }
}

/// Whether a name is read as this keyword where a node stands.
#[tactic(auto, unfolding(scope_rules::specs::Mangling::read_at, scope_rules::specs::Mangling::mangled))]
fn is_read_as(tree: &Tree, n: NodeId, name: &str, keyword: &str) -> bool
    requires { n.0 < count_of tree.now }
    ensures { result ≡ bytes_eq (read_at tree.now n.0 name.now) keyword.now }
{
    if is_private(name) {
        is_mangled(class_name(tree, class_around(tree, n)), name, keyword)
    } else {
        name == keyword
    }
}

/// Whether a parameter's name is read as this keyword.
#[tactic(auto, unfolding(scope_rules::specs::Mangling::spelled, scope_rules::specs::Mangling::is_read, scope_rules::specs::Kinds::is_parameter))]
pub(crate) fn is_spelled(tree: &Tree, n: NodeId, keyword: &str) -> bool
    requires made { n.0 < count_of tree.now }
    requires parameter { is_parameter (kind_of tree.now n.0) ≡ true }
    ensures { result ≡ bytes_eq (unwrap_or (spelled tree.now n.0) []) keyword.now }
{
    match tree.name(n) {
        Some(name) => is_read_as(tree, n, name, keyword),
        None => keyword.is_empty(),
    }
}
