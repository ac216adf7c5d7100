// The parameters among a function's parts, by kind, number and name.
ghost use Rattle.std.specs.Prelude.{◌≡◌, ◌<◌, true, All, Some, length, map, slice_get};
ghost use Rattle.std.specs.List.{position_from, list_any};
ghost use Rattle.tree_nodes.specs.Trees.{count_of, kids_at};
ghost use Rattle.tree_nodes.specs.Kept.{number_of};
ghost use Rattle.scope_rules.specs.Kinds.{is_parameter};
ghost use Rattle.scope_rules.specs.Nodes.{kind_of};
ghost use Rattle.call_binding.specs.Rule.{has_var_positional};
ghost use Rattle.call_binding.specs.Reading.{params_among, is_before_slash, plain_kind, has_default, parameter_of, parameters_among};
ghost use Rattle.call_binding.specs.Parameters.{takes_position, takes_keyword, is_var_positional, is_var_keyword, is_positional_only, may_take, is_hidden};
ghost use Rattle.call_binding.specs.Counting.{counted};

use crate::ParameterKind;
use crate::kinds::{is_annotation, is_parameter, is_slash};
use crate::names::is_spelled;
use lint_values::NodeId;
use tree_nodes::{Kind, Tree};

/// Whether a value with a keyword may go to a parameter.
fn takes_keyword(kind: ParameterKind) -> bool
    ensures { result ≡ takes_keyword kind }
{
    matches!(
        kind,
        ParameterKind::PositionalOrKeyword | ParameterKind::KeywordOnly
    )
}

/// Whether a parameter stands before `/`.
fn is_positional_only(kind: ParameterKind) -> bool
    ensures { result ≡ is_positional_only kind }
{
    matches!(kind, ParameterKind::PositionalOnly)
}

/// Whether `/` stands behind a parameter, among these parts.
fn is_before_slash(tree: &Tree, k: NodeId, parts: &[NodeId]) -> bool
    requires { All (λ m. m.0 < count_of tree.now) parts.now }
    ensures { result ≡ is_before_slash tree.now k.0 (map number_of parts.now) }
{
    let mut rest = parts;
    while let [part, tail @ ..] = rest {
        if is_slash(tree.kind(*part)) && k.0 < part.0 {
            return true;
        }
        rest = tail;
    }
    false
}

// A parameter before `*`.
fn plain_kind(before_slash: bool) -> ParameterKind
    ensures { result ≡ plain_kind before_slash }
{
    if before_slash {
        ParameterKind::PositionalOnly
    } else {
        ParameterKind::PositionalOrKeyword
    }
}

/// How a parameter of a function takes a value.
#[tactic(auto, unfolding(crate::specs::Reading::parameter_of, crate::specs::Reading::parameter_kind))]
pub(crate) fn kind_of(tree: &Tree, def: NodeId, k: NodeId) -> ParameterKind
    requires function { def.0 < count_of tree.now }
    requires made { k.0 < count_of tree.now }
    ensures { result ≡ (parameter_of tree.now def.0 k.0).kind }
{
    match tree.kind(k) {
        Kind::Parameter => plain_kind(is_before_slash(tree, k, tree.kids(def))),
        Kind::StarParameter => ParameterKind::VarPositional,
        Kind::KeywordOnlyParameter => ParameterKind::KeywordOnly,
        _ => ParameterKind::VarKeyword,
    }
}

/// Whether a value by position may go to a parameter: one before `*`, whether `/` stands behind it or not.
#[tactic(auto, unfolding(crate::specs::Reading::parameter_of, crate::specs::Reading::parameter_kind))]
fn takes_position(tree: &Tree, def: NodeId, k: NodeId) -> bool
    requires { k.0 < count_of tree.now }
    ensures { result ≡ takes_position (parameter_of tree.now def.0 k.0).kind }
{
    let _def = def;
    matches!(tree.kind(k), Kind::Parameter)
}

/// Whether a parameter is `*`.
#[tactic(auto, unfolding(crate::specs::Reading::parameter_of, crate::specs::Reading::parameter_kind))]
fn is_var_positional(tree: &Tree, def: NodeId, k: NodeId) -> bool
    requires { k.0 < count_of tree.now }
    ensures { result ≡ is_var_positional (parameter_of tree.now def.0 k.0).kind }
{
    let _def = def;
    matches!(tree.kind(k), Kind::StarParameter)
}

/// Whether a parameter is `**`.
#[tactic(auto, unfolding(crate::specs::Reading::parameter_of, crate::specs::Reading::parameter_kind))]
fn is_var_keyword(tree: &Tree, def: NodeId, k: NodeId) -> bool
    requires { k.0 < count_of tree.now }
    ensures { result ≡ is_var_keyword (parameter_of tree.now def.0 k.0).kind }
{
    let _def = def;
    !matches!(
        tree.kind(k),
        Kind::Parameter | Kind::StarParameter | Kind::KeywordOnlyParameter
    )
}

/// Whether a default is among a parameter's parts.
fn has_default_among(tree: &Tree, parts: &[NodeId]) -> bool
    requires { All (λ m. m.0 < count_of tree.now) parts.now }
    ensures { result ≡ has_default tree.now (map number_of parts.now) }
{
    let mut rest = parts;
    while let [part, tail @ ..] = rest {
        if !is_annotation(tree.kind(*part)) {
            return true;
        }
        rest = tail;
    }
    false
}

/// Whether a parameter has a default.
#[tactic(auto, unfolding(crate::specs::Reading::parameter_of))]
pub(crate) fn has_default(tree: &Tree, def: NodeId, k: NodeId) -> bool
    requires { k.0 < count_of tree.now }
    ensures { result ≡ (parameter_of tree.now def.0 k.0).has_default }
{
    let _def = def;
    has_default_among(tree, tree.kids(k))
}

/// Whether a value with this keyword may go to a parameter.
#[tactic(auto, unfolding(crate::specs::Reading::parameter_of))]
fn may_take(tree: &Tree, def: NodeId, k: NodeId, keyword: &str) -> bool
    requires function { def.0 < count_of tree.now }
    requires made { k.0 < count_of tree.now }
    requires parameter { is_parameter (kind_of tree.now k.0) ≡ true }
    ensures { result ≡ may_take keyword.now (parameter_of tree.now def.0 k.0) }
{
    is_spelled(tree, k, keyword) && takes_keyword(kind_of(tree, def, k))
}

/// Whether a parameter stands before `/` and has this name.
#[tactic(auto, unfolding(crate::specs::Reading::parameter_of))]
fn is_hidden(tree: &Tree, def: NodeId, k: NodeId, keyword: &str) -> bool
    requires function { def.0 < count_of tree.now }
    requires made { k.0 < count_of tree.now }
    requires parameter { is_parameter (kind_of tree.now k.0) ≡ true }
    ensures { result ≡ is_hidden keyword.now (parameter_of tree.now def.0 k.0) }
{
    is_spelled(tree, k, keyword) && is_positional_only(kind_of(tree, def, k))
}

/// How many parameters there are among some parts.
pub(crate) fn count(tree: &Tree, parts: &[NodeId]) -> usize
    requires { All (λ m. m.0 < count_of tree.now) parts.now }
    ensures { result ≡ length (params_among tree.now (map number_of parts.now)) }
{
    let mut rest = parts;
    let mut found = 0;
    while let [part, tail @ ..] = rest {
        if is_parameter(tree.kind(*part)) {
            found += 1;
        }
        rest = tail;
    }
    found
}

/// The parameter of a number among some parts.
pub(crate) fn nth(tree: &Tree, parts: &[NodeId], i: usize) -> NodeId
    requires made { All (λ m. m.0 < count_of tree.now) parts.now }
    requires counted { i < length (params_among tree.now (map number_of parts.now)) }
    ensures value { slice_get (params_among tree.now (map number_of parts.now)) i ≡ Some result.0 }
    ensures made { result.0 < count_of tree.now }
    ensures parameter { is_parameter (kind_of tree.now result.0) ≡ true }
{
    let mut rest = parts;
    let mut before = i;
    while let [part, tail @ ..] = rest {
        if is_parameter(tree.kind(*part)) {
            if before == 0 {
                return *part;
            }
            before -= 1;
        }
        rest = tail;
    }
    unreachable!()
}

/// How many of the first parameters among some parts take a value by position.
pub(crate) fn positions(tree: &Tree, def: NodeId, parts: &[NodeId], first: usize) -> usize
    requires { All (λ m. m.0 < count_of tree.now) parts.now }
    ensures { result ≡ counted first (parameters_among tree.now def.0 (map number_of parts.now)) }
{
    let mut rest = parts;
    let mut left = first;
    let mut found = 0;
    while let [part, tail @ ..] = rest {
        if is_parameter(tree.kind(*part)) {
            if left == 0 {
                return found;
            }
            left -= 1;
            if takes_position(tree, def, *part) {
                found += 1;
            }
        }
        rest = tail;
    }
    found
}

/// The first parameter among some parts that may take a value with this keyword.
pub(crate) fn target(tree: &Tree, def: NodeId, parts: &[NodeId], keyword: &str) -> Option<usize>
    requires function { def.0 < count_of tree.now }
    requires made { All (λ m. m.0 < count_of tree.now) parts.now }
    ensures { result ≡ position_from (may_take keyword.now) 0 (parameters_among tree.now def.0 (map number_of parts.now)) }
{
    let mut rest = parts;
    let mut before = 0;
    while let [part, tail @ ..] = rest {
        if is_parameter(tree.kind(*part)) {
            if may_take(tree, def, *part, keyword) {
                return Some(before);
            }
            before += 1;
        }
        rest = tail;
    }
    None
}

/// The first `**` among some parts.
pub(crate) fn var_keyword(tree: &Tree, def: NodeId, parts: &[NodeId]) -> Option<usize>
    requires { All (λ m. m.0 < count_of tree.now) parts.now }
    ensures { result ≡ position_from (λ p. is_var_keyword p.kind) 0 (parameters_among tree.now def.0 (map number_of parts.now)) }
{
    let mut rest = parts;
    let mut before = 0;
    while let [part, tail @ ..] = rest {
        if is_parameter(tree.kind(*part)) {
            if is_var_keyword(tree, def, *part) {
                return Some(before);
            }
            before += 1;
        }
        rest = tail;
    }
    None
}

/// Whether there is `*` among some parts.
pub(crate) fn has_var_positional(tree: &Tree, def: NodeId, parts: &[NodeId]) -> bool
    requires { All (λ m. m.0 < count_of tree.now) parts.now }
    ensures { result ≡ has_var_positional (parameters_among tree.now def.0 (map number_of parts.now)) }
{
    let mut rest = parts;
    while let [part, tail @ ..] = rest {
        if is_parameter(tree.kind(*part)) && is_var_positional(tree, def, *part) {
            return true;
        }
        rest = tail;
    }
    false
}

/// Whether a parameter among some parts stands before `/` and has this name.
pub(crate) fn has_hidden(tree: &Tree, def: NodeId, parts: &[NodeId], keyword: &str) -> bool
    requires function { def.0 < count_of tree.now }
    requires made { All (λ m. m.0 < count_of tree.now) parts.now }
    ensures { result ≡ list_any (is_hidden keyword.now) (parameters_among tree.now def.0 (map number_of parts.now)) }
{
    let mut rest = parts;
    while let [part, tail @ ..] = rest {
        if is_parameter(tree.kind(*part)) && is_hidden(tree, def, *part, keyword) {
            return true;
        }
        rest = tail;
    }
    false
}
