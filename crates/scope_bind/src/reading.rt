// Where names that are read lead.
ghost use Rattle.std.specs.Prelude.{◌≡◌, ℕ, ◌<◌, ◌==◌, ◌||◌, not, if◌then◌else◌, IfOk};
ghost use Rattle.scope_rules.specs.Kinds.{is_class};
ghost use Rattle.scope_rules.specs.declared.scope.Where.TheVariants.{Local, Free, Builtin, Nowhere};
ghost use Rattle.std.specs.List.{list_any};
ghost use Rattle.std.specs.Str.{bytes_eq};
ghost use Rattle.tree_nodes.specs.Trees.{Tree as Syntax, count_of};
ghost use Rattle.scope_rules.specs.Nodes.{kind_of};
ghost use Rattle.scope_rules.specs.Places.{around};
ghost use Rattle.scope_rules.specs.Mangling.{spelled};
ghost use Rattle.scope_rules.specs.Declaring.{binder_mark, in_module, declares_global, has};
ghost use Rattle.scope_rules.specs.Reading.{is_special, is_builtin, ends_at, end_of, is_near, at_module, answer_at, led_from, led_by, answer_of};
ghost use Rattle.scope_bind.specs.Lists.{IsListOf};
ghost use Rattle.scope_bind.specs.Rows.{IsTableOf};
ghost use Rattle.scope_bind.specs.Claims.{AreDeclared, Ends};

use crate::declared::Declared;
use crate::homes::{declares_global, has};
use crate::kinds::{is_class, is_comprehension, is_read_name};
use crate::known::{name_at, place_at};
use crate::mangling::{begins_private, ends_special};
use crate::table::Table;
use crate::truth::{both, either};
use lint_values::{Memory, NodeId, Text};
use scope_rules::{BUILTIN_NAMES, ScopeId, Where};
use std::alloc::Global;
use tree_nodes::Tree;

/// Where a read ends, and whether it left comprehensions alone on its way there.
#[derive(Clone, Copy, Debug)]
pub(crate) struct End {
    pub scope: u32,
    pub is_near: bool,
}

/// A name of the form `__x__`.
#[tactic(auto, unfolding(scope_rules::specs::Reading::is_special))]
fn is_special(name: &[u8]) -> bool
    ensures { result ≡ is_special name.now }
{
    name.len() >= 5 && (begins_private(name) && ends_special(name))
}

/// Whether a name is among others.
fn is_among(names: &[&str], name: &str) -> bool
    ensures { result ≡ list_any (λ other. bytes_eq name.now other.now) names.now }
{
    names.iter().any(|other| name == *other)
}

/// A name of the builtins, or of the form `__x__`.
#[tactic(auto, unfolding(scope_rules::specs::Reading::is_builtin))]
fn is_builtin(name: &str) -> bool
    ensures { result ≡ is_builtin name.now }
{
    let is_named = is_among(&BUILTIN_NAMES, name);
    let is_special = is_special(name.as_bytes());
    either(is_named, is_special)
}

/// Whether the module has a name.
fn in_module(declared: &Declared, binders: &Table, name: &str) -> bool
    ensures { (t : Syntax) → AreDeclared t declared.now → IsTableOf (binder_mark t) t binders.now → result ≡ in_module t name.now }
{
    let is_bound = binders.has(0, name);
    let is_annotated = has(declared, 0, name);
    either(is_bound, is_annotated)
}

/// Where a name leads that the module has not.
fn beyond_module(name: &str) -> Where
    ensures { result ≡ (if is_builtin name.now then Builtin else Nowhere) }
{
    if is_builtin(name) {
        Where::Builtin
    } else {
        Where::Nowhere
    }
}

/// Where a read that comes to the module leads.
fn at_module(declared: &Declared, binders: &Table, name: &str) -> Where
    ensures { (t : Syntax) → AreDeclared t declared.now → IsTableOf (binder_mark t) t binders.now → result ≡ at_module t name.now }
{
    if in_module(declared, binders, name) {
        Where::Global
    } else {
        beyond_module(name)
    }
}

/// Whether a read from its own scope sees this scope.
fn is_seen(tree: &Tree, own: u32, s: u32) -> bool
    requires { s < count_of tree.now }
    ensures { result ≡ (s == own || not (is_class (kind_of tree.now s))) }
{
    let is_class = is_class(tree.kind(NodeId(s)));
    either(s == own, !is_class)
}

/// Whether a scope has a name or declares it `global`.
fn claims(declared: &Declared, s: u32, name: &str) -> bool
    ensures { (t : Syntax) → AreDeclared t declared.now → result ≡ (declares_global t s name.now || has t s name.now) }
{
    let is_global = declares_global(declared, s, name);
    let is_had = has(declared, s, name);
    either(is_global, is_had)
}

/// Whether a read of a name from its own scope ends in a scope that is not the module.
fn ends_inside(tree: &Tree, declared: &Declared, own: u32, name: &str, s: u32) -> bool
    requires made { s < count_of tree.now }
    requires inside { 0 < s }
    requires declared { AreDeclared tree.now declared.now }
    ensures { result ≡ ends_at tree.now own name.now s }
{
    let is_seen = is_seen(tree, own, s);
    let is_claimed = claims(declared, s, name);
    both(is_seen, is_claimed)
}

/// Where a read of a name from its own scope ends.
fn end_of(tree: &Tree, places: &[u32], declared: &Declared, own: u32, name: &str) -> End
    requires made { own < count_of tree.now }
    requires places { IsListOf (around tree.now) tree.now places.now }
    requires declared { AreDeclared tree.now declared.now }
    ensures { Ends tree.now own name.now result }
{
    let mut s = own;
    let mut is_near = true;
    'outwards: while s != 0 {
        if ends_inside(tree, declared, own, name, s) {
            return End { scope: s, is_near };
        }
        is_near = both(is_near, is_comprehension(tree.kind(NodeId(s))));
        s = place_at(tree, places, NodeId(s));
    }
    End { scope: 0, is_near }
}

/// Whether a read that ends in a scope goes on at the module.
fn goes_to_module(declared: &Declared, name: &str, s: u32) -> bool
    ensures { (t : Syntax) → AreDeclared t declared.now → result ≡ (s == 0 || declares_global t s name.now) }
{
    let is_global = declares_global(declared, s, name);
    either(s == 0, is_global)
}

/// Where a read leads that ends inside the module.
fn inside(end: End) -> Where
    ensures { result ≡ (if end.is_near then Local (record { 0 = end.scope }) else Free (record { 0 = end.scope })) }
{
    if end.is_near {
        Where::Local(ScopeId(end.scope))
    } else {
        Where::Free(ScopeId(end.scope))
    }
}

/// Where a read that ends there leads.
fn answer_at(declared: &Declared, binders: &Table, name: &str, end: End) -> Where
    ensures { (t : Syntax) (own : ℕ) → AreDeclared t declared.now → IsTableOf (binder_mark t) t binders.now → Ends t own name.now end → result ≡ answer_at t own name.now end.scope }
{
    if goes_to_module(declared, name, end.scope) {
        at_module(declared, binders, name)
    } else {
        inside(end)
    }
}

/// Where a read of a name in a scope leads.
fn led_from(
    tree: &Tree,
    places: &[u32],
    declared: &Declared,
    binders: &Table,
    own: u32,
    name: &str,
) -> Where
    requires made { own < count_of tree.now }
    requires places { IsListOf (around tree.now) tree.now places.now }
    requires declared { AreDeclared tree.now declared.now }
    requires binders { IsTableOf (binder_mark tree.now) tree.now binders.now }
    ensures { result ≡ led_from tree.now own name.now }
{
    let end = end_of(tree, places, declared, own, name);
    answer_at(declared, binders, name, end)
}

/// Where a read of a name in a scope leads, if there is a name.
fn led_by(
    tree: &Tree,
    places: &[u32],
    declared: &Declared,
    binders: &Table,
    own: u32,
    name: &Option<Text>,
) -> Where
    requires made { own < count_of tree.now }
    requires places { IsListOf (around tree.now) tree.now places.now }
    requires declared { AreDeclared tree.now declared.now }
    requires binders { IsTableOf (binder_mark tree.now) tree.now binders.now }
    ensures { result ≡ led_by tree.now own name.now }
{
    match name {
        Some(name) => led_from(tree, places, declared, binders, own, name.as_str()),
        None => Where::Nowhere,
    }
}

/// The answer of a node.
#[tactic(auto, unfolding(scope_rules::specs::Reading::answer_of, scope_rules::specs::Reading::resolved))]
fn answer_of(
    tree: &Tree,
    places: &[u32],
    names: &[Option<Text>],
    declared: &Declared,
    binders: &Table,
    n: NodeId,
) -> Where
    requires made { n.0 < count_of tree.now }
    requires places { IsListOf (around tree.now) tree.now places.now }
    requires names { IsListOf (spelled tree.now) tree.now names.now }
    requires declared { AreDeclared tree.now declared.now }
    requires binders { IsTableOf (binder_mark tree.now) tree.now binders.now }
    ensures { result ≡ answer_of tree.now n.0 }
{
    if is_read_name(tree.kind(n)) {
        let place = place_at(tree, places, n);
        led_by(
            tree,
            places,
            declared,
            binders,
            place,
            name_at(tree, names, n),
        )
    } else {
        Where::Nowhere
    }
}

/// The answer of each node.
#[tactic(auto, using(crate::proofs::ListLaws::list_none, crate::proofs::ListLaws::list_more))]
pub(crate) fn answers_of(
    alloc: Global,
    tree: &Tree,
    places: &[u32],
    names: &[Option<Text>],
    declared: &Declared,
    binders: &Table,
) -> Result<Vec<Where>, Memory>
    requires places { IsListOf (around tree.now) tree.now places.now }
    requires names { IsListOf (spelled tree.now) tree.now names.now }
    requires declared { AreDeclared tree.now declared.now }
    requires binders { IsTableOf (binder_mark tree.now) tree.now binders.now }
    ensures { IfOk result (λ answers. IsListOf (answer_of tree.now) tree.now answers.items) }
{
    let mut answers = Vec::new(alloc);
    for n in 0..tree.count() {
        let answer = answer_of(tree, places, names, declared, binders, NodeId(n));
        answers.push(answer)?;
    }
    Ok(answers)
}
