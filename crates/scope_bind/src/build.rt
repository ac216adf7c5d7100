// From a tree to its scopes.
ghost use Rattle.std.specs.Prelude.{◌≡◌, ℕ, ◌<◌, IfOk};
ghost use Rattle.tree_nodes.specs.Trees.{count_of};
ghost use Rattle.scope_rules.specs.Kinds.{opens};
ghost use Rattle.scope_rules.specs.Nodes.{kind_of};
ghost use Rattle.scope_rules.specs.Places.{around};
ghost use Rattle.scope_rules.specs.Mangling.{spelled};
ghost use Rattle.scope_rules.specs.Binding.{makes_local};
ghost use Rattle.scope_rules.specs.Declaring.{binder_mark};
ghost use Rattle.scope_rules.specs.Reading.{answer_of};
ghost use Rattle.scope_rules.specs.Answers.{load_mark, store_mark, delete_mark};
ghost use Rattle.scope_bind.specs.Lists.{IsListOf};
ghost use Rattle.scope_bind.specs.Rows.{IsTableOf};
ghost use Rattle.scope_bind.specs.Claims.{AreDeclared};
ghost use Rattle.scope_bind.specs.Owned.{AreNameRows};
ghost use Rattle.scope_bind.specs.Scoped.{AreScopesOf, IsNode};

use crate::classes::classes_of;
use crate::declared::Declared;
use crate::homes::{binder_rows, declared_of};
use crate::kinds::opens;
use crate::loads::{delete_rows, deleted_of, load_rows, store_rows};
use crate::name_table::NameTable;
use crate::names::names_of;
use crate::places::places_of;
use crate::reading::answers_of;
use crate::scopes::Scopes;
use crate::spelling::{bound_of, spelled_of};
use crate::table::Table;
use lint_values::{Memory, NodeId, Text};
use std::alloc::Global;
use tree_nodes::Tree;

/// Whether each node opens a scope.
#[tactic(auto, using(crate::proofs::ListLaws::list_none, crate::proofs::ListLaws::list_more))]
fn openers_of(alloc: Global, tree: &Tree) -> Result<Vec<bool>, Memory>
    ensures { IfOk result (λ openers. IsListOf (λ n. opens (kind_of tree.now n)) tree.now openers.items) }
{
    let mut openers = Vec::new(alloc);
    for n in 0..tree.count() {
        let opener = opens(tree.kind(NodeId(n)));
        openers.push(opener)?;
    }
    Ok(openers)
}

/// The table of binders.
fn binders_of(
    alloc: Global,
    tree: &Tree,
    places: &[u32],
    bound: &[Option<Text>],
    declared: &Declared,
) -> Result<Table, Memory>
    requires places { IsListOf (around tree.now) tree.now places.now }
    requires bound { IsListOf (makes_local tree.now) tree.now bound.now }
    requires declared { AreDeclared tree.now declared.now }
    ensures { IfOk result (IsTableOf (binder_mark tree.now) tree.now) }
{
    let rows = binder_rows(alloc, tree, places, bound, declared)?;
    Table::of(alloc, rows)
}

/// The scopes, where all but reads and attributes are known.
fn finish(
    alloc: Global,
    tree: &Tree,
    places: Vec<u32>,
    names: Vec<Option<Text>>,
    declared: &Declared,
    binders: Table,
    local_names: NameTable,
) -> Result<Scopes, Memory>
    requires places { IsListOf (around tree.now) tree.now places.items }
    requires names { IsListOf (spelled tree.now) tree.now names.items }
    requires declared { AreDeclared tree.now declared.now }
    requires binders { IsTableOf (binder_mark tree.now) tree.now binders }
    requires local_names { AreNameRows tree.now local_names }
    ensures { IfOk result (AreScopesOf tree.now) }
{
    let answers = answers_of(
        alloc,
        tree,
        places.as_slice(),
        names.as_slice(),
        declared,
        &binders,
    )?;
    let reads = load_rows(alloc, tree, names.as_slice(), answers.as_slice())?;
    let loads = Table::of(alloc, reads)?;
    let deleted = deleted_of(alloc, tree)?;
    let stored = store_rows(alloc, tree, names.as_slice(), deleted.as_slice())?;
    let stores = Table::of(alloc, stored)?;
    let removed = delete_rows(alloc, tree, names.as_slice(), deleted.as_slice())?;
    let deletes = Table::of(alloc, removed)?;
    let openers = openers_of(alloc, tree)?;
    Ok(Scopes {
        places,
        openers,
        names,
        answers,
        binders,
        loads,
        stores,
        deletes,
        local_names,
    })
}

impl Scopes {
    /// The scopes of a tree.
    pub fn build(alloc: Global, tree: &Tree) -> Result<Scopes, Memory>
        ensures scopes { IfOk result (AreScopesOf tree.now) }
        ensures nodes { IfOk result (λ scopes. (n : ℕ) → n < count_of tree.now → IsNode scopes n) }
    {
        let places = places_of(alloc, tree)?;
        let classes = classes_of(alloc, tree, places.as_slice())?;
        let names = spelled_of(alloc, tree, places.as_slice(), classes.as_slice())?;
        let bound = bound_of(
            alloc,
            tree,
            places.as_slice(),
            classes.as_slice(),
            names.as_slice(),
        )?;
        let declared = declared_of(
            alloc,
            tree,
            places.as_slice(),
            names.as_slice(),
            bound.as_slice(),
        )?;
        let binders = binders_of(alloc, tree, places.as_slice(), bound.as_slice(), &declared)?;
        let local_names = names_of(alloc, tree, places.as_slice(), bound.as_slice(), &declared)?;
        finish(alloc, tree, places, names, &declared, binders, local_names)
    }
}
