// What is known of a tree before its names are looked at, so that each name takes little time.
ghost use Rattle.std.specs.Prelude.{◌≡◌, IfOk};
ghost use Rattle.scope_bind.specs.Scoped.{AreScopesOf};
ghost use Rattle.unused_names.specs.Knowledge.{IsKnown};

use crate::bodies::silent_of;
use crate::classes::class_reads;
use crate::exports::exported;
use crate::locals::locals_scopes;
use crate::name_set::NameSet;
use crate::quoted::quoted;
use lint_values::Memory;
use scope_bind::Scopes;
use std::alloc::Global;
use std::collections::BTreeSet;
use tree_nodes::Tree;

/// The names that a module exports, those in annotations that are written as strings, those that are read in the
/// classes that bind them, the scopes in which `locals` is called, and whether each node is a function whose parameters
/// are not reported.
#[derive(Debug, Drop)]
pub(crate) struct Known {
    pub exported: NameSet,
    pub quoted: NameSet,
    pub class_reads: NameSet,
    pub locals: BTreeSet<u32>,
    pub silent: Vec<bool>,
}

/// What is known of a tree.
pub(crate) fn known_of(alloc: Global, tree: &Tree, scopes: &Scopes) -> Result<Known, Memory>
    requires { AreScopesOf tree.now scopes.now }
    ensures { IfOk result (IsKnown tree.now) }
{
    let exported = exported(alloc, tree, scopes)?;
    let quoted = quoted(alloc, tree)?;
    let class_reads = class_reads(alloc, tree, scopes)?;
    let locals = locals_scopes(alloc, tree, scopes)?;
    let silent = silent_of(alloc, tree, scopes)?;
    Ok(Known {
        exported,
        quoted,
        class_reads,
        locals,
        silent,
    })
}
