// The rules on undefined names, wildcards, `global`, builtin names and local names, one after another.
ghost use Rattle.std.specs.Prelude.{◌≡◌, IfOk};
ghost use Rattle.scope_bind.specs.Scoped.{AreScopesOf};
ghost use Rattle.check_names.specs.Rules.{rule_messages};

use crate::globals::check_globals;
use crate::locals::check_locals;
use crate::redefined::check_redefined;
use crate::undefined::check_undefined;
use crate::wildcards::check_wildcards;
use lint_messages::Messages;
use lint_values::{FileId, Memory, Text};
use scope_bind::Scopes;
use std::alloc::Global;
use tree_nodes::Tree;

/// The messages of these rules on a file, where it is known whether it is a package's `__init__.py`, which names count
/// as builtins, and how many local names a function may have.
pub(crate) fn check_rules(
    alloc: Global,
    file: FileId,
    is_package: bool,
    additional: &[Text],
    most: u32,
    tree: &Tree,
    scopes: &Scopes,
) -> Result<Messages, Memory>
    requires { AreScopesOf tree.now scopes.now }
    ensures { IfOk result (λ messages. messages ≡ rule_messages file is_package additional.now most tree.now) }
{
    let mut found = Messages::new(alloc);
    check_undefined(alloc, file, tree, scopes, additional, &mut found)?;
    check_wildcards(alloc, file, is_package, tree, &mut found)?;
    check_globals(alloc, file, tree, scopes, &mut found)?;
    check_redefined(alloc, file, tree, scopes, &mut found)?;
    check_locals(alloc, file, most, tree, scopes, &mut found)?;
    Ok(found)
}
