// The rule on `return` outside of functions.
ghost use Rattle.std.specs.Prelude.{◌≡◌, ◌<◌, ◌++◌, OnOk};
ghost use Rattle.tree_nodes.specs.Trees.{count_of};
ghost use Rattle.flow_rules.specs.Returns.{return_outside};
ghost use Rattle.flow_rules.specs.Tables.{AreTablesOf};

use crate::kinds::is_return;
use crate::nodes::message_of;
use crate::rule::Rule;
use crate::tables::{Tables, is_in_function};
use lint_messages::Messages;
use lint_values::{FileId, Memory, NodeId};
use std::alloc::Global;
use tree_nodes::Tree;

/// Adds the message of a `return` that belongs to no function.
pub(crate) fn check_return(
    alloc: Global,
    file: FileId,
    tree: &Tree,
    tables: &Tables,
    n: NodeId,
    found: &mut Messages,
) -> Result<(), Memory>
    requires made { n.0 < count_of tree.now }
    requires tables { AreTablesOf tree.now tables.now }
    ensures { OnOk result (found.new ≡ found.old ++ return_outside file tree.now n.0) }
{
    if is_return(tree.kind(n)) && !is_in_function(tree, tables, n) {
        found.push(message_of(alloc, file, tree, n, Rule::ReturnOutsideFunction))?;
    }
    Ok(())
}
