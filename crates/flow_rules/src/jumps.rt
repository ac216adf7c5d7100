// The rule on `break` and `continue` outside of loops.
ghost use Rattle.std.specs.Prelude.{◌≡◌, ◌<◌, ◌++◌, OnOk};
ghost use Rattle.tree_nodes.specs.Trees.{count_of};
ghost use Rattle.flow_rules.specs.Loops.{outside_loop, not_in_loop};
ghost use Rattle.flow_rules.specs.Tables.{AreTablesOf};

use crate::kinds::{is_break, is_continue};
use crate::nodes::message_with;
use crate::rule::Rule;
use crate::tables::{Tables, in_loop};
use lint_messages::Messages;
use lint_values::{FileId, Memory, NodeId, Text, Texts};
use std::alloc::Global;
use tree_nodes::Tree;

// Adds the message of a statement of such a kind, with its word, where it stands in no loop.
fn check_word(
    alloc: Global,
    file: FileId,
    tree: &Tree,
    tables: &Tables,
    n: NodeId,
    is_such: bool,
    word: &str,
    found: &mut Messages,
) -> Result<(), Memory>
    requires made { n.0 < count_of tree.now }
    requires tables { AreTablesOf tree.now tables.now }
    ensures { OnOk result (found.new ≡ found.old ++ outside_loop file tree.now n.0 is_such word.now) }
{
    if is_such && !in_loop(tree, tables, n) {
        let mut args = Texts::new(alloc);
        args.push(Text::from_str(alloc, word)?)?;
        found.push(message_with(file, tree, n, Rule::NotInLoop, args))?;
    }
    Ok(())
}

/// Adds the message of `break` or `continue` that stands in no loop.
pub(crate) fn check_jump(
    alloc: Global,
    file: FileId,
    tree: &Tree,
    tables: &Tables,
    n: NodeId,
    found: &mut Messages,
) -> Result<(), Memory>
    requires made { n.0 < count_of tree.now }
    requires tables { AreTablesOf tree.now tables.now }
    ensures { OnOk result (found.new ≡ found.old ++ not_in_loop file tree.now n.0) }
{
    let kind = tree.kind(n);
    check_word(alloc, file, tree, tables, n, is_break(kind), "break", found)?;
    check_word(
        alloc,
        file,
        tree,
        tables,
        n,
        is_continue(kind),
        "continue",
        found,
    )?;
    Ok(())
}
