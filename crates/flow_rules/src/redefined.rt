// The rule on functions and classes that take the place of others.
ghost use Rattle.std.specs.Prelude.{◌≡◌, ◌<◌, ◌++◌, ◌∷◌, [], List, ℕ, All, IfOk, OnOk, Some, map, true};
ghost use Rattle.std.specs.Fmt.{decimal};
ghost use Rattle.std.specs.Map.{update};
ghost use Rattle.std.specs.Str.{bytes_eq};
ghost use Rattle.tree_nodes.specs.Trees.{count_of};
ghost use Rattle.tree_nodes.specs.Kept.{number_of};
ghost use Rattle.scope_rules.specs.Nodes.{Name};
ghost use Rattle.flow_rules.specs.declared.rule.Rule.TheVariants.{FunctionRedefined};
ghost use Rattle.flow_rules.specs.Nodes.{message_of};
ghost use Rattle.flow_rules.specs.Redefined.{is_of, is_plain, function_word, word_of, redefined_by, redefined_behind, function_redefined};
ghost use Rattle.flow_rules.specs.Tables.{AreTablesOf, HasLines, IsOver, line_in};

use crate::definition::Definition;
use crate::nodes::{block, message_with};
use crate::rule::Rule;
use crate::tables::{Tables, is_in_class};
use lint_messages::{Message, Messages};
use lint_values::{FileId, Memory, NodeId, Text, Texts};
use rule_nodes::{has_decorator, is_class, is_def, is_public, number_text, written};
use std::alloc::Global;
use std::collections::BTreeMap;
use tree_nodes::{Kind, Tree};

fn is_of(sort: Definition, kind: Kind) -> bool
    ensures { result ≡ is_of sort kind }
{
    match sort {
        Definition::Function => is_def(kind),
        Definition::Class => is_class(kind),
    }
}

// Whether a node is a definition of this sort that takes part.
fn is_plain(tree: &Tree, sort: Definition, n: NodeId) -> bool
    requires { n.0 < count_of tree.now }
    ensures { result ≡ is_plain sort tree.now n.0 }
{
    is_of(sort, tree.kind(n)) && (is_public(written(tree, n)) && !has_decorator(tree, n))
}

fn function_word(is_method: bool) -> &'static str
    ensures { result.now ≡ function_word is_method }
{
    if is_method { "method" } else { "function" }
}

// The word for a definition in the message.
fn word_of(tree: &Tree, tables: &Tables, sort: Definition, n: NodeId) -> &'static str
    requires made { n.0 < count_of tree.now }
    requires tables { AreTablesOf tree.now tables.now }
    ensures { result.now ≡ word_of sort tree.now n.0 }
{
    match sort {
        Definition::Function => function_word(is_in_class(tree, tables, n)),
        Definition::Class => "class",
    }
}

// The message of a definition whose name another one has at that line.
fn redefined_message(
    alloc: Global,
    file: FileId,
    tree: &Tree,
    tables: &Tables,
    sort: Definition,
    n: NodeId,
    line: u32,
) -> Result<Message, Memory>
    requires made { n.0 < count_of tree.now }
    requires tables { AreTablesOf tree.now tables.now }
    ensures { IfOk result (λ message. message ≡ message_of file tree.now n.0 FunctionRedefined (word_of sort tree.now n.0 ∷ decimal line ∷ [])) }
{
    let mut args = Texts::new(alloc);
    args.push(Text::from_str(alloc, word_of(tree, tables, sort, n))?)?;
    args.push(number_text(alloc, u64::from(line))?)?;
    Ok(message_with(file, tree, n, Rule::FunctionRedefined, args))
}

// Adds the message of a definition, where another one of its name stands at a line before it.
fn check_before(
    alloc: Global,
    file: FileId,
    tree: &Tree,
    tables: &Tables,
    sort: Definition,
    n: NodeId,
    line: Option<u32>,
    found: &mut Messages,
) -> Result<(), Memory>
    requires made { n.0 < count_of tree.now }
    requires tables { AreTablesOf tree.now tables.now }
    ensures { OnOk result (found.new ≡ found.old ++ redefined_by sort file tree.now n.0 line) }
{
    if let Some(line) = line {
        found.push(redefined_message(alloc, file, tree, tables, sort, n, line)?)?;
    }
    Ok(())
}

// Keeps the line of a name, and gives the one that was kept of it.
fn keep_line(
    alloc: Global,
    lines: &mut BTreeMap<Text, u32>,
    name: &str,
    line: u32,
) -> Result<Option<u32>, Memory>
    ensures before { IfOk result (λ last. last ≡ line_in lines.old name.now) }
    ensures after { OnOk result ((q : Name) → line_in lines.new q ≡ update bytes_eq (line_in lines.old) name.now (Some line) q) }
{
    Ok(lines.insert(Text::from_str(alloc, name)?, line)?)
}

// Adds the message of a definition that takes part, and keeps its line.
fn check_plain(
    alloc: Global,
    file: FileId,
    tree: &Tree,
    tables: &Tables,
    sort: Definition,
    n: NodeId,
    lines: &mut BTreeMap<Text, u32>,
    found: &mut Messages,
) -> Result<(), Memory>
    requires made { n.0 < count_of tree.now }
    requires tables { AreTablesOf tree.now tables.now }
    requires plain { is_plain sort tree.now n.0 ≡ true }
    ensures { OnOk result ((before : List ℕ) → HasLines sort tree.now before lines.old → IsOver sort file tree.now before n.0 lines.new found.old found.new) }
{
    let line = keep_line(alloc, lines, written(tree, n), tree.pos(n).line)?;
    check_before(alloc, file, tree, tables, sort, n, line, found)?;
    Ok(())
}

// Adds the message of a statement, and keeps its line where it takes part.
fn check_statement(
    alloc: Global,
    file: FileId,
    tree: &Tree,
    tables: &Tables,
    sort: Definition,
    n: NodeId,
    lines: &mut BTreeMap<Text, u32>,
    found: &mut Messages,
) -> Result<(), Memory>
    requires made { n.0 < count_of tree.now }
    requires tables { AreTablesOf tree.now tables.now }
    ensures { OnOk result ((before : List ℕ) → HasLines sort tree.now before lines.old → IsOver sort file tree.now before n.0 lines.new found.old found.new) }
{
    if is_plain(tree, sort, n) {
        check_plain(alloc, file, tree, tables, sort, n, lines, found)?;
        return Ok(());
    }
    Ok(())
}

// Adds the messages of the definitions of one sort among the statements of a block.
fn check_sort(
    alloc: Global,
    file: FileId,
    tree: &Tree,
    tables: &Tables,
    sort: Definition,
    statements: &[NodeId],
    found: &mut Messages,
) -> Result<(), Memory>
    requires made { All (λ k. k.0 < count_of tree.now) statements.now }
    requires tables { AreTablesOf tree.now tables.now }
    ensures { OnOk result (found.new ≡ found.old ++ redefined_behind sort file tree.now [] (map number_of statements.now)) }
{
    let mut lines = BTreeMap::new(alloc);
    let mut rest = statements;
    while let Some((n, tail)) = rest.split_first() {
        check_statement(alloc, file, tree, tables, sort, *n, &mut lines, found)?;
        rest = tail;
    }
    Ok(())
}

/// Adds the messages of the functions and classes of a node's block that take the place of others.
pub(crate) fn check_redefined(
    alloc: Global,
    file: FileId,
    tree: &Tree,
    tables: &Tables,
    n: NodeId,
    found: &mut Messages,
) -> Result<(), Memory>
    requires made { n.0 < count_of tree.now }
    requires tables { AreTablesOf tree.now tables.now }
    ensures { OnOk result (found.new ≡ found.old ++ function_redefined file tree.now n.0) }
{
    let statements = block(alloc, tree, n)?;
    check_sort(
        alloc,
        file,
        tree,
        tables,
        Definition::Function,
        &statements,
        found,
    )?;
    check_sort(
        alloc,
        file,
        tree,
        tables,
        Definition::Class,
        &statements,
        found,
    )?;
    Ok(())
}
