// The blocks of a tree.
ghost use Rattle.std.specs.Prelude.{◌≡◌, ◌<◌, ◌++◌, All, IfOk, IfSome, OnOk, map, option_map, if◌then◌else◌};
ghost use Rattle.tree_nodes.specs.Trees.{count_of, node_at, kids_at};
ghost use Rattle.tree_nodes.specs.Kept.{number_of};
ghost use Rattle.scope_rules.specs.Nodes.{kind_of};
ghost use Rattle.pragma_scope.specs.Blocks.{begin_by, begin_of, block_at, block_from, blocks_of, first_in_block, last_line_of, module_block, statements_begin};
ghost use Rattle.pragma_scope.specs.Kinds as spec;

use crate::kind::{is_in_block, is_of_block};
use lint_values::{Memory, NodeId, Pos};
use rule_nodes::is_decorator;
use std::alloc::Global;
use tree_nodes::Tree;

/// The block of a statement or clause: the line where its header begins, the places where it begins and where its first
/// statement does, and its last line.
#[derive(Clone, Copy)]
pub(crate) struct Block {
    pub(crate) header: u32,
    pub(crate) start: Pos,
    pub(crate) statements: Option<Pos>,
    pub(crate) last: u32,
}

fn begin_by(tree: &Tree, own: Pos, kids: &[NodeId]) -> Pos
    requires { All (λ k. k.0 < count_of tree.now) kids.now }
    ensures { result ≡ begin_by tree.now own (map number_of kids.now) }
{
    match kids {
        [kid, ..] => {
            if is_decorator(tree.kind(*kid)) {
                tree.pos(*kid)
            } else {
                own
            }
        }
        [] => own,
    }
}

// Where a statement begins.
fn begin_of(tree: &Tree, n: NodeId) -> Pos
    requires { n.0 < count_of tree.now }
    ensures { result ≡ begin_of tree.now n.0 }
{
    begin_by(tree, tree.pos(n), tree.kids(n))
}

// The first docstring or statement among these nodes.
fn first_in_block(tree: &Tree, kids: &[NodeId]) -> Option<NodeId>
    requires { All (λ k. k.0 < count_of tree.now) kids.now }
    ensures found { option_map number_of result ≡ first_in_block tree.now (map number_of kids.now) }
    ensures made { IfSome result (λ k. k.0 < count_of tree.now) }
{
    let mut rest = kids;
    while let [kid, tail @ ..] = rest {
        if is_in_block(tree.kind(*kid)) {
            return Some(*kid);
        }
        rest = tail;
    }
    None
}

// Where the first statement among these nodes begins.
fn statements_begin(tree: &Tree, kids: &[NodeId]) -> Option<Pos>
    requires { All (λ k. k.0 < count_of tree.now) kids.now }
    ensures { result ≡ statements_begin tree.now (map number_of kids.now) }
{
    let mut rest = kids;
    while let [kid, tail @ ..] = rest {
        if is_of_block(tree.kind(*kid)) {
            return Some(begin_of(tree, *kid));
        }
        rest = tail;
    }
    None
}

fn last_line_behind(tree: &Tree, last: u32, kid: NodeId) -> u32
    requires { kid.0 < count_of tree.now }
    ensures { result ≡ (if spec.is_in_block (kind_of tree.now kid.0) then (node_at tree.now kid.0).end_line else last) }
{
    if is_in_block(tree.kind(kid)) {
        tree.end_line(kid)
    } else {
        last
    }
}

// The last line of the last docstring or statement among these nodes.
fn last_line_of(tree: &Tree, kids: &[NodeId]) -> u32
    requires { All (λ k. k.0 < count_of tree.now) kids.now }
    ensures { result ≡ last_line_of tree.now (map number_of kids.now) }
{
    let mut last = 0;
    let mut rest = kids;
    while let [kid, tail @ ..] = rest {
        last = last_line_behind(tree, last, *kid);
        rest = tail;
    }
    last
}

// The whole file.
fn module_block(tree: &Tree) -> Block
    ensures { result ≡ module_block tree.now }
{
    Block {
        header: 0,
        start: Pos { line: 0, col: 0 },
        statements: statements_begin(tree, tree.kids(NodeId(0))),
        last: u32::MAX,
    }
}

// Adds the block of a node, where it has one.
fn push_block(tree: &Tree, n: NodeId, blocks: &mut Vec<Block>) -> Result<(), Memory>
    requires { n.0 < count_of tree.now }
    ensures { OnOk result (blocks.new.items ≡ blocks.old.items ++ block_at tree.now n.0) }
{
    if n.0 == 0 {
        blocks.push(module_block(tree))?;
        return Ok(());
    }
    let kids = tree.kids(n);
    match first_in_block(tree, kids) {
        Some(first) => {
            blocks.push(Block {
                header: tree.pos(n).line,
                start: begin_of(tree, first),
                statements: statements_begin(tree, kids),
                last: last_line_of(tree, kids),
            })?;
            Ok(())
        }
        None => Ok(()),
    }
}

/// The blocks of a tree: one inside another stands behind it.
#[tactic(auto, using(crate::proofs::BlockLaws::blocks_more))]
pub(crate) fn blocks_of(alloc: Global, tree: &Tree) -> Result<Vec<Block>, Memory>
    ensures { IfOk result (λ blocks. blocks.items ≡ blocks_of tree.now) }
{
    let mut blocks = Vec::new(alloc);
    for n in 0..tree.count() {
        push_block(tree, NodeId(n), &mut blocks)?;
    }
    Ok(blocks)
}
