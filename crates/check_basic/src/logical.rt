// The rules on logical lines.
ghost use Rattle.std.specs.Prelude.{◌≡◌, ◌<◌, ◌≤◌, ◌++◌, ◌∷◌, [], ◌-◌, All, IfOk, IfSome, OnOk, map, length, drop, slice_get};
ghost use Rattle.std.specs.List.{prefix_len, take_while};
ghost use Rattle.tree_nodes.specs.Trees.{count_of};
ghost use Rattle.tree_nodes.specs.Kept.{number_of};
ghost use Rattle.scope_rules.specs.Nodes.{kind_of, nodes_of};
ghost use Rattle.rule_nodes.specs.Kinds.{is_ellipsis};
ghost use Rattle.check_basic.specs.Nodes.{is_sole};
ghost use Rattle.check_basic.specs.LogicalLines.{is_on_line, on_lines, is_before, begins_before, begin_of, start_of, is_ellipsis_statement, is_stub, second_on_line, multiple_statements, is_semicolon, semicolon_message, last_of, unnecessary_semicolons};

use crate::kinds::has_header;
use crate::rules::plain_message;
use lint_messages::{Code, Messages};
use lint_values::{FileId, Memory, NodeId, Pos};
use py_token::{Logical, Token, Tokens};
use rule_nodes::{is_ellipsis, is_expression_statement, is_statement, message_at};
use std::alloc::Global;
use tree_nodes::Tree;

// A statement, or the header of a statement or clause.
fn is_on_line(tree: &Tree, n: NodeId) -> bool
    requires { n.0 < count_of tree.now }
    ensures { result ≡ is_on_line tree.now n.0 }
{
    is_statement(tree.kind(n)) || has_header(tree.kind(n))
}

// Adds a node, where it is a statement or header.
fn push_on_line(tree: &Tree, n: NodeId, all: &mut Vec<NodeId>) -> Result<(), Memory>
    requires { n.0 < count_of tree.now }
    ensures value { OnOk result (map number_of all.new.items ≡ map number_of all.old.items ++ on_lines tree.now (n.0 ∷ [])) }
    ensures made { OnOk result (All (λ k. k.0 < count_of tree.now) all.old.items → All (λ k. k.0 < count_of tree.now) all.new.items) }
{
    if is_on_line(tree, n) {
        all.push(n)?;
    }
    Ok(())
}

// The statements and headers, in the order of the source.
#[tactic(auto, using(crate::proofs::NodeSteps::lines_more))]
fn on_lines(alloc: Global, tree: &Tree) -> Result<Vec<NodeId>, Memory>
    ensures value { IfOk result (λ all. map number_of all.items ≡ on_lines tree.now (nodes_of tree.now)) }
    ensures made { IfOk result (λ all. All (λ k. k.0 < count_of tree.now) all.items) }
{
    let mut all = Vec::new(alloc);
    for n in 0..tree.count() {
        push_on_line(tree, NodeId(n), &mut all)?;
    }
    Ok(all)
}

fn is_before(a: Pos, b: Pos) -> bool
    ensures { result ≡ is_before a b }
{
    a.line < b.line || (a.line == b.line && a.col < b.col)
}

// How many of these nodes begin before a place, up to the first that does not.
fn len_before(tree: &Tree, start: Pos, ns: &[NodeId]) -> usize
    requires { All (λ k. k.0 < count_of tree.now) ns.now }
    ensures len { result ≡ prefix_len (begins_before tree.now start) (map number_of ns.now) }
    ensures within { result ≤ length ns.now }
{
    let mut len = 0;
    let mut rest = ns;
    while let [n, tail @ ..] = rest {
        if !is_before(tree.pos(*n), start) {
            return len;
        }
        len += 1;
        rest = tail;
    }
    len
}

// The nodes that begin before a place, up to the first that does not, and the others.
#[tactic(auto, using(crate::proofs::NodeSteps::front_is, crate::proofs::NodeSteps::behind_is))]
fn split_before<'n>(tree: &Tree, start: Pos, ns: &'n [NodeId]) -> (&'n [NodeId], &'n [NodeId])
    requires { All (λ k. k.0 < count_of tree.now) ns.now }
    ensures front { map number_of result.0.now ≡ take_while (begins_before tree.now start) (map number_of ns.now) }
    ensures behind { map number_of result.1.now ≡ drop (prefix_len (begins_before tree.now start) (map number_of ns.now)) (map number_of ns.now) }
    ensures front_made { All (λ k. k.0 < count_of tree.now) result.0.now }
    ensures behind_made { All (λ k. k.0 < count_of tree.now) result.1.now }
{
    ns.split_at(len_before(tree, start, ns))
}

fn token_at(tokens: &Tokens, i: usize) -> Option<Token>
    ensures { result ≡ slice_get tokens.now.tokens i }
{
    if i < tokens.count() {
        Some(tokens.token(i))
    } else {
        None
    }
}

// Where a logical line begins.
fn start_of(tokens: &Tokens, line: Logical) -> Pos
    ensures { result ≡ start_of tokens.now line }
{
    match token_at(tokens, line.first) {
        None => Pos { line: 0, col: 0 },
        Some(token) => token.pos,
    }
}

fn is_sole_ellipsis(tree: &Tree, kids: &[NodeId]) -> bool
    requires { All (λ k. k.0 < count_of tree.now) kids.now }
    ensures { result ≡ is_sole (λ k. is_ellipsis (kind_of tree.now k)) (map number_of kids.now) }
{
    match kids {
        [kid] => is_ellipsis(tree.kind(*kid)),
        _ => false,
    }
}

// The statement `...`.
fn is_ellipsis_statement(tree: &Tree, n: NodeId) -> bool
    requires { n.0 < count_of tree.now }
    ensures { result ≡ is_ellipsis_statement tree.now n.0 }
{
    is_expression_statement(tree.kind(n)) && is_sole_ellipsis(tree, tree.kids(n))
}

// A header, and `...` behind it.
fn is_stub(tree: &Tree, first: NodeId, second: NodeId) -> bool
    requires first { first.0 < count_of tree.now }
    requires second { second.0 < count_of tree.now }
    ensures { result ≡ is_stub tree.now first.0 second.0 }
{
    has_header(tree.kind(first)) && is_ellipsis_statement(tree, second)
}

// Adds the message of the second of these nodes, unless they are a header and `...` alone.
fn check_second(
    alloc: Global,
    file: FileId,
    tree: &Tree,
    line: &[NodeId],
    found: &mut Messages,
) -> Result<(), Memory>
    requires { All (λ k. k.0 < count_of tree.now) line.now }
    ensures { OnOk result (found.new ≡ found.old ++ second_on_line file tree.now (map number_of line.now)) }
{
    match line {
        [first, second] if is_stub(tree, *first, *second) => Ok(()),
        [_, second, ..] => {
            found.push(message_at(alloc, file, tree, *second, Code::MultipleStatements))?;
            Ok(())
        }
        _ => Ok(()),
    }
}

/// Adds the message of the second statement of each logical line.
pub(crate) fn check_multiple_statements(
    alloc: Global,
    file: FileId,
    tokens: &Tokens,
    tree: &Tree,
    found: &mut Messages,
) -> Result<(), Memory>
    ensures { OnOk result (found.new ≡ found.old ++ multiple_statements file tokens.now tree.now) }
{
    let all = on_lines(alloc, tree)?;
    let mut rest = all.as_slice();
    let mut lines = tokens.lines();
    while let Some((line, tail)) = lines.split_first() {
        let start = start_of(tokens, *line);
        let (here, behind) = split_before(tree, start, rest);
        check_second(alloc, file, tree, here, found)?;
        rest = behind;
        lines = tail;
    }
    check_second(alloc, file, tree, rest, found)?;
    Ok(())
}

fn is_semicolon(tokens: &Tokens, i: usize) -> bool
    requires { i < length tokens.now.tokens }
    ensures { IfSome (slice_get tokens.now.tokens i) (λ token. result ≡ is_semicolon tokens.now token) }
{
    tokens.text(i) == ";"
}

// Adds the message of a token, where there is one and it is a semicolon.
fn check_token(
    alloc: Global,
    file: FileId,
    tokens: &Tokens,
    i: usize,
    found: &mut Messages,
) -> Result<(), Memory>
    ensures { OnOk result (found.new ≡ found.old ++ semicolon_message file tokens.now (slice_get tokens.now.tokens i)) }
{
    if i >= tokens.count() {
        return Ok(());
    }
    if is_semicolon(tokens, i) {
        let line = tokens.token(i).pos.line;
        found.push(plain_message(alloc, file, line, 0, Code::UnnecessarySemicolon))?;
    }
    Ok(())
}

fn last_of(line: Logical) -> usize
    ensures { result ≡ line.end - 1 }
{
    line.end.saturating_sub(1)
}

/// Adds the message of each semicolon that ends a logical line.
pub(crate) fn check_semicolons(
    alloc: Global,
    file: FileId,
    tokens: &Tokens,
    found: &mut Messages,
) -> Result<(), Memory>
    ensures { OnOk result (found.new ≡ found.old ++ unnecessary_semicolons file tokens.now) }
{
    let mut lines = tokens.lines();
    while let Some((line, tail)) = lines.split_first() {
        check_token(alloc, file, tokens, last_of(*line), found)?;
        lines = tail;
    }
    Ok(())
}
