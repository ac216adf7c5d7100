ghost use Rattle.std.specs.Prelude.{◌≡◌, ◌<◌, ◌↔◌, true, length, IsTrue, All};
ghost use Rattle.tree_nodes.specs.Trees.{count_of};
ghost use Rattle.scope_rules.specs.Nodes.{kind_of};
ghost use Rattle.call_binding.specs.Reading.{is_function, is_call};

use crate::calls::CALLS;
use call_binding::{Binding, CallShape, KeyFate, ParamFate, Signature, bind_call};
use lint_values::{NodeId, Pos};
use std::alloc::Global;
use std::process::Abort;
use std::test::Fail;
use tree_nodes::{Kind, Tree, TreeBuilder};

// The kinds of nodes in the rows.
const KINDS: [(&str, Kind); 23] = [
    ("Assign", Kind::Assign),
    ("Attribute", Kind::Attribute),
    ("Call", Kind::Call),
    ("ClassDef", Kind::ClassDef),
    ("Dict", Kind::Dict),
    ("DoubleStarArgument", Kind::DoubleStarArgument),
    ("DoubleStarParameter", Kind::DoubleStarParameter),
    ("ExpressionStatement", Kind::ExpressionStatement),
    ("FunctionDef", Kind::FunctionDef),
    ("KeywordArgument", Kind::KeywordArgument),
    ("KeywordOnlyMark", Kind::KeywordOnlyMark),
    ("KeywordOnlyParameter", Kind::KeywordOnlyParameter),
    ("Lambda", Kind::Lambda),
    ("List", Kind::List),
    ("Module", Kind::Module),
    ("Name", Kind::Name),
    ("NameTarget", Kind::NameTarget),
    ("NumberLiteral", Kind::NumberLiteral),
    ("Parameter", Kind::Parameter),
    ("Pass", Kind::Pass),
    ("PositionalOnlyMark", Kind::PositionalOnlyMark),
    ("StarArgument", Kind::StarArgument),
    ("StarParameter", Kind::StarParameter),
];

fn kind_among(kinds: &[(&str, Kind)], word: &str) -> Option<Kind> {
    for (name, kind) in kinds {
        if *name == word {
            return Some(*kind);
        }
    }
    None
}

fn are_below(kids: &[u32], count: usize) -> bool
    ensures { IsTrue result ↔ All (λ k. k < count) kids.now }
{
    kids.iter().all(|k| (*k as usize) < count)
}

// Takes the last open rows away.
fn taken(alloc: Global, open: &mut Vec<u32>, count: usize) -> Result<Vec<u32>, Fail> {
    let start = open.len().saturating_sub(count);
    let kids = Vec::from_slice(alloc, &open[start..])?;
    open.truncate(start);
    Ok(kids)
}

// A node behind its kids: its kind, maybe `:` and its name, `/` and the count of its kids.
fn add_word(
    rt: &impl Abort,
    alloc: Global,
    builder: &mut TreeBuilder,
    open: &mut Vec<u32>,
    word: &str,
) -> Result<(), Fail> {
    let (node, count) = word.split_once('/').unwrap_or((word, "0"));
    let (kind, name) = match node.split_once(':') {
        Some((kind, name)) => (kind, Some(name)),
        None => (node, None),
    };
    let Some(kind) = kind_among(&KINDS, kind) else {
        assert_eq!(rt; kind, "a kind");
        return Ok(());
    };
    let kids = taken(alloc, open, count.parse().unwrap_or(0))?;
    let below = are_below(kids.as_slice(), builder.rows());
    assert!(rt; below);
    let pos = Pos { line: 1, col: 0 };
    open.push(builder.push(kind, pos, 1, name, kids.as_slice())?)?;
    Ok(())
}

fn tree_of(rt: &impl Abort, alloc: Global, nodes: &str) -> Result<Tree, Fail> {
    let mut builder = TreeBuilder::new(alloc);
    let mut open = Vec::new(alloc);
    for word in nodes.split(' ') {
        add_word(rt, alloc, &mut builder, &mut open, word)?;
    }
    let root = open.pop().unwrap_or(0);
    let is_made = (root as usize) < builder.rows();
    assert!(rt; is_made);
    Ok(builder.finish(root)?)
}

fn fate(alloc: Global, fate: ParamFate) -> Result<String, Fail> {
    Ok(match fate {
        ParamFate::Arg(n) => format!(in alloc; "a{n}")?,
        ParamFate::Receiver => format!(in alloc; "R")?,
        ParamFate::Default => format!(in alloc; "D")?,
        ParamFate::Rest => format!(in alloc; "*")?,
        ParamFate::Missing => format!(in alloc; "-")?,
    })
}

fn key_fate(alloc: Global, fate: KeyFate) -> Result<String, Fail> {
    Ok(match fate {
        KeyFate::Takes(i) => format!(in alloc; "t{i}")?,
        KeyFate::Rest => format!(in alloc; "*")?,
        KeyFate::Twice(_) | KeyFate::PositionalOnly | KeyFate::Unexpected => {
            format!(in alloc; "-")?
        }
    })
}

// What the parameters get, and what becomes of the keywords.
fn shown(alloc: Global, binding: &Binding, params: u32, keywords: u32) -> Result<String, Fail>
    requires params { params ≡ length binding.now.params }
    requires keywords { keywords ≡ length binding.now.keywords }
{
    let mut text = format!(in alloc; "fits")?;
    for i in 0..params {
        text.push_str(" ")?;
        text.push_str(fate(alloc, binding.param(i))?.as_str())?;
    }
    text.push_str(" ;")?;
    for j in 0..keywords {
        text.push_str(" ")?;
        text.push_str(key_fate(alloc, binding.keyword(j))?.as_str())?;
    }
    Ok(text)
}

// Whether a parameter has no value, by its words.
fn is_missing(binding: &Binding, params: u32, number: u32) -> bool
    requires { params ≡ length binding.now.params }
{
    number < params && matches!(binding.param(number), ParamFate::Missing)
}

// Whether a keyword is given twice to a parameter.
fn is_twice(binding: &Binding, keywords: u32, number: u32) -> bool
    requires { keywords ≡ length binding.now.keywords }
{
    for j in 0..keywords {
        if let KeyFate::Twice(i) = binding.keyword(j) {
            if i == number {
                return true;
            }
        }
    }
    false
}

fn is_key(binding: &Binding, keywords: u32, number: u32, fate: KeyFate) -> bool
    requires { keywords ≡ length binding.now.keywords }
{
    number < keywords && binding.keyword(number) == fate
}

// Whether the call has this problem: its word, and a number where it has one.
fn has_problem(binding: &Binding, params: u32, keywords: u32, problem: &str) -> bool
    requires params { params ≡ length binding.now.params }
    requires keywords { keywords ≡ length binding.now.keywords }
{
    let (word, number) = problem.split_once(' ').unwrap_or((problem, "0"));
    let number = number.parse().unwrap_or(0);
    match word {
        "missing" => is_missing(binding, params, number),
        "surplus" => binding.surplus() > 0,
        "twice" => is_twice(binding, keywords, number),
        "unexpected" => is_key(binding, keywords, number, KeyFate::Unexpected),
        "hidden" => is_key(binding, keywords, number, KeyFate::PositionalOnly),
        _ => false,
    }
}

fn binds<'c>(
    rt: &impl Abort,
    alloc: Global,
    signature: &'c Signature<'c>,
    shape: &'c CallShape<'c>,
    expected: &str,
) -> Result<(), Fail> {
    if shape.starred() {
        assert_eq!(rt; "starred", expected);
        return Ok(());
    }
    let binding = bind_call(signature, shape);
    let params = signature.params();
    let keywords = shape.keywords();
    if expected.starts_with("fits") {
        let text = shown(alloc, &binding, params, keywords)?;
        assert_eq!(rt; text.as_str(), expected);
        assert!(rt; !binding.is_mismatch());
    } else {
        let is_found = has_problem(&binding, params, keywords, expected);
        assert!(rt; is_found, "{expected}");
        assert!(rt; binding.is_mismatch(), "{expected}");
    }
    Ok(())
}

// Whether a node of the tree is a function.
#[tactic(auto, unfolding(call_binding::specs::Reading::is_function))]
fn is_function(tree: &Tree, n: NodeId) -> bool
    ensures made { result ≡ true → n.0 < count_of tree.now }
    ensures function { result ≡ true → is_function (kind_of tree.now n.0) ≡ true }
{
    n.0 < tree.count() && matches!(tree.kind(n), Kind::FunctionDef | Kind::Lambda)
}

#[tactic(auto, unfolding(call_binding::specs::Reading::is_call))]
fn is_call(tree: &Tree, n: NodeId) -> bool
    ensures made { result ≡ true → n.0 < count_of tree.now }
    ensures call { result ≡ true → is_call (kind_of tree.now n.0) ≡ true }
{
    n.0 < tree.count() && matches!(tree.kind(n), Kind::Call)
}

fn number(word: &str) -> NodeId {
    NodeId(word.parse().unwrap_or(0))
}

// The function's number, the call's, and whether a receiver comes first.
fn pair_holds(
    rt: &impl Abort,
    alloc: Global,
    tree: &Tree,
    pair: &str,
    expected: &str,
) -> Result<(), Fail> {
    let (def, rest) = pair.split_once(' ').unwrap_or((pair, ""));
    let (call, receiver) = rest.split_once(' ').unwrap_or((rest, ""));
    let (def, call) = (number(def), number(call));
    let is_pair = is_function(tree, def) && is_call(tree, call);
    assert!(rt; is_pair);
    let signature = Signature::of(tree, def, receiver == "received");
    let shape = CallShape::of(tree, call);
    binds(rt, alloc, &signature, &shape, expected)
}

// A line is a program's tree, its function and call, and what is expected; or, behind `#`, the program.
fn line_holds(rt: &impl Abort, alloc: Global, line: &str) -> Result<(), Fail> {
    if line.starts_with('#') {
        return Ok(());
    }
    let (nodes, said) = line.split_once(" | ").unwrap_or((line, ""));
    let (pair, expected) = said.split_once(" | ").unwrap_or((said, ""));
    let tree = tree_of(rt, alloc, nodes)?;
    pair_holds(rt, alloc, &tree, pair, expected)
}

fn lines_hold(rt: &impl Abort, alloc: Global, calls: &str) -> Result<(), Fail> {
    for line in calls.lines() {
        line_holds(rt, alloc, line)?;
    }
    Ok(())
}

#[test]
fn calls_bind_as_inspect_says(rt: HostRuntime) -> Result<(), Fail> {
    lines_hold(&rt, rt.alloc(), CALLS)
}
