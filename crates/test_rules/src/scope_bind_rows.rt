ghost use Rattle.std.specs.Prelude.{ℕ, ◌<◌, ◌↔◌, IsTrue, All};
ghost use Rattle.tree_nodes.specs.Trees.{count_of};
ghost use Rattle.scope_bind.specs.Scoped.{IsNode};

use crate::programs::PROGRAMS;
use lint_values::{NodeId, Pos, Text};
use scope_bind::{ScopeId, Scopes, Where};
use std::alloc::Global;
use std::process::Abort;
use std::test::Fail;
use tree_nodes::{Kind, Tree, TreeBuilder};

// The kinds of nodes in the programs.
const KINDS: [(&str, Kind); 96] = [
    ("Add", Kind::Add),
    ("Alias", Kind::Alias),
    ("AnnAssign", Kind::AnnAssign),
    ("Annotation", Kind::Annotation),
    ("AsName", Kind::AsName),
    ("Assert", Kind::Assert),
    ("Assign", Kind::Assign),
    ("AsyncComprehensionFor", Kind::AsyncComprehensionFor),
    ("AsyncFor", Kind::AsyncFor),
    ("AsyncFunctionDef", Kind::AsyncFunctionDef),
    ("AsyncWith", Kind::AsyncWith),
    ("Attribute", Kind::Attribute),
    ("AttributeTarget", Kind::AttributeTarget),
    ("AugAssign", Kind::AugAssign),
    ("Await", Kind::Await),
    ("BoolOr", Kind::BoolOr),
    ("Call", Kind::Call),
    ("Case", Kind::Case),
    ("ClassDef", Kind::ClassDef),
    ("Comparison", Kind::Comparison),
    ("ComprehensionFor", Kind::ComprehensionFor),
    ("Conditional", Kind::Conditional),
    ("DeclaredName", Kind::DeclaredName),
    ("Decorator", Kind::Decorator),
    ("Delete", Kind::Delete),
    ("Dict", Kind::Dict),
    ("DictComprehension", Kind::DictComprehension),
    ("DictItem", Kind::DictItem),
    ("Docstring", Kind::Docstring),
    ("DoubleStarParameter", Kind::DoubleStarParameter),
    ("Else", Kind::Else),
    ("Equal", Kind::Equal),
    ("ExceptHandler", Kind::ExceptHandler),
    ("ExceptStarHandler", Kind::ExceptStarHandler),
    ("ExpressionStatement", Kind::ExpressionStatement),
    ("FString", Kind::FString),
    ("Field", Kind::Field),
    ("Finally", Kind::Finally),
    ("For", Kind::For),
    ("FunctionDef", Kind::FunctionDef),
    ("GeneratorExpression", Kind::GeneratorExpression),
    ("Global", Kind::Global),
    ("Greater", Kind::Greater),
    ("If", Kind::If),
    ("Import", Kind::Import),
    ("ImportFrom", Kind::ImportFrom),
    ("ImportWildcard", Kind::ImportWildcard),
    ("KeywordArgument", Kind::KeywordArgument),
    ("KeywordOnlyMark", Kind::KeywordOnlyMark),
    ("KeywordOnlyParameter", Kind::KeywordOnlyParameter),
    ("Lambda", Kind::Lambda),
    ("Less", Kind::Less),
    ("List", Kind::List),
    ("ListComprehension", Kind::ListComprehension),
    ("ListTarget", Kind::ListTarget),
    ("Match", Kind::Match),
    ("MatchAs", Kind::MatchAs),
    ("MatchCapture", Kind::MatchCapture),
    ("MatchClass", Kind::MatchClass),
    ("MatchItem", Kind::MatchItem),
    ("MatchKeyword", Kind::MatchKeyword),
    ("MatchMapping", Kind::MatchMapping),
    ("MatchOr", Kind::MatchOr),
    ("MatchRest", Kind::MatchRest),
    ("MatchSequence", Kind::MatchSequence),
    ("MatchStar", Kind::MatchStar),
    ("MatchValue", Kind::MatchValue),
    ("MatchWildcard", Kind::MatchWildcard),
    ("Module", Kind::Module),
    ("Name", Kind::Name),
    ("NameTarget", Kind::NameTarget),
    ("NamedExpression", Kind::NamedExpression),
    ("NoneLiteral", Kind::NoneLiteral),
    ("Nonlocal", Kind::Nonlocal),
    ("Not", Kind::Not),
    ("NumberLiteral", Kind::NumberLiteral),
    ("Parameter", Kind::Parameter),
    ("Pass", Kind::Pass),
    ("PositionalOnlyMark", Kind::PositionalOnlyMark),
    ("Raise", Kind::Raise),
    ("Return", Kind::Return),
    ("Set", Kind::Set),
    ("SetComprehension", Kind::SetComprehension),
    ("StarParameter", Kind::StarParameter),
    ("StarredTarget", Kind::StarredTarget),
    ("StringLiteral", Kind::StringLiteral),
    ("SubscriptTarget", Kind::SubscriptTarget),
    ("Try", Kind::Try),
    ("Tuple", Kind::Tuple),
    ("TupleTarget", Kind::TupleTarget),
    ("UnaryMinus", Kind::UnaryMinus),
    ("While", Kind::While),
    ("With", Kind::With),
    ("WithItem", Kind::WithItem),
    ("Yield", Kind::Yield),
    ("YieldFrom", Kind::YieldFrom),
];

fn kind_among(kinds: &[(&str, Kind)], word: &str) -> Option<Kind> {
    for (name, kind) in kinds {
        if word == *name {
            return Some(*kind);
        }
    }
    None
}

fn kind_named(word: &str) -> Option<Kind> {
    kind_among(&KINDS, word)
}

fn are_below(kids: &[u32], count: usize) -> bool
    ensures { IsTrue result ↔ All (λ k. k < count) kids.now }
{
    kids.iter().all(|k| (*k as usize) < count)
}

// Takes the last open rows away.
fn taken(alloc: Global, open: &mut Vec<u32>, count: usize) -> Result<Vec<u32>, Fail> {
    let start = open.len().saturating_sub(count);
    let kids = Vec::from_slice(alloc, &open[start..])?;
    open.truncate(start);
    Ok(kids)
}

// A node behind its kids: its kind, maybe `:` and its name, `/` and the count of its kids.
fn add_word(
    rt: &impl Abort,
    alloc: Global,
    builder: &mut TreeBuilder,
    open: &mut Vec<u32>,
    word: &str,
) -> Result<(), Fail> {
    let (node, count) = word.split_once('/').unwrap_or((word, "0"));
    let (kind, name) = match node.split_once(':') {
        Some((kind, name)) => (kind, Some(name)),
        None => (node, None),
    };
    let Some(kind) = kind_named(kind) else {
        assert_eq!(rt; kind, "a kind");
        return Ok(());
    };
    let kids = taken(alloc, open, count.parse().unwrap_or(0))?;
    let below = are_below(kids.as_slice(), builder.rows());
    assert!(rt; below);
    let pos = Pos { line: 1, col: 0 };
    open.push(builder.push(kind, pos, 1, name, kids.as_slice())?)?;
    Ok(())
}

fn tree_of(rt: &impl Abort, alloc: Global, nodes: &str) -> Result<Tree, Fail> {
    let mut builder = TreeBuilder::new(alloc);
    let mut open = Vec::new(alloc);
    for word in nodes.split(' ') {
        add_word(rt, alloc, &mut builder, &mut open, word)?;
    }
    let root = open.pop().unwrap_or(0);
    let is_made = (root as usize) < builder.rows();
    assert!(rt; is_made);
    Ok(builder.finish(root)?)
}

fn answer(alloc: Global, n: NodeId, found: Where) -> Result<String, Fail> {
    Ok(match found {
        Where::Local(s) => format!(in alloc; "{}=Local{}", n.0, s.0)?,
        Where::Free(s) => format!(in alloc; "{}=Free{}", n.0, s.0)?,
        Where::Global => format!(in alloc; "{}=Global", n.0)?,
        Where::Builtin => format!(in alloc; "{}=Builtin", n.0)?,
        Where::Nowhere => format!(in alloc; "{}=Nowhere", n.0)?,
    })
}

// Where each read leads.
fn shown(alloc: Global, tree: &Tree, scopes: &Scopes) -> Result<String, Fail>
    requires { (n : ℕ) → n < count_of tree.now → IsNode scopes.now n }
{
    let mut text = String::new(alloc);
    for n in 0..tree.count() {
        let id = NodeId(n);
        if matches!(tree.kind(id), Kind::Name) {
            if !text.is_empty() {
                text.push_str(" ")?;
            }
            text.push_str(answer(alloc, id, scopes.resolve(id))?.as_str())?;
        }
    }
    Ok(text)
}

// A scope's number and its names.
fn listed(alloc: Global, scope: ScopeId, names: &[Text]) -> Result<String, Fail> {
    let mut text = format!(in alloc; "{}=", scope.0)?;
    for (place, name) in names.iter().enumerate() {
        if place > 0 {
            text.push_str(",")?;
        }
        text.push_str(name.as_str())?;
    }
    Ok(text)
}

// The names of each scope.
fn named(alloc: Global, tree: &Tree, scopes: &Scopes) -> Result<String, Fail>
    requires { (n : ℕ) → n < count_of tree.now → IsNode scopes.now n }
{
    let mut text = String::new(alloc);
    for n in 0..tree.count() {
        if let Some(scope) = scopes.scope(NodeId(n)) {
            if !text.is_empty() {
                text.push_str(" ")?;
            }
            text.push_str(listed(alloc, scope, scopes.names(scope))?.as_str())?;
        }
    }
    Ok(text)
}

fn holds(
    rt: &impl Abort,
    alloc: Global,
    nodes: &str,
    reads: &str,
    names: &str,
) -> Result<(), Fail> {
    let tree = tree_of(rt, alloc, nodes)?;
    let scopes = Scopes::build(alloc, &tree)?;
    assert_eq!(rt; shown(alloc, &tree, &scopes)?.as_str(), reads, "{nodes}");
    assert_eq!(rt; named(alloc, &tree, &scopes)?.as_str(), names, "{nodes}");
    Ok(())
}

// A line is a program's tree, where its reads lead, and the names of its scopes; or, behind `#`, the program.
fn line_holds(rt: &impl Abort, alloc: Global, line: &str) -> Result<(), Fail> {
    if line.starts_with('#') {
        return Ok(());
    }
    let (nodes, said) = line.split_once(" | ").unwrap_or((line, ""));
    let (reads, names) = said.split_once(" | ").unwrap_or((said, ""));
    holds(rt, alloc, nodes, reads, names)
}

fn lines_hold(rt: &impl Abort, alloc: Global, programs: &str) -> Result<(), Fail> {
    for line in programs.lines() {
        line_holds(rt, alloc, line)?;
    }
    Ok(())
}

#[test]
fn programs_have_the_scopes_that_symtable_says(rt: HostRuntime) -> Result<(), Fail> {
    lines_hold(&rt, rt.alloc(), PROGRAMS)
}

// class C:
//     def f(self):
//         self.__x = self.__x
//         del self.y, (self.z, self.z)
const CLASS: &str =
    "Parameter:self/0 Name:self/0 AttributeTarget:__x/1 Name:self/0 Attribute:__x/1 Assign/2 Name:self/0 AttributeTarget:y/1 Name:self/0 AttributeTarget:z/1 Name:self/0 AttributeTarget:z/1 TupleTarget/2 Delete/2 FunctionDef:f/3 ClassDef:C/1 Module/1";

fn numbers(alloc: Global, nodes: &[NodeId]) -> Result<String, Fail> {
    let mut text = String::new(alloc);
    for node in nodes {
        text.push_str(format!(in alloc; "{} ", node.0)?.as_str())?;
    }
    Ok(text)
}

#[test]
fn nodes_of_a_class_are_found(rt: HostRuntime) -> Result<(), Fail> {
    let alloc = rt.alloc();
    let tree = tree_of(&rt, alloc, CLASS)?;
    let scopes = Scopes::build(alloc, &tree)?;
    let (module, class, method) = (ScopeId(0), ScopeId(1), ScopeId(2));
    assert_eq!(rt; numbers(alloc, scopes.binders(module, "C"))?.as_str(), "1 ");
    assert_eq!(rt; numbers(alloc, scopes.binders(class, "f"))?.as_str(), "2 ");
    assert_eq!(rt;
        numbers(alloc, scopes.binders(method, "self"))?.as_str(),
        "3 "
    );
    assert_eq!(rt;
        numbers(alloc, scopes.loads(method, "self"))?.as_str(),
        "6 8 11 14 16 "
    );
    assert_eq!(rt; numbers(alloc, scopes.stores("_C__x"))?.as_str(), "5 ");
    assert_eq!(rt; numbers(alloc, scopes.stores("y"))?.as_str(), "");
    assert_eq!(rt; numbers(alloc, scopes.deletes("y"))?.as_str(), "10 ");
    assert_eq!(rt; numbers(alloc, scopes.deletes("z"))?.as_str(), "13 15 ");
    Ok(())
}

// What may be lent to a thread and handed to one.
fn crosses_threads<T: Send + Sync>(_value: &T) {}

#[test]
fn scopes_cross_threads(rt: HostRuntime) -> Result<(), Fail> {
    let alloc = rt.alloc();
    let tree = tree_of(&rt, alloc, "Module/0")?;
    crosses_threads(&Scopes::build(alloc, &tree)?);
    Ok(())
}
