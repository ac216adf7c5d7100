ghost use Rattle.std.specs.Prelude.{◌<◌, ◌↔◌, IsTrue, All};

use lint_values::{NodeId, Pos};
use std::alloc::Global;
use std::process::Abort;
use std::test::Fail;
use tree_nodes::{Kind, Tree, TreeBuilder};

// Each kind once.
const KINDS: [Kind; 141] = [
    Kind::Module,
    Kind::ExpressionStatement,
    Kind::Assign,
    Kind::AugAssign,
    Kind::AnnAssign,
    Kind::Pass,
    Kind::Break,
    Kind::Continue,
    Kind::Return,
    Kind::Raise,
    Kind::Global,
    Kind::Nonlocal,
    Kind::Delete,
    Kind::Assert,
    Kind::Import,
    Kind::ImportFrom,
    Kind::If,
    Kind::While,
    Kind::For,
    Kind::AsyncFor,
    Kind::Try,
    Kind::With,
    Kind::AsyncWith,
    Kind::FunctionDef,
    Kind::AsyncFunctionDef,
    Kind::ClassDef,
    Kind::Match,
    Kind::Elif,
    Kind::Else,
    Kind::ExceptHandler,
    Kind::ExceptStarHandler,
    Kind::Finally,
    Kind::Case,
    Kind::Decorator,
    Kind::Docstring,
    Kind::WithItem,
    Kind::Annotation,
    Kind::StarAnnotation,
    Kind::Alias,
    Kind::ImportWildcard,
    Kind::AsName,
    Kind::DeclaredName,
    Kind::Parameter,
    Kind::PositionalOnlyMark,
    Kind::StarParameter,
    Kind::KeywordOnlyParameter,
    Kind::DoubleStarParameter,
    Kind::NameTarget,
    Kind::AttributeTarget,
    Kind::SubscriptTarget,
    Kind::TupleTarget,
    Kind::ListTarget,
    Kind::StarredTarget,
    Kind::NamedExpression,
    Kind::Conditional,
    Kind::Lambda,
    Kind::BoolOr,
    Kind::BoolAnd,
    Kind::Not,
    Kind::Comparison,
    Kind::BitwiseOr,
    Kind::BitwiseXor,
    Kind::BitwiseAnd,
    Kind::Shift,
    Kind::Sum,
    Kind::Product,
    Kind::UnaryPlus,
    Kind::UnaryMinus,
    Kind::UnaryInvert,
    Kind::Power,
    Kind::Await,
    Kind::Attribute,
    Kind::Call,
    Kind::Subscript,
    Kind::Name,
    Kind::NumberLiteral,
    Kind::StringLiteral,
    Kind::BytesLiteral,
    Kind::FString,
    Kind::NoneLiteral,
    Kind::TrueLiteral,
    Kind::FalseLiteral,
    Kind::EllipsisLiteral,
    Kind::Tuple,
    Kind::List,
    Kind::Set,
    Kind::Dict,
    Kind::ListComprehension,
    Kind::SetComprehension,
    Kind::DictComprehension,
    Kind::GeneratorExpression,
    Kind::Yield,
    Kind::YieldFrom,
    Kind::Starred,
    Kind::StarArgument,
    Kind::KeywordArgument,
    Kind::DoubleStarArgument,
    Kind::Slice,
    Kind::SliceColon,
    Kind::Slices,
    Kind::DictItem,
    Kind::DictUnpack,
    Kind::ComprehensionFor,
    Kind::AsyncComprehensionFor,
    Kind::Field,
    Kind::Less,
    Kind::Greater,
    Kind::Equal,
    Kind::LessEqual,
    Kind::GreaterEqual,
    Kind::NotEqual,
    Kind::In,
    Kind::NotIn,
    Kind::Is,
    Kind::IsNot,
    Kind::Add,
    Kind::Subtract,
    Kind::Multiply,
    Kind::Divide,
    Kind::FloorDivide,
    Kind::Modulo,
    Kind::MatrixMultiply,
    Kind::LeftShift,
    Kind::RightShift,
    Kind::BitAnd,
    Kind::BitXor,
    Kind::BitOr,
    Kind::Exponentiate,
    Kind::MatchOr,
    Kind::MatchAs,
    Kind::MatchValue,
    Kind::MatchCapture,
    Kind::MatchWildcard,
    Kind::MatchSequence,
    Kind::MatchStar,
    Kind::MatchStarWildcard,
    Kind::MatchMapping,
    Kind::MatchItem,
    Kind::MatchRest,
    Kind::MatchClass,
    Kind::MatchKeyword,
];

fn are_below(kids: &[u32], count: usize) -> bool
    ensures { IsTrue result ↔ All (λ k. k < count) kids.now }
{
    kids.iter().all(|k| (*k as usize) < count)
}

// A row on the given line.
fn row(
    rt: &impl Abort,
    builder: &mut TreeBuilder,
    kind: Kind,
    line: u32,
    name: Option<&str>,
    kids: &[u32],
) -> Result<u32, Fail> {
    let below = are_below(kids, builder.rows());
    assert!(rt; below);
    Ok(builder.push(
        kind,
        Pos { line, col: 4 },
        line.saturating_add(1),
        name,
        kids,
    )?)
}

// A line for each node: its number, kind, name, line and last line, parent, kids.
fn shown(alloc: Global, tree: &Tree) -> Result<String, Fail> {
    let mut text = String::new(alloc);
    for n in 0..tree.count() {
        let id = NodeId(n);
        let name = tree.name(id).unwrap_or("-");
        let line = tree.pos(id).line;
        let head = format!(in alloc;
            "{n} {:?} {name} {line} {}",
            tree.kind(id),
            tree.end_line(id)
        )?;
        text.push_str(head.as_str())?;
        if let Some(parent) = tree.parent(id) {
            text.push_str(format!(in alloc; " under {}", parent.0)?.as_str())?;
        }
        for kid in tree.kids(id) {
            text.push_str(format!(in alloc; " {}", kid.0)?.as_str())?;
        }
        text.push_str("\n")?;
    }
    Ok(text)
}

fn finished(rt: &impl Abort, builder: TreeBuilder, root: u32) -> Result<Tree, Fail> {
    let is_made = (root as usize) < builder.rows();
    assert!(rt; is_made);
    Ok(builder.finish(root)?)
}

// x = f(a) + 1, with a row that was left behind and kids made out of order
#[test]
fn a_statement_is_read_back(rt: HostRuntime) -> Result<(), Fail> {
    let alloc = rt.alloc();
    let mut builder = TreeBuilder::new(alloc);
    let one = row(&rt, &mut builder, Kind::NumberLiteral, 1, Some("1"), &[])?;
    let lost = row(&rt, &mut builder, Kind::Starred, 9, None, &[])?;
    let f = row(&rt, &mut builder, Kind::Name, 1, Some("f"), &[])?;
    let a = row(&rt, &mut builder, Kind::Name, 2, Some("a\u{e4}"), &[])?;
    let call = row(&rt, &mut builder, Kind::Call, 1, None, &[f, a])?;
    let add = row(&rt, &mut builder, Kind::Add, 3, None, &[])?;
    let sum = row(&rt, &mut builder, Kind::Sum, 1, None, &[call, add, one])?;
    let x = row(&rt, &mut builder, Kind::NameTarget, 1, Some("x"), &[])?;
    let assign = row(&rt, &mut builder, Kind::Assign, 1, None, &[x, sum])?;
    let module = row(&rt, &mut builder, Kind::Module, 1, None, &[assign])?;
    assert_eq!(rt; lost, 1);
    let tree = finished(&rt, builder, module)?;
    assert_eq!(rt;
        shown(alloc, &tree)?.as_str(),
        "0 Module - 1 2 1\n1 Assign - 1 2 under 0 2 3\n2 NameTarget x 1 2 under 1\n3 Sum - 1 2 under 1 4 7 8\n4 Call - 1 2 under 3 5 6\n5 Name f 1 2 under 4\n6 Name a\u{e4} 2 3 under 4\n7 Add - 3 4 under 3\n8 NumberLiteral 1 1 2 under 3\n"
    );
    Ok(())
}

#[test]
fn a_part_alone_is_a_tree(rt: HostRuntime) -> Result<(), Fail> {
    let alloc = rt.alloc();
    let mut builder = TreeBuilder::new(alloc);
    let a = row(&rt, &mut builder, Kind::Name, 5, Some("a"), &[])?;
    let not = row(&rt, &mut builder, Kind::Not, 5, None, &[a])?;
    let _module = row(&rt, &mut builder, Kind::Module, 1, None, &[not])?;
    let tree = finished(&rt, builder, not)?;
    assert_eq!(rt;
        shown(alloc, &tree)?.as_str(),
        "0 Not - 5 6 1\n1 Name a 5 6 under 0\n"
    );
    Ok(())
}

#[test]
fn each_kind_is_read_back(rt: HostRuntime) -> Result<(), Fail> {
    let alloc = rt.alloc();
    let mut builder = TreeBuilder::new(alloc);
    let mut kids = Vec::new(alloc);
    for kind in &KINDS {
        kids.push(row(&rt, &mut builder, *kind, 7, Some("n"), &[])?)?;
    }
    let root = row(&rt, &mut builder, Kind::Module, 1, None, kids.as_slice())?;
    let tree = finished(&rt, builder, root)?;
    let mut expected = KINDS.iter();
    let mut seen = 0u64;
    for id in tree.walk().skip(1) {
        let is_made = id.0 < tree.count();
        assert!(rt; is_made);
        assert_eq!(rt; Some(tree.kind(id)), expected.next().copied());
        assert_eq!(rt; tree.parent(id), Some(NodeId(0)));
        seen = seen.saturating_add(1);
    }
    assert_eq!(rt; seen, 141);
    Ok(())
}

// What may be lent to a thread and handed to one.
fn crosses_threads<T: Send + Sync>(_value: &T) {}

#[test]
fn trees_cross_threads(rt: HostRuntime) -> Result<(), Fail> {
    let mut builder = TreeBuilder::new(rt.alloc());
    let root = row(&rt, &mut builder, Kind::Module, 1, None, &[])?;
    crosses_threads(&builder);
    crosses_threads(&finished(&rt, builder, root)?);
    Ok(())
}
