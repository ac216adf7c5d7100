// Sources with their trees, or their first fault. Trees are those of Python's own `ast`, in the kinds of nodes that this
// repository has; a source is refused where `ast.parse` refuses it.
use lint_values::NodeId;
use parse_stmt::{SyntaxFault, parse};
use py_token::tokenize;
use std::alloc::Global;
use std::process::Abort;
use std::test::Fail;
use tree_nodes::Tree;

/// The nodes of a tree in preorder: kind, name, first and last line.
fn shown(alloc: Global, tree: &Tree) -> Result<String, Fail> {
    let mut text = String::new(alloc);
    for n in 0..tree.count() {
        let id = NodeId(n);
        if n > 0 {
            text.push(' ')?;
        }
        text.push_str(format!(in alloc; "{:?}", tree.kind(id))?.as_str())?;
        if let Some(name) = tree.name(id) {
            text.push_str(format!(in alloc; ":{name}")?.as_str())?;
        }
        text.push_str(format!(in alloc; "@{}-{}", tree.pos(id).line, tree.end_line(id))?.as_str())?;
    }
    Ok(text)
}

/// What a source comes to.
fn answer(alloc: Global, source: &str) -> Result<String, Fail> {
    if source.len() > 1000 {
        return Err("a row is too long")?;
    }
    let Ok(tokens) = tokenize(alloc, source.as_bytes()) else {
        return Err("a row has no tokens")?;
    };
    match parse(alloc, &tokens) {
        Ok(tree) => shown(alloc, &tree),
        Err(SyntaxFault::At { line, cause }) => Ok(format!(in alloc; "{line} {cause:?}")?),
        Err(SyntaxFault::Memory) => Err("memory ran out")?,
    }
}

fn all_answered(rt: &impl Abort, alloc: Global, rows: &[(&str, &str)]) -> Result<(), Fail> {
    for (source, expected) in rows {
        let given = answer(alloc, source)?;
        assert_eq!(rt; given.as_str(), *expected, "{source}");
    }
    Ok(())
}

#[test]
fn a_source_is_one_tree(rt: HostRuntime) -> Result<(), Fail> {
    let rows = [
        ("", "Module@1-1"),
        ("\n# c\n\npass\n", "Module@1-4 Pass@4-4"),
        (
            "\"doc\"\nx\n",
            "Module@1-2 Docstring:\"doc\"@1-1 ExpressionStatement@2-2 Name:x@2-2",
        ),
        (
            "b\"doc\"\n",
            "Module@1-1 ExpressionStatement@1-1 BytesLiteral:b\"doc\"@1-1",
        ),
        (
            "def f():\n    \"doc\"\n",
            "Module@1-2 FunctionDef:f@1-2 Docstring:\"doc\"@2-2",
        ),
        (
            "class C: \"doc\"; pass\n",
            "Module@1-1 ClassDef:C@1-1 Docstring:\"doc\"@1-1 Pass@1-1",
        ),
        (
            "async def ｆ(): pass\n",
            "Module@1-1 AsyncFunctionDef:f@1-1 Pass@1-1",
        ),
        (
            "@d\ndef f():\n    pass\nx\n",
            "Module@1-4 FunctionDef:f@2-3 Decorator@1-1 Name:d@1-1 Pass@3-3 ExpressionStatement@4-4 Name:x@4-4",
        ),
        (
            "if x:\n    pass\nelif y: pass\nelse:\n    pass\n",
            "Module@1-5 If@1-5 Name:x@1-1 Pass@2-2 Elif@3-3 Name:y@3-3 Pass@3-3 Else@4-5 Pass@5-5",
        ),
        (
            "try:\n    pass\nexcept E as e:\n    pass\nfinally: pass\n",
            "Module@1-5 Try@1-5 Pass@2-2 ExceptHandler@3-4 Name:E@3-3 AsName:e@3-3 Pass@4-4 Finally@5-5 Pass@5-5",
        ),
    ];
    all_answered(&rt, rt.alloc(), &rows)
}

#[test]
fn the_first_line_at_fault_is_answered(rt: HostRuntime) -> Result<(), Fail> {
    let rows = [
        ("else:\n    pass\n", "1 Follows"),
        ("if X:\nY = 1\n", "2 NeedsBlock"),
        ("X = 1\n    Y = 2\n", "2 Unexpected"),
        ("if X:\n", "1 NeedsBlock"),
        ("@d\n", "1 Follows"),
        ("try:\n    pass\n", "1 Follows"),
        ("x = = 1\n", "1 Line(NoForm)"),
        ("\n\ny\nx = (1,\n2) +\n", "4 Line(NoForm)"),
        ("x = f\"{\"\n", "1 Line(Field(Unclosed))"),
        ("else:\n    pass\nx = = 1\n", "1 Follows"),
        ("if X:\nx = = 1\n", "2 Line(NoForm)"),
        ("try:\n    pass\nx = = 1\n", "3 Line(NoForm)"),
        ("x = = 1\nelse:\n    pass\n", "1 Line(NoForm)"),
        (
            "match x:\n    case 1:\n        pass\n    y\n",
            "4 NeedsBlock",
        ),
    ];
    all_answered(&rt, rt.alloc(), &rows)
}
