// Rows of lines with what they are read as: the kind of line, the trees of its header, and those of its statements.
ghost use Rattle.std.specs.Prelude.{◌<◌, length};

use py_token::tokenize;
use read_lines::{LineFault, LineForm, read_line};
use std::alloc::Global;
use std::process::Abort;
use std::test::Fail;
use tree_nodes::TreeBuilder;

/// A tree as its kind, its name, and its kids in brackets.
fn show(alloc: Global, builder: &TreeBuilder, row: u32, text: &mut String) -> Result<(), Fail>
    requires { row < length builder.now }
{
    let kind = builder.kind(row);
    text.push_str(format!(in alloc; "{kind:?}")?.as_str())?;
    if let Some(name) = builder.name(row) {
        text.push(' ')?;
        text.push_str(name)?;
    }
    let kids = builder.kids(row);
    if kids.is_empty() {
        return Ok(());
    }
    text.push('(')?;
    let mut is_first = true;
    for kid in kids {
        if !is_first {
            text.push_str(", ")?;
        }
        is_first = false;
        show(alloc, builder, *kid, text)?;
    }
    text.push(')')?;
    Ok(())
}

/// Trees, each behind a bar.
fn show_all(
    alloc: Global,
    builder: &TreeBuilder,
    rows: &[u32],
    text: &mut String,
) -> Result<(), Fail> {
    for row in rows {
        if (*row as usize) < builder.rows() {
            text.push_str(" | ")?;
            show(alloc, builder, *row, text)?;
        } else {
            return Err("a number is that of no row")?;
        }
    }
    Ok(())
}

fn show_form(alloc: Global, builder: &TreeBuilder, form: &LineForm) -> Result<String, Fail> {
    let head = form.head;
    let mut text = format!(in alloc; "{head:?}")?;
    show_all(alloc, builder, form.nodes.as_slice(), &mut text)?;
    if !form.body.is_empty() {
        text.push_str(" :")?;
    }
    show_all(alloc, builder, form.body.as_slice(), &mut text)?;
    Ok(text)
}

/// What the first line of a source is read as, behind some rows.
fn read_first(
    alloc: Global,
    source: &str,
    builder: &mut TreeBuilder,
) -> Result<Result<LineForm, LineFault>, Fail> {
    if source.len() > 100000 {
        return Err("a row is too long")?;
    }
    let Ok(tokens) = tokenize(alloc, source.as_bytes()) else {
        return Err("a row has no tokens")?;
    };
    if tokens.lines().is_empty() {
        return Err("a row has no line")?;
    }
    Ok(read_line(alloc, &tokens, 0, builder))
}

/// The first line of a source as text: its form, or the fault.
fn shown(alloc: Global, source: &str) -> Result<String, Fail> {
    let mut builder = TreeBuilder::new(alloc);
    match read_first(alloc, source, &mut builder)? {
        Ok(form) => show_form(alloc, &builder, &form),
        Err(fault) => Ok(format!(in alloc; "{fault:?}")?),
    }
}

fn all_shown(rt: &impl Abort, alloc: Global, rows: &[(&str, &str)]) -> Result<(), Fail> {
    for (source, expected) in rows {
        let given = shown(alloc, source)?;
        assert_eq!(rt; given.as_str(), *expected, "{source}");
    }
    Ok(())
}

#[test]
fn statements_are_read(rt: HostRuntime) -> Result<(), Fail> {
    let rows = [
        (
            "x = f(a) + 1\n",
            "Simple : | Assign(NameTarget x, Sum(Call(Name f, Name a), Add, NumberLiteral 1))",
        ),
        ("pass; break\n", "Simple : | Pass | Break"),
        (
            "a, *b = c[1:2, ...]\n",
            "Simple : | Assign(TupleTarget(NameTarget a, StarredTarget(NameTarget b)), Subscript(Name c, Slices(Slice(NumberLiteral 1, SliceColon, NumberLiteral 2), EllipsisLiteral)))",
        ),
        (
            "x.y += not a in b\n",
            "Simple : | AugAssign(AttributeTarget y(Name x), Add, Not(Comparison(Name a, In, Name b)))",
        ),
        (
            "match = case\n",
            "Simple : | Assign(NameTarget match, Name case)",
        ),
        (
            "match(_)\n",
            "Simple : | ExpressionStatement(Call(Name match, Name _))",
        ),
        (
            "case [a]\n",
            "Simple : | ExpressionStatement(Subscript(Name case, Name a))",
        ),
        (
            "f\"a{b!r:>{w}}c\"\n",
            "Simple : | ExpressionStatement(FString f\"a{b!r:>{w}}c\"(Field(Name b, Field(Name w))))",
        ),
        (
            "from ..a import b as c\n",
            "Simple : | ImportFrom ..a(Alias b(AsName c))",
        ),
    ];
    all_shown(&rt, rt.alloc(), &rows)
}

#[test]
fn headers_are_read(rt: HostRuntime) -> Result<(), Fail> {
    let rows = [
        (
            "@a.b(1)\n",
            "Decorator | Decorator(Call(Attribute b(Name a), NumberLiteral 1))",
        ),
        (
            "if a := 1: pass\n",
            "If | NamedExpression a(NumberLiteral 1) : | Pass",
        ),
        ("while x:\n  pass\n", "While | Name x"),
        (
            "for a, in b:\n  pass\n",
            "For | TupleTarget(NameTarget a) | Name b",
        ),
        (
            "async def f(a, /, *, b: int = 1, **c) -> d: return\n",
            "AsyncFunctionDef | Parameter a | PositionalOnlyMark | KeywordOnlyMark | KeywordOnlyParameter b(Annotation(Name int), NumberLiteral 1) | DoubleStarParameter c | Annotation(Name d) : | Return",
        ),
        ("match x, y:\n  pass\n", "Match | Tuple(Name x, Name y)"),
        (
            "with (a as b, c): pass\n",
            "With | WithItem(Name a, NameTarget b) | WithItem(Name c) : | Pass",
        ),
        (
            "with (a), b: pass\n",
            "With | WithItem(Name a) | WithItem(Name b) : | Pass",
        ),
        (
            "class C(B, m=1): x\n",
            "ClassDef | Name B | KeywordArgument m(NumberLiteral 1) : | ExpressionStatement(Name x)",
        ),
        (
            "case [a, *_] if b: pass\n",
            "Case | MatchSequence(MatchCapture a, MatchStarWildcard) | Name b : | Pass",
        ),
    ];
    all_shown(&rt, rt.alloc(), &rows)
}

#[test]
fn clauses_are_read(rt: HostRuntime) -> Result<(), Fail> {
    let rows = [
        ("elif x: pass\n", "Elif | Name x : | Pass"),
        ("else: pass\n", "Else : | Pass"),
        ("else:\n  pass\n", "Else"),
        (
            "async for a in b: pass\n",
            "AsyncFor | NameTarget a | Name b : | Pass",
        ),
        ("try: pass\n", "Try : | Pass"),
        ("except: pass\n", "Except : | Pass"),
        (
            "except E as e: pass\n",
            "Except | Name E | AsName e : | Pass",
        ),
        ("except* E: pass\n", "ExceptStar | Name E : | Pass"),
        ("finally: pass\n", "Finally : | Pass"),
        (
            "async with a: pass\n",
            "AsyncWith | WithItem(Name a) : | Pass",
        ),
        ("def f(): pass\n", "FunctionDef : | Pass"),
    ];
    all_shown(&rt, rt.alloc(), &rows)
}

#[test]
fn lines_without_a_form_are_refused(rt: HostRuntime) -> Result<(), Fail> {
    let rows = [
        ("x = = 1\n", "NoForm"),
        ("f(a=1, 2)\n", "NoForm"),
        ("except*: pass\n", "NoForm"),
        ("async x\n", "NoForm"),
        ("match x: pass\n", "NoForm"),
        ("@x y\n", "NoForm"),
        ("from a import (*)\n", "NoForm"),
        ("del f()\n", "NoForm"),
        ("a, b += 1\n", "NoForm"),
        ("with a as f(): pass\n", "NoForm"),
        ("case [*a, *b]: pass\n", "NoForm"),
        ("if x\n", "NoForm"),
        ("x + 1 = y\n", "NoForm"),
        ("def f(a=1, b): pass\n", "NoForm"),
        ("f\"{a b}\"\n", "NoForm"),
        ("f\"{a ?}\"\n", "NoForm"),
        ("f\"{a!x}\"\n", "Field(BadConversion)"),
        ("x = = f\"{}\"\n", "Field(EmptyField)"),
    ];
    all_shown(&rt, rt.alloc(), &rows)
}

/// So many times one text, then another, then so many times a third.
fn nested(
    alloc: Global,
    times: usize,
    front: &str,
    middle: &str,
    back: &str,
) -> Result<String, Fail> {
    let mut text = String::new(alloc);
    for _ in 0..times {
        text.push_str(front)?;
    }
    text.push_str(middle)?;
    for _ in 0..times {
        text.push_str(back)?;
    }
    text.push_str("\n")?;
    Ok(text)
}

/// Whether the first line of a source has a form; other answers are failures.
fn has_form(alloc: Global, source: &str) -> Result<bool, Fail> {
    let mut builder = TreeBuilder::new(alloc);
    match read_first(alloc, source, &mut builder)? {
        Ok(_) => Ok(true),
        Err(LineFault::NoForm) => Ok(false),
        Err(_) => Err("a row is refused for another cause")?,
    }
}

#[test]
fn nesting_ends_at_200(rt: HostRuntime) -> Result<(), Fail> {
    let alloc = rt.alloc();
    // Brackets around one expression do not count; the name within counts 1, and so does each other layer.
    let rows = [
        (198, "not ", "x", "", true),
        (199, "not ", "x", "", true),
        (200, "not ", "x", "", false),
        (199, "-", "x", "", true),
        (200, "-", "x", "", false),
        (199, "(", "x", ")", true),
        (200, "(", "x", ")", true),
        (199, "[", "x", "]", true),
        (200, "[", "x", "]", false),
        (199, "not (", "x", ")", true),
        (200, "not (", "x", ")", false),
        (199, "", "x", ".y", true),
        (200, "", "x", ".y", false),
        (199, "2**", "x", "", true),
        (200, "2**", "x", "", false),
        (199, "lambda: ", "x", "", true),
        (200, "lambda: ", "x", "", false),
        (199, "x if y else ", "z", "", true),
        (200, "x if y else ", "z", "", false),
    ];
    for (times, front, middle, back, expected) in rows {
        let source = nested(alloc, times, front, middle, back)?;
        let given = has_form(alloc, source.as_str())?;
        assert_eq!(rt; given, expected, "{front} {times}");
    }
    Ok(())
}

#[test]
fn long_rows_have_a_form(rt: HostRuntime) -> Result<(), Fail> {
    let alloc = rt.alloc();
    let rows = [
        (9999, " + x"),
        (999, " and x"),
        (999, " < x"),
        (999, ", x"),
        (999, "; x"),
    ];
    for (times, back) in rows {
        let source = nested(alloc, times, "", "x", back)?;
        let given = has_form(alloc, source.as_str())?;
        assert!(rt; given, "{back}");
    }
    Ok(())
}
