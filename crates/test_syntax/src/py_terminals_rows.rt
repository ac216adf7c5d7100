// Rows of lines with their terminals, each with its place; places are those that Python's own tokens and trees have, where
// it has them.
use fstr_parse::FieldFault;
use lint_values::{Memory, Pos};
use py_grammar::Symbol;
use py_line::Line;
use py_terminals::{LineFault, depth, terminals};
use py_token::tokenize;
use std::alloc::Global;
use std::process::Abort;
use std::test::Fail;

/// The terminals of the first line of a source.
fn first_line(alloc: Global, source: &str) -> Result<Line, Fail> {
    if source.len() > 1000 {
        return Err("a row is too long")?;
    }
    let Ok(tokens) = tokenize(alloc, source.as_bytes()) else {
        return Err("a row has no tokens")?;
    };
    if tokens.lines().is_empty() {
        return Err("a row has no line")?;
    }
    match terminals(alloc, &tokens, 0) {
        Ok(line) => Ok(line),
        Err(_) => Err("a row has no terminals")?,
    }
}

/// The terminals of the first line of a source, each as its symbol and its place.
fn shown(alloc: Global, source: &str) -> Result<String, Fail> {
    let line = first_line(alloc, source)?;
    let mut text = String::new(alloc);
    for i in 0..line.len() {
        if i > 0 {
            text.push(' ')?;
        }
        let symbol = line.symbol(i);
        let pos = line.pos(i);
        text.push_str(format!(in alloc; "{symbol:?}@{}:{}", pos.line, pos.col)?.as_str())?;
    }
    Ok(text)
}

fn all_shown(rt: &impl Abort, alloc: Global, rows: &[(&str, &str)]) -> Result<(), Fail> {
    for (source, expected) in rows {
        let given = shown(alloc, source)?;
        assert_eq!(rt; given.as_str(), *expected, "{source}");
    }
    Ok(())
}

#[test]
fn tokens_are_terminals(rt: HostRuntime) -> Result<(), Fail> {
    let rows = [
        (
            "x = not 1.5, None\n",
            "Name@1:0 Assign@1:2 NotWord@1:4 Number@1:8 Comma@1:11 NoneWord@1:13",
        ),
        (
            "match(_, case)\n",
            "MatchWord@1:0 LeftParen@1:5 Underscore@1:6 Comma@1:7 CaseWord@1:9 RightParen@1:13",
        ),
        (
            "a = 's' b't' Rb\"u\" u'v'\n",
            "Name@1:0 Assign@1:2 Str@1:4 Bytes@1:8 Bytes@1:13 Str@1:19",
        ),
        (
            "x **= (y //\n  ...)\nz\n",
            "Name@1:0 DoubleStarAssign@1:2 LeftParen@1:6 Name@1:7 DoubleSlash@1:9 Ellipsis@2:2 RightParen@2:5",
        ),
    ];
    all_shown(&rt, rt.alloc(), &rows)
}

#[test]
fn fields_stand_behind_their_string(rt: HostRuntime) -> Result<(), Fail> {
    let rows = [
        ("f''\n", "FStr@1:0 FStrEnd@1:0"),
        ("f'\\N{DASH}'\n", "FStr@1:0 FStrEnd@1:0"),
        (
            "rF'\\N{x}'\n",
            "FStr@1:0 FieldOpen@1:5 Name@1:6 FieldClose@1:7 FStrEnd@1:0",
        ),
        (
            "f\"{a}{ b }\"\n",
            "FStr@1:0 FieldOpen@1:2 Name@1:3 FieldClose@1:4 FieldOpen@1:5 Name@1:7 FieldClose@1:9 FStrEnd@1:0",
        ),
        (
            "x = f\"a{b!r:>{w}}c\"\n",
            "Name@1:0 Assign@1:2 FStr@1:4 FieldOpen@1:7 Name@1:8 FieldOpen@1:13 Name@1:14 FieldClose@1:15 FieldClose@1:9 FStrEnd@1:4",
        ),
        (
            "f\"{a:{b}{c}}\"\n",
            "FStr@1:0 FieldOpen@1:2 Name@1:3 FieldOpen@1:5 Name@1:6 FieldClose@1:7 FieldOpen@1:8 Name@1:9 FieldClose@1:10 FieldClose@1:4 FStrEnd@1:0",
        ),
        (
            "f\"{f'{y}'}z\" 'w'\n",
            "FStr@1:0 FieldOpen@1:2 FStr@1:3 FieldOpen@1:5 Name@1:6 FieldClose@1:7 FStrEnd@1:3 FieldClose@1:9 FStrEnd@1:0 Str@1:13",
        ),
        (
            "x = f'''a\n {\n b +\n c}'''\n",
            "Name@1:0 Assign@1:2 FStr@1:4 FieldOpen@2:1 Name@3:1 Plus@3:3 Name@4:1 FieldClose@4:2 FStrEnd@1:4",
        ),
        (
            "f\"{a ?}{b}\"\n",
            "FStr@1:0 FieldOpen@1:2 BadField@1:3 FieldClose@1:6 FieldOpen@1:7 Name@1:8 FieldClose@1:9 FStrEnd@1:0",
        ),
        (
            "f\"{(a]}\"\n",
            "FStr@1:0 FieldOpen@1:2 BadField@1:3 FieldClose@1:6 FStrEnd@1:0",
        ),
    ];
    all_shown(&rt, rt.alloc(), &rows)
}

/// The first line of a source has a string whose pieces are refused for this cause, before any other.
fn is_refused(rt: &impl Abort, alloc: Global, source: &str, cause: FieldFault) {
    assert!(rt; source.len() < 1000);
    match tokenize(alloc, source.as_bytes()) {
        Ok(tokens) => {
            assert!(rt; !tokens.lines().is_empty(), "{source}");
            match terminals(alloc, &tokens, 0) {
                Err(LineFault::Field(found)) => assert_eq!(rt; found, cause, "{source}"),
                _ => assert!(rt; false, "{source}"),
            }
        }
        Err(_) => assert!(rt; false, "{source}"),
    }
}

#[test]
fn the_first_string_is_at_fault(rt: HostRuntime) -> Result<(), Fail> {
    let rows = [
        ("f'{}'\n", FieldFault::EmptyField),
        ("f'{a ?}{}'\n", FieldFault::EmptyField),
        ("f'}' f'{}'\n", FieldFault::LoneBrace),
        ("f'{a ?}' f'}'\n", FieldFault::LoneBrace),
        ("f\"{f'{}'}\" f'}'\n", FieldFault::EmptyField),
        ("f\"{f'}'}{b!x}\"\n", FieldFault::BadConversion),
        ("f\"{x:{f'}'}}\"\n", FieldFault::LoneBrace),
        ("(f'{a#}')\n", FieldFault::Comment),
    ];
    for (source, cause) in rows {
        is_refused(&rt, rt.alloc(), source, cause);
    }
    assert_eq!(rt; LineFault::from(Memory), LineFault::Memory);
    Ok(())
}

#[test]
fn terminals_have_their_texts_and_last_lines(rt: HostRuntime) -> Result<(), Fail> {
    let line = first_line(rt.alloc(), "\u{210c} = f'''{x}\r\n\n''' + 'y'\n")?;
    assert!(rt; line.len() == 9);
    assert_eq!(rt; line.text(0), "H");
    assert_eq!(rt; line.symbol(2), Symbol::FStr);
    assert_eq!(rt; line.text(2), "f'''{x}\r\n\n'''");
    assert_eq!(rt; line.end_line(2), 3);
    assert_eq!(rt; line.end_line(4), 1);
    assert_eq!(rt; line.end_line(6), 3);
    assert_eq!(rt; line.pos(8), Pos { line: 3, col: 6 });
    Ok(())
}

#[test]
fn brackets_and_fields_are_counted(rt: HostRuntime) -> Result<(), Fail> {
    let rows = [
        ("x\n", 0),
        ("f((x)[1])\n", 2),
        ("f\"{a:{b}}\"\n", 2),
        ("f\"{a[f'{b}']}\"\n", 3),
    ];
    for (source, expected) in rows {
        let line = first_line(rt.alloc(), source)?;
        assert_eq!(rt; depth(&line), expected, "{source}");
    }
    Ok(())
}
