// Rows of literals, each with its pieces or its first fault. Where Python 3.11 accepts the f-string, its own tree has the
// same literal texts, expressions, conversions and formats; where it refuses the literal, it does so for this fault, or
// for one that it finds earlier in an expression.
use fstr_parse::{FieldFault, Piece, Pieces, pieces};
use std::alloc::Global;
use std::process::Abort;
use std::test::Fail;

// A literal part as `0..1`, a field as `{2..3!r}`, each with a `'` for each format around it.
fn shown_piece(alloc: Global, piece: &Piece) -> Result<String, Fail> {
    let mut text = String::new(alloc);
    if piece.field {
        text.push('{')?;
    }
    text.push_str(format!(in alloc; "{}..{}", piece.start, piece.end)?.as_str())?;
    if piece.convert != 0 {
        text.push('!')?;
        text.push(char::from(piece.convert))?;
    }
    if piece.field {
        text.push('}')?;
    }
    for _ in 0..piece.depth {
        text.push('\'')?;
    }
    Ok(text)
}

// The pieces of a literal, one behind the other, or the name of the fault.
fn shown(alloc: Global, literal: &str, raw: bool) -> Result<String, Fail> {
    if literal.len() > 100 {
        return Err("a row is too long")?;
    }
    let given = match pieces(alloc, literal, raw) {
        Ok(given) => given,
        Err(fault) => return Ok(format!(in alloc; "{fault:?}")?),
    };
    let mut text = String::new(alloc);
    for piece in given.as_slice() {
        if !text.is_empty() {
            text.push(' ')?;
        }
        text.push_str(shown_piece(alloc, piece)?.as_str())?;
    }
    Ok(text)
}

fn all_shown(rt: &impl Abort, alloc: Global, rows: &[(&str, bool, &str)]) -> Result<(), Fail> {
    for (literal, raw, expected) in rows {
        let given = shown(alloc, literal, *raw)?;
        assert_eq!(rt; given.as_str(), *expected, "at {literal:?}");
    }
    Ok(())
}

#[test]
fn literals_are_cut_into_pieces(rt: HostRuntime) -> Result<(), Fail> {
    let rows = [
        ("a{b!r:>{w}}c", false, "0..1 {2..3!r} 6..7' {8..9}' 11..12"),
        ("\\N{DASH}", false, "0..8"),
        ("", false, ""),
        ("plain text", false, "0..10"),
        ("{{}}", false, "0..4"),
        ("{{{a}}}", false, "0..2 {3..4} 5..7"),
        ("{a}}}", false, "{1..2} 3..5"),
        ("{a}{b}", false, "{1..2} {4..5}"),
        ("{a==b}", false, "{1..5}"),
        ("{a<=b}", false, "{1..5}"),
        ("{a>=b!s}", false, "{1..5!s}"),
        ("{a!=b}", false, "{1..5}"),
        ("{x=}", false, "{1..2}"),
        ("{x = !r:>{w}}", false, "{1..3!r} 8..9' {10..11}'"),
        ("{x=:>8}", false, "{1..2} 4..6'"),
        ("{a=b}", false, "{1..4}"),
        ("{a:}", false, "{1..2}"),
        ("{a:{{b}}}", false, "{1..2} {4..7}'"),
        ("{a:{b}{c}}", false, "{1..2} {4..5}' {7..8}'"),
        ("{a:{b!r:.2f}}", false, "{1..2} {4..5!r}' 8..11''"),
        ("{d['k']}", false, "{1..7}"),
        ("{d[\"}\"]}", false, "{1..7}"),
        ("{'#'}", false, "{1..4}"),
        ("{'''it's }'''}", false, "{1..13}"),
        ("{''}", false, "{1..3}"),
        ("{(a]}", false, "{1..4}"),
        ("{a)}", false, "{1..3}"),
        ("{ {1: 2}[1]}", false, "{1..11}"),
        ("{f(a, b=c)}", false, "{1..10}"),
        ("{a[1:2]}", false, "{1..7}"),
        ("{(lambda x: x)(1)}", false, "{1..17}"),
        ("{lambda x: x}", false, "{1..9} 10..12'"),
        ("{x:=5}", false, "{1..2} 3..5'"),
        ("{(x:=5)}", false, "{1..7}"),
        ("\\{x}", false, "0..1 {2..3}"),
        ("\\\\{x}", false, "0..2 {3..4}"),
        ("\\\\N{x}", false, "0..3 {4..5}"),
        ("a\\", false, "0..2"),
        ("\\N{DASH", false, "0..7"),
        ("\\N{EM DASH}{x}", false, "0..11 {12..13}"),
        ("{a:\\N{EM DASH}}", false, "{1..2} 3..14'"),
        ("{a!=b!r}", false, "{1..5!r}"),
        ("{a\n=\n}", false, "{1..3}"),
        ("{x:\n{y}}", false, "{1..2} 3..4' {5..6}'"),
        ("{[x for x in y]}", false, "{1..15}"),
        (
            "{a:>{b}<{c}}{d!a}",
            false,
            "{1..2} 3..4' {5..6}' 7..8' {9..10}' {13..14!a}",
        ),
        ("{'{'}", false, "{1..4}"),
        ("{a:#x}", false, "{1..2} 3..5'"),
        ("a\\{{b\\}}", false, "0..8"),
        ("{(a:=b)=}", false, "{1..7}"),
        ("{a['#']}", false, "{1..7}"),
        ("é{ü}ß", false, "0..2 {3..5} 6..8"),
        (
            "{x!r:^{width}.{precision}}{y}",
            false,
            "{1..2!r} 5..6' {7..12}' 13..14' {15..24}' {27..28}",
        ),
        ("{ a }", false, "{1..4}"),
        ("{a:\\{b}}", false, "{1..2} 3..4' {5..6}'"),
        ("{a!=:b}", false, "{1..3} 5..6'"),
        ("{a = }", false, "{1..3}"),
        ("{a=!=b}", false, "{1..6}"),
        ("{''''a'''}", false, "{1..9}"),
        ("{f'{x}'}", false, "{1..7}"),
        ("\\N{DASH}", true, "0..2 {3..7}"),
        ("\\N{{x}}", true, "0..7"),
        ("\\{{x}}", true, "0..6"),
        ("\\N{ x }", true, "0..2 {3..6}"),
    ];
    all_shown(&rt, rt.alloc(), &rows)
}

#[test]
fn the_first_fault_is_told(rt: HostRuntime) -> Result<(), Fail> {
    let rows = [
        ("{", false, "Unclosed"),
        ("}", false, "LoneBrace"),
        ("{}", false, "EmptyField"),
        ("{a!x}", false, "BadConversion"),
        ("{a:{b:{c}}}", false, "TooNested"),
        ("}}}", false, "LoneBrace"),
        ("{=}", false, "EmptyField"),
        ("{ }", false, "EmptyField"),
        ("{ \n\t}", false, "EmptyField"),
        ("{a!r }", false, "BadConversion"),
        ("{a! r}", false, "BadConversion"),
        ("{a!}", false, "BadConversion"),
        ("{a!", false, "Unclosed"),
        ("{a!r", false, "Unclosed"),
        ("{a=", false, "Unclosed"),
        ("{a:", false, "Unclosed"),
        ("{a:}}", false, "LoneBrace"),
        ("{a#b}", false, "Comment"),
        ("{(a#b)}", false, "Comment"),
        ("{'a\\n'}", false, "Backslash"),
        ("{a\\b}", false, "Backslash"),
        ("{'a}", false, "Unclosed"),
        ("{'a\\", false, "Backslash"),
        ("{(a}", false, "Unclosed"),
        ("{{1: 2}[1]}", false, "LoneBrace"),
        ("{a!ss}", false, "BadConversion"),
        ("{(}", false, "Unclosed"),
        ("{#", false, "Comment"),
        ("{a!r:{b:{c", false, "TooNested"),
        ("{a:}b}", false, "LoneBrace"),
        ("{a#\\}", false, "Comment"),
        ("{a\\#}", false, "Backslash"),
        ("{ !x}", false, "EmptyField"),
        ("{a!x#}", false, "BadConversion"),
        ("{}{", false, "EmptyField"),
        ("{a:{b:{}}}", false, "TooNested"),
        ("}{", false, "LoneBrace"),
        ("{a!é}", false, "BadConversion"),
        ("{a:{b!x}}", false, "BadConversion"),
        ("{a:{}}", false, "EmptyField"),
        ("{x!r:{y", false, "Unclosed"),
    ];
    all_shown(&rt, rt.alloc(), &rows)
}

#[test]
fn what_is_taken_over_is_given_back(rt: HostRuntime) -> Result<(), Fail> {
    let alloc = rt.alloc();
    let piece = Piece {
        field: true,
        start: 1,
        end: 2,
        depth: 0,
        convert: b'r',
    };
    let mut made = Pieces::new(alloc);
    made.push(piece)?;
    let made = Pieces::from_vec(made.into_vec());
    assert_eq!(rt; made.as_slice(), [piece].as_slice());
    assert_eq!(rt; pieces(alloc, "{x!r}", false).is_ok(), true);
    assert_eq!(rt; FieldFault::from(lint_values::Memory), FieldFault::Memory);
    Ok(())
}

// What may be lent to a thread and handed to one.
fn crosses_threads<T: Send + Sync>(_value: &T) {}

#[test]
fn pieces_cross_threads(rt: HostRuntime) -> Result<(), Fail> {
    crosses_threads(&Pieces::new(rt.alloc()));
    crosses_threads(&FieldFault::Memory);
    Ok(())
}
