use lint_values::Pos;
use py_token::{TokenCause, TokenFault, TokenKind, tokenize, tokenize_field};
use std::alloc::Global;
use std::process::Abort;
use std::test::Fail;

/// The source is refused for this cause at this line and column.
fn is_refused(
    rt: &impl Abort,
    alloc: Global,
    source: &str,
    line: u32,
    col: u32,
    cause: TokenCause,
) {
    assert!(rt; source.len() < 1000);
    match tokenize(alloc, source.as_bytes()) {
        Err(TokenFault::At(pos, found)) => {
            assert_eq!(rt; found, cause, "{source}");
            assert_eq!(rt; pos, Pos { line, col }, "{source}");
        }
        _ => assert!(rt; false, "{source}"),
    }
}

#[test]
fn the_first_fault_is_answered(rt: HostRuntime) -> Result<(), Fail> {
    let rows = [
        ("x = \"abc\n", 1, 4, TokenCause::OpenString),
        (")\n", 1, 0, TokenCause::CloseBracket),
        ("x = 1_\n", 1, 4, TokenCause::BadNumber),
        ("x = (\n", 1, 4, TokenCause::OpenBracket),
        ("x = (\n'''", 2, 0, TokenCause::OpenString),
        ("x\n    y\n  ?\n", 3, 0, TokenCause::Dedent),
        ("x\n\ty\n        z\n", 3, 0, TokenCause::TabMix),
        ("x = \\ \n", 1, 4, TokenCause::Continuation),
        ("x = '\u{e9}' ?\r\n", 1, 9, TokenCause::BadChar),
        ("\u{feff}x = b'\u{e9}'\n", 1, 6, TokenCause::BadChar),
        ("x\u{0}\n?", 1, 1, TokenCause::NulByte),
        ("#\n# coding: latin-1\n'\u{e9}'?", 2, 0, TokenCause::Coding),
    ];
    for (source, line, col, cause) in rows {
        is_refused(&rt, rt.alloc(), source, line, col, cause);
    }
    Ok(())
}

/// The source has these numbers of tokens, logical lines, comments and physical lines.
fn is_read(
    rt: &impl Abort,
    alloc: Global,
    source: &str,
    tokens: usize,
    lines: usize,
    comments: usize,
    physical: usize,
) {
    assert!(rt; source.len() < 1000);
    match tokenize(alloc, source.as_bytes()) {
        Ok(read) => {
            assert_eq!(rt; read.count(), tokens, "{source}");
            assert_eq!(rt; read.lines().len(), lines, "{source}");
            assert_eq!(rt; read.comments().len(), comments, "{source}");
            assert_eq!(rt; read.physical().len(), physical, "{source}");
        }
        Err(_) => assert!(rt; false, "{source}"),
    }
}

#[test]
fn a_source_is_read(rt: HostRuntime) -> Result<(), Fail> {
    let rows = [
        ("", 0, 0, 0, 0),
        ("if x:\n    y = (1,  # one\n  2)\n# end", 10, 2, 2, 4),
        ("\u{feff}x\\\r\n  + f'{y}'\r\n", 3, 1, 0, 2),
    ];
    for (source, tokens, lines, comments, physical) in rows {
        is_read(&rt, rt.alloc(), source, tokens, lines, comments, physical);
    }
    Ok(())
}

#[test]
fn a_token_is_a_slice_of_the_source(rt: HostRuntime) -> Result<(), Fail> {
    match tokenize(rt.alloc(), b"x = 'ab'  # c\n") {
        Ok(read) => {
            assert!(rt; read.count() == 3);
            assert_eq!(rt; read.text(2), "'ab'");
            assert_eq!(rt; read.token(2).kind, TokenKind::Str);
            assert_eq!(rt; read.token(2).pos, Pos { line: 1, col: 4 });
            assert!(rt; read.comments().len() == 1);
            assert!(rt; !read.comments()[0].alone);
        }
        Err(_) => assert!(rt; false),
    }
    Ok(())
}

/// The first token of the source is a name with this normal form.
fn begins_with_name(rt: &impl Abort, alloc: Global, source: &str, form: &str) {
    assert!(rt; source.len() < 1000);
    match tokenize(alloc, source.as_bytes()) {
        Ok(read) => {
            assert!(rt; read.count() > 0);
            let token = read.token(0);
            match token.kind {
                TokenKind::Name => assert_eq!(rt; read.name(0), form, "{source}"),
                _ => assert!(rt; false, "{source}"),
            }
        }
        Err(_) => assert!(rt; false, "{source}"),
    }
}

#[test]
fn names_have_their_normal_forms(rt: HostRuntime) -> Result<(), Fail> {
    let rows = [
        ("match = 1\n", "match"),
        ("\u{210c} = 1\n", "H"),
        ("e\u{301}t = 1\n", "\u{e9}t"),
        ("\u{fb01}n(1)\n", "fin"),
        ("\u{ff49}\u{ff46} = 1\n", "if"),
    ];
    for (source, form) in rows {
        begins_with_name(&rt, rt.alloc(), source, form);
    }
    Ok(())
}

/// The text of a field that begins at 3:7 has so many tokens, of which the last one stands here.
fn is_field(rt: &impl Abort, alloc: Global, text: &str, tokens: usize, line: u32, col: u32) {
    assert!(rt; text.len() < 1000);
    match tokenize_field(alloc, text, Pos { line: 3, col: 7 }) {
        Ok(read) => {
            assert_eq!(rt; read.count(), tokens, "{text}");
            assert!(rt; read.count() > 0);
            assert_eq!(rt;
                read.token(read.count() - 1).pos,
                Pos { line, col },
                "{text}"
            );
            assert_eq!(rt; read.lines().len(), 1, "{text}");
        }
        Err(_) => assert!(rt; false, "{text}"),
    }
}

/// The text of a field that begins at 3:7 is refused for this cause at this place.
fn is_refused_field(
    rt: &impl Abort,
    alloc: Global,
    text: &str,
    line: u32,
    col: u32,
    cause: TokenCause,
) {
    assert!(rt; text.len() < 1000);
    match tokenize_field(alloc, text, Pos { line: 3, col: 7 }) {
        Err(TokenFault::At(pos, found)) => {
            assert_eq!(rt; found, cause, "{text}");
            assert_eq!(rt; pos, Pos { line, col }, "{text}");
        }
        _ => assert!(rt; false, "{text}"),
    }
}

#[test]
fn a_field_is_read_as_inside_brackets(rt: HostRuntime) -> Result<(), Fail> {
    let rows = [
        ("a", 1, 3, 7),
        ("  a + b", 3, 3, 13),
        ("a\n  +\n\tb", 3, 5, 1),
        ("\n a[1:2]\n", 6, 4, 6),
        ("'\u{e9}' * w", 3, 3, 14),
    ];
    for (text, tokens, line, col) in rows {
        is_field(&rt, rt.alloc(), text, tokens, line, col);
    }
    let refused = [
        ("a ? b", 3, 9, TokenCause::BadChar),
        ("(a]", 3, 9, TokenCause::CloseBracket),
        ("a\n  (b", 4, 2, TokenCause::OpenBracket),
        ("1_x", 3, 7, TokenCause::BadNumber),
    ];
    for (text, line, col, cause) in refused {
        is_refused_field(&rt, rt.alloc(), text, line, col, cause);
    }
    Ok(())
}
