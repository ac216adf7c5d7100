// Texts and their pieces. A piece is written as a letter for its kind and its length, a fault as its cause and its place.
use py_lexeme::{Cause, Kind, Stop, cut};
use std::alloc::Global;
use std::test::Fail;

fn letter(kind: Kind) -> char {
    match kind {
        Kind::Blank => 'b',
        Kind::LineEnd => 'l',
        Kind::Comment => 'c',
        Kind::Join => 'j',
        Kind::Name => 'n',
        Kind::Keyword => 'k',
        Kind::Number => 'd',
        Kind::Str => 's',
        Kind::FStr => 'f',
        Kind::Op => 'o',
    }
}

fn word(cause: Cause) -> &'static str {
    match cause {
        Cause::BadChar => "BadChar",
        Cause::OpenString => "OpenString",
        Cause::BadNumber => "BadNumber",
        Cause::Continuation => "Continuation",
    }
}

/// The pieces of a text and its fault, in one line.
fn line(alloc: Global, text: &str) -> Result<String, Fail> {
    let cs: Vec<char> = text.chars().collect(alloc)?;
    let mut out = String::new(alloc);
    if cs.len() > 1000 {
        return Ok(out);
    }
    let cut = cut(alloc, cs.as_slice())?;
    for piece in &cut.pieces {
        let kind = letter(piece.kind);
        out.push_str(format!(in alloc; "{kind}{} ", piece.len)?.as_str())?;
    }
    if let Some(Stop { cause, place }) = cut.stop {
        out.push_str(format!(in alloc; "{} {place} ", word(cause))?.as_str())?;
    }
    Ok(out)
}

/// The first row whose text is not cut so.
fn first_other(
    alloc: Global,
    rows: &[(&'static str, &'static str)],
) -> Result<Option<&'static str>, Fail> {
    for (text, expected) in rows {
        let found = line(alloc, text)?;
        if found.as_str().trim() != *expected {
            return Ok(Some(*text));
        }
    }
    Ok(None)
}

const NAMES: [(&'static str, &'static str); 17] = [
    ("x", "n1"),
    ("_", "n1"),
    ("_x1", "n3"),
    ("spam_2", "n6"),
    ("é", "n1"),
    ("naïve", "n5"),
    ("Ünï", "n3"),
    ("变量", "n2"),
    ("имя2", "n4"),
    ("ﬁn", "n2"),
    ("𝐱", "n1"),
    ("x\u{301}y", "n3"),
    ("ｉｆ", "n2"),
    ("a·b", "n3"),
    ("match case", "n5 b1 n4"),
    ("print", "n5"),
    ("Ⅷ", "n1"),
];

#[test]
fn names(rt: HostRuntime) -> Result<(), Fail> {
    assert_eq!(rt; first_other(rt.alloc(), NAMES.as_slice())?, None);
    Ok(())
}

const KEYWORDS: [(&'static str, &'static str); 19] = [
    ("False None True", "k5 b1 k4 b1 k4"),
    ("and as assert", "k3 b1 k2 b1 k6"),
    ("async await break", "k5 b1 k5 b1 k5"),
    ("class continue def", "k5 b1 k8 b1 k3"),
    ("del elif else", "k3 b1 k4 b1 k4"),
    ("except finally for", "k6 b1 k7 b1 k3"),
    ("from global if", "k4 b1 k6 b1 k2"),
    ("import in is", "k6 b1 k2 b1 k2"),
    ("lambda nonlocal not", "k6 b1 k8 b1 k3"),
    ("or pass raise", "k2 b1 k4 b1 k5"),
    ("return try while", "k6 b1 k3 b1 k5"),
    ("with yield", "k4 b1 k5"),
    ("iff", "n3"),
    ("If", "n2"),
    ("false", "n5"),
    ("notin", "n5"),
    ("not in", "k3 b1 k2"),
    ("is_not", "n6"),
    ("else1", "n5"),
];

#[test]
fn keywords(rt: HostRuntime) -> Result<(), Fail> {
    assert_eq!(rt; first_other(rt.alloc(), KEYWORDS.as_slice())?, None);
    Ok(())
}

const NUMBERS: [(&'static str, &'static str); 41] = [
    ("0", "d1"),
    ("00", "d2"),
    ("0_0", "d3"),
    ("7", "d1"),
    ("1_000", "d5"),
    ("007.5", "d5"),
    ("007e1", "d5"),
    ("007j", "d4"),
    ("09.", "d3"),
    ("1.", "d2"),
    (".5", "d2"),
    ("1.5", "d3"),
    ("1e9", "d3"),
    ("1E+9", "d4"),
    ("1e-9", "d4"),
    ("1.e5", "d4"),
    (".5e5", "d4"),
    ("1_0.0_1e1_0j", "d12"),
    ("1J", "d2"),
    ("0x1F", "d4"),
    ("0X_f", "d4"),
    ("0xdead_BEEF", "d11"),
    ("0o17", "d4"),
    ("0O_7", "d4"),
    ("0b101", "d5"),
    ("0B_1", "d4"),
    ("1..real", "d2 o1 n4"),
    ("1 .real", "d1 b1 o1 n4"),
    ("1else 2", "d1 k4 b1 d1"),
    ("1if x", "d1 k2 b1 n1"),
    ("0xfor x", "d3 k2 b1 n1"),
    ("0x1for x", "d4 k2 b1 n1"),
    ("0b1and", "d3 k3"),
    ("1.or x", "d2 k2 b1 n1"),
    ("1jis", "d2 k2"),
    ("1e5in x", "d3 k2 b1 n1"),
    ("5not in", "d1 k3 b1 k2"),
    ("1.5.x", "d3 o1 n1"),
    ("1...x", "d2 o1 o1 n1"),
    ("1+1", "d1 o1 d1"),
    ("0 1", "d1 b1 d1"),
];

#[test]
fn numbers(rt: HostRuntime) -> Result<(), Fail> {
    assert_eq!(rt; first_other(rt.alloc(), NUMBERS.as_slice())?, None);
    Ok(())
}

const STRINGS: [(&'static str, &'static str); 40] = [
    ("''", "s2"),
    ("\"\"", "s2"),
    ("'a'", "s3"),
    ("\"a'b\"", "s5"),
    ("'a\\'b'", "s6"),
    ("'\\\\'", "s4"),
    ("'a\\\nb'", "s6"),
    ("'a\\\r\nb'", "s7"),
    ("'a\\\rb'", "s6"),
    ("''''''", "s6"),
    ("'''a'''", "s7"),
    ("\"\"\"a\"b\"\"c\"\"\"", "s12"),
    ("'''a\nb'''", "s9"),
    ("'''a\r\nb'''", "s10"),
    ("'''\\'''a'''", "s11"),
    ("R'\\n'", "s5"),
    ("u'a'", "s4"),
    ("U\"a\"", "s4"),
    ("b'a'", "s4"),
    ("B'''a'''", "s8"),
    ("br'\\d'", "s6"),
    ("Rb'\\d'", "s6"),
    ("bR'a'", "s5"),
    ("f'{x}'", "f6"),
    ("F'a'", "f4"),
    ("fr'a'", "f5"),
    ("rF'''{x}'''", "f11"),
    ("Fr\"a\"", "f5"),
    ("'é'", "s3"),
    ("f'é'", "f4"),
    ("'' ''", "s2 b1 s2"),
    ("'a''b'", "s3 s3"),
    ("x'a'", "n1 s3"),
    ("bb'a'", "n2 s3"),
    ("ub'a'", "n2 s3"),
    ("if'a'", "k2 s3"),
    ("br''''''", "s8"),
    ("'{'", "s3"),
    ("'#'", "s3"),
    ("'\x0c'", "s3"),
];

#[test]
fn strings(rt: HostRuntime) -> Result<(), Fail> {
    assert_eq!(rt; first_other(rt.alloc(), STRINGS.as_slice())?, None);
    Ok(())
}

const OPERATORS: [(&'static str, &'static str); 22] = [
    (
        "+ - * ** / // % @",
        "o1 b1 o1 b1 o1 b1 o2 b1 o1 b1 o2 b1 o1 b1 o1",
    ),
    ("<< >> & | ^ ~ :=", "o2 b1 o2 b1 o1 b1 o1 b1 o1 b1 o1 b1 o2"),
    ("< > <= >= == !=", "o1 b1 o1 b1 o2 b1 o2 b1 o2 b1 o2"),
    (
        "( ) [ ] { } , : . ;",
        "o1 b1 o1 b1 o1 b1 o1 b1 o1 b1 o1 b1 o1 b1 o1 b1 o1 b1 o1",
    ),
    (
        "= -> += -= *= /= //=",
        "o1 b1 o2 b1 o2 b1 o2 b1 o2 b1 o2 b1 o3",
    ),
    (
        "%= @= &= |= ^= >>= <<= **= ...",
        "o2 b1 o2 b1 o2 b1 o2 b1 o2 b1 o3 b1 o3 b1 o3 b1 o3",
    ),
    ("***", "o2 o1"),
    ("**=", "o3"),
    ("//=", "o3"),
    ("<<=", "o3"),
    (">>==", "o3 o1"),
    ("<>", "o1 o1"),
    ("->>", "o2 o1"),
    ("..", "o1 o1"),
    ("....", "o3 o1"),
    (":==", "o2 o1"),
    ("-->", "o1 o2"),
    ("!==", "o2 o1"),
    ("@@=", "o1 o2"),
    (".a", "o1 n1"),
    ("a.b", "n1 o1 n1"),
    ("~-x", "o1 o1 n1"),
];

#[test]
fn operators(rt: HostRuntime) -> Result<(), Fail> {
    assert_eq!(rt; first_other(rt.alloc(), OPERATORS.as_slice())?, None);
    Ok(())
}

const LINES_AND_BLANKS: [(&'static str, &'static str); 20] = [
    ("x\n", "n1 l1"),
    ("x\r\n", "n1 l2"),
    ("x\r", "n1 l1"),
    ("x\n\ny", "n1 l1 l1 n1"),
    ("x\r\r\ny", "n1 l1 l2 n1"),
    ("x\n\ry", "n1 l1 l1 n1"),
    (" \tx", "b2 n1"),
    ("\x0cx", "b1 n1"),
    ("# c", "c3"),
    ("#", "c1"),
    ("x # c\ny", "n1 b1 c3 l1 n1"),
    ("#é\r\n", "c2 l2"),
    ("# \\\nx", "c3 l1 n1"),
    ("x \\\ny", "n1 b1 j2 n1"),
    ("x\\\r\ny", "n1 j3 n1"),
    ("x\\\ry", "n1 j2 n1"),
    ("\\\n", "j2"),
    ("x = \\\n", "n1 b1 o1 b1 j2"),
    ("", ""),
    ("# c\r# d", "c3 l1 c3"),
];

#[test]
fn lines_and_blanks(rt: HostRuntime) -> Result<(), Fail> {
    assert_eq!(rt; first_other(rt.alloc(), LINES_AND_BLANKS.as_slice())?, None);
    Ok(())
}

const BAD_CHARACTERS: [(&'static str, &'static str); 20] = [
    ("$", "BadChar 0"),
    ("x $", "n1 b1 BadChar 2"),
    ("?", "BadChar 0"),
    ("x ! y", "n1 b1 BadChar 2"),
    ("!", "BadChar 0"),
    ("a!=b!", "n1 o2 n1 BadChar 4"),
    ("`a`", "BadChar 0"),
    ("é€", "n1 BadChar 1"),
    ("\u{a0}", "BadChar 0"),
    ("x\u{2028}", "n1 BadChar 1"),
    ("\x00", "BadChar 0"),
    ("1\u{301}", "d1 BadChar 1"),
    ("x\x0b", "n1 BadChar 1"),
    ("+·", "o1 BadChar 1"),
    ("b'é'", "BadChar 2"),
    ("b'aé€'", "BadChar 3"),
    ("x b'ab€'", "n1 b1 BadChar 6"),
    ("Rb'''\né'''", "BadChar 6"),
    ("b\"\\é\"", "BadChar 3"),
    ("b'a' b'é'", "s4 b1 BadChar 7"),
];

#[test]
fn bad_characters(rt: HostRuntime) -> Result<(), Fail> {
    assert_eq!(rt; first_other(rt.alloc(), BAD_CHARACTERS.as_slice())?, None);
    Ok(())
}

const OPEN_STRINGS: [(&'static str, &'static str); 23] = [
    ("'a", "OpenString 0"),
    ("\"a", "OpenString 0"),
    ("'a\nb'", "OpenString 0"),
    ("'a\rb'", "OpenString 0"),
    ("'a\r\nb'", "OpenString 0"),
    ("x = 'a", "n1 b1 o1 b1 OpenString 4"),
    ("'a\\", "OpenString 0"),
    ("'a\\'", "OpenString 0"),
    ("r'\\'", "OpenString 0"),
    ("'a\\\\\nb'", "OpenString 0"),
    ("'a\\\n\nb'", "OpenString 0"),
    ("'a\\\r\n\nb'", "OpenString 0"),
    ("'''a", "OpenString 0"),
    ("'''", "OpenString 0"),
    ("'''''", "OpenString 0"),
    ("'''a''", "OpenString 0"),
    ("\"\"\"a\\\"\"\"", "OpenString 0"),
    ("f'a", "OpenString 0"),
    ("x rb'a", "n1 b1 OpenString 2"),
    ("f'''{x}", "OpenString 0"),
    ("b'é", "OpenString 0"),
    ("br'a\né'", "OpenString 0"),
    ("xf'a", "n2 OpenString 2"),
];

#[test]
fn open_strings(rt: HostRuntime) -> Result<(), Fail> {
    assert_eq!(rt; first_other(rt.alloc(), OPEN_STRINGS.as_slice())?, None);
    Ok(())
}

const BAD_NUMBERS: [(&'static str, &'static str); 35] = [
    ("007", "BadNumber 0"),
    ("0_7", "BadNumber 0"),
    ("00_1", "BadNumber 0"),
    ("1_", "BadNumber 0"),
    ("1__0", "BadNumber 0"),
    ("1_a", "BadNumber 0"),
    ("1_if", "BadNumber 0"),
    ("1a", "BadNumber 0"),
    ("1ifx", "BadNumber 0"),
    ("1e", "BadNumber 0"),
    ("1e+", "BadNumber 0"),
    ("1.e", "BadNumber 0"),
    ("0x", "BadNumber 0"),
    ("0xg", "BadNumber 0"),
    ("0x_", "BadNumber 0"),
    ("0x__1", "BadNumber 0"),
    ("0o8", "BadNumber 0"),
    ("0o18", "BadNumber 0"),
    ("0b2", "BadNumber 0"),
    ("0b12", "BadNumber 0"),
    ("0b1_", "BadNumber 0"),
    ("1.real", "BadNumber 0"),
    ("1._5", "BadNumber 0"),
    (".5a", "BadNumber 0"),
    (".5_", "BadNumber 0"),
    ("1jx", "BadNumber 0"),
    ("1é", "BadNumber 0"),
    ("1jif_", "BadNumber 0"),
    ("1e5_", "BadNumber 0"),
    ("0_x", "BadNumber 0"),
    ("123abc", "BadNumber 0"),
    ("x = 08", "n1 b1 o1 b1 BadNumber 4"),
    ("1 + 2x", "d1 b1 o1 b1 BadNumber 4"),
    ("x.1.2a", "n1 d2 BadNumber 3"),
    ("x..5_", "n1 o1 BadNumber 2"),
];

#[test]
fn bad_numbers(rt: HostRuntime) -> Result<(), Fail> {
    assert_eq!(rt; first_other(rt.alloc(), BAD_NUMBERS.as_slice())?, None);
    Ok(())
}

const CONTINUATIONS: [(&'static str, &'static str); 9] = [
    ("\\", "Continuation 0"),
    ("x\\", "n1 Continuation 1"),
    ("x\\ \n", "n1 Continuation 1"),
    ("\\x", "Continuation 0"),
    ("x \\y", "n1 b1 Continuation 2"),
    ("# c\n\\z", "c3 l1 Continuation 4"),
    ("x = 1 \\ # c", "n1 b1 o1 b1 d1 b1 Continuation 6"),
    ("'a' \\x", "s3 b1 Continuation 4"),
    ("\\\\\n", "Continuation 0"),
];

#[test]
fn continuations(rt: HostRuntime) -> Result<(), Fail> {
    assert_eq!(rt; first_other(rt.alloc(), CONTINUATIONS.as_slice())?, None);
    Ok(())
}
