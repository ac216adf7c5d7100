// The comment that names an encoding.
ghost use Rattle.std.specs.Prelude.{◌≡◌, ◌==◌, length, map, slice_index};
ghost use Rattle.std.specs.Str.{bytes_eq};
ghost use Rattle.py_source.specs.Classes.{is_of};
ghost use Rattle.py_source.specs.Coding.{begins_coding, behind, encoding_at, encoding_in, has_no_code, is_comment_line, is_sign, is_utf8_name, names_other, normal, other_encoding};

use crate::bytes::{Class, byte_at, run_len};
use crate::lines::{behind_line, first_line};

fn is_sign(b: u8) -> bool
    ensures { result ≡ is_sign b }
{
    b == b':' || b == b'='
}

/// The text behind the bytes at its front that are of the class.
fn behind(class: Class, text: &[u8]) -> &[u8]
    ensures { result.now ≡ behind (is_of class) text.now }
{
    text.split_at(run_len(class, text)).1
}

fn begins_coding(text: &[u8]) -> bool
    ensures { result ≡ begins_coding text.now }
{
    text.starts_with(b"coding") && is_sign(byte_at(text, 6))
}

/// The name of an encoding that the text gives at its front, or nothing.
fn encoding_at(text: &[u8]) -> &[u8]
    ensures { result.now ≡ encoding_at text.now }
{
    if text.len() < 7 || !begins_coding(text) {
        return text.split_at(0).0;
    }
    let name = behind(Class::Blank, text.split_at(7).1);
    name.split_at(run_len(Class::NameByte, name)).0
}

/// The name that a comment gives, at the first place where it gives one.
fn encoding_in(comment: &[u8]) -> &[u8]
    ensures { result.now ≡ encoding_in comment.now }
{
    let mut rest = comment;
    while let [_, tail @ ..] = rest {
        let name = encoding_at(rest);
        if !name.is_empty() {
            return name;
        }
        rest = tail;
    }
    rest
}

fn normal(b: u8) -> u8
    ensures { result ≡ normal b }
{
    if b == b'_' {
        b'-'
    } else {
        b.to_ascii_lowercase()
    }
}

/// The name is spelled so, without regard to case, and with `_` as `-`.
fn is_spelled(mut name: &[u8], mut known: &[u8]) -> bool
    ensures { result ≡ bytes_eq (map normal name.entry.now) known.entry.now }
{
    while let [k, known_rest @ ..] = known {
        let [n, name_rest @ ..] = name else {
            return false;
        };
        if normal(*n) != *k {
            return false;
        }
        name = name_rest;
        known = known_rest;
    }
    name.is_empty()
}

fn is_utf8_name(name: &[u8]) -> bool
    ensures { result ≡ is_utf8_name name.now }
{
    is_spelled(name, b"utf-8") || is_spelled(name, b"utf8")
}

fn is_comment_line(line: &[u8]) -> bool
    ensures { result ≡ is_comment_line line.now }
{
    byte_at(behind(Class::Indent, line), 0) == b'#'
}

fn has_no_code(line: &[u8]) -> bool
    ensures { result ≡ has_no_code line.now }
{
    behind(Class::Indent, line).is_empty() || is_comment_line(line)
}

fn names_other(line: &[u8]) -> bool
    ensures { result ≡ names_other line.now }
{
    let name = encoding_in(behind(Class::Indent, line));
    is_comment_line(line) && (!name.is_empty() && !is_utf8_name(name))
}

/// The place of the first comment on the first two lines that names another encoding than UTF-8.
pub(crate) fn other_encoding(text: &[u8]) -> Option<usize>
    ensures { result ≡ other_encoding text.now }
{
    let first = first_line(text);
    if names_other(first) {
        return Some(run_len(Class::Indent, first));
    }
    let rest = behind_line(text);
    let second = first_line(rest);
    if has_no_code(first) && names_other(second) {
        return Some(text.len() - rest.len() + run_len(Class::Indent, second));
    }
    None
}
