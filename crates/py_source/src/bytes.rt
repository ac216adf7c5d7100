// Runs of bytes of a class.
ghost use Rattle.std.specs.Prelude.{◌≡◌, ◌≤◌, length, slice_index};
ghost use Rattle.std.specs.List.{prefix_len};
ghost use Rattle.py_source.specs.Physical.{is_in_line};
ghost use Rattle.py_source.specs.Coding.{is_blank, is_indent, is_name_byte};
ghost use Rattle.py_source.specs.Classes.{is_of};

/// A class of bytes.
#[derive(Clone, Copy, Debug)]
pub(crate) enum Class {
    InLine,
    Blank,
    Indent,
    NameByte,
}

fn is_in_line(b: u8) -> bool
    ensures { result ≡ is_in_line b }
{
    !(b == b'\n' || b == b'\r')
}

fn is_blank(b: u8) -> bool
    ensures { result ≡ is_blank b }
{
    b == b' ' || b == b'\t'
}

fn is_indent(b: u8) -> bool
    ensures { result ≡ is_indent b }
{
    is_blank(b) || b == b'\x0c'
}

fn is_name_byte(b: u8) -> bool
    ensures { result ≡ is_name_byte b }
{
    (b'0' <= b && b <= b'9')
        || ((b'A' <= b && b <= b'Z')
            || ((b'a' <= b && b <= b'z') || (b == b'-' || (b == b'_' || b == b'.'))))
}

fn is_of(class: Class, b: u8) -> bool
    ensures { result ≡ is_of class b }
{
    match class {
        Class::InLine => is_in_line(b),
        Class::Blank => is_blank(b),
        Class::Indent => is_indent(b),
        Class::NameByte => is_name_byte(b),
    }
}

/// How many bytes at the front are of the class.
pub(crate) fn run_len(class: Class, text: &[u8]) -> usize
    ensures value { result ≡ prefix_len (is_of class) text.now }
    ensures within { result ≤ length text.now }
{
    let mut end = 0;
    while end < text.len() && is_of(class, text[end]) {
        end += 1;
    }
    end
}

/// The byte at the place, or 0 past the end.
pub(crate) fn byte_at(text: &[u8], place: usize) -> u8
    ensures { result ≡ slice_index text.now place }
{
    if place < text.len() { text[place] } else { 0 }
}
