// What a message name in an option or a pragma names.
ghost use Rattle.std.specs.Prelude.{◌≡◌};
ghost use Rattle.std.specs.List.{list_all};
ghost use Rattle.lint_messages.specs.Selections.{is_category, is_digit, is_symbol_byte, has_symbol_form, has_code_form, is_named, named_code, selection_of};

use crate::Code;
use crate::code::ALL_CODES;

/// What a message name names.
#[derive(Clone, Copy, Debug, PartialEq, Eq)]
pub enum Selection {
    One(Code),
    /// By its letter: F, E, W, R or C.
    Category(char),
    All,
    /// A name in a message name's form that no message here bears, and the letter I: accepted, without effect.
    Unknown,
    BadName,
}

fn is_category(b: u8) -> bool
    ensures { result ≡ is_category b }
{
    matches!(b, b'F' | b'E' | b'W' | b'R' | b'C')
}

fn is_digit(b: u8) -> bool
    ensures { result ≡ is_digit b }
{
    b'0' <= b && b <= b'9'
}

fn is_symbol_byte(b: u8) -> bool
    ensures { result ≡ is_symbol_byte b }
{
    (b'a' <= b && b <= b'z') || is_digit(b) || b == b'-'
}

fn are_symbol_bytes(bytes: &[u8]) -> bool
    ensures { result ≡ list_all is_symbol_byte bytes.now }
{
    bytes.iter().all(|b| is_symbol_byte(*b))
}

fn are_digits(bytes: &[u8]) -> bool
    ensures { result ≡ list_all is_digit bytes.now }
{
    bytes.iter().all(|b| is_digit(*b))
}

// Lower-case letters, digits and dashes.
fn has_symbol_form(name: &[u8]) -> bool
    ensures { result ≡ has_symbol_form name.now }
{
    !name.is_empty() && are_symbol_bytes(name)
}

// A capital and four digits.
fn has_code_form(name: &[u8]) -> bool
    ensures { result ≡ has_code_form name.now }
{
    match name {
        [letter, digits @ ..] => {
            b'A' <= *letter && *letter <= b'Z' && digits.len() == 4 && are_digits(digits)
        }
        [] => false,
    }
}

fn is_named(name: &str, code: Code) -> bool
    ensures { result ≡ is_named name.now code }
{
    name == code.letters() || name == code.symbol()
}

fn named_code(name: &str) -> Option<Code>
    ensures { result ≡ named_code name.now }
{
    ALL_CODES.iter().copied().find(|code| is_named(name, *code))
}

impl Code {
    /// What a message name names: a code by its letters or its symbol, a category by its letter, or `all`.
    pub fn names(name: &str) -> Selection
        ensures { result ≡ selection_of name.now }
    {
        if name == "all" {
            return Selection::All;
        }
        match name.as_bytes() {
            [letter] if is_category(*letter) => return Selection::Category(char::from(*letter)),
            [b'I'] => return Selection::Unknown,
            _ => {}
        }
        match named_code(name) {
            Some(code) => Selection::One(code),
            None if has_symbol_form(name.as_bytes()) || has_code_form(name.as_bytes()) => {
                Selection::Unknown
            }
            None => Selection::BadName,
        }
    }
}
