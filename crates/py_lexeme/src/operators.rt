// Operators.
ghost use Rattle.std.specs.Prelude.{◌≡◌, ◌≤◌, length};
ghost use Rattle.py_lexeme.specs.Scan as spec;

use crate::characters::char_at;

/// Whether an operator is the character and `=` behind it.
fn is_augmented(c: char) -> bool
    ensures { result ≡ spec.is_augmented c }
{
    c < '\u{80}' && (is_arithmetic(c) || is_comparing(c))
}

fn is_arithmetic(c: char) -> bool
    ensures { result ≡ spec.is_arithmetic c }
{
    c == '+'
        || c == '-'
        || c == '*'
        || c == '/'
        || c == '%'
        || c == '&'
        || c == '|'
        || c == '^'
        || c == '@'
}

fn is_comparing(c: char) -> bool
    ensures { result ≡ spec.is_comparing c }
{
    c == '<' || c == '>' || c == '=' || c == '!' || c == ':'
}

/// Whether an operator is the character twice, with or without `=` behind it.
fn is_doubled(c: char) -> bool
    ensures { result ≡ spec.is_doubled c }
{
    c < '\u{80}' && (c == '*' || c == '/' || c == '<' || c == '>')
}

/// Whether the character alone is an operator.
fn is_single(c: char) -> bool
    ensures { result ≡ spec.is_single c }
{
    c < '\u{80}' && (is_arithmetic(c) || (is_bracket(c) || is_mark(c)))
}

fn is_bracket(c: char) -> bool
    ensures { result ≡ spec.is_bracket c }
{
    c == '(' || c == ')' || c == '[' || c == ']' || c == '{' || c == '}'
}

fn is_mark(c: char) -> bool
    ensures { result ≡ spec.is_mark c }
{
    c == ',' || c == ':' || c == '.' || c == ';' || c == '=' || c == '<' || c == '>' || c == '~'
}

fn is_pair(c: char, d: char) -> bool
    ensures { result ≡ spec.is_pair c d }
{
    (d == '=' && is_augmented(c)) || ((is_doubled(d) && c == d) || (d == '>' && c == '-'))
}

fn is_triple(c: char, d: char, e: char) -> bool
    ensures { result ≡ spec.is_triple c d e }
{
    (e == '=' && (is_doubled(d) && c == d)) || (e == '.' && (d == '.' && c == '.'))
}

/// The length of the longest operator at the front, or 0.
#[tactic(auto, using(crate::proofs::Lengths::operator_within))]
pub fn operator(cs: &[char]) -> usize
    ensures value { result ≡ spec.operator cs.now }
    ensures within { result ≤ length cs.now }
{
    let c = char_at(cs, 0);
    let d = char_at(cs, 1);
    if is_triple(c, d, char_at(cs, 2)) {
        3
    } else if is_pair(c, d) {
        2
    } else if is_single(c) {
        1
    } else {
        0
    }
}
