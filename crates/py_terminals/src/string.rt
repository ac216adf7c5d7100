// Strings as they are written.
ghost use Rattle.std.specs.Prelude.{◌≡◌, ◌≤◌, ◌<◌, ◌+◌, length};
ghost use Rattle.fstr_parse.specs.Bytes as bytes;
ghost use Rattle.py_terminals.specs.Strings as spec;

/// The byte at a place, and 0 behind the end.
fn byte_at(text: &[u8], place: usize) -> u8
    ensures { result ≡ bytes.byte text.now place }
{
    if place < text.len() { text[place] } else { 0 }
}

fn is_letter(b: u8) -> bool
    ensures { result ≡ spec.is_letter b }
{
    !(b == b'\'' || b == b'"')
}

/// How many letters stand before the quotes.
fn letters_len(text: &[u8]) -> usize
    ensures value { result ≡ spec.letters_len text.now }
    ensures within { result ≤ length text.now }
{
    let mut len = 0;
    while len < text.len() && is_letter(text[len]) {
        len += 1;
    }
    len
}

/// How many quotes stand at the front.
fn quotes_at(text: &[u8]) -> usize
    ensures value { result ≡ spec.quotes_at text.now }
    ensures few { result ≤ 3 }
{
    let first = byte_at(text, 0);
    if byte_at(text, 1) == first && byte_at(text, 2) == first {
        3
    } else {
        1
    }
}

/// How many quotes stand on each side.
fn quotes_len(text: &[u8]) -> usize
    ensures value { result ≡ spec.quotes_len text.now }
    ensures few { result ≤ 3 }
{
    quotes_at(text.split_at(letters_len(text)).1)
}

/// Where the inside of a string begins.
pub(crate) fn inside_start(text: &[u8]) -> usize
    ensures { result ≡ spec.inside_start text.now }
{
    letters_len(text) + quotes_len(text)
}

/// Whether the quotes stand again behind the inside.
fn is_closed(text: &[u8]) -> bool
    ensures { result ≡ spec.is_closed text.now }
{
    let end = text.len().saturating_sub(quotes_len(text));
    inside_start(text) <= end && byte_at(text, end) == byte_at(text, letters_len(text))
}

/// What stands inside the quotes.
pub(crate) fn inside_of(text: &str) -> &str
    ensures { result.now ≡ spec.inside_of text.now }
{
    let bytes = text.as_bytes();
    if is_closed(bytes) {
        &text[inside_start(bytes)..bytes.len() - quotes_len(bytes)]
    } else {
        ""
    }
}

fn is_either(small: u8, b: u8) -> bool
    requires { 32 ≤ small }
    ensures { result ≡ spec.is_either small b }
{
    b == small || b == small - 32
}

/// Whether the letters before the quotes hold this one, given as a small one, in either case.
pub(crate) fn has_letter(small: u8, text: &[u8]) -> bool
    requires { 32 ≤ small }
    ensures { result ≡ spec.has_letter small text.now }
{
    let letters = text.split_at(letters_len(text)).0;
    letters.iter().any(|b| is_either(small, *b))
}
