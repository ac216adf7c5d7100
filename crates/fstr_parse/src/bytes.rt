// The bytes that delimit the parts of an f-string.
ghost use Rattle.std.specs.Prelude.{◌≡◌, ◌≤◌, length};
ghost use Rattle.std.specs.List.{prefix_len};
ghost use Rattle.fstr_parse.specs.Bytes as spec;

/// The byte at a place, and 0 behind the end.
pub fn byte_at(text: &[u8], place: usize) -> u8
    ensures { result ≡ spec.byte text.now place }
{
    if place < text.len() { text[place] } else { 0 }
}

pub fn is_brace(b: u8) -> bool
    ensures { result ≡ spec.is_brace b }
{
    b == b'{' || b == b'}'
}

pub fn is_blank(b: u8) -> bool
    ensures { result ≡ spec.is_blank b }
{
    b == b' ' || b == b'\t' || b == b'\x0c' || b == b'\r' || b == b'\n'
}

pub fn is_quote(b: u8) -> bool
    ensures { result ≡ spec.is_quote b }
{
    b == b'\'' || b == b'"'
}

pub fn is_opening(b: u8) -> bool
    ensures { result ≡ spec.is_opening b }
{
    b == b'(' || b == b'[' || b == b'{'
}

pub fn is_closing(b: u8) -> bool
    ensures { result ≡ spec.is_closing b }
{
    b == b')' || b == b']' || b == b'}'
}

pub fn is_conversion(b: u8) -> bool
    ensures { result ≡ spec.is_conversion b }
{
    b == b'r' || b == b's' || b == b'a'
}

/// How many blanks and line ends stand at the front.
pub fn blank_len(text: &[u8]) -> usize
    ensures value { result ≡ prefix_len spec.is_blank text.now }
    ensures within { result ≤ length text.now }
{
    let mut end = 0;
    while end < text.len() && is_blank(text[end]) {
        end += 1;
    }
    end
}
