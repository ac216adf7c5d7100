// The physical lines of a source, which end with LF, CR LF or CR.
ghost use Rattle.std.specs.Prelude.{◌≡◌, ◌<◌, ◌≤◌, ◌∷◌, length};
ghost use Rattle.std.specs.List.{position_or_len};
ghost use Rattle.check_basic.specs.Lines.{is_line_end, begins_char, char_count, after_end, lines_of, ends_line, source_of};

fn is_line_end(b: u8) -> bool
    ensures { result ≡ is_line_end b }
{
    b == b'\n' || b == b'\r'
}

fn begins_char(b: u8) -> bool
    ensures { result ≡ begins_char b }
{
    b < 128 || b >= 192
}

/// How many characters there are: a character begins at each byte that continues none.
pub fn char_count(line: &[u8]) -> usize
    ensures count { result ≡ char_count line.now }
    ensures bound { result ≤ length line.now }
{
    line.iter().filter(|b| begins_char(**b)).count()
}

/// A file's bytes without a byte order mark at the start.
pub fn source_of(bytes: &[u8]) -> &[u8]
    ensures source { result.now ≡ source_of bytes.now }
    ensures within { length result.now ≤ length bytes.now }
{
    match bytes {
        [0xef, 0xbb, 0xbf, source @ ..] => source,
        _ => bytes,
    }
}

// How long the first line is, without its end.
fn line_len(text: &[u8]) -> usize
    ensures len { result ≡ position_or_len is_line_end text.now }
    ensures within { result ≤ length text.now }
{
    for (i, b) in text.iter().enumerate() {
        if is_line_end(*b) {
            return i;
        }
    }
    text.len()
}

fn after_end(rest: &[u8]) -> &[u8]
    ensures after { result.now ≡ after_end rest.now }
    ensures shorter { 0 < length rest.now → length result.now < length rest.now }
{
    match rest {
        [b'\r', b'\n', after @ ..] => after,
        [_, after @ ..] => after,
        [] => rest,
    }
}

/// The first line without its end, and what follows that end.
#[tactic(auto, using(crate::proofs::LineSteps::lines_step))]
pub fn split_line(text: &[u8]) -> (&[u8], &[u8])
    requires { 0 < length text.now }
    ensures lines { lines_of text.now ≡ result.0.now ∷ lines_of result.1.now }
    ensures shorter { length result.1.now < length text.now }
    ensures within { length result.0.now ≤ length text.now }
{
    let (line, rest) = text.split_at(line_len(text));
    (line, after_end(rest))
}

/// Whether the last byte ends a line.
pub fn ends_line(text: &[u8]) -> bool
    ensures { result ≡ ends_line text.now }
{
    match text {
        [.., last] => is_line_end(*last),
        [] => false,
    }
}
