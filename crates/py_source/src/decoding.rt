// From bytes to text.
ghost use Rattle.std.specs.Prelude.{◌≡◌, ℕ, IfOk, IfErr, IsUtf8, MatchOption, if◌then◌else◌};
ghost use Rattle.py_source.specs.Coding.{other_encoding};
ghost use Rattle.py_source.specs.Decoding.{HasNoNul, IsFaultless, IsFirstNul, IsSourceFault, has_high_byte, without_mark};
ghost use Rattle.py_source.specs.declared.decoding.SourceCause.{SourceCause};

use crate::coding::other_encoding;

/// What is wrong with a file as a whole.
#[derive(Clone, Copy, Debug, PartialEq, Eq)]
pub enum SourceCause {
    /// The bytes are not UTF-8. The place is the first byte of the first ill-formed sequence.
    NotUtf8,
    /// A byte 0.
    NulByte,
    /// A comment names another encoding than UTF-8, and a byte above 127 stands in the file.
    Coding,
}

/// A fault of a file as a whole, with its byte place behind the byte order mark.
#[derive(Clone, Copy, Debug, PartialEq, Eq)]
pub struct SourceFault {
    pub place: usize,
    pub cause: SourceCause,
}

/// The bytes behind the byte order mark, if one stands at the start.
pub fn without_mark(bytes: &[u8]) -> &[u8]
    ensures { result.now ≡ without_mark bytes.now }
{
    if bytes.starts_with(b"\xef\xbb\xbf") {
        return bytes.split_at(3).1;
    }
    bytes
}

fn first_nul(text: &[u8]) -> Option<usize>
    ensures { MatchOption result (HasNoNul text.now) (IsFirstNul text.now) }
{
    for (i, b) in text.iter().enumerate() {
        if *b == 0 {
            return Some(i);
        }
    }
    None
}

fn has_high_byte(bytes: &[u8]) -> bool
    ensures { result ≡ has_high_byte bytes.now }
{
    bytes.iter().any(|b| 128 <= *b)
}

/// The place of a comment that names another encoding, where a byte above 127 stands in the file.
fn foreign_coding(bytes: &[u8], body: &[u8]) -> Option<usize>
    ensures { result ≡ (if has_high_byte bytes.now then other_encoding body.now else None) }
{
    if has_high_byte(bytes) {
        other_encoding(body)
    } else {
        None
    }
}

/// The fault of a file whose bytes are UTF-8.
fn first_fault(bytes: &[u8], body: &[u8]) -> Option<SourceFault>
    requires body { body.now ≡ without_mark bytes.now }
    requires utf8 { IsUtf8 body.now }
    ensures { MatchOption result (IsFaultless bytes.now) (λ fault. IsSourceFault bytes.now fault.place fault.cause) }
{
    match first_nul(body) {
        Some(place) => Some(SourceFault {
            place,
            cause: SourceCause::NulByte,
        }),
        None => match foreign_coding(bytes, body) {
            Some(place) => Some(SourceFault {
                place,
                cause: SourceCause::Coding,
            }),
            None => None,
        },
    }
}

/// The text of a file without its byte order mark, or the first fault of the file as a whole.
pub fn decode(bytes: &[u8]) -> Result<&str, SourceFault>
    // What is given is the text of a file without fault.
    ensures text { IfOk result (λ text. text.now ≡ without_mark bytes.now) }
    ensures faultless { IfOk result (λ _. IsFaultless bytes.now) }
    // A fault stands where it is said.
    ensures fault { IfErr result (λ fault. IsSourceFault bytes.now fault.place fault.cause) }
    // And where one stands it is answered.
    ensures every_fault { (n : ℕ) (cause : SourceCause) → IsSourceFault bytes.now n cause
        → result ≡ Err (record { place = n; cause = cause }) }
{
    let body = without_mark(bytes);
    match str::from_utf8(body) {
        Err(fault) => Err(SourceFault {
            place: fault.valid_up_to(),
            cause: SourceCause::NotUtf8,
        }),
        Ok(text) => match first_fault(bytes, body) {
            Some(fault) => Err(fault),
            None => Ok(text),
        },
    }
}
