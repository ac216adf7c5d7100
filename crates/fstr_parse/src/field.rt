// The heads of fields.
ghost use Rattle.std.specs.Prelude.{◌≡◌, MatchResult, List, ℕ};
ghost use Rattle.fstr_parse.specs.Fields.{IsField, IsBadField};
ghost use Rattle.fstr_parse.specs.Heads.{wrong_at, IsConversion, IsWrongConversion};

use crate::FieldFault;
use crate::bytes::{blank_len, byte_at, is_conversion};
use crate::expression::{equals_len, expression_len};

/// The head of a field, from behind its `{`.
#[derive(Clone, Copy, Debug)]
pub struct Field {
    /// The length of its expression, in bytes.
    pub expression: usize,
    /// The length of the whole head, in bytes.
    pub len: usize,
    /// The letter of its conversion, and 0 where there is none.
    pub convert: u8,
    /// Whether it ends with the `:` of a format.
    pub formatted: bool,
}

/// The letter of the conversion at the front, behind its `!`.
fn conversion(text: &[u8]) -> Result<u8, FieldFault>
    ensures { MatchResult result (IsConversion text.now) (IsWrongConversion text.now) }
{
    let letter = byte_at(text, 1);
    if is_conversion(letter) {
        match byte_at(text, 2) {
            b':' | b'}' => Ok(letter),
            _ => Err(wrong_at(text, 2)),
        }
    } else {
        Err(wrong_at(text, 1))
    }
}

/// Why a conversion goes wrong at this place of the text.
fn wrong_at(text: &[u8], place: usize) -> FieldFault
    ensures { result ≡ wrong_at text.now place }
{
    if place < text.len() {
        FieldFault::BadConversion
    } else {
        FieldFault::Unclosed
    }
}

/// The head of the field at the front.
pub fn field_at(text: &[u8]) -> Result<Field, FieldFault>
    ensures { MatchResult result (IsField text.now) (λ fault. (stop : List ℕ) × IsBadField text.now stop fault) }
{
    let expression = expression_len(text)?;
    if expression <= blank_len(text) {
        return Err(FieldFault::EmptyField);
    }
    let after = text.split_at(expression).1;
    let equals = equals_len(after);
    let behind = after.split_at(equals).1;
    match byte_at(behind, 0) {
        b'!' => {
            let convert = conversion(behind)?;
            let len = expression + equals + 3;
            Ok(Field {
                expression,
                len,
                convert,
                formatted: byte_at(behind, 2) == b':',
            })
        }
        closing => {
            let len = expression + equals + 1;
            Ok(Field {
                expression,
                len,
                convert: 0,
                formatted: closing == b':',
            })
        }
    }
}
