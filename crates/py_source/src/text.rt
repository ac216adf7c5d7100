// The characters of a text.
ghost use Rattle.std.specs.Prelude.{◌≡◌, ◌<◌, ◌^◌, length, chars, encode_utf8_all, IfOk};

use lint_values::Memory;
use std::alloc::Global;

/// The characters of a text.
pub fn characters(alloc: Global, text: &str) -> Result<Vec<char>, Memory>
    ensures { IfOk result (λ characters. characters.items ≡ chars text.now) }
{
    let all: Vec<char> = text.chars().collect(alloc)?;
    Ok(all)
}

/// How many bytes the characters take in UTF-8.
#[tactic(auto, using(crate::proofs::Encoding::encodes_more, crate::proofs::Encoding::encodes_front))]
pub fn byte_len(characters: &[char]) -> usize
    requires { length (encode_utf8_all characters.now) < 2 ^ 64 }
    ensures { result ≡ length (encode_utf8_all characters.now) }
{
    let mut len = 0;
    for c in characters {
        len += c.len_utf8();
    }
    len
}
