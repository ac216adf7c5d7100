// The only word of a line, which may ask for a made text.
ghost use Rattle.std.specs.Prelude.{◌≡◌, ◌≤◌, [], ◌∷◌, false, Ok, Err, IfOk, IfErr, IfSome};
ghost use Rattle.options.specs.Lines.{made_line, sole_line, sole_name, sole_value};
ghost use Rattle.options.specs.Usage.{is_memory};

use crate::words::{copy, words_line};
use crate::{Edits, Line, UsageFault};
use lint_values::{Text, Texts};
use option_words::{is_within, number};
use std::alloc::Global;

// The line of a made text of as many classes as the value says.
fn made_line(alloc: Global, word: &Text, value: &str) -> Result<Line, UsageFault>
    ensures line { IfOk result (λ line. made_line word.now value.now ≡ Ok line) }
    ensures refused { IfErr result (λ fault. is_memory fault ≡ false → made_line word.now value.now ≡ Err fault) }
    ensures few { IfOk result (λ line. IfSome line.generate (λ classes. classes ≤ 20000)) }
{
    if !is_within(value, 1, 20_000) {
        return Err(UsageFault::BadValue(copy(alloc, word)?));
    }
    Ok(Line {
        edits: Edits::new(alloc),
        files: Texts::new(alloc),
        rcfile: None,
        generate: Some(number(value)),
    })
}

// The line of the only word, where no `=` stands in it.
fn sole_name(alloc: Global, word: &Text, words: &[Text]) -> Result<Line, UsageFault>
    requires { words.now ≡ word.now ∷ [] }
    ensures line { IfOk result (λ line. sole_name word.now ≡ Ok line) }
    ensures refused { IfErr result (λ fault. is_memory fault ≡ false → sole_name word.now ≡ Err fault) }
    ensures few { IfOk result (λ line. IfSome line.generate (λ classes. classes ≤ 20000)) }
{
    if word.as_str() == "--generate" {
        return Err(UsageFault::NeedsValue(copy(alloc, word)?));
    }
    words_line(alloc, words)
}

// The line of the only word, by what stands before its first `=` and behind it.
fn sole_value(
    alloc: Global,
    word: &Text,
    name: &str,
    value: &str,
    words: &[Text],
) -> Result<Line, UsageFault>
    requires { words.now ≡ word.now ∷ [] }
    ensures line { IfOk result (λ line. sole_value word.now name.now value.now ≡ Ok line) }
    ensures refused { IfErr result (λ fault. is_memory fault ≡ false → sole_value word.now name.now value.now ≡ Err fault) }
    ensures few { IfOk result (λ line. IfSome line.generate (λ classes. classes ≤ 20000)) }
{
    if name == "--generate" {
        return made_line(alloc, word, value);
    }
    words_line(alloc, words)
}

// The line of the only word.
pub(crate) fn sole_line(alloc: Global, word: &Text, words: &[Text]) -> Result<Line, UsageFault>
    requires { words.now ≡ word.now ∷ [] }
    ensures line { IfOk result (λ line. sole_line word.now ≡ Ok line) }
    ensures refused { IfErr result (λ fault. is_memory fault ≡ false → sole_line word.now ≡ Err fault) }
    ensures few { IfOk result (λ line. IfSome line.generate (λ classes. classes ≤ 20000)) }
{
    match word.as_str().split_once('=') {
        None => sole_name(alloc, word, words),
        Some((name, value)) => sole_value(alloc, word, name, value, words),
    }
}
