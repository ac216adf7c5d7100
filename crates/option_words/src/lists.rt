// Lists in the values of options, and whether a word may be an option's value.
ghost use Rattle.std.specs.Prelude.{◌≡◌, ◌++◌, ◌∷◌, ◌==◌, ◌||◌, [], filter, length, IfOk, OnOk};
ghost use Rattle.std.specs.List.{list_all, prefix_len, suffix_len};
ghost use Rattle.option_words.specs.Values.{fits, is_blank, is_filled, is_message_name, parts_of, trimmed, without_first_blanks, without_last_blanks};
ghost use Rattle.option_words.specs.OptionNames.{kind};

use crate::value::{is_no, is_up_to_ten, is_within, is_yes};
use crate::{Kind, OptionName};
use lint_messages::{Code, Selection};
use lint_values::{Memory, Text, Texts};
use std::alloc::Global;

fn is_blank(c: u8) -> bool
    ensures { result ≡ is_blank c }
{
    c == b' ' || c == b'\t' || c == b'\n' || c == b'\r'
}

fn first_blanks(text: &[u8]) -> usize
    ensures { result ≡ prefix_len is_blank text.now }
{
    text.iter().take_while(|c| is_blank(**c)).count()
}

fn last_blanks(text: &[u8]) -> usize
    ensures { result ≡ suffix_len is_blank text.now }
{
    text.iter().rev().take_while(|c| is_blank(**c)).count()
}

fn without_first_blanks(text: &str) -> &str
    ensures { result.now ≡ without_first_blanks text.now }
{
    &text[first_blanks(text.as_bytes())..]
}

fn without_last_blanks(text: &str) -> &str
    ensures { result.now ≡ without_last_blanks text.now }
{
    &text[..text.len() - last_blanks(text.as_bytes())]
}

fn trimmed(text: &str) -> &str
    ensures { result.now ≡ trimmed text.now }
{
    without_last_blanks(without_first_blanks(text))
}

// Adds a part, where it is not empty.
fn push_part(alloc: Global, part: &str, parts: &mut Texts) -> Result<(), Memory>
    ensures { OnOk result (parts.new ≡ parts.old ++ filter is_filled (part.now ∷ [])) }
{
    if part.is_empty() {
        return Ok(());
    }
    parts.push(Text::from_str(alloc, part)?)
}

/// The parts of a list: what stands between commas, without blanks and line ends at both ends, and no empty part.
pub fn parts(alloc: Global, value: &str) -> Result<Texts, Memory>
    ensures { IfOk result (λ parts. parts ≡ parts_of value.now) }
{
    let mut parts = Texts::new(alloc);
    for part in value.split(',') {
        push_part(alloc, trimmed(part), &mut parts)?;
    }
    Ok(parts)
}

fn is_message_name(name: &str) -> bool
    ensures { result ≡ is_message_name name.now }
{
    Code::names(name) != Selection::BadName
}

fn is_empty_or_name(part: &str) -> bool
    ensures { result ≡ (length part.now == 0 || is_message_name part.now) }
{
    part.is_empty() || is_message_name(part)
}

/// Whether each part of a list may be the name of a message, a category's letter or `all`.
pub fn are_message_names(value: &str) -> bool
    ensures { result ≡ list_all is_message_name (parts_of value.now) }
{
    value.split(',').all(|part| is_empty_or_name(trimmed(part)))
}

/// Whether a word may be the value of an option. A flag takes none.
pub fn fits(option: OptionName, value: &str) -> bool
    ensures { result ≡ fits (kind option) value.now }
{
    match option.kind() {
        Kind::Flag => false,
        Kind::MessageNames => are_message_names(value),
        Kind::YesOrNo => is_yes(value) || is_no(value),
        Kind::Number { low, high } => is_within(value, low, high),
        Kind::Hundredths => is_up_to_ten(value),
        Kind::Texts | Kind::Path => true,
    }
}
