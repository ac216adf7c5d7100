// The text of a string literal, and the words in it.
ghost use Rattle.std.specs.Prelude.{◌≡◌, ◌≤◌, ◌++◌, List, OnOk, length};
ghost use Rattle.std.specs.List.{prefix_len};
ghost use Rattle.scope_rules.specs.Nodes.{Name};
ghost use Rattle.unused_names.specs.Literals.{is_letter, is_name_byte, without_prefix, is_tripled, within, within_quotes, text_of, words_of};
ghost use Rattle.unused_names.specs.Sets.{HasNames};

use crate::name_set::{NameSet, add_name};
use lint_values::Memory;
use std::alloc::Global;

fn is_letter(b: u8) -> bool
    ensures { result ≡ is_letter b }
{
    (b'A' <= b && b <= b'Z') || (b'a' <= b && b <= b'z')
}

fn is_name_byte(b: u8) -> bool
    ensures { result ≡ is_name_byte b }
{
    is_letter(b) || (b'0' <= b && b <= b'9') || b == b'_' || 128 <= b
}

/// A literal without the letters before its first quote.
#[tactic(auto, unfolding(crate::specs::Literals::without_prefix))]
fn without_prefix(literal: &[u8]) -> &[u8]
    ensures { result.now ≡ without_prefix literal.now }
{
    let mut rest = literal;
    while let [b, after @ ..] = rest {
        if !is_letter(*b) {
            return rest;
        }
        rest = after;
    }
    rest
}

fn is_tripled(literal: &[u8]) -> bool
    ensures { result ≡ is_tripled literal.now }
{
    literal.starts_with(b"'''") || literal.starts_with(b"\"\"\"")
}

/// A literal without so many bytes at each end.
fn within(k: usize, literal: &[u8]) -> &[u8]
    requires { k ≤ 3 }
    ensures { result.now ≡ within k literal.now }
{
    if literal.len() < 2 * k {
        &[]
    } else {
        literal.split_at(k).1.split_at(literal.len() - 2 * k).0
    }
}

#[tactic(auto, unfolding(crate::specs::Literals::within_quotes))]
fn within_quotes(literal: &[u8]) -> &[u8]
    ensures { result.now ≡ within_quotes literal.now }
{
    if is_tripled(literal) {
        within(3, literal)
    } else {
        within(1, literal)
    }
}

/// What stands within the quotes of a literal, as it is written.
pub(crate) fn text_of(literal: &[u8]) -> &[u8]
    ensures { result.now ≡ text_of literal.now }
{
    within_quotes(without_prefix(literal))
}

/// How long the word is with which a text begins.
fn word_len(text: &[u8]) -> usize
    ensures len { result ≡ prefix_len is_name_byte text.now }
    ensures bound { result ≤ length text.now }
{
    let mut rest = text;
    while let [b, after @ ..] = rest {
        if !is_name_byte(*b) {
            return text.len() - rest.len();
        }
        rest = after;
    }
    text.len()
}

/// Adds the words of a text.
pub(crate) fn add_words(alloc: Global, names: &mut NameSet, text: &[u8]) -> Result<(), Memory>
    ensures { (ns : List Name) → HasNames names.old ns → OnOk result (HasNames names.new (ns ++ words_of text.now)) }
{
    let mut rest = text;
    let mut len = word_len(rest);
    'words: while len < rest.len() {
        let (word, after) = rest.split_at(len);
        add_name(alloc, names, word)?;
        rest = after.split_at(1).1;
        len = word_len(rest);
    }
    add_name(alloc, names, rest)?;
    Ok(())
}
