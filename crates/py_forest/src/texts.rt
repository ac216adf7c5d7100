// Literals of strings.
ghost use Rattle.std.specs.Prelude.{◌≡◌, ℕ, ◌<◌, ◌≤◌, ◌++◌, ◌∷◌, List, length, take, drop, slice_index_or, string_bytes, OnOk, IfOk, IfErr};
ghost use Rattle.py_language.specs.Languages.{whole};
ghost use Rattle.py_language.specs.Readers.{before};
ghost use Rattle.tree_nodes.specs.declared.kind.Kind.TheVariants as kinds;
ghost use Rattle.py_grammar.specs.Terminals.{Terminal, no_terminal};
ghost use Rattle.py_grammar.specs.Nodes.{called, with_blank, strings_from, strings_text};
ghost use Rattle.py_grammar.specs.Expressions.{has_format as has_format_spec, string_node};
ghost use Rattle.py_forest.specs.Forests.{trees};
ghost use Rattle.py_forest.specs.declared.fault.Fault.TheVariants.{Memory};

use crate::fault::Fault;
use crate::forest::Forest;
use py_grammar::Symbol;
use py_line::Line;
use std::alloc::Global;
use tree_nodes::Kind;

const STRINGS: &[Symbol] = &[Symbol::Str, Symbol::Bytes, Symbol::FStr];

const FORMAT_STRING: &[Symbol] = &[Symbol::FStr];

const FIELD_OPEN: &[Symbol] = &[Symbol::FieldOpen];

const FIELD_CLOSE: &[Symbol] = &[Symbol::FieldClose];

/// A text behind others, with a blank between them.
fn add_text(text: &mut String, more: &str) -> Result<(), Fault>
    ensures ok { OnOk result (string_bytes text.new ≡ with_blank (string_bytes text.old) more.now) }
    ensures err { IfErr result (λ e. e ≡ Memory) }
{
    if !text.is_empty() {
        text.push_str(" ")?;
    }
    text.push_str(more)?;
    Ok(())
}

/// The text with the string at a place, if one stands there outside fields; how many fields are open behind it.
#[tactic(auto, using(crate::proofs::TextLaws::string_at, crate::proofs::TextLaws::open_at, crate::proofs::TextLaws::other_at, crate::proofs::TextLaws::open_within, crate::proofs::TextLaws::close_within, crate::proofs::TextLaws::other_within))]
fn pass_string(text: &mut String, fields: usize, line: &Line, place: usize) -> Result<usize, Fault>
    requires { place < length line.now }
    ensures ok { (ts : List Terminal) → IfOk result (λ n. strings_from (string_bytes text.old) fields (slice_index_or line.now place no_terminal ∷ ts) ≡ strings_from (string_bytes text.new) n ts) }
    ensures err { IfErr result (λ e. e ≡ Memory) }
{
    if fields == 0 {
        if line.at(place, STRINGS) {
            add_text(text, line.text(place))?;
            return Ok(0);
        }
        if line.at(place, FIELD_OPEN) {
            return Ok(1);
        }
        return Ok(0);
    }
    if line.at(place, FIELD_OPEN) {
        return Ok(fields.checked_add(1).ok_or(Fault::Memory)?);
    }
    if line.at(place, FIELD_CLOSE) {
        return Ok(fields - 1);
    }
    Ok(fields)
}

/// The strings from `start` up to `rest` as written, joined by one blank; those within fields do not count.
#[tactic(auto, using(crate::proofs::TextLaws::before_next, crate::proofs::TextLaws::before_end))]
fn joined_strings(alloc: Global, line: &Line, start: usize, rest: usize) -> Result<String, Fault>
    ensures ok { IfOk result (λ text. string_bytes text ≡ strings_text (before (drop start line.now) (drop rest line.now))) }
    ensures err { IfErr result (λ e. e ≡ Memory) }
{
    let mut text = String::new(alloc);
    let mut fields = 0;
    let end = rest.min(line.len());
    for place in start..end {
        fields = pass_string(&mut text, fields, line, place)?;
    }
    Ok(text)
}

/// Whether a string with an f stands from `start` up to `rest`.
#[tactic(auto, using(crate::proofs::TextLaws::format_next, crate::proofs::TextLaws::before_end))]
fn has_format(line: &Line, start: usize, rest: usize) -> bool
    ensures { result ≡ has_format_spec (before (drop start line.now) (drop rest line.now)) }
{
    let end = rest.min(line.len());
    for place in start..end {
        if line.at(place, FORMAT_STRING) {
            return true;
        }
    }
    false
}

impl Forest {
    /// The trees from `mark` on become the kids of a literal of byte strings.
    pub fn reduce_bytes(
        &mut self,
        mark: usize,
        line: &Line,
        start: usize,
        rest: usize,
    ) -> Result<(), Fault>
        ensures ok { OnOk result (trees self.new ≡ take mark (trees self.old) ++ whole (called kinds.BytesLiteral strings_text) (before (drop start line.now) (drop rest line.now)) (drop mark (trees self.old))) }
        ensures err { IfErr result (λ e. e ≡ Memory) }
    {
        let text = joined_strings(self.alloc, line, start, rest)?;
        self.reduce_named(Kind::BytesLiteral, text.as_str(), mark, line, start, rest)
    }

    /// The trees from `mark` on, which are fields, become the kids of a literal of strings.
    pub fn reduce_strings(
        &mut self,
        mark: usize,
        line: &Line,
        start: usize,
        rest: usize,
    ) -> Result<(), Fault>
        ensures ok { OnOk result (trees self.new ≡ take mark (trees self.old) ++ whole string_node (before (drop start line.now) (drop rest line.now)) (drop mark (trees self.old))) }
        ensures err { IfErr result (λ e. e ≡ Memory) }
    {
        let text = joined_strings(self.alloc, line, start, rest)?;
        if has_format(line, start, rest) {
            self.reduce_named(Kind::FString, text.as_str(), mark, line, start, rest)
        } else {
            self.reduce_named(Kind::StringLiteral, text.as_str(), mark, line, start, rest)
        }
    }
}
