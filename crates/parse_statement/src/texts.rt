// Texts over several tokens.
ghost use Rattle.std.specs.Prelude.{◌≡◌, IfOk, drop, string_bytes};
ghost use Rattle.py_language.specs.Readers.{before};
ghost use Rattle.py_grammar.specs.Nodes.{joined, before_first, dotted_name as dotted_name_spec, module_text as module_text_spec};

use lint_values::Memory;
use py_grammar::Symbol;
use py_line::Line;
use std::alloc::Global;

const AS_WORD: &[Symbol] = &[Symbol::AsWord];

const IMPORT_WORD: &[Symbol] = &[Symbol::ImportWord];

/// The texts from `start` up to `rest`, or up to the first of some symbols, one behind the other.
fn joined_before(
    alloc: Global,
    line: &Line,
    start: usize,
    rest: usize,
    stops: &[Symbol],
) -> Result<String, Memory>
    ensures { IfOk result (λ s. string_bytes s ≡ joined (before_first stops.now (before (drop start line.now) (drop rest line.now)))) }
{
    let mut texts = String::new(alloc);
    for place in start..rest.min(line.len()) {
        if line.at(place, stops) {
            return Ok(texts);
        }
        texts.push_str(line.text(place))?;
    }
    Ok(texts)
}

/// The dotted name before an `as`.
pub fn dotted_name(alloc: Global, line: &Line, start: usize, rest: usize) -> Result<String, Memory>
    ensures { IfOk result (λ s. string_bytes s ≡ dotted_name_spec (before (drop start line.now) (drop rest line.now))) }
{
    joined_before(alloc, line, start, rest, AS_WORD)
}

/// The module of a `from` statement with its leading dots.
#[tactic(auto, using(crate::proofs::TextLaws::module_text_is, crate::proofs::TextLaws::module_text_end))]
pub fn module_text(alloc: Global, line: &Line, start: usize, rest: usize) -> Result<String, Memory>
    ensures { IfOk result (λ s. string_bytes s ≡ module_text_spec (before (drop start line.now) (drop rest line.now))) }
{
    if start < rest {
        joined_before(alloc, line, start + 1, rest, IMPORT_WORD)
    } else {
        Ok(String::new(alloc))
    }
}
