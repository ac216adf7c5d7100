// A logical line of a source.
ghost use Rattle.std.specs.Prelude.{◌≡◌, ◌≤◌, ◌<◌, ℕ, length, All, IfOk, IfErr, Ok, Err};
ghost use Rattle.fstr_parse.specs.declared.fault.FieldFault.{FieldFault};
ghost use Rattle.tree_nodes.specs.Rows.{tree_of};
ghost use Rattle.py_grammar.specs.Lines as grammar;
ghost use Rattle.py_terminals.specs.Lines.{IsLine};
ghost use Rattle.read_lines.specs.Answers.{FaultsOnly, GivesOnly, NoFormOnly, OnField, OnNoForm, OnRefusal};
ghost use Rattle.read_lines.specs.Spelling.{Spells, HasNoForm, form_over};

use crate::fault::LineFault;
use crate::form::LineForm;
use crate::terminals::read_terminals;
use py_forest::Fault;
use py_terminals::terminals;
use py_token::Tokens;
use std::alloc::Global;
use tree_nodes::TreeBuilder;

/// What the logical line with this number is read as.
fn line_form(
    alloc: Global,
    tokens: &Tokens,
    line: usize,
    builder: &mut TreeBuilder,
) -> Result<LineForm, LineFault>
    requires { line < length tokens.now.lines }
    ensures value { IfOk result (λ given. Spells tokens.now line (form_over builder.new given)) }
    ensures nodes { IfOk result (λ given. All (λ n. n < length builder.new) given.nodes.items) }
    ensures body { IfOk result (λ given. All (λ n. n < length builder.new) given.body.items) }
    ensures no_form { IfErr result (OnNoForm (HasNoForm tokens.now line)) }
    ensures field { IfErr result (OnField (λ fault. IsLine tokens.now line (Err fault))) }
    ensures longer { length builder.old ≤ length builder.new }
    ensures earlier { (n : ℕ) → n < length builder.old → tree_of builder.new n ≡ tree_of builder.old n }
    ensures refused { IfErr result (OnRefusal (builder.new ≡ builder.old)) }
{
    match terminals(alloc, tokens, line) {
        Ok(given) => match read_terminals(alloc, &given, builder) {
            Ok(form) => Ok(form),
            Err(Fault::NoForm) => Err(LineFault::NoForm),
            Err(Fault::Memory) => Err(LineFault::Memory),
        },
        Err(py_terminals::LineFault::Field(fault)) => Err(LineFault::Field(fault)),
        Err(py_terminals::LineFault::Memory) => Err(LineFault::Memory),
    }
}

/// Reads the logical line with this number, from 0, and adds the rows of its trees to a builder.
pub fn read_line(
    alloc: Global,
    tokens: &Tokens,
    line: usize,
    builder: &mut TreeBuilder,
) -> Result<LineForm, LineFault>
    requires { line < length tokens.now.lines }
    // What is given is what the line spells.
    ensures value { IfOk result (λ given. Spells tokens.now line (form_over builder.new given)) }
    // Its numbers are those of rows.
    ensures nodes { IfOk result (λ given. All (λ n. n < length builder.new) given.nodes.items) }
    ensures body { IfOk result (λ given. All (λ n. n < length builder.new) given.body.items) }
    // Whatever the line spells is given, unless memory runs out.
    ensures every { (form : grammar.LineForm) → Spells tokens.now line form → GivesOnly builder.new result form }
    // Where it is answered that no form fits, the line has terminals, and none fits.
    ensures no_form { IfErr result (OnNoForm (HasNoForm tokens.now line)) }
    // And where none fits, that is answered, unless memory runs out.
    ensures every_no_form { HasNoForm tokens.now line → NoFormOnly result }
    // A fault of a string is that of the first string of the line whose pieces are refused.
    ensures field { IfErr result (OnField (λ fault. IsLine tokens.now line (Err fault))) }
    // And where the pieces of a string are refused, the first such fault is answered, unless memory runs out.
    ensures every_field { (fault : FieldFault) → IsLine tokens.now line (Err fault) → FaultsOnly result fault }
    // Earlier rows stay, and so do their trees.
    ensures longer { length builder.old ≤ length builder.new }
    ensures earlier { (n : ℕ) → n < length builder.old → tree_of builder.new n ≡ tree_of builder.old n }
    // A refusal leaves the builder as it is.
    ensures refused { IfErr result (OnRefusal (builder.new ≡ builder.old)) }
{
    line_form(alloc, tokens, line, builder)
}
