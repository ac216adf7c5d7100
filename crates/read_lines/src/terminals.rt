// A line of terminals.
ghost use Rattle.std.specs.Prelude.{◌≡◌, ◌≤◌, ◌<◌, ℕ, length, All, IfOk, IfErr};
ghost use Rattle.tree_nodes.specs.Rows.{tree_of};
ghost use Rattle.py_grammar.specs.Lines.{IsLine};
ghost use Rattle.read_lines.specs.Found.{SpellsNothing, OnNone};
ghost use Rattle.read_lines.specs.Spelling.{form_over};

use crate::adding::add_form;
use crate::form::LineForm;
use crate::found::found_in;
use py_forest::{Fault, Forest};
use py_line::Line;
use std::alloc::Global;
use tree_nodes::TreeBuilder;

/// Reads the terminals of a line, and adds the rows of its trees to a builder.
#[tactic(auto, using(crate::proofs::FormLaws::form_spelled, crate::proofs::FormLaws::found_within))]
pub(crate) fn read_terminals(
    alloc: Global,
    line: &Line,
    builder: &mut TreeBuilder,
) -> Result<LineForm, Fault>
    ensures value { IfOk result (λ given. IsLine line.now (form_over builder.new given)) }
    ensures nodes { IfOk result (λ given. All (λ n. n < length builder.new) given.nodes.items) }
    ensures body { IfOk result (λ given. All (λ n. n < length builder.new) given.body.items) }
    ensures none { IfErr result (OnNone (SpellsNothing line.now)) }
    ensures longer { length builder.old ≤ length builder.new }
    ensures earlier { (n : ℕ) → n < length builder.old → tree_of builder.new n ≡ tree_of builder.old n }
    ensures refused { IfErr result (OnNone (builder.new ≡ builder.old)) }
{
    let mut forest = Forest::new(alloc);
    let found = found_in(&mut forest, line)?;
    match add_form(&forest, found, builder) {
        Ok(form) => Ok(form),
        Err(_) => Err(Fault::Memory),
    }
}
