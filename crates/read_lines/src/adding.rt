// The rows of a form, behind those of a builder.
ghost use Rattle.std.specs.Prelude.{◌≡◌, ◌≤◌, ◌<◌, ◌+◌, ℕ, map, take, drop, length, All, IfOk};
ghost use Rattle.tree_nodes.specs.Rows.{tree_of};
ghost use Rattle.py_forest.specs.Forests.{trees};
ghost use Rattle.read_lines.specs.Copies.{number_from};
ghost use Rattle.read_lines.specs.Spelling.{form_over};

use crate::form::LineForm;
use crate::rows::add_rows;
use lint_values::Memory;
use parse_line::Found;
use py_forest::{Forest, Top};
use std::alloc::Global;
use tree_nodes::TreeBuilder;

/// The numbers of trees' roots, each so much higher.
fn numbers(alloc: Global, tops: &[Top], by: u32) -> Result<Vec<u32>, Memory>
    ensures { IfOk result (λ given. given.items ≡ map (number_from by) tops.now) }
{
    let mut given = Vec::new(alloc);
    for top in tops {
        given.push(by.checked_add(top.row).ok_or(Memory)?)?;
    }
    Ok(given)
}

/// Adds the rows of a forest: so many of its trees are the parts of a header, and the others are statements.
pub(crate) fn add_form(
    forest: &Forest,
    found: Found,
    builder: &mut TreeBuilder,
) -> Result<LineForm, Memory>
    requires { found.nodes ≤ length (trees forest.now) }
    ensures value { IfOk result (λ given. form_over builder.new given ≡ record { head = found.head; nodes = take found.nodes (trees forest.now); body = drop found.nodes (trees forest.now) }) }
    ensures nodes { IfOk result (λ given. All (λ n. n < length builder.new) given.nodes.items) }
    ensures body { IfOk result (λ given. All (λ n. n < length builder.new) given.body.items) }
    ensures longer { length builder.old ≤ length builder.new }
    ensures earlier { (n : ℕ) → n < length builder.old → tree_of builder.new n ≡ tree_of builder.old n }
{
    let by = u32::try_from(builder.rows()).map_err(|_| Memory)?;
    let mut below = Vec::new(forest.alloc);
    add_rows(builder, &forest.builder, by, &mut below)?;
    let (front, back) = forest.tops.as_slice().split_at(found.nodes);
    let nodes = numbers(forest.alloc, front, by)?;
    let body = numbers(forest.alloc, back, by)?;
    Ok(LineForm {
        head: found.head,
        nodes,
        body,
    })
}
