// Rows of one builder behind those of another.
ghost use Rattle.std.specs.Prelude.{◌≡◌, ◌≤◌, ◌<◌, ◌+◌, ℕ, map, length, All, IfOk, OnOk, OnErr};
ghost use Rattle.tree_nodes.specs.Rows.{tree_of};
ghost use Rattle.read_lines.specs.Copies.{AreCopied};

use lint_values::Memory;
use tree_nodes::TreeBuilder;

/// Numbers, each so much higher, in place of others.
fn shift(given: &mut Vec<u32>, numbers: &[u32], by: u32) -> Result<(), Memory>
    ensures { OnOk result (given.new.items ≡ map (λ k. by + k) numbers.now) }
{
    given.clear();
    for number in numbers {
        given.push(by.checked_add(*number).ok_or(Memory)?)?;
    }
    Ok(())
}

/// Adds one row of another builder behind so many of its own and the other's rows before it.
fn add_row(
    builder: &mut TreeBuilder,
    other: &TreeBuilder,
    row: u32,
    by: u32,
    below: &mut Vec<u32>,
) -> Result<(), Memory>
    requires row { row < length other.now }
    requires copied { (k : ℕ) → k < row → tree_of builder.old (by + k) ≡ tree_of other.now k }
    requires count { length builder.old ≡ by + row }
    ensures count { OnOk result (length builder.new ≡ length builder.old + 1) }
    ensures err { OnErr result (builder.new ≡ builder.old) }
    ensures earlier { (n : ℕ) → n < length builder.old → tree_of builder.new n ≡ tree_of builder.old n }
    ensures tree { OnOk result (tree_of builder.new (by + row) ≡ tree_of other.now row) }
{
    shift(below, other.kids(row), by)?;
    let _row = builder.push(
        other.kind(row),
        other.pos(row),
        other.end_line(row),
        other.name(row),
        below.as_slice(),
    )?;
    Ok(())
}

/// Adds the rows of another builder, from the number `by` on.
pub(crate) fn add_rows(
    builder: &mut TreeBuilder,
    other: &TreeBuilder,
    by: u32,
    below: &mut Vec<u32>,
) -> Result<(), Memory>
    requires { length builder.old ≡ by }
    ensures longer { length builder.old ≤ length builder.new }
    ensures earlier { (n : ℕ) → n < length builder.old → tree_of builder.new n ≡ tree_of builder.old n }
    ensures copied { OnOk result (AreCopied by builder.old builder.new other.now (length other.now)) }
{
    let count = u32::try_from(other.rows()).map_err(|_| Memory)?;
    for number in 0..count {
        add_row(builder, other, number, by, below)?;
    }
    Ok(())
}
