// The trees of a forest as they are kept.
ghost use Rattle.std.specs.Prelude.{◌≡◌, ◌≤◌, ◌++◌, length, map, drop, OnOk, IfErr};
ghost use Rattle.py_forest.specs.Forests.{row_of};
ghost use Rattle.py_forest.specs.declared.fault.Fault.TheVariants.{Memory};

use crate::fault::Fault;
use tree_nodes::Kind;

/// A tree of the list: the row of its root, and the root's kind.
#[derive(Clone, Copy, Debug)]
pub struct Top {
    pub row: u32,
    pub kind: Kind,
}

#[tactic(auto, using(crate::proofs::TreeLaws::drop_past))]
/// The rows of the trees from `mark` on, in place of others.
pub fn rows_from(rows: &mut Vec<u32>, tops: &[Top], mark: usize) -> Result<(), Fault>
    ensures ok { OnOk result (rows.new.items ≡ map row_of (drop mark tops.now)) }
    ensures err { IfErr result (λ e. e ≡ Memory) }
{
    rows.clear();
    if mark < tops.len() {
        add_rows(rows, &tops[mark..])
    } else {
        Ok(())
    }
}

/// The rows of some trees behind others.
fn add_rows(rows: &mut Vec<u32>, tops: &[Top]) -> Result<(), Fault>
    ensures ok { OnOk result (rows.new.items ≡ rows.old.items ++ map row_of tops.now) }
    ensures err { IfErr result (λ e. e ≡ Memory) }
{
    for top in tops {
        rows.push(top.row)?;
    }
    Ok(())
}
