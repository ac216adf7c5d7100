// All rows of a file, taken from the last one back.
ghost use Rattle.std.specs.Prelude.{◌≡◌, ◌<◌, length, map, max, All, IfOk};
ghost use Rattle.tree_nodes.specs.Rows.{tree_of};
ghost use Rattle.py_blocks.specs.Rows.{row_of};
ghost use Rattle.py_blocks.specs.Statements.{all_of, documented};
ghost use Rattle.py_blocks.specs.Building.{level_of, IsMade, IsHeld, IsModule};
ghost use Rattle.py_blocks.specs.Taking.{grown, tree_by, IsTaken};

use crate::BlockRow;
use crate::building::take_row;
use crate::parts::push_behind;
use crate::waiting::{Waiting, push_reversed, take_level};
use lint_values::{Memory, Pos};
use std::alloc::Global;
use std::cmp::max;
use tree_nodes::{Kind, Tree, TreeBuilder};

/// The tree of a file whose rows stand against no rule.
pub fn build(alloc: Global, builder: TreeBuilder, rows: &[BlockRow]) -> Result<Tree, Memory>
    requires { All (IsMade (length builder)) (map row_of rows.now) }
    ensures { IfOk result (λ tree. tree ≡ tree_by (grown builder (map row_of rows.now))) }
{
    let mut builder = builder;
    let level = take_rows(alloc, &mut builder, rows)?;
    let root = push_module(alloc, &mut builder, &level)?;
    let tree = builder.finish(root)?;
    Ok(tree)
}

/// What all rows make.
fn take_rows(alloc: Global, builder: &mut TreeBuilder, rows: &[BlockRow]) -> Result<Waiting, Memory>
    requires { All (IsMade (length builder.old)) (map row_of rows.now) }
    ensures { IfOk result (λ level. IsTaken builder.old builder.new (map row_of rows.now) (level_of level)) }
{
    let mut levels = Vec::new(alloc);
    let mut left = rows.len();
    while left > 0 {
        left -= 1;
        let before = rows.split_at(left).0;
        take_row(alloc, builder, &mut levels, before, &rows[left])?;
    }
    Ok(take_level(alloc, &mut levels))
}

/// The root, over all that the rows make.
fn push_module(alloc: Global, builder: &mut TreeBuilder, level: &Waiting) -> Result<u32, Memory>
    requires { IsHeld (length builder.old) (level_of level.now) }
    ensures { IfOk result (IsModule builder.old builder.new (level_of level.now)) }
{
    let kids = module_kids(alloc, level)?;
    let pos = Pos { line: 1, col: 0 };
    let end_line = later_of(1, level.last);
    let root = builder.push(Kind::Module, pos, end_line, None, kids.as_slice())?;
    Ok(root)
}

/// The kids of the root.
fn module_kids(alloc: Global, level: &Waiting) -> Result<Vec<u32>, Memory>
    ensures { IfOk result (λ kids. kids.items ≡ documented (level_of level.now).docstring (all_of (level_of level.now))) }
{
    let mut all = Vec::new(alloc);
    push_reversed(&mut all, level.clauses.as_slice())?;
    push_reversed(&mut all, level.statements.as_slice())?;
    let mut kids = Vec::new(alloc);
    push_behind(&mut kids, level.docstring, all.as_slice())?;
    Ok(kids)
}

fn later_of(a: u32, b: u32) -> u32
    ensures { result ≡ max a b }
{
    max(a, b)
}
