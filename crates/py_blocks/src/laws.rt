// The laws of trees and faults.
ghost use Rattle.std.specs.Prelude.{◌≡◌, List, true, map, All};
ghost use Rattle.tree_nodes.specs.Shaped.{IsShaped};
ghost use Rattle.tree_nodes.specs.Trees.{Tree};
ghost use Rattle.py_blocks.specs.RowShapes.{IsRowShaped};
ghost use Rattle.py_blocks.specs.Rows.{Row, line_of};
ghost use Rattle.py_blocks.specs.Rules.{AreRight};
ghost use Rattle.py_blocks.specs.Spelling.{Spells};

/// Rows spell one tree at most.
pub fn one_tree()
    ensures { (rows : List (Row Tree)) (a b : Tree) → Spells rows a → Spells rows b → a ≡ b }
{}

/// Rows spell a tree where no line stands against a rule of blocks.
pub fn some_tree()
    ensures { (rows : List (Row Tree)) → AreRight true (map line_of rows) → (tree : Tree) × Spells rows tree }
{}

/// The tree of rows in shape is in shape.
pub fn trees_are_in_shape()
    ensures { (rows : List (Row Tree)) (tree : Tree) → All IsRowShaped rows → Spells rows tree → IsShaped tree }
{}
