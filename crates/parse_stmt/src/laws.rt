// The laws of trees and faults. Each stands as the contract of a function that does nothing.
ghost use Rattle.std.specs.Prelude.{◌≡◌, ℕ};
ghost use Rattle.tree_nodes.specs.Trees.{Tree};
ghost use Rattle.py_token.specs.Tokenized.{Tokenized};
ghost use Rattle.parse_stmt.specs.declared.fault.SyntaxCause.{SyntaxCause};
ghost use Rattle.parse_stmt.specs.Spelling.{Spells, IsFault};

/// Tokens spell one tree at most.
pub fn one_tree()
    ensures { (tokens : Tokenized) (one other : Tree) → Spells tokens one → Spells tokens other → one ≡ other }
{}

/// They have one first fault at most.
pub fn one_fault()
    ensures { (tokens : Tokenized) (line at : ℕ) (cause other : SyntaxCause) → IsFault tokens line cause → IsFault tokens at other → (line ≡ at) × (cause ≡ other) }
{}

/// Where they spell a tree, none stands.
pub fn tree_or_fault()
    ensures { (tokens : Tokenized) (tree : Tree) (line : ℕ) (cause : SyntaxCause) → Spells tokens tree → IsFault tokens line cause → ⊥ }
{}
