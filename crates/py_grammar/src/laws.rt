// The laws of lines. Each stands as the contract of a function that does nothing.
ghost use Rattle.std.specs.Prelude.{◌≡◌, ℕ, ◌+◌, ◌≤◌, ◌↔◌, List, Some};
ghost use Rattle.py_language.specs.Brackets.{peak};
ghost use Rattle.py_grammar.specs.HeaderParts.{IsLineShaped};
ghost use Rattle.py_grammar.specs.Lines.{IsLine, LineForm};
ghost use Rattle.py_grammar.specs.ReadingLines.{line_at, phrase_at};
ghost use Rattle.py_grammar.specs.Terminals.{Terminal, code};
ghost use Rattle.py_grammar.specs.Words.{closes, opens};

/// Tokens spell one line at most.
pub fn lines_are_unique()
    ensures { (ts : List Terminal) (one other : LineForm) → IsLine ts one → IsLine ts other → one ≡ other }
{}

/// What is read from the front, with descents for the brackets and for a nesting of 200, is what the tokens spell: all of it,
/// and nothing else.
pub fn lines_are_read()
    ensures { (b : ℕ) (ts : List Terminal) (line : LineForm) → peak code opens closes 0 ts ≤ b → (line_at (phrase_at (201 + b)) ts ≡ Some line) ↔ IsLine ts line }
{}

/// The trees that a line spells are in shape: those of a header or decorator are the parts that stand before the block in its
/// statement or clause, and those behind it are simple statements.
pub fn lines_are_in_shape()
    ensures { (ts : List Terminal) (line : LineForm) → IsLine ts line → IsLineShaped line }
{}
