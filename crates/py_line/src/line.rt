// The terminal symbols of a line.
ghost use Rattle.std.specs.Prelude.{◌≡◌, ℕ, ◌++◌, ◌∷◌, [], ◌<◌, ◌+◌, length, drop, slice_index_or, IfOk, OnOk, OnErr, string_bytes};
ghost use Rattle.std.specs.Str.{IsUtf8};
ghost use Rattle.py_language.specs.Sets.{mem, at as at_spec};
ghost use Rattle.py_language.specs.Readers.{before, at_two as at_two_spec};
ghost use Rattle.py_grammar.specs.Symbols.{number_of, set_of};
ghost use Rattle.py_grammar.specs.Terminals.{code, no_terminal, first_of, second_of, last_of, last_but_one_of};
ghost use Rattle.py_grammar.specs.Nodes.{first_text, second_text, last_text};
ghost use Rattle.py_line.specs.Kept.{IsTextIn, within};

use lint_values::{Memory, Pos};
use py_grammar::Symbol;
use std::alloc::Global;
use std::marker::Model;

/// A part of the texts, from `start` up to `end`.
#[derive(Clone, Copy, Debug)]
pub struct Span {
    pub start: u32,
    pub end: u32,
}

/// A terminal symbol as it is kept: its text is a part of the text of all of them.
#[derive(Clone, Copy, Debug)]
pub struct LineRow {
    pub symbol: Symbol,
    pub pos: Pos,
    pub end_line: u32,
    pub text: Span,
}

/// Where a stretch of a line begins, and the line on which it ends.
#[derive(Clone, Copy, Debug)]
pub struct Stretch {
    pub pos: Pos,
    pub end_line: u32,
}

/// A line's terminal symbols. Contracts see it as their list.
#[derive(Debug, Drop)]
pub struct Line {
    rows: Vec<LineRow>,
    texts: String,
}

impl Model for Line {
    ghost use Rattle.std.specs.Prelude.{List, string_bytes};
    ghost use Rattle.py_grammar.specs.Terminals.{Terminal};

    ghost Value = { List Terminal };

    ghost use Rattle.py_line.specs.Kept.{terminals_in, AreTextsIn};

    ghost view = { λ l. terminals_in (string_bytes l.texts) l.rows.items };

    ghost invariant = { λ l. AreTextsIn (string_bytes l.texts) l.rows.items };
}

impl Line {
    /// No symbols yet.
    pub fn new(alloc: Global) -> Line
        ensures { result ≡ [] }
    {
        Line {
            rows: Vec::new(alloc),
            texts: String::new(alloc),
        }
    }

    /// Adds a symbol behind the others. `text` is a name in its normal form, and else what is written.
    pub fn push(
        &mut self,
        symbol: Symbol,
        pos: Pos,
        end_line: u32,
        text: &str,
    ) -> Result<(), Memory>
        ensures ok { OnOk result (self.new ≡ self.old ++ record { symbol = symbol; pos = pos; end_line = end_line; text = text.now } ∷ []) }
        ensures err { OnErr result (self.new ≡ self.old) }
    {
        let text = add_text(&mut self.texts, text)?;
        self.rows.push(LineRow {
            symbol,
            pos,
            end_line,
            text,
        })?;
        Ok(())
    }

    /// How many symbols the line has.
    pub fn len(&self) -> usize
        ensures { result ≡ length self.now }
    {
        self.rows.len()
    }

    /// The symbol at a place; past the end `BadField`.
    pub fn symbol(&self, place: usize) -> Symbol
        ensures { result ≡ (slice_index_or self.now place no_terminal).symbol }
    {
        match self.rows.get(place) {
            Some(row) => row.symbol,
            None => Symbol::BadField,
        }
    }

    /// Where the symbol at a place begins; past the end line 0.
    pub fn pos(&self, place: usize) -> Pos
        ensures { result ≡ (slice_index_or self.now place no_terminal).pos }
    {
        match self.rows.get(place) {
            Some(row) => row.pos,
            None => Pos { line: 0, col: 0 },
        }
    }

    /// The line on which the symbol at a place ends; past the end 0.
    pub fn end_line(&self, place: usize) -> u32
        ensures { result ≡ (slice_index_or self.now place no_terminal).end_line }
    {
        match self.rows.get(place) {
            Some(row) => row.end_line,
            None => 0,
        }
    }

    /// The text of the symbol at a place; past the end nothing.
    pub fn text(&self, place: usize) -> &str
        ensures { result.now ≡ (slice_index_or self.now place no_terminal).text }
    {
        if place < self.rows.len() {
            let span = self.rows[place].text;
            text_within(self.texts.as_str(), span)
        } else {
            ""
        }
    }

    /// Whether one of these symbols stands at a place.
    #[tactic(auto, using(crate::proofs::Stretches::at_within, crate::proofs::Stretches::at_past))]
    pub fn at(&self, place: usize, set: &[Symbol]) -> bool
        ensures { result ≡ at_spec code (set_of set.now) (drop place self.now) }
    {
        if place < self.len() {
            is_among(self.symbol(place), set)
        } else {
            false
        }
    }

    /// Whether one of the first symbols stands at a place, and one of the second behind it.
    #[tactic(auto, using(crate::proofs::Stretches::at_two_is, crate::proofs::Stretches::at_two_past))]
    pub fn at_two(&self, place: usize, one: &[Symbol], two: &[Symbol]) -> bool
        ensures { result ≡ at_two_spec code (set_of one.now) (set_of two.now) (drop place self.now) }
    {
        if place >= self.len() {
            return false;
        }
        if self.at(place, one) {
            self.at(place + 1, two)
        } else {
            false
        }
    }

    /// Where the symbols from `start` up to `rest` begin, and where they end. Of no symbols these are places in line 0.
    pub fn stretch(&self, start: usize, rest: usize) -> Stretch
        ensures begins { result.pos ≡ (first_of (before (drop start self.now) (drop rest self.now))).pos }
        ensures ends { result.end_line ≡ (last_of (before (drop start self.now) (drop rest self.now))).end_line }
    {
        let end = rest.min(self.len());
        if start < end {
            Stretch {
                pos: self.pos(start),
                end_line: self.end_line(end - 1),
            }
        } else {
            Stretch {
                pos: Pos { line: 0, col: 0 },
                end_line: 0,
            }
        }
    }

    /// How many symbols stand from `start` up to `rest`.
    pub fn count(&self, start: usize, rest: usize) -> usize
        ensures { result ≡ length (before (drop start self.now) (drop rest self.now)) }
    {
        rest.min(self.len()).saturating_sub(start)
    }

    /// Whether the first symbol from `start` up to `rest` is one of these.
    pub fn first_is(&self, start: usize, rest: usize, set: &[Symbol]) -> bool
        ensures { result ≡ mem (code (first_of (before (drop start self.now) (drop rest self.now)))) (set_of set.now) }
    {
        let symbol = if self.count(start, rest) > 0 {
            self.symbol(start)
        } else {
            Symbol::BadField
        };
        is_among(symbol, set)
    }

    /// Whether the second symbol from `start` up to `rest` is one of these.
    pub fn second_is(&self, start: usize, rest: usize, set: &[Symbol]) -> bool
        ensures { result ≡ mem (code (second_of (before (drop start self.now) (drop rest self.now)))) (set_of set.now) }
    {
        let symbol = if self.count(start, rest) > 1 {
            self.symbol(start + 1)
        } else {
            Symbol::BadField
        };
        is_among(symbol, set)
    }

    /// Whether the last symbol but one from `start` up to `rest` is one of these; of one symbol it is the first.
    pub fn last_but_one_is(&self, start: usize, rest: usize, set: &[Symbol]) -> bool
        ensures { result ≡ mem (code (last_but_one_of (before (drop start self.now) (drop rest self.now)))) (set_of set.now) }
    {
        let count = self.count(start, rest);
        let symbol = if count > 0 {
            self.symbol(start + count.saturating_sub(2))
        } else {
            Symbol::BadField
        };
        is_among(symbol, set)
    }

    /// The text of the first symbol from `start` up to `rest`; of no symbols nothing.
    pub fn first_text(&self, start: usize, rest: usize) -> &str
        ensures { result.now ≡ first_text (before (drop start self.now) (drop rest self.now)) }
    {
        if self.count(start, rest) > 0 {
            self.text(start)
        } else {
            ""
        }
    }

    /// The text of the second symbol from `start` up to `rest`; of fewer than two nothing.
    pub fn second_text(&self, start: usize, rest: usize) -> &str
        ensures { result.now ≡ second_text (before (drop start self.now) (drop rest self.now)) }
    {
        if self.count(start, rest) > 1 {
            self.text(start + 1)
        } else {
            ""
        }
    }

    /// The text of the last symbol from `start` up to `rest`; of no symbols nothing.
    pub fn last_text(&self, start: usize, rest: usize) -> &str
        ensures { result.now ≡ last_text (before (drop start self.now) (drop rest self.now)) }
    {
        let count = self.count(start, rest);
        if count > 0 {
            self.text(start + (count - 1))
        } else {
            ""
        }
    }
}

/// The number by which sets know a symbol.
fn number(symbol: Symbol) -> u8
    ensures { result ≡ number_of symbol }
{
    symbol as u8
}

/// Whether a symbol is one of these.
fn is_among(symbol: Symbol, set: &[Symbol]) -> bool
    ensures { result ≡ mem (number_of symbol) (set_of set.now) }
{
    let wanted = number(symbol);
    for other in set {
        if number(*other) == wanted {
            return true;
        }
    }
    false
}

/// A text behind the others.
fn add_text(texts: &mut String, text: &str) -> Result<Span, Memory>
    ensures span { IfOk result (λ span. (span.start ≡ length (string_bytes texts.old)) × (span.end ≡ length (string_bytes texts.old) + length text.now)) }
    ensures utf8 { OnOk result (IsUtf8 text.now) }
    ensures ok { OnOk result (string_bytes texts.new ≡ string_bytes texts.old ++ text.now) }
    ensures err { OnErr result (string_bytes texts.new ≡ string_bytes texts.old) }
{
    let start = u32::try_from(texts.len()).map_err(|_| Memory)?;
    let more = u32::try_from(text.len()).map_err(|_| Memory)?;
    let end = start.checked_add(more).ok_or(Memory)?;
    texts.push_str(text)?;
    Ok(Span { start, end })
}

/// The text within a span.
fn text_within(text: &str, span: Span) -> &str
    requires { IsTextIn text.now span }
    ensures { result.now ≡ within text.now span }
{
    &text[span.start as usize..span.end as usize]
}
