// Tokens that become leaves.
ghost use Rattle.std.specs.Prelude.{◌≡◌, ℕ, List, [], ◌∷◌, ◌++◌, drop, slice_index_or, OnOk, IfErr};
ghost use Rattle.tree_nodes.specs.Trees.{none};
ghost use Rattle.py_language.specs.Readers.{shown};
ghost use Rattle.py_grammar.specs.Symbols.{set_of};
ghost use Rattle.py_grammar.specs.Terminals.{code, no_terminal};
ghost use Rattle.py_grammar.specs.Nodes.{atom_leaf, operator_leaf, operator_kind as operator_kind_spec, plain_leaf, named_leaf};
ghost use Rattle.py_forest.specs.Forests.{trees};
ghost use Rattle.py_forest.specs.declared.fault.Fault.TheVariants.{Memory};
ghost use Rattle.parse_steps.specs.Runs.{Reads};

use crate::steps::behind;
use py_forest::{Fault, Forest};
use py_grammar::Symbol;
use py_line::Line;
use tree_nodes::Kind;

/// The symbol at a place as a leaf, without a name.
fn add_plain(forest: &mut Forest, kind: Kind, line: &Line, place: usize) -> Result<(), Fault>
    ensures ok { OnOk result (trees forest.new ≡ trees forest.old ++ record { node = plain_leaf kind (slice_index_or line.now place no_terminal); kids = none } ∷ []) }
    ensures err { IfErr result (λ e. e ≡ Memory) }
{
    forest.leaf(kind, line.pos(place), line.end_line(place), None)
}

/// The symbol at a place as a leaf, with its text as the name.
fn add_named(forest: &mut Forest, kind: Kind, line: &Line, place: usize) -> Result<(), Fault>
    ensures ok { OnOk result (trees forest.new ≡ trees forest.old ++ record { node = named_leaf kind (slice_index_or line.now place no_terminal); kids = none } ∷ []) }
    ensures err { IfErr result (λ e. e ≡ Memory) }
{
    let text = line.text(place);
    forest.leaf(kind, line.pos(place), line.end_line(place), Some(text))
}

/// The symbol at a place as an atom.
fn add_atom(forest: &mut Forest, line: &Line, place: usize) -> Result<(), Fault>
    ensures ok { OnOk result (trees forest.new ≡ trees forest.old ++ record { node = atom_leaf (slice_index_or line.now place no_terminal); kids = none } ∷ []) }
    ensures err { IfErr result (λ e. e ≡ Memory) }
{
    match line.symbol(place) {
        Symbol::Number => add_named(forest, Kind::NumberLiteral, line, place),
        Symbol::NoneWord => add_plain(forest, Kind::NoneLiteral, line, place),
        Symbol::TrueWord => add_plain(forest, Kind::TrueLiteral, line, place),
        Symbol::FalseWord => add_plain(forest, Kind::FalseLiteral, line, place),
        Symbol::Ellipsis => add_plain(forest, Kind::EllipsisLiteral, line, place),
        _ => add_named(forest, Kind::Name, line, place),
    }
}

/// The kind of an operator.
fn operator_kind(symbol: Symbol) -> Kind
    ensures { result ≡ operator_kind_spec symbol }
{
    match symbol {
        Symbol::Less => Kind::Less,
        Symbol::Greater => Kind::Greater,
        Symbol::Equal => Kind::Equal,
        Symbol::LessEqual => Kind::LessEqual,
        Symbol::GreaterEqual => Kind::GreaterEqual,
        Symbol::NotEqual => Kind::NotEqual,
        Symbol::InWord => Kind::In,
        Symbol::Plus | Symbol::PlusAssign => Kind::Add,
        Symbol::Minus | Symbol::MinusAssign => Kind::Subtract,
        Symbol::Star | Symbol::StarAssign => Kind::Multiply,
        Symbol::Slash | Symbol::SlashAssign => Kind::Divide,
        Symbol::DoubleSlash | Symbol::DoubleSlashAssign => Kind::FloorDivide,
        Symbol::Percent | Symbol::PercentAssign => Kind::Modulo,
        Symbol::AtSign | Symbol::AtAssign => Kind::MatrixMultiply,
        Symbol::LeftShift | Symbol::LeftShiftAssign => Kind::LeftShift,
        Symbol::RightShift | Symbol::RightShiftAssign => Kind::RightShift,
        Symbol::AmpersandAssign => Kind::BitAnd,
        Symbol::CaretAssign => Kind::BitXor,
        Symbol::BarAssign => Kind::BitOr,
        _ => Kind::Exponentiate,
    }
}

/// One of these symbols, without a name.
#[tactic(auto, using(crate::proofs::Tokens::shown_at, crate::proofs::Tokens::shown_not))]
pub fn show_plain(
    forest: &mut Forest,
    kind: Kind,
    line: &Line,
    rest: usize,
    set: &[Symbol],
) -> Result<usize, Fault>
    ensures { Reads line.now (trees forest.old) (trees forest.new) result (shown code (plain_leaf kind) (set_of set.now) (drop rest line.now)) }
{
    if line.at(rest, set) {
        add_plain(forest, kind, line, rest)?;
        Ok(behind(line, rest))
    } else {
        Err(Fault::NoForm)
    }
}

/// One of these symbols, with its text as the name.
#[tactic(auto, using(crate::proofs::Tokens::shown_at, crate::proofs::Tokens::shown_not))]
pub fn show_named(
    forest: &mut Forest,
    kind: Kind,
    line: &Line,
    rest: usize,
    set: &[Symbol],
) -> Result<usize, Fault>
    ensures { Reads line.now (trees forest.old) (trees forest.new) result (shown code (named_leaf kind) (set_of set.now) (drop rest line.now)) }
{
    if line.at(rest, set) {
        add_named(forest, kind, line, rest)?;
        Ok(behind(line, rest))
    } else {
        Err(Fault::NoForm)
    }
}

/// One of these symbols as an atom.
#[tactic(auto, using(crate::proofs::Tokens::shown_at, crate::proofs::Tokens::shown_not))]
pub fn show_atom(
    forest: &mut Forest,
    line: &Line,
    rest: usize,
    set: &[Symbol],
) -> Result<usize, Fault>
    ensures { Reads line.now (trees forest.old) (trees forest.new) result (shown code atom_leaf (set_of set.now) (drop rest line.now)) }
{
    if line.at(rest, set) {
        add_atom(forest, line, rest)?;
        Ok(behind(line, rest))
    } else {
        Err(Fault::NoForm)
    }
}

/// One of these symbols as an operator.
#[tactic(auto, using(crate::proofs::Tokens::shown_at, crate::proofs::Tokens::shown_not))]
pub fn show_operator(
    forest: &mut Forest,
    line: &Line,
    rest: usize,
    set: &[Symbol],
) -> Result<usize, Fault>
    ensures { Reads line.now (trees forest.old) (trees forest.new) result (shown code operator_leaf (set_of set.now) (drop rest line.now)) }
{
    if line.at(rest, set) {
        let kind = operator_kind(line.symbol(rest));
        add_plain(forest, kind, line, rest)?;
        Ok(behind(line, rest))
    } else {
        Err(Fault::NoForm)
    }
}
