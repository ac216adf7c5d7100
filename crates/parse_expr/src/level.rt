// The levels of operators.
ghost use Rattle.std.specs.Prelude.{◌≡◌};
ghost use Rattle.py_grammar.specs.Symbols.{set_of};
ghost use Rattle.parse_expr.specs.Levels.{level_first, level_kind};

use parse_steps::marks::{
    AMPERSAND, AND_WORD, BAR, CARET, COMPARISON_FIRST, OR_WORD, PRODUCT_OPERATOR, SHIFT_OPERATOR,
    SUM_OPERATOR,
};
use py_grammar::Symbol;
use tree_nodes::Kind;

/// Rows of operators between operands, from the loosest to the tightest.
#[derive(Clone, Copy, Debug, PartialEq, Eq)]
pub enum Level {
    Or,
    And,
    Comparison,
    BitOr,
    BitXor,
    BitAnd,
    Shift,
    Sum,
    Product,
}

/// With what an operator begins.
pub fn first(level: Level) -> &'static [Symbol]
    ensures { set_of result.now ≡ level_first level }
{
    match level {
        Level::Or => OR_WORD,
        Level::And => AND_WORD,
        Level::Comparison => COMPARISON_FIRST,
        Level::BitOr => BAR,
        Level::BitXor => CARET,
        Level::BitAnd => AMPERSAND,
        Level::Shift => SHIFT_OPERATOR,
        Level::Sum => SUM_OPERATOR,
        Level::Product => PRODUCT_OPERATOR,
    }
}

/// The node over the operands.
pub fn kind(level: Level) -> Kind
    ensures { result ≡ level_kind level }
{
    match level {
        Level::Or => Kind::BoolOr,
        Level::And => Kind::BoolAnd,
        Level::Comparison => Kind::Comparison,
        Level::BitOr => Kind::BitwiseOr,
        Level::BitXor => Kind::BitwiseXor,
        Level::BitAnd => Kind::BitwiseAnd,
        Level::Shift => Kind::Shift,
        Level::Sum => Kind::Sum,
        Level::Product => Kind::Product,
    }
}
