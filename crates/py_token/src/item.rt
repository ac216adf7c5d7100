// What the layout sees of a piece.
ghost use Rattle.std.specs.Prelude.{◌≡◌, ◌<◌, ◌^◌, length};
ghost use Rattle.py_token.specs.Items.{item_of, operator_item};

use py_layout::{Bracket, Item, widths_of};
use py_lexeme::Kind;

fn operator_item(operator: &[char]) -> Item
    ensures { result ≡ operator_item operator.now }
{
    match operator {
        ['('] => Item::Open(Bracket::Round),
        [')'] => Item::Close(Bracket::Round),
        ['['] => Item::Open(Bracket::Square),
        [']'] => Item::Close(Bracket::Square),
        ['{'] => Item::Open(Bracket::Curly),
        ['}'] => Item::Close(Bracket::Curly),
        _ => Item::Plain,
    }
}

/// The item of a piece, by its kind and its characters.
pub(crate) fn item_of(kind: Kind, characters: &[char]) -> Item
    requires { length characters.now < 2 ^ 32 }
    ensures { result ≡ item_of kind characters.now }
{
    match kind {
        Kind::Blank => Item::Blank(widths_of(characters)),
        Kind::LineEnd => Item::LineEnd,
        Kind::Comment => Item::Comment,
        Kind::Join => Item::Join,
        Kind::Op => operator_item(characters),
        Kind::Name | Kind::Keyword | Kind::Number | Kind::Str | Kind::FStr => Item::Plain,
    }
}
