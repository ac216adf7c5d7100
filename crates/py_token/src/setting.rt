// How a text stands in a source.
ghost use Rattle.std.specs.Prelude.{◌≡◌};
ghost use Rattle.py_token.specs.Settings.{inside_at, inside_brackets, seen_as, whole};

use lint_values::Pos;
use py_layout::Item;

/// How a text stands in a source: the place where it begins, and whether brackets stand around it.
#[derive(Clone, Copy, Debug)]
pub(crate) struct Setting {
    pub(crate) from: Pos,
    pub(crate) inside: bool,
}

/// A file of its own.
pub(crate) fn whole() -> Setting
    ensures { result ≡ whole }
{
    Setting {
        from: Pos { line: 1, col: 0 },
        inside: false,
    }
}

/// A part inside brackets.
pub(crate) fn inside_at(at: Pos) -> Setting
    ensures { result ≡ inside_at at }
{
    Setting {
        from: at,
        inside: true,
    }
}

fn inside_brackets(item: Item) -> Item
    ensures { result ≡ inside_brackets item }
{
    match item {
        Item::LineEnd | Item::Blank(_) => Item::Join,
        other => other,
    }
}

/// The item as the layout sees it.
pub(crate) fn seen_as(inside: bool, item: Item) -> Item
    ensures { result ≡ seen_as inside item }
{
    if inside { inside_brackets(item) } else { item }
}
