// Comments that stand alone.
ghost use Rattle.std.specs.Prelude.{◌≡◌};
ghost use Rattle.py_layout.specs.Comments.{is_head_behind};

use crate::item::Item;

/// Whether only blanks stand on the physical line behind the item, where they did before it. A comment at such a head is alone.
pub fn is_head_behind(is_head: bool, item: Item) -> bool
    ensures { result ≡ is_head_behind is_head item }
{
    match item {
        Item::Blank(_) => is_head,
        Item::Join | Item::LineEnd => true,
        Item::Comment | Item::Open(_) | Item::Close(_) | Item::Plain | Item::Stop => false,
    }
}
