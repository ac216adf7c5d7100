// What the layout sees of a text's pieces.

#[derive(Clone, Copy, Debug, PartialEq, Eq)]
pub enum Bracket {
    Round,
    Square,
    Curly,
}

/// The widths of the blanks at a line's head: with tabs to the next multiple of 8, and with tabs of one column.
#[derive(Clone, Copy, Debug, PartialEq, Eq)]
pub struct Widths {
    pub wide: u64,
    pub narrow: u64,
}

/// A piece of a text, as the layout sees it.
#[derive(Clone, Copy, Debug, PartialEq, Eq)]
pub enum Item {
    /// Spaces, tabs and form feeds, all that stand together.
    Blank(Widths),
    Comment,
    /// A backslash and a line end.
    Join,
    LineEnd,
    Open(Bracket),
    Close(Bracket),
    /// A token that is no bracket.
    Plain,
    /// The place where no piece could be read. What comes behind it does not count.
    Stop,
}
