// What may be wrong with a layout.

/// Why a logical line has no level.
#[derive(Clone, Copy, Debug, PartialEq, Eq)]
pub enum IndentationCause {
    /// Its first width stands nowhere on the stack.
    Dedent,
    /// Its two widths disagree with those of a line before it.
    TabMix,
    /// It would be the 101st entry.
    TooDeep,
}

/// Why an item may not stand where it does.
#[derive(Clone, Copy, Debug, PartialEq, Eq)]
pub enum ItemCause {
    /// A closing bracket without an open one of its kind.
    CloseBracket,
    /// The 201st open bracket.
    TooDeep,
    /// No piece could be read here.
    Stopped,
}

#[derive(Clone, Copy, Debug, PartialEq, Eq)]
pub enum LayoutCause {
    /// The place is the first item of the logical line, which is column 0 of its first physical line.
    AtLine(IndentationCause),
    AtItem(ItemCause),
    /// The place is that of the outermost bracket that is never closed.
    OpenBracket,
}

/// A fault by the number of an item, from 0.
#[derive(Debug, Drop)]
pub enum LayoutFault {
    At(usize, LayoutCause),
    Memory,
}
