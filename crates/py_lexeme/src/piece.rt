// Pieces of a text, and what may stop a cut.

/// What a piece is. Blanks, line ends, comments and joins carry no token, and are pieces all the same.
#[derive(Clone, Copy, Debug, PartialEq, Eq)]
pub enum Kind {
    /// Spaces, tabs and form feeds.
    Blank,
    /// LF, CRLF or CR.
    LineEnd,
    /// `#` and the rest of its line, without the line end.
    Comment,
    /// A backslash and the line end behind it.
    Join,
    Name,
    Keyword,
    Number,
    /// A string or byte literal with its prefix and quotes.
    Str,
    /// A string literal whose prefix holds `f` or `F`.
    FStr,
    Op,
}

/// What a lexical fault is.
#[derive(Clone, Copy, Debug, PartialEq, Eq)]
pub enum Cause {
    /// A character that begins no token, or one above 127 in a byte literal; the place is its own.
    BadChar,
    /// A string that is never closed; the place is the string's start.
    OpenString,
    /// A number with a false leading zero, or with a digit or name directly behind it; the place is the number's start.
    BadNumber,
    /// A backslash before anything but a line end; the place is the backslash.
    Continuation,
}

/// A piece by its kind and its length in characters, at least 1. It takes 8 bytes.
#[derive(Clone, Copy, Debug, PartialEq, Eq)]
pub struct Piece {
    pub kind: Kind,
    pub len: u32,
}

/// A fault by its cause and its place in characters, from 0.
#[derive(Clone, Copy, Debug, PartialEq, Eq)]
pub struct Stop {
    pub cause: Cause,
    pub place: u32,
}

/// The pieces of a text in order, without gaps: of the whole text, or of what stands before the first lexical fault.
#[derive(Debug, Drop)]
pub struct Cut {
    pub pieces: Vec<Piece>,
    /// The first lexical fault. A byte literal's bad character may stand behind the end of the last piece.
    pub stop: Option<Stop>,
}

const _: () = prove!(size_of::<Piece>() <= 8);
