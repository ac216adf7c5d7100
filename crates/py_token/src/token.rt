// Tokens and comments.
use lint_values::Pos;

#[derive(Clone, Copy, Debug, PartialEq, Eq)]
pub enum TokenKind {
    /// An identifier that is no keyword; soft keywords are names.
    Name,
    Keyword,
    Number,
    /// A string or byte literal, with its prefix and quotes.
    Str,
    /// A string literal with `f` in its prefix.
    FStr,
    Op,
}

/// A token by its byte places, from 0 behind the byte order mark, and the place where it begins.
#[derive(Clone, Copy, Debug, PartialEq, Eq)]
pub struct Token {
    pub kind: TokenKind,
    pub start: u32,
    pub end: u32,
    pub pos: Pos,
}

/// A comment by its byte places, from its `#` to the line's end.
#[derive(Clone, Copy, Debug, PartialEq, Eq)]
pub struct Comment {
    pub pos: Pos,
    pub start: u32,
    pub end: u32,
    /// Only blanks stand before it on its physical line.
    pub alone: bool,
}
