// Parts of a text.
ghost use Rattle.std.specs.Prelude.{◌≡◌};
ghost use Rattle.py_source.specs.Spans.{IsPart, bytes_of};

/// A part of a text, by byte places from 0. `end` is the place behind its last byte.
#[derive(Clone, Copy, Debug, PartialEq, Eq)]
pub struct Span {
    pub start: u32,
    pub end: u32,
}

/// The text of a span.
pub fn slice(text: &str, span: Span) -> &str
    requires { IsPart text.now span }
    ensures { result.now ≡ bytes_of text.now span }
{
    &text[span.start as usize..span.end as usize]
}
