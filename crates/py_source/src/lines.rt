// Physical lines.
ghost use Rattle.std.specs.Prelude.{◌≡◌, ◌≤◌, ◌<◌, ◌^◌, List, length, drop, IfOk};
ghost use Rattle.std.specs.List.{prefix_len, take_while};
ghost use Rattle.py_source.specs.Physical.{ArePhysical, behind_line, behind_line_end, first_line, line_len};
ghost use Rattle.py_source.specs.declared.span.Span.{Span};

use crate::bytes::{Class, run_len};
use crate::span::Span;
use lint_values::Memory;
use std::alloc::Global;

/// What stands behind the line end at the front.
fn behind_line_end(text: &[u8]) -> &[u8]
    ensures { result.now ≡ behind_line_end text.now }
{
    match text {
        [b'\r', b'\n', rest @ ..] => rest,
        [_, rest @ ..] => rest,
        [] => text,
    }
}

/// The first physical line, without its line end.
pub(crate) fn first_line(text: &[u8]) -> &[u8]
    ensures { result.now ≡ first_line text.now }
{
    text.split_at(run_len(Class::InLine, text)).0
}

/// The text behind its first physical line.
pub(crate) fn behind_line(text: &[u8]) -> &[u8]
    ensures value { result.now ≡ behind_line text.now }
    ensures within { length result.now ≤ length text.now }
    ensures shorter { 0 < length text.now → length result.now < length text.now }
{
    behind_line_end(text.split_at(run_len(Class::InLine, text)).1)
}

/// The physical lines of a text as byte places, without their line ends.
pub fn physical(alloc: Global, text: &str) -> Result<Vec<Span>, Memory>
    requires { length text.now < 2 ^ 32 }
    // What is given are the physical lines.
    ensures lines { IfOk result (λ spans. ArePhysical text.now spans.items) }
    // And there are no others.
    ensures every { (lines : List Span) → ArePhysical text.now lines → IfOk result (λ spans. spans.items ≡ lines) }
{
    let mut spans = Vec::new(alloc);
    let mut rest = text.as_bytes();
    let mut start = 0;
    while !rest.is_empty() {
        let end = start + run_len(Class::InLine, rest) as u32;
        spans.push(Span { start, end })?;
        let behind = behind_line(rest);
        start += (rest.len() - behind.len()) as u32;
        rest = behind;
    }
    Ok(spans)
}
