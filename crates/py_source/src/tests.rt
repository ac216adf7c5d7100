use crate::{
    SourceCause, SourceFault, Span, advance, byte_len, characters, decode, physical, pos_at, slice,
    without_mark,
};
use lint_values::Pos;
use std::alloc::Global;
use std::process::Abort;
use std::test::Fail;

/// The bytes are refused for this cause at this place.
fn is_refused(rt: &impl Abort, bytes: &[u8], cause: SourceCause, place: usize) {
    assert_eq!(rt; decode(bytes), Err(SourceFault { place, cause }));
}

#[test]
fn a_file_is_text_or_refused(rt: HostRuntime) -> Result<(), Fail> {
    assert!(rt; decode(b"").is_ok());
    assert!(rt; decode(b"\xef\xbb\xbfx = 1\n") == Ok("x = 1\n"));
    assert!(rt; decode(b"# coding: latin-1\nx = 1\n").is_ok());
    assert!(rt; decode(b"# coding: UTF_8\nx = '\xc3\xa9'\n").is_ok());
    assert!(rt; decode(b"x = 1\n# coding: latin-1\n'\xc3\xa9'\n").is_ok());
    assert!(rt; decode(b"x = 1 # coding: latin-1\n'\xc3\xa9'\n").is_ok());
    assert!(rt; decode(b"# coding latin-1\n'\xc3\xa9'\n").is_ok());
    assert!(rt; decode(b"\n\n# coding: latin-1\n'\xc3\xa9'\n").is_ok());
    is_refused(&rt, b"x\n\xc3(\n", SourceCause::NotUtf8, 2);
    is_refused(&rt, b"\xef\xbb\xbfx\xff\x00", SourceCause::NotUtf8, 1);
    is_refused(&rt, b"\xef\xbb", SourceCause::NotUtf8, 0);
    is_refused(
        &rt,
        b"# coding: latin-1\n\xc3\xa9\x00",
        SourceCause::NulByte,
        20,
    );
    is_refused(
        &rt,
        b"# coding: latin-1\n'\xc3\xa9'\n",
        SourceCause::Coding,
        0,
    );
    is_refused(
        &rt,
        b"#!/usr/bin/python\r\n \x0c# -*- coding=\tlatin-1 -*-\n'\xc3\xa9'\n",
        SourceCause::Coding,
        21,
    );
    is_refused(
        &rt,
        b"# coding: utf-8\r# coding: cp1252\r'\xc3\xa9'\n",
        SourceCause::Coding,
        16,
    );
    is_refused(
        &rt,
        b"# coding= , coding:utf-8-sig\n'\xc3\xa9'\n",
        SourceCause::Coding,
        0,
    );
    is_refused(
        &rt,
        b"\xef\xbb\xbf# coding: ascii\n",
        SourceCause::Coding,
        0,
    );
    assert_eq!(rt; without_mark(b"\xef\xbb\xbfx").len(), 1);
    Ok(())
}

/// The byte stands at this line and column.
fn stands_at(rt: &impl Abort, text: &[u8], place: usize, line: u32, col: u32) {
    assert!(rt; text.len() < 1000);
    assert!(rt; place <= text.len());
    assert_eq!(rt; pos_at(text, place), Pos { line, col });
}

#[test]
fn lines_end_with_lf_crlf_and_cr(rt: HostRuntime) -> Result<(), Fail> {
    let text = "a\r\nb\rc\n\u{e9}x";
    stands_at(&rt, text.as_bytes(), 0, 1, 0);
    stands_at(&rt, text.as_bytes(), 2, 1, 2);
    stands_at(&rt, text.as_bytes(), 3, 2, 0);
    stands_at(&rt, text.as_bytes(), 5, 3, 0);
    stands_at(&rt, text.as_bytes(), 7, 4, 0);
    stands_at(&rt, text.as_bytes(), 9, 4, 2);
    Ok(())
}

/// The text has these physical lines, each given by its start and its end.
fn has_lines(rt: &impl Abort, alloc: Global, text: &str, lines: &[Span]) -> Result<(), Fail> {
    assert!(rt; text.len() < 1000);
    let found = physical(alloc, text)?;
    assert_eq!(rt; found.as_slice(), lines);
    Ok(())
}

fn line(start: u32, end: u32) -> Span {
    Span { start, end }
}

#[test]
fn nothing_stands_behind_a_last_line_end(rt: HostRuntime) -> Result<(), Fail> {
    let alloc = rt.alloc();
    has_lines(&rt, alloc, "", [].as_slice())?;
    has_lines(&rt, alloc, "x", [line(0, 1)].as_slice())?;
    has_lines(&rt, alloc, "x\n", [line(0, 1)].as_slice())?;
    has_lines(
        &rt,
        alloc,
        "x\r\n\n\r\u{e9}",
        [line(0, 1), line(3, 3), line(4, 4), line(5, 7)].as_slice(),
    )?;
    Ok(())
}

#[test]
fn columns_count_bytes(rt: HostRuntime) -> Result<(), Fail> {
    let all = characters(rt.alloc(), "\u{e9}\u{1d54f}\r\nx")?;
    let start = Pos { line: 1, col: 0 };
    let rows = [(1, 1, 2), (2, 1, 6), (3, 1, 7), (4, 2, 0), (5, 2, 1)];
    for (count, line, col) in rows {
        moves_to(&rt, start, all.as_slice(), count, Pos { line, col });
    }
    Ok(())
}

/// So many characters lead from the place to the other.
#[tactic(auto, using(crate::proofs::Encoding::encodes_bound, crate::proofs::Encoding::encodes_front))]
fn moves_to(rt: &impl Abort, from: Pos, characters: &[char], count: usize, to: Pos) {
    assert!(rt; characters.len() < 1000);
    assert!(rt; count <= characters.len());
    assert!(rt; from.line < 1000);
    assert!(rt; from.col < 1000);
    assert_eq!(rt; advance(from, characters, count), to);
}

/// The characters take so many bytes.
#[tactic(auto, using(crate::proofs::Encoding::encodes_bound))]
fn takes_bytes(rt: &impl Abort, characters: &[char], len: usize) {
    assert!(rt; characters.len() < 1000);
    assert_eq!(rt; byte_len(characters), len);
}

/// The text holds the part at the span.
fn holds_part(rt: &impl Abort, text: &str, span: Span, part: &str) {
    assert!(rt; span.start <= span.end);
    assert!(rt; text.is_char_boundary(span.start as usize));
    assert!(rt; text.is_char_boundary(span.end as usize));
    assert_eq!(rt; slice(text, span), part);
}

#[test]
fn a_slice_is_between_its_places(rt: HostRuntime) -> Result<(), Fail> {
    holds_part(&rt, "a\u{e9}b", line(1, 3), "\u{e9}");
    let all = characters(rt.alloc(), "\u{e9}x")?;
    takes_bytes(&rt, all.as_slice(), 3);
    Ok(())
}
