use py_layout::{
    Bracket, IndentationCause, Item, ItemCause, LayoutCause, LayoutFault, Logical, Widths,
    is_head_behind, layout, widths_of,
};
use std::alloc::Global;
use std::process::Abort;
use std::test::Fail;

/// The items that letters stand for: `x` a token, `.` a stop, `;` a line end, `\` a join, `#` a comment, brackets, and
/// digits and letters from `t` for blanks at a line's head.
fn item_of(letter: char) -> Item {
    match letter {
        '(' => Item::Open(Bracket::Round),
        '[' => Item::Open(Bracket::Square),
        '{' => Item::Open(Bracket::Curly),
        ')' => Item::Close(Bracket::Round),
        ']' => Item::Close(Bracket::Square),
        '}' => Item::Close(Bracket::Curly),
        ';' => Item::LineEnd,
        '\\' => Item::Join,
        '#' => Item::Comment,
        '.' => Item::Stop,
        '0' => blank(0, 0),
        '1' => blank(1, 1),
        '2' => blank(2, 2),
        '4' => blank(4, 4),
        '8' => blank(8, 8),
        't' => blank(8, 1),
        'u' => blank(16, 2),
        'v' => blank(16, 9),
        _ => Item::Plain,
    }
}

fn blank(wide: u64, narrow: u64) -> Item {
    Item::Blank(Widths { wide, narrow })
}

fn items_of(alloc: Global, letters: &str) -> Result<Vec<Item>, Fail> {
    let mut items = Vec::new(alloc);
    for letter in letters.chars() {
        items.push(item_of(letter))?;
    }
    Ok(items)
}

/// The items have these logical lines, each given by its first token, the token behind its last, and its level.
fn is_laid_out(
    rt: &impl Abort,
    alloc: Global,
    letters: &str,
    lines: &[(usize, usize, u32)],
) -> Result<(), Fail> {
    let items = items_of(alloc, letters)?;
    match layout(alloc, items.as_slice()) {
        Ok(found) => {
            assert_eq!(rt; found.len(), lines.len(), "{letters}");
            for (line, (first, end, level)) in found.iter().zip(lines) {
                assert_eq!(rt;
                    *line,
                    Logical {
                        first: *first,
                        end: *end,
                        level: *level
                    },
                    "{letters}"
                );
            }
        }
        Err(_) => assert!(rt; false, "{letters}"),
    }
    Ok(())
}

/// The first fault of the items stands at this item.
fn is_refused(
    rt: &impl Abort,
    alloc: Global,
    letters: &str,
    place: usize,
    cause: LayoutCause,
) -> Result<(), Fail> {
    let items = items_of(alloc, letters)?;
    match layout(alloc, items.as_slice()) {
        Err(LayoutFault::At(at, found)) => {
            assert_eq!(rt; at, place, "{letters}");
            assert_eq!(rt; found, cause, "{letters}");
        }
        _ => assert!(rt; false, "{letters}"),
    }
    Ok(())
}

#[test]
fn lines_end_outside_brackets(rt: HostRuntime) -> Result<(), Fail> {
    let alloc = rt.alloc();
    is_laid_out(&rt, alloc, "", [].as_slice())?;
    is_laid_out(&rt, alloc, "x", [(0, 1, 0)].as_slice())?;
    is_laid_out(&rt, alloc, ";2#;x;", [(0, 1, 0)].as_slice())?;
    is_laid_out(
        &rt,
        alloc,
        "x(;4[x;];{;}x);x;",
        [(0, 9, 0), (9, 10, 0)].as_slice(),
    )?;
    is_laid_out(
        &rt,
        alloc,
        "x;4x(;8x;2#;);x;",
        [(0, 1, 0), (1, 5, 1), (5, 6, 0)].as_slice(),
    )?;
    is_laid_out(&rt, alloc, "x\\8x;x", [(0, 2, 0), (2, 3, 0)].as_slice())?;
    is_laid_out(
        &rt,
        alloc,
        "x;4\\2x;4x;",
        [(0, 1, 0), (1, 2, 1), (2, 3, 1)].as_slice(),
    )?;
    is_laid_out(
        &rt,
        alloc,
        "x;\\4x;x;",
        [(0, 1, 0), (1, 2, 0), (2, 3, 0)].as_slice(),
    )?;
    Ok(())
}

#[test]
fn levels_go_by_a_stack_of_widths(rt: HostRuntime) -> Result<(), Fail> {
    let alloc = rt.alloc();
    is_laid_out(
        &rt,
        alloc,
        "x;2x;4x;;1#;4x;2x;x;",
        [
            (0, 1, 0),
            (1, 2, 1),
            (2, 3, 2),
            (3, 4, 2),
            (4, 5, 1),
            (5, 6, 0),
        ]
        .as_slice(),
    )?;
    is_laid_out(
        &rt,
        alloc,
        "x;tx;ux;tx;",
        [(0, 1, 0), (1, 2, 1), (2, 3, 2), (3, 4, 1)].as_slice(),
    )?;
    is_laid_out(
        &rt,
        alloc,
        "x;4x;0x;",
        [(0, 1, 0), (1, 2, 1), (2, 3, 0)].as_slice(),
    )?;
    let dedent = LayoutCause::AtLine(IndentationCause::Dedent);
    let tab_mix = LayoutCause::AtLine(IndentationCause::TabMix);
    is_refused(&rt, alloc, "x;4x;2x;", 5, dedent)?;
    is_refused(&rt, alloc, "x;tx;8x;", 5, tab_mix)?;
    is_refused(&rt, alloc, "x;8x;tx;", 5, tab_mix)?;
    is_refused(&rt, alloc, "x;8x;ux;", 5, tab_mix)?;
    is_laid_out(
        &rt,
        alloc,
        "x;8x;vx;",
        [(0, 1, 0), (1, 2, 1), (2, 3, 2)].as_slice(),
    )?;
    is_refused(&rt, alloc, "x;4x;;2\\4x;", 6, dedent)?;
    Ok(())
}

#[test]
fn the_first_fault_is_answered(rt: HostRuntime) -> Result<(), Fail> {
    let alloc = rt.alloc();
    let dedent = LayoutCause::AtLine(IndentationCause::Dedent);
    let stopped = LayoutCause::AtItem(ItemCause::Stopped);
    let closed = LayoutCause::AtItem(ItemCause::CloseBracket);
    is_refused(&rt, alloc, "x(;", 1, LayoutCause::OpenBracket)?;
    is_refused(&rt, alloc, "([x]", 0, LayoutCause::OpenBracket)?;
    is_refused(&rt, alloc, ")", 0, closed)?;
    is_refused(&rt, alloc, "(]", 1, closed)?;
    is_refused(&rt, alloc, "(x.", 2, stopped)?;
    is_refused(&rt, alloc, "(x)).", 3, closed)?;
    is_refused(&rt, alloc, "x;4x;2)", 5, dedent)?;
    is_refused(&rt, alloc, "x;4x;2.", 5, dedent)?;
    is_refused(&rt, alloc, "x;4x;).2x;", 5, closed)?;
    is_refused(&rt, alloc, "x;4(;2x;", 3, LayoutCause::OpenBracket)?;
    Ok(())
}

#[test]
fn depths_are_limited(rt: HostRuntime) -> Result<(), Fail> {
    let alloc = rt.alloc();
    let mut items = Vec::new(alloc);
    for _ in 0..201 {
        items.push(Item::Open(Bracket::Round))?;
    }
    match layout(alloc, items.as_slice()) {
        Err(LayoutFault::At(place, cause)) => {
            assert_eq!(rt; place, 200);
            assert_eq!(rt; cause, LayoutCause::AtItem(ItemCause::TooDeep));
        }
        _ => assert!(rt; false),
    }
    Ok(())
}

#[test]
fn widths_of_blanks(rt: HostRuntime) -> Result<(), Fail> {
    let rows = [
        ([' ', ' ', '\t'], 8, 3),
        (['\t', ' ', '\t'], 16, 3),
        ([' ', '\x0c', ' '], 1, 1),
    ];
    for (blanks, wide, narrow) in rows {
        assert_eq!(rt; widths_of(blanks.as_slice()), Widths { wide, narrow });
    }
    assert!(rt; is_head_behind(is_head_behind(false, Item::Join), blank(4, 4)));
    assert!(rt; !is_head_behind(true, Item::Plain));
    Ok(())
}
