// Logical lines.
ghost use Rattle.std.specs.Prelude.{◌≡◌, ◌<◌, ◌≤◌, ◌^◌, ◌+◌, length, reverse, vec_len, IfErr, IfOk, OnOk};
ghost use Rattle.py_layout.specs.LogicalLines.{indentation_of, is_token, line_of, lines_of, token_count};
ghost use Rattle.py_layout.specs.Indentation.{ground, levelled};
ghost use Rattle.py_layout.specs.Answers.{AddsLine, GivesLines, IsLineWithin, line_fault_at};
ghost use Rattle.py_layout.specs.Parts.{part_len};

use crate::fault::IndentationCause;
use crate::indentation::{EnterFault, enter};
use crate::item::{Item, Widths};
use std::alloc::Global;

/// A logical line: the number of its first token, of the token behind its last, and its indentation level, from 0.
#[derive(Clone, Copy, Debug, PartialEq, Eq)]
pub struct Logical {
    pub first: usize,
    pub end: usize,
    pub level: u32,
}

#[derive(Debug, Drop)]
pub(crate) enum LineFault {
    At(usize, IndentationCause),
    Memory,
}

/// How many items stand up to and with the first line end outside brackets.
fn part_len(items: &[Item]) -> usize
    ensures value { result ≡ part_len 0 items.now }
    ensures within { result ≤ length items.now }
    ensures some { 0 < length items.now → 0 < result }
{
    let mut depth: usize = 0;
    let mut len = 0;
    let mut rest = items;
    while let [item, tail @ ..] = rest {
        len += 1;
        match *item {
            Item::LineEnd => {
                if depth == 0 {
                    return len;
                }
            }
            Item::Open(_) => depth += 1,
            Item::Close(_) => depth = depth.saturating_sub(1),
            _ => {}
        }
        rest = tail;
    }
    len
}

fn is_token(item: Item) -> bool
    ensures { result ≡ is_token item }
{
    matches!(
        item,
        Item::Open(_) | Item::Close(_) | Item::Plain | Item::Stop
    )
}

fn token_count(part: &[Item]) -> usize
    ensures value { result ≡ token_count part.now }
    ensures within { result ≤ length part.now }
{
    part.iter().filter(|item| is_token(**item)).count()
}

fn indentation_of(part: &[Item]) -> Widths
    ensures { result ≡ indentation_of part.now }
{
    match part {
        [Item::Blank(widths), ..] => *widths,
        _ => Widths { wide: 0, narrow: 0 },
    }
}

fn line_fault_at(place: usize, fault: EnterFault) -> LineFault
    ensures value { result ≡ line_fault_at place fault }
    ensures here { IsLineWithin (place + 1) result }
{
    match fault {
        EnterFault::Cause(cause) => LineFault::At(place, cause),
        EnterFault::Memory => LineFault::Memory,
    }
}

/// Adds the logical line of a part, where it holds a token, and says how many it holds.
fn add_line(
    stack: &mut Vec<Widths>,
    lines: &mut Vec<Logical>,
    place: usize,
    token: usize,
    part: &[Item],
) -> Result<usize, LineFault>
    requires few { vec_len stack.old ≤ 100 }
    requires tokens { token + length part.now < 2 ^ 64 }
    ensures added { AddsLine result (reverse stack.old.items) (line_of place token part.now) (reverse stack.new.items) lines.old.items lines.new.items }
    ensures few { OnOk result (vec_len stack.new ≤ 100) }
    ensures count { IfOk result (λ n. n ≡ token_count part.now) }
    ensures within { IfOk result (λ n. n ≤ length part.now) }
    ensures here { IfErr result (IsLineWithin (place + 1)) }
{
    let count = token_count(part);
    if count == 0 {
        return Ok(0);
    }
    if let Err(fault) = enter(stack, indentation_of(part)) {
        return Err(line_fault_at(place, fault));
    }
    let line = Logical {
        first: token,
        end: token + count,
        level: (stack.len() - 1) as u32,
    };
    match lines.push(line) {
        Ok(()) => Ok(count),
        Err(_) => Err(LineFault::Memory),
    }
}

/// The logical lines of the items with their levels, or the first that has none.
pub(crate) fn lines_of(alloc: Global, items: &[Item]) -> Result<Vec<Logical>, LineFault>
    ensures value { GivesLines result (levelled ground (lines_of items.now)) }
    ensures within { IfErr result (IsLineWithin (length items.now)) }
{
    let mut stack = Vec::new(alloc);
    if stack.push(Widths { wide: 0, narrow: 0 }).is_err() {
        return Err(LineFault::Memory);
    }
    let mut lines = Vec::new(alloc);
    let mut place = 0;
    let mut token = 0;
    let mut rest = items;
    while !rest.is_empty() {
        let (part, behind) = rest.split_at(part_len(rest));
        match add_line(&mut stack, &mut lines, place, token, part) {
            Ok(count) => token += count,
            Err(fault) => return Err(fault),
        }
        place += part.len();
        rest = behind;
    }
    Ok(lines)
}
