// The first line that stands against a rule of blocks.
ghost use Rattle.std.specs.Prelude.{◌≡◌, ◌+◌, ◌&&◌, ◌||◌, not, nat_lt, nat_eq, ◌<◌, length, IfOk, IfSome, MatchOption};
ghost use Rattle.py_blocks.specs.Rules.{AreRight, IsFirstFault};
ghost use Rattle.std.specs.List.{list_all};
ghost use Rattle.py_blocks.specs.Heads as heads;
ghost use Rattle.py_blocks.specs.Rules as spec;
ghost use Rattle.py_blocks.specs.declared.fault.BlockCause.TheVariants as causes;

use crate::heads::{
    has_opener, is_case, is_decorated, is_decorator, is_handling, is_match, is_opened_try, is_try,
};
use crate::standing::{Around, leave, put};
use crate::{BlockCause, BlockFault, Line};
use lint_values::Memory;
use std::alloc::Global;

/// The first line that stands against a rule of blocks, with its first cause. Where more text comes behind the lines,
/// `is_whole` is false, and the rules on the end wait for it.
pub fn first_fault(
    alloc: Global,
    lines: &[Line],
    is_whole: bool,
) -> Result<Option<BlockFault>, Memory>
    ensures fault { IfOk result (λ fault. fault ≡ spec.first_fault is_whole lines.now) }
    ensures first { IfOk result (λ fault. MatchOption fault (AreRight is_whole lines.now) (IsFirstFault is_whole lines.now)) }
    ensures place { IfOk result (λ fault. IfSome fault (λ fault. fault.place < length lines.now)) }
{
    let mut standing = Vec::new(alloc);
    let mut previous = None;
    let mut place = 0usize;
    let mut rest = lines;
    while let [line, later @ ..] = rest {
        let around = leave(&mut standing, previous, line.level);
        if let Some(cause) = cause_at(is_whole, around, *line, later) {
            return Ok(Some(BlockFault { place, cause }));
        }
        put(&mut standing, *line, around.elder)?;
        previous = Some(*line);
        place += 1;
        rest = later;
    }
    Ok(None)
}

/// The first of the causes that a line has.
fn cause_at(is_whole: bool, around: Around, line: Line, later: &[Line]) -> Option<BlockCause>
    ensures { result ≡ spec.cause_at is_whole around line later.now }
{
    if is_unexpected(around, line) {
        Some(BlockCause::Unexpected)
    } else if needs_block(is_whole, around, line, later) {
        Some(BlockCause::NeedsBlock)
    } else if lacks_company(is_whole, around, line, later) {
        Some(BlockCause::Follows)
    } else {
        None
    }
}

fn level_of(previous: Option<Line>) -> u32
    ensures { result ≡ spec.level_of previous }
{
    match previous {
        Some(line) => line.level,
        None => 0,
    }
}

fn opens(previous: Option<Line>) -> bool
    ensures { result ≡ spec.opens previous }
{
    match previous {
        Some(line) => line.is_open,
        None => false,
    }
}

fn decorates(previous: Option<Line>) -> bool
    ensures { result ≡ spec.decorates previous }
{
    match previous {
        Some(line) => is_decorator(line.head),
        None => false,
    }
}

fn is_deeper(around: Around, line: Line) -> bool
    ensures { result ≡ spec.is_deeper around line }
{
    level_of(around.previous) < line.level
}

fn is_unexpected(around: Around, line: Line) -> bool
    ensures { result ≡ spec.is_unexpected around line }
{
    is_deeper(around, line) && !begins_block(around, line)
}

fn begins_block(around: Around, line: Line) -> bool
    ensures { result ≡ spec.begins_block around line }
{
    opens(around.previous) && is_one_deeper(level_of(around.previous), line.level)
}

fn is_one_deeper(before: u32, level: u32) -> bool
    ensures { result ≡ nat_eq level (before + 1) }
{
    level > 0 && level - 1 == before
}

fn needs_block(is_whole: bool, around: Around, line: Line, later: &[Line]) -> bool
    ensures { result ≡ spec.breaks is_whole causes.NeedsBlock around line later.now }
{
    misses_block(around, line) || is_no_case(around, line) || (is_whole && ends_open(line, later))
}

fn misses_block(around: Around, line: Line) -> bool
    ensures { result ≡ spec.misses_block around line }
{
    opens(around.previous) && !is_deeper(around, line)
}

fn is_no_case(around: Around, line: Line) -> bool
    ensures { result ≡ spec.is_no_case around line }
{
    is_match(around.under) && !is_case(line.head)
}

fn ends_open(line: Line, later: &[Line]) -> bool
    ensures { result ≡ spec.ends_open line later.now }
{
    match later {
        [] => line.is_open,
        [_next, ..] => false,
    }
}

/// Whether a clause lacks its opener, or what must be followed by something else is not.
fn lacks_company(is_whole: bool, around: Around, line: Line, later: &[Line]) -> bool
    ensures { result ≡ spec.breaks is_whole causes.Follows around line later.now }
{
    lacks_opener(around, line)
        || is_stray_case(around, line)
        || leaves_decorator(around, line)
        || leaves_lone_try(around, line)
        || (is_whole && is_left_alone(around, line, later))
}

fn lacks_opener(around: Around, line: Line) -> bool
    ensures { result ≡ spec.lacks_opener around line }
{
    !has_opener(line.head, around.elder, around.behind)
}

fn is_stray_case(around: Around, line: Line) -> bool
    ensures { result ≡ spec.is_stray_case around line }
{
    is_case(line.head) && !is_match(around.under)
}

fn is_behind_decorator(around: Around, line: Line) -> bool
    ensures { result ≡ spec.is_behind_decorator around line }
{
    decorates(around.previous) && level_of(around.previous) == line.level
}

fn leaves_decorator(around: Around, line: Line) -> bool
    ensures { result ≡ spec.leaves_decorator around line }
{
    decorates(around.previous) && !goes_on_decorated(around, line)
}

fn goes_on_decorated(around: Around, line: Line) -> bool
    ensures { result ≡ (spec.is_behind_decorator around line && heads.is_decorated line.head) }
{
    is_behind_decorator(around, line) && is_decorated(line.head)
}

fn leaves_lone_try(around: Around, line: Line) -> bool
    ensures { result ≡ spec.leaves_lone_try around line }
{
    around.leaves_try || leaves_elder_try(around, line)
}

fn leaves_elder_try(around: Around, line: Line) -> bool
    ensures { result ≡ (heads.is_opened_try around.elder && not (heads.is_handling line.head)) }
{
    is_opened_try(around.elder) && !is_handling(line.head)
}

fn is_left_alone(around: Around, line: Line, later: &[Line]) -> bool
    ensures { result ≡ (spec.ends_try line later.now || spec.ends_decorators around line later.now) }
{
    ends_try(line, later) || ends_decorators(around, line, later)
}

fn ends_try(line: Line, later: &[Line]) -> bool
    ensures { result ≡ spec.ends_try line later.now }
{
    is_try(line.head) && are_deeper(line.level, later)
}

fn are_deeper(level: u32, lines: &[Line]) -> bool
    ensures { result ≡ list_all (λ next. nat_lt level next.level) lines.now }
{
    lines.iter().all(|next| level < next.level)
}

fn ends_decorators(around: Around, line: Line, later: &[Line]) -> bool
    ensures { result ≡ spec.ends_decorators around line later.now }
{
    is_decorator(line.head)
        && !is_behind_decorator(around, line)
        && are_decorators(line.level, later)
}

fn are_decorators(level: u32, lines: &[Line]) -> bool
    ensures { result ≡ list_all (λ next. heads.is_decorator next.head && nat_eq next.level level) lines.now }
{
    lines.iter().all(|next| is_decorator_at(level, *next))
}

fn is_decorator_at(level: u32, line: Line) -> bool
    ensures { result ≡ (heads.is_decorator line.head && nat_eq line.level level) }
{
    is_decorator(line.head) && line.level == level
}
