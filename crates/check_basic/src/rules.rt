// The rules on a line.
ghost use Rattle.std.specs.Prelude.{◌≡◌, ◌<◌, ◌≤◌, ◌^◌, ◌++◌, ◌∷◌, [], length, IfOk, OnOk};
ghost use Rattle.std.specs.Fmt.{decimal};
ghost use Rattle.check_basic.specs.LineRules.{is_trailing, trailing_len, is_blank, without_blanks, behind, begins_as_address, has_no_blank, is_address_line, message, line_too_long, too_many_lines, trailing_whitespace, line_messages};

use crate::lines::char_count;
use lint_messages::{Code, Message, Messages};
use lint_values::{FileId, Memory, Pos, Text, Texts};
use std::alloc::Global;

fn is_trailing(b: u8) -> bool
    ensures { result ≡ is_trailing b }
{
    b == b' ' || b == b'\t' || b == 0x0b
}

fn is_blank(b: u8) -> bool
    ensures { result ≡ is_blank b }
{
    b == b' ' || b == b'\t'
}

// How many blanks end a line.
fn trailing_len(line: &[u8]) -> usize
    ensures len { result ≡ trailing_len line.now }
    ensures bound { result ≤ length line.now }
{
    let mut end = line.len();
    while end > 0 && is_trailing(line[end - 1]) {
        end -= 1;
    }
    line.len() - end
}

fn without_blanks(line: &[u8]) -> &[u8]
    ensures { result.now ≡ without_blanks line.now }
{
    let mut rest = line;
    while let [b' ' | b'\t', after @ ..] = rest {
        rest = after;
    }
    rest
}

// The rest behind a text that may stand in front.
fn behind<'a>(front: &[u8], line: &'a [u8]) -> &'a [u8]
    ensures { result.now ≡ behind front.now line.now }
{
    if line.starts_with(front) {
        &line[front.len()..]
    } else {
        line
    }
}

fn begins_as_address(rest: &[u8]) -> bool
    ensures { result ≡ begins_as_address rest.now }
{
    rest.starts_with(b"http://") || rest.starts_with(b"https://")
}

fn has_no_blank(rest: &[u8]) -> bool
    ensures { result ≡ has_no_blank rest.now }
{
    rest.iter().all(|b| !is_blank(*b))
}

fn is_address_line(line: &[u8]) -> bool
    ensures { result ≡ is_address_line line.now }
{
    let rest = behind(b"<", behind(b"# ", without_blanks(line)));
    begins_as_address(rest) && has_no_blank(rest)
}

fn number_text(alloc: Global, n: usize) -> Result<Text, Memory>
    ensures { IfOk result (λ text. text ≡ decimal n) }
{
    Ok(Text::from_string(format!(in alloc; "{n}")?))
}

// A message with no argument.
pub(crate) fn plain_message(alloc: Global, file: FileId, line: u32, col: u32, code: Code) -> Message
    ensures { result ≡ message file line col code [] }
{
    Message {
        file,
        node: None,
        pos: Pos { line, col },
        code,
        args: Texts::new(alloc),
    }
}

// Too many characters, unless the line is an address.
fn check_length(
    alloc: Global,
    most: u32,
    file: FileId,
    number: u32,
    line: &[u8],
    found: &mut Messages,
) -> Result<(), Memory>
    ensures { OnOk result (found.new ≡ found.old ++ line_too_long most file number line.now) }
{
    let count = char_count(line);
    if count <= most as usize || is_address_line(line) {
        return Ok(());
    }
    let mut args = Texts::new(alloc);
    args.push(number_text(alloc, count)?)?;
    args.push(number_text(alloc, most as usize)?)?;
    found.push(Message {
        file,
        node: None,
        pos: Pos {
            line: number,
            col: 0,
        },
        code: Code::LineTooLong,
        args,
    })
}

// More lines than a module may have.
pub(crate) fn check_count(
    alloc: Global,
    most: u32,
    file: FileId,
    count: u32,
    found: &mut Messages,
) -> Result<(), Memory>
    ensures { OnOk result (found.new ≡ found.old ++ too_many_lines most file count) }
{
    if count <= most {
        return Ok(());
    }
    let mut args = Texts::new(alloc);
    args.push(number_text(alloc, count as usize)?)?;
    args.push(number_text(alloc, most as usize)?)?;
    found.push(Message {
        file,
        node: None,
        pos: Pos { line: 1, col: 0 },
        code: Code::TooManyLines,
        args,
    })
}

// Blanks at the line's end.
fn check_end(
    alloc: Global,
    file: FileId,
    number: u32,
    line: &[u8],
    found: &mut Messages,
) -> Result<(), Memory>
    requires { length line.now < 2 ^ 32 }
    ensures { OnOk result (found.new ≡ found.old ++ trailing_whitespace file number line.now) }
{
    let blanks = trailing_len(line);
    if blanks == 0 {
        return Ok(());
    }
    let col = char_count(&line[..line.len() - blanks]) as u32;
    found.push(plain_message(alloc, file, number, col, Code::TrailingWhitespace))
}

// Adds the messages of a line.
pub(crate) fn check_line(
    alloc: Global,
    most: u32,
    file: FileId,
    number: u32,
    line: &[u8],
    found: &mut Messages,
) -> Result<(), Memory>
    requires { length line.now < 2 ^ 32 }
    ensures { OnOk result (found.new ≡ found.old ++ line_messages most file number line.now) }
{
    check_length(alloc, most, file, number, line, found)?;
    check_end(alloc, file, number, line, found)?;
    Ok(())
}
