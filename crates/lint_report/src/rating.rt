// The report: the lines of the messages, and those that say the score.
ghost use Rattle.std.specs.Prelude.{◌≡◌, ◌≤◌, ◌++◌, [], codes, if◌then◌else◌, IfOk, OnOk, length};
ghost use Rattle.std.specs.List.{repeat};
ghost use Rattle.lint_report.specs.Score.{is_score_printed, rating, rating_lines, score_lines, score_of, whole_report};

use crate::report::report_lines;
use crate::{Findings, ReportLines, score};
use file_list::Reading;
use lint_values::{Memory, Text, Texts};
use options::Options;
use std::alloc::Global;

fn rating(alloc: Global, n: u32) -> Result<Text, Memory>
    ensures { IfOk result (λ text. text ≡ rating n) }
{
    let (whole, tenths, hundredths) = (n / 100, n / 10 % 10, n % 10);
    Ok(Text::from_string(format!(in alloc;
        "Your code has been rated at {whole}.{tenths}{hundredths}/10"
    )?))
}

// A text and a line end.
fn as_line(alloc: Global, text: &str) -> Result<Text, Memory>
    ensures { IfOk result (λ line. line ≡ text.now ++ codes "\n") }
{
    Ok(Text::from_string(format!(in alloc; "{text}\n")?))
}

fn dashes(alloc: Global, count: usize) -> Result<Text, Memory>
    ensures { IfOk result (λ line. line ≡ repeat count (codes "-") ++ codes "\n") }
{
    let dashes = "-".repeat(alloc, count)?;
    as_line(alloc, dashes.as_str())
}

// Adds the lines of a score.
fn push_rating(alloc: Global, n: u32, lines: &mut Texts) -> Result<(), Memory>
    ensures { OnOk result (lines.new ≡ lines.old ++ rating_lines n) }
{
    let rating = rating(alloc, n)?;
    lines.push(as_line(alloc, "")?)?;
    lines.push(dashes(alloc, rating.as_str().len())?)?;
    lines.push(as_line(alloc, rating.as_str())?)?;
    lines.push(as_line(alloc, "")?)?;
    Ok(())
}

// Adds the lines of the score, where there is one.
fn push_score(alloc: Global, found: &Findings, lines: &mut Texts) -> Result<(), Memory>
    ensures { OnOk result (lines.new ≡ lines.old ++ score_lines (score_of found.now)) }
{
    match score(found) {
        None => Ok(()),
        Some(n) => push_rating(alloc, n, lines),
    }
}

fn is_score_printed(options: &Options) -> bool
    ensures { result ≡ is_score_printed options.now }
{
    options.score && !options.errors_only
}

/// The report: the lines of the messages, and those of the score, where there is one and the options print it. A message
/// of a file that the reading lacks has no line.
pub fn text(
    alloc: Global,
    reading: &Reading,
    found: &Findings,
    options: &Options,
) -> Result<ReportLines, Memory>
    ensures { IfOk result (λ lines. lines ≡ whole_report reading.now found.now options.now) }
{
    let mut lines = report_lines(alloc, reading.entries(), found.messages.as_slice())?;
    if is_score_printed(options) {
        push_score(alloc, found, &mut lines)?;
    }
    Ok(lines)
}
