// Whole runs of the command over files and sinks in memory.
use crate::{Answer, lint_command};
use file_list::Reading;
use lint_base::{Files, MemFiles, MemSink, OpenGate, Text};
use options::{Edits, Options};
use std::alloc::Global;
use std::process::Abort;
use std::test::Fail;
use std::thread::Threads;

mod failing;
mod flow;
mod limits;
mod made;
mod names;
mod pragmas;
mod sources;
mod words;

const ROOM: u32 = 1_048_576;

// The last four lines of a report with the best score.
const BEST: &str =
    "\n------------------------------------\nYour code has been rated at 10.00/10\n\n";

fn texts(alloc: Global, words: &[&str]) -> Result<Vec<Text>, Fail> {
    let mut texts = Vec::new(alloc);
    for word in words {
        texts.push(Text::from_str(alloc, word)?)?;
    }
    Ok(texts)
}

fn held(alloc: Global, path: &str, bytes: &[u8]) -> Result<MemFiles, Fail> {
    let mut files = MemFiles::new(alloc);
    files.put_file(alloc, &Text::from_str(alloc, path)?, bytes)?;
    Ok(files)
}

// What the command prints and answers over these files.
fn runs<R: Abort + Threads + Sync, F: Files>(
    rt: &R,
    alloc: Global,
    words: &[&str],
    files: &mut F,
    printed: &str,
    reported: &str,
    status: u8,
) -> Result<(), Fail> {
    let mut out = MemSink::new(alloc, ROOM)?;
    let mut err = MemSink::new(alloc, ROOM)?;
    let words = texts(alloc, words)?;
    let outcome = lint_command(rt, alloc, &words, files, &mut out, &mut err, &OpenGate);
    assert_eq!(rt; outcome.answer, Answer::Ran(status), "{printed}");
    assert_eq!(rt; out.bytes(), printed.as_bytes(), "{printed}");
    assert_eq!(rt; err.bytes(), reported.as_bytes(), "{printed}");
    Ok(())
}

// The words of a row, which stand between blanks.
fn split(alloc: Global, row: &str) -> Result<Vec<&str>, Fail> {
    let mut words = Vec::new(alloc);
    for word in row.split(' ') {
        words.push(word)?;
    }
    Ok(words)
}

fn hex_digit(b: u8) -> u8 {
    match b {
        b'0'..=b'9' => b - b'0',
        b'a'..=b'f' => b - b'a' + 10,
        _ => 0,
    }
}

fn push_spelled(bytes: &mut Vec<u8>, part: &[u8]) -> Result<(), Fail> {
    for b in part {
        bytes.push(match *b {
            b'~' => b'\n',
            b'^' => b'\t',
            b => b,
        })?;
    }
    Ok(())
}

// The bytes of a row: `~` stands for a line end, `^` for a tab, and two digits behind `%` for a byte.
fn spelled(alloc: Global, row: &str) -> Result<Vec<u8>, Fail> {
    let mut bytes = Vec::new(alloc);
    let mut is_first = true;
    for part in row.as_bytes().split(|b| *b == b'%') {
        match part {
            [high, low, rest @ ..] if !is_first => {
                bytes.push((hex_digit(*high) << 4) | hex_digit(*low))?;
                push_spelled(&mut bytes, rest)?;
            }
            _ => push_spelled(&mut bytes, part)?,
        }
        is_first = false;
    }
    Ok(bytes)
}

// The lines of a score, or none where there is no score.
fn score_lines(alloc: Global, score: &str) -> Result<String, Fail> {
    let mut lines = String::new(alloc);
    if score.is_empty() {
        return Ok(lines);
    }
    let rated = format!(in alloc; "Your code has been rated at {score}/10\n\n")?;
    lines.push('\n')?;
    for _ in 2..rated.len() {
        lines.push('-')?;
    }
    lines.push('\n')?;
    lines.push_str(rated.as_str())?;
    Ok(lines)
}

// What the command prints for a report and its score over these files.
fn reports<R: Abort + Threads + Sync, F: Files>(
    rt: &R,
    alloc: Global,
    words: &[&str],
    files: &mut F,
    report: &[u8],
    score: &str,
    status: &str,
) -> Result<(), Fail> {
    let score = score_lines(alloc, score)?;
    let printed = match str::from_utf8(report) {
        Ok(report) => format!(in alloc; "{report}{}", score.as_str())?,
        Err(_) => String::new(alloc),
    };
    let status = status.parse().unwrap_or(u8::MAX);
    runs(rt, alloc, words, files, printed.as_str(), "", status)
}

// A row is words, the last of them a path, the source that stands there, the report, the score and the status, with a bar
// between them.
fn report_rows<R: Abort + Threads + Sync>(rt: &R, alloc: Global, rows: &str) -> Result<(), Fail> {
    for row in rows.split('\n') {
        let (words, rest) = row.split_once('|').unwrap_or((row, ""));
        let (source, rest) = rest.split_once('|').unwrap_or((rest, ""));
        let (report, rest) = rest.split_once('|').unwrap_or((rest, ""));
        let (score, status) = rest.split_once('|').unwrap_or((rest, "no row"));
        let words = split(alloc, words)?;
        let path = words.last().copied().unwrap_or("");
        let mut files = held(alloc, path, &spelled(alloc, source)?)?;
        let report = spelled(alloc, report)?;
        reports(rt, alloc, &words, &mut files, &report, score, status)?;
    }
    Ok(())
}

// What may be lent to a thread and handed to one.
fn crosses_threads<T: Send + Sync>(_value: &T) {}

#[test]
fn what_workers_share_crosses_threads(rt: HostRuntime) -> Result<(), Fail> {
    let alloc = rt.alloc();
    crosses_threads(&Reading::new(alloc));
    crosses_threads(&Options::of(alloc, &Edits::new(alloc), &Edits::new(alloc))?);
    Ok(())
}
