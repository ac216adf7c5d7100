ghost use Rattle.std.specs.Prelude.{◌≡◌, ◌<◌, true};

use file_list::{Entry, Reading};
use lint_messages::{Code, Message, Messages};
use lint_report::{Findings, ReportLines, score, status, text};
use lint_values::{FileId, Pos, Text, Texts};
use options::{Edits, Options, read_words};
use std::alloc::Global;
use std::process::Abort;
use std::test::Fail;

// A code of the category.
fn code_of(category: char) -> Code {
    match category {
        'F' => Code::Fatal,
        'E' => Code::SyntaxError,
        'W' => Code::UnnecessaryPass,
        _ => Code::TrailingWhitespace,
    }
}

// So many statements, and a message of each of these categories.
fn found(alloc: Global, statements: u64, categories: &str) -> Result<Findings, Fail> {
    let mut messages = Messages::new(alloc);
    for category in categories.chars() {
        messages.push(Message {
            file: FileId(0),
            node: None,
            pos: Pos { line: 2, col: 5 },
            code: code_of(category),
            args: Texts::new(alloc),
        })?;
    }
    Ok(Findings {
        messages,
        statements,
    })
}

// The expected scores are 1000 (s - p) / s by Python's fractions, rounded by its round.
#[test]
fn scores_are_rounded_to_even(rt: HostRuntime) -> Result<(), Fail> {
    let rows: [(u64, &str, Option<u32>); 16] = [
        (0, "", None),
        (0, "E", None),
        (1, "", Some(1000)),
        (1, "C", Some(0)),
        (1, "CC", Some(0)),
        (16, "CCC", Some(812)),
        (16, "C", Some(938)),
        (16, "CCCCC", Some(688)),
        (16, "WWWWWWW", Some(562)),
        (3, "C", Some(667)),
        (3, "CW", Some(333)),
        (5, "E", Some(0)),
        (6, "E", Some(167)),
        (10, "EC", Some(400)),
        (1000, "F", Some(0)),
        (100000, "C", Some(1000)),
    ];
    for (statements, categories, expected) in rows {
        let found = found(rt.alloc(), statements, categories)?;
        assert_eq!(rt; score(&found), expected, "{statements} {categories}");
    }
    Ok(())
}

// The options of these words, which stand between bars.
fn options_of(alloc: Global, words: &str) -> Result<Options, Fail> {
    let mut split = Vec::new(alloc);
    for word in words.split('|') {
        split.push(Text::from_str(alloc, word)?)?;
    }
    split.push(Text::from_str(alloc, "a.py")?)?;
    match read_words(alloc, &split) {
        Ok(line) => Ok(Options::of(alloc, &Edits::new(alloc), &line.edits)?),
        Err(_) => Ok(Options::of(alloc, &Edits::new(alloc), &Edits::new(alloc))?),
    }
}

#[test]
fn first_case_decides_the_status(rt: HostRuntime) -> Result<(), Fail> {
    let alloc = rt.alloc();
    let rows: [(&str, u64, &str, u8); 18] = [
        ("", 0, "", 0),
        ("", 0, "C", 16),
        ("", 1, "", 0),
        ("", 16, "CCC", 16),
        ("", 16, "CW", 20),
        ("", 100000, "C", 16),
        ("--exit-zero", 0, "FE", 0),
        ("--fail-under=8.12", 16, "CCC", 0),
        ("--fail-under=8.13", 16, "CCC", 16),
        ("--fail-under=8.13|--score=n", 16, "CCC", 16),
        ("--fail-under=0", 1, "F", 0),
        ("--fail-under=0.01", 1, "F", 1),
        ("--fail-under=0|--fail-on=C", 16, "CCC", 16),
        ("--fail-under=0|--fail-on=trailing-whitespace", 16, "C", 16),
        ("--fail-under=0|--fail-on=E,W0107", 16, "C", 0),
        ("--fail-under=0|--fail-on=all", 16, "WE", 6),
        ("--fail-on=all", 16, "", 0),
        ("--exit-zero|--fail-on=all", 16, "E", 0),
    ];
    for (words, statements, categories, expected) in rows {
        let options = options_of(alloc, words)?;
        let found = found(alloc, statements, categories)?;
        assert_eq!(rt; status(&found, &options), expected, "{words} {categories}");
    }
    Ok(())
}

fn joined(alloc: Global, lines: &ReportLines) -> Result<String, Fail> {
    let mut text = String::new(alloc);
    for line in lines.as_slice() {
        text.push_str(line.as_str())?;
    }
    Ok(text)
}

// What is reported of these findings in a file.
fn reports(
    rt: &impl Abort,
    alloc: Global,
    words: &str,
    statements: u64,
    categories: &str,
    expected: &str,
) -> Result<(), Fail> {
    let mut reading = Reading::new(alloc);
    let (path, module_name) = (Text::from_str(alloc, "a.py")?, Text::from_str(alloc, "a")?);
    reading.add(path, module_name, false, Entry::Missing)?;
    let found = found(alloc, statements, categories)?;
    let options = options_of(alloc, words)?;
    let lines = text(alloc, &reading, &found, &options)?;
    assert_eq!(rt; joined(alloc, &lines)?.as_str(), expected);
    Ok(())
}

#[test]
fn four_lines_say_the_score(rt: HostRuntime) -> Result<(), Fail> {
    let alloc = rt.alloc();
    let message =
        "************* Module a\na.py:2:5: C0303: Trailing whitespace (trailing-whitespace)\n";
    let rows = [
        ("", 0, "", ""),
        (
            "",
            1,
            "",
            "\n------------------------------------\nYour code has been rated at 10.00/10\n\n",
        ),
        ("", 0, "C", message),
        ("--score=n", 1, "C", message),
        ("--score=n", 1, "", ""),
        ("--errors-only", 1, "", ""),
        ("--errors-only|--score=y", 1, "C", message),
    ];
    for (words, statements, categories, expected) in rows {
        reports(&rt, alloc, words, statements, categories, expected)?;
    }
    Ok(())
}
