// Made texts.
use super::runs;
use super::words::project;
use lint_base::{MemFiles, Text};
use std::alloc::Global;
use std::test::Fail;

// Numbers of classes, and the statements, the messages and the status of their text. A text of 1,001 lines is one line too
// long.
const COUNTED: &str = r"1|3|0|0
3|9|0|0
124|372|0|0
125|375|1|16";

// The line that is printed.
fn line(alloc: Global, statements: &str, messages: &str, status: &str) -> Result<String, Fail> {
    Ok(format!(in alloc;
        "files 1, statements {statements}, messages {messages}, status {status}\n"
    )?)
}

#[test]
fn made_texts_are_counted(rt: HostRuntime) -> Result<(), Fail> {
    let alloc = rt.alloc();
    // The options file turns off what is counted, and isn't read.
    let mut files = project(alloc)?;
    let options = Text::from_str(alloc, "pyproject.toml")?;
    files.put_file(alloc, &options, b"[tool.pylint]\ndisable = \"all\"\n")?;
    for row in COUNTED.split('\n') {
        let (classes, rest) = row.split_once('|').unwrap_or((row, ""));
        let (statements, rest) = rest.split_once('|').unwrap_or((rest, ""));
        let (messages, status) = rest.split_once('|').unwrap_or((rest, "no row"));
        let word = format!(in alloc; "--generate={classes}")?;
        let printed = line(alloc, statements, messages, status)?;
        let status = status.parse().unwrap_or(u8::MAX);
        runs(
            &rt,
            alloc,
            &[word.as_str()],
            &mut files,
            printed.as_str(),
            "",
            status,
        )?;
    }
    Ok(())
}

// 160,001 lines, 1.9 million bytes.
#[test]
fn the_largest_made_text_is_linted(rt: HostRuntime) -> Result<(), Fail> {
    let alloc = rt.alloc();
    let mut files = MemFiles::new(alloc);
    let printed = line(alloc, "60000", "1", "16")?;
    runs(
        &rt,
        alloc,
        &["--generate=20000"],
        &mut files,
        printed.as_str(),
        "",
        16,
    )
}
