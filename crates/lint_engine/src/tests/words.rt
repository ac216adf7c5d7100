// Words, the options file, files and folders.
use super::{BEST, runs, score_lines, spelled, split};
use lint_base::{MemFiles, Text};
use std::alloc::Global;
use std::process::Abort;
use std::test::Fail;
use std::thread::Threads;

// The files of the rows below, each with its text behind a bar.
const PROJECT: &str = r#"a.py|"""Doc."""~X = 1~
./a.py|"""Doc."""~X = 1~
b.py|X = 1 ~
t.py|f(a=1, 2)~
-E|"""Doc."""~X = 1~
pkg/a.py|"""Doc."""~X = 1~
shop/__init__.py|"""Shop."""~
shop/models.py|"""Models."""~X = 1~
shop/views.py|"""Views."""~X = 1 ~
x.toml|= 1
d.toml|[tool.pylint.main]~jobs = 2~unknown-thing = 3~[tool.pylint."messages control"]~disable = ["C0303", "missing-module-docstring"]~"#;

pub(super) fn project(alloc: Global) -> Result<MemFiles, Fail> {
    let mut files = MemFiles::new(alloc);
    for row in PROJECT.split('\n') {
        let (path, text) = row.split_once('|').unwrap_or((row, ""));
        files.put_file(alloc, &Text::from_str(alloc, path)?, &spelled(alloc, text)?)?;
    }
    files.put_folder(alloc, &Text::from_str(alloc, "pkg")?)?;
    files.put_folder(alloc, &Text::from_str(alloc, "shop")?)?;
    Ok(files)
}

// What the command prints and answers for these words over the files of a project, with a blank between the words.
fn runs_project<R: Abort + Threads + Sync>(
    rt: &R,
    alloc: Global,
    words: &str,
    printed: &str,
    reported: &str,
    status: u8,
) -> Result<(), Fail> {
    let mut files = project(alloc)?;
    runs(
        rt,
        alloc,
        &split(alloc, words)?,
        &mut files,
        printed,
        reported,
        status,
    )
}

// Words, and why they are refused.
const REFUSED: &str = r"-j|option '-j' needs a value
--jobs=65 a.py|bad value '--jobs=65'
--nope a.py|unknown option '--nope'
-|unknown option '-'
--generate|option '--generate' needs a value
--generate=0|bad value '--generate=0'
--generate=20001|bad value '--generate=20001'
--generate=3 a.py|unknown option '--generate=3'
--score=yes|no file given
--rcfile=x.toml a.py|'x.toml' is not TOML
--rcfile=none.toml a.py|options file 'none.toml' not found
--rcfile=pkg a.py|options file 'pkg' not found";

#[test]
fn words_and_options_file_are_refused(rt: HostRuntime) -> Result<(), Fail> {
    let alloc = rt.alloc();
    for row in REFUSED.split('\n') {
        let (words, reason) = row.split_once('|').unwrap_or((row, ""));
        let reported = format!(in alloc; "pylint: error: {reason}\n")?;
        runs_project(&rt, alloc, words, "", reported.as_str(), 32)?;
    }
    Ok(())
}

#[test]
fn no_words_are_refused(rt: HostRuntime) -> Result<(), Fail> {
    let alloc = rt.alloc();
    let mut files = MemFiles::new(alloc);
    runs(
        &rt,
        alloc,
        &[],
        &mut files,
        "",
        "pylint: error: no file given\n",
        32,
    )
}

#[test]
fn a_project_has_its_options_file(rt: HostRuntime) -> Result<(), Fail> {
    let alloc = rt.alloc();
    let options = Text::from_str(alloc, "pyproject.toml")?;
    let mut files = project(alloc)?;
    files.put_file(alloc, &options, b"[tool.pylint]\njobs = 65\n")?;
    let told = "pylint: error: bad value 'jobs'\n";
    runs(&rt, alloc, &["a.py"], &mut files, "", told, 32)?;
    let large = vec![in alloc; b'\n'; 4_194_305]?;
    files.put_file(alloc, &options, &large)?;
    let told = "pylint: error: options file 'pyproject.toml' too large\n";
    runs(&rt, alloc, &["a.py"], &mut files, "", told, 32)?;
    files.put_file(alloc, &options, b"[tool.pylint]\ndisable = \"C\"\n")?;
    runs(&rt, alloc, &["b.py"], &mut files, BEST, "", 0)
}

#[test]
fn files_and_folders_are_linted(rt: HostRuntime) -> Result<(), Fail> {
    let alloc = rt.alloc();
    for words in [
        "a.py",
        "a.py ./a.py",
        "a.py a.py",
        "--recursive=yes pkg",
        "-- -E",
        "--ignore=views.py shop",
    ] {
        runs_project(&rt, alloc, words, BEST, "", 0)?;
    }
    let half = score_lines(alloc, "5.00")?;
    let views =
        "************* Module shop.views\nshop/views.py:2:5: C0303: Trailing whitespace (trailing-whitespace)\n";
    let printed = format!(in alloc; "{views}{}", half.as_str())?;
    runs_project(&rt, alloc, "shop", printed.as_str(), "", 16)?;
    runs_project(&rt, alloc, "shop//", printed.as_str(), "", 16)?;
    let missing =
        "************* Module none.py\nnone.py:1:0: F0001: No module named none.py (fatal)\n";
    let worst = score_lines(alloc, "0.00")?;
    let printed = format!(in alloc; "{missing}{}", worst.as_str())?;
    runs_project(
        &rt,
        alloc,
        "none.py shop/models.py",
        printed.as_str(),
        "",
        1,
    )
}

// Words, what is printed of the two messages of `b.py` and its score, and the status.
const SHOWN: &str = r"b.py|docstring blanks score|16
--disable=C0303 b.py|docstring score|16
--disable=all --enable=C0303 b.py|blanks score|16
--enable=C0303 --disable=all b.py|blanks score|16
--rcfile=d.toml --enable=C0303 b.py|blanks score|16
-E b.py||0
--exit-zero b.py|docstring blanks score|0
--score=no b.py|docstring blanks|16
-sn -dC0114 b.py|blanks|16
--fail-under=0 b.py|docstring blanks score|0
--fail-under 0.01 b.py|docstring blanks score|16
--fail-under=0 --fail-on=C0303 b.py|docstring blanks score|16
--fail-under=0 --fail-on=E b.py|docstring blanks score|0";

#[test]
fn options_hide_messages(rt: HostRuntime) -> Result<(), Fail> {
    let alloc = rt.alloc();
    let docstring = "b.py:1:0: C0114: Missing module docstring (missing-module-docstring)\n";
    let blanks = "b.py:1:5: C0303: Trailing whitespace (trailing-whitespace)\n";
    for row in SHOWN.split('\n') {
        let (words, rest) = row.split_once('|').unwrap_or((row, ""));
        let (shown, status) = rest.split_once('|').unwrap_or((rest, "no row"));
        let first = if shown.contains("docstring") {
            docstring
        } else {
            ""
        };
        let second = if shown.contains("blanks") { blanks } else { "" };
        let score = if shown.contains("score") { "0.00" } else { "" };
        let score = score_lines(alloc, score)?;
        let is_silent = first.is_empty() && second.is_empty();
        let head = if is_silent {
            ""
        } else {
            "************* Module b\n"
        };
        let printed = format!(in alloc; "{head}{first}{second}{}", score.as_str())?;
        let status = status.parse().unwrap_or(u8::MAX);
        runs_project(&rt, alloc, words, printed.as_str(), "", status)?;
    }
    for words in [
        "--rcfile=d.toml b.py",
        "--enable=C0303 --disable=C0303,C0114 b.py",
    ] {
        runs_project(&rt, alloc, words, BEST, "", 0)?;
    }
    let error =
        "************* Module t\nt.py:1:0: E0001: Parsing failed: 'invalid syntax (line 1)' (syntax-error)\n";
    runs_project(&rt, alloc, "-E t.py", error, "", 2)
}
