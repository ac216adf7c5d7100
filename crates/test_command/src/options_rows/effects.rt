// What edits make of the options. The words of the options file and of the command line stand between bars.
use lint_messages::ALL_CODES;
use lint_values::Text;
use options::{Edits, Options, read_words};
use std::alloc::Global;
use std::test::Fail;

fn edits(alloc: Global, words: &str) -> Result<Edits, Fail> {
    let mut split = Vec::new(alloc);
    for word in words.split('|') {
        split.push(Text::from_str(alloc, word)?)?;
    }
    split.push(Text::from_str(alloc, "a.py")?)?;
    match read_words(alloc, &split) {
        Ok(line) => Ok(line.edits),
        Err(_) => Ok(Edits::new(alloc)),
    }
}

// The codes that the rows speak of.
const SPOKEN_OF: &str =
    "C0114 C0115 C0116 C0301 C0302 C0303 C0304 C0321 C0410 E0001 E0602 F0001 F0010 R0914 W0012 W0107 W0301 W0401 W0603 W0611 W0612 W0613 W0622";

// The letters of those codes that are on.
fn on(alloc: Global, file: &str, line: &str) -> Result<String, Fail> {
    let options = Options::of(alloc, &edits(alloc, file)?, &edits(alloc, line)?)?;
    let mut out = String::new(alloc);
    for code in &ALL_CODES {
        if SPOKEN_OF.contains(code.letters()) && options.on(*code) {
            out.push_str(code.letters())?;
            out.push_str(" ")?;
        }
    }
    Ok(out)
}

/// The first row whose codes are others. A row is the file's words, the line's words and the codes that are on, with a `^`
/// between them.
fn first_other(alloc: Global, rows: &'static str) -> Result<Option<&'static str>, Fail> {
    for row in rows.split('\n') {
        let (file, rest) = row.split_once('^').unwrap_or((row, ""));
        let (line, expected) = rest.split_once('^').unwrap_or((rest, "no row"));
        if on(alloc, file, line)?.as_str().trim() != expected {
            return Ok(Some(row));
        }
    }
    Ok(None)
}

const SWITCHES: &str =
    "^^C0114 C0115 C0116 C0301 C0302 C0303 C0304 C0321 C0410 E0001 E0602 F0001 F0010 R0914 W0012 W0107 W0301 W0401 W0603 W0611 W0612 W0613 W0622
^--disable=all^
^--disable=C^E0001 E0602 F0001 F0010 R0914 W0012 W0107 W0301 W0401 W0603 W0611 W0612 W0613 W0622
^-dC|-eC0303^C0303 E0001 E0602 F0001 F0010 R0914 W0012 W0107 W0301 W0401 W0603 W0611 W0612 W0613 W0622
^--disable=all|--enable=C0301^C0301
^--enable=C0301|--disable=all^C0301
^--enable=C0301|--disable=C0301|--disable=all^
^-dC0301|-eC0301|--disable=all^C0301
^--disable=all|--enable=all^C0114 C0115 C0116 C0301 C0302 C0303 C0304 C0321 C0410 E0001 E0602 F0001 F0010 R0914 W0012 W0107 W0301 W0401 W0603 W0611 W0612 W0613 W0622
^--enable=all|--disable=all^
^--disable=all,C|--enable=E,F^E0001 E0602 F0001 F0010
^--disable=C0301,all|--enable=line-too-long^C0301
^--disable= trailing-whitespace , C0304^C0114 C0115 C0116 C0301 C0302 C0321 C0410 E0001 E0602 F0001 F0010 R0914 W0012 W0107 W0301 W0401 W0603 W0611 W0612 W0613 W0622
^--disable=no-such-message,X9999,I,W,R^C0114 C0115 C0116 C0301 C0302 C0303 C0304 C0321 C0410 E0001 E0602 F0001 F0010
--disable=all^^
--disable=all^--enable=E^E0001 E0602
--enable=E^--disable=all^
--disable=C,F^--enable=C0302^C0302 E0001 E0602 R0914 W0012 W0107 W0301 W0401 W0603 W0611 W0612 W0613 W0622
--disable=all|--enable=F^--disable=F0001^F0010
--enable=C0301|--disable=all^-eE|-dC0301^E0001 E0602";

#[test]
fn last_list_that_names_a_code_decides(rt: HostRuntime) -> Result<(), Fail> {
    assert_eq!(rt; first_other(rt.alloc(), SWITCHES)?, None);
    Ok(())
}

fn joined(alloc: Global, texts: &[Text]) -> Result<String, Fail> {
    let mut out = String::new(alloc);
    for text in texts {
        out.push_str(text.as_str())?;
        out.push_str(";")?;
    }
    Ok(out)
}

// The flags, the numbers and the lists, each in the order of the table.
fn shown(alloc: Global, options: &Options) -> Result<String, Fail> {
    let flags = format!(in alloc;
        "{} {} {} {}",
        options.errors_only, options.score, options.recursive, options.exit_zero
    )?;
    let run = format!(in alloc;
        "{} {} {}",
        options.jobs, options.fail_under, options.limit_inference_results
    )?;
    let lines = format!(in alloc; "{} {}", options.max_line_length, options.max_module_lines)?;
    let function = format!(in alloc;
        "{} {} {} {} {}",
        options.max_args,
        options.max_locals,
        options.max_returns,
        options.max_branches,
        options.max_statements
    )?;
    let class = format!(in alloc;
        "{} {} {} {}",
        options.max_attributes,
        options.max_public_methods,
        options.min_public_methods,
        options.max_parents
    )?;
    let ignore = joined(alloc, options.ignore.as_slice())?;
    let fail_on = joined(alloc, options.fail_on.as_slice())?;
    let classes = joined(alloc, options.ignored_classes.as_slice())?;
    let builtins = joined(alloc, options.additional_builtins.as_slice())?;
    let numbers = format!(in alloc; "{flags} | {run} | {lines} | {function} | {class}")?;
    Ok(format!(in alloc; "{numbers} | {ignore} | {fail_on} | {classes} | {builtins}")?)
}

fn made(alloc: Global, file: &str, line: &str) -> Result<String, Fail> {
    shown(
        alloc,
        &Options::of(alloc, &edits(alloc, file)?, &edits(alloc, line)?)?,
    )
}

const DEFAULTS: &str =
    "false true false false | 1 1000 100 | 100 1000 | 5 15 6 12 50 | 7 20 2 7 | CVS; |  | optparse.Values;thread._local;_thread._local;argparse.Namespace; | ";

#[test]
fn each_option_reaches_its_field(rt: HostRuntime) -> Result<(), Fail> {
    let alloc = rt.alloc();
    assert_eq!(rt; made(alloc, "", "")?.as_str(), DEFAULTS);
    let run =
        "-E|--score=n|--recursive=y|--exit-zero|-j0|--fail-under=8.33|--limit-inference-results=7";
    let lines = "--max-line-length=120|--max-module-lines=0|--ignore=a,,b|--fail-on=E,all";
    let function =
        "--max-args=1|--max-locals=2|--max-returns=3|--max-branches=4|--max-statements=5";
    let class = "--max-attributes=6|--max-public-methods=8|--min-public-methods=9|--max-parents=10";
    let names = "--ignored-classes=|--additional-builtins= _ ";
    let words = format!(in alloc; "{run}|{lines}|{function}|{class}|{names}")?;
    let others =
        "true false true true | 4 833 7 | 120 0 | 1 2 3 4 5 | 6 8 9 10 | a;b; | E;all; |  | _;";
    assert_eq!(rt; made(alloc, words.as_str(), "")?.as_str(), others);
    assert_eq!(rt; made(alloc, "", words.as_str())?.as_str(), others);
    Ok(())
}

#[test]
fn last_value_counts_and_the_line_before_the_file(rt: HostRuntime) -> Result<(), Fail> {
    let alloc = rt.alloc();
    let file = edits(alloc, "--jobs=2|--jobs=3|--fail-under=9|--ignore=a")?;
    let line = edits(alloc, "--fail-under=7.5|--fail-under=0.1")?;
    let options = Options::of(alloc, &file, &line)?;
    assert_eq!(rt; options.jobs, 3);
    assert_eq!(rt; options.fail_under, 10);
    assert_eq!(rt; joined(alloc, options.ignore.as_slice())?.as_str(), "a;");
    Ok(())
}
