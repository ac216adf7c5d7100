// Options files and what they say: the edits, each with its value, or the fault.
use crate::options_rows::command_line::push_edits;
use lint_messages::Code;
use lint_values::Text;
use options::{Edits, Options, UsageFault, read_toml};
use std::alloc::Global;
use std::test::Fail;

fn said(alloc: Global, bytes: &[u8]) -> Result<String, Fail> {
    match read_toml(alloc, &Text::from_str(alloc, "x.toml")?, bytes) {
        Ok(edits) => {
            let mut out = String::new(alloc);
            push_edits(&mut out, edits.as_slice())?;
            Ok(out)
        }
        Err(UsageFault::BadToml(path)) => Ok(format!(in alloc; "BadToml {}", path.as_str())?),
        Err(UsageFault::BadValue(key)) => Ok(format!(in alloc; "BadValue {}", key.as_str())?),
        Err(_) => Ok(String::from_str(alloc, "another fault")?),
    }
}

// Whether a text says what is expected behind the bar.
fn is_said(alloc: Global, row: &str) -> Result<bool, Fail> {
    let (text, expected) = row.split_once('|').unwrap_or((row, "no row"));
    Ok(said(alloc, text.as_bytes())?.as_str() == expected)
}

// A row with its line ends, for which `~` stands.
fn spelled(alloc: Global, row: &str) -> Result<String, Fail> {
    let mut text = String::new(alloc);
    for c in row.chars() {
        text.push(if c == '~' { '\n' } else { c })?;
    }
    Ok(text)
}

/// The first row whose text says something else.
fn first_other(alloc: Global, rows: &'static str) -> Result<Option<&'static str>, Fail> {
    for row in rows.split('\n') {
        if !is_said(alloc, spelled(alloc, row)?.as_str())? {
            return Ok(Some(row));
        }
    }
    Ok(None)
}

const PLACES: &str = r#"|
x = 1|
[tool.black]~line-length = 88|
[tool.pylint]~|
[tool]~pylint = 3|
tool = 3|
[pylint]~jobs = 2|
jobs = 2|
[tool.pylint]~jobs = 2|jobs=2
[tool.pylint.main]~jobs = 2|jobs=2
[tool.pylint."messages control"]~disable = ["C0301"]|disable=C0301
[tool.pylint.a.b]~jobs = 65|
[tool.pylint.disable]~x = 1|
[tool.pylint.jobs]~jobs = 3|jobs=3
tool.pylint.jobs = 2|jobs=2
tool.pylint.main.jobs = 2|jobs=2
tool = { pylint = { jobs = 2 } }|jobs=2
[[tool.pylint.main]]~jobs = 65|
[[tool.pylint.disable]]~x = 1|BadValue disable
[[tool.pylint]]~jobs = 65|
[tool.pylint]~unknown-thing = 3|
[tool.pylint]~Jobs = 65|
[tool.pylint]~jobs_ = 65|
[tool.pylint]~fail_under = 9|fail-under=9
[tool.pylint]~max_line-length = 120|max-line-length=120
[tool.pylint]~errors-only = true|
[tool.pylint]~errors_only = 7|
[tool.pylint]~rcfile = 7|
[tool.pylint]~generate = 3|
[tool.pylint]~load-plugins = ["x"]~py-version = "3.12"|"#;

const ORDERS: &str = "[tool.pylint]~score = false~jobs = 2|jobs=2;score=no
[tool.pylint.main]~jobs = 2~[tool.pylint]~jobs = 3|jobs=3;jobs=2
[tool.pylint.b]~jobs = 2~[tool.pylint.a]~jobs = 3|jobs=3;jobs=2
[tool.pylint.b]~jobs = 2~[tool.pylint.B]~jobs = 3|jobs=3;jobs=2
[tool.pylint]~max_args = 1~max-args = 2|max-args=2;max-args=1
[tool.pylint]~max-args = 1~[tool.pylint.design]~min-public-methods = 0~max_args = 2|max-args=1;max-args=2;min-public-methods=0
[tool.pylint.z]~enable = 'E'~[tool.pylint.a]~disable = 'all'|disable=all;enable=E
[tool.pylint]~score = 1~jobs = 65|BadValue jobs
[tool.pylint.z]~ignore = 1~[tool.pylint.a]~jobs = 65|BadValue ignore
[tool.pylint]~jobs = 2~[tool.pylint.main]~jobs = 65|BadValue jobs
[tool.pylint]~max_args = -1~max-branches = 'x'|BadValue max-args";

const VALUES: &str = "[tool.pylint]~exit-zero = true|exit-zero=yes
[tool.pylint]~exit-zero = false|exit-zero=no
[tool.pylint]~exit-zero = 'yes'|BadValue exit-zero
[tool.pylint]~exit-zero = ''|BadValue exit-zero
[tool.pylint]~exit-zero = 1|BadValue exit-zero
[tool.pylint]~score = true|score=yes
[tool.pylint]~score = 'n'|score=n
[tool.pylint]~score = 'maybe'|BadValue score
[tool.pylint]~score = 1|BadValue score
[tool.pylint]~recursive = false|recursive=no
[tool.pylint]~recursive = ['yes']|BadValue recursive
[tool.pylint]~jobs = 0|jobs=0
[tool.pylint]~jobs = 64|jobs=64
[tool.pylint]~jobs = 65|BadValue jobs
[tool.pylint]~jobs = -1|BadValue jobs
[tool.pylint]~jobs = '4'|jobs=4
[tool.pylint]~jobs = '65'|BadValue jobs
[tool.pylint]~jobs = 4.0|BadValue jobs
[tool.pylint]~jobs = true|BadValue jobs
[tool.pylint]~jobs = [1]|BadValue jobs
[tool.pylint]~jobs = 0x10|jobs=16
[tool.pylint]~jobs = 1_0|jobs=10
[tool.pylint]~jobs = +4|jobs=4
[tool.pylint]~jobs = 9223372036854775807|BadValue jobs
[tool.pylint]~jobs = 1979-05-27|BadValue jobs
[tool.pylint]~limit-inference-results = 0|BadValue limit-inference-results
[tool.pylint]~limit-inference-results = 1000|limit-inference-results=1000
[tool.pylint]~max-module-lines = 1000000|max-module-lines=1000000
[tool.pylint]~max-module-lines = 1000001|BadValue max-module-lines
[tool.pylint]~fail-under = 9|fail-under=9
[tool.pylint]~fail-under = 9.5|BadValue fail-under
[tool.pylint]~fail-under = '9.5'|fail-under=9.5
[tool.pylint]~fail-under = 10|fail-under=10
[tool.pylint]~fail-under = 11|BadValue fail-under
[tool.pylint]~fail-under = '10.01'|BadValue fail-under
[tool.pylint]~fail-under = nan|BadValue fail-under
[tool.pylint]~disable = 'C0301, C0302'|disable=C0301, C0302
[tool.pylint]~disable = ['C0301', 'line-too-long']|disable=C0301,line-too-long
[tool.pylint]~disable = ['C0301, C0302', '']|disable=C0301, C0302,
[tool.pylint]~disable = []|disable=
[tool.pylint]~disable = ['Bad_Name']|BadValue disable
[tool.pylint]~disable = ['C0301', 3]|BadValue disable
[tool.pylint]~disable = [['C0301']]|BadValue disable
[tool.pylint]~disable = true|BadValue disable
[tool.pylint]~enable = [~    'all', # a comment~    'W',~]|enable=all,W
[tool.pylint]~fail-on = ['E']|fail-on=E
[tool.pylint]~ignore = ['a b', 'c']|ignore=a b,c
[tool.pylint]~ignore = 'é'|ignore=é
[tool.pylint]~ignore = 3|BadValue ignore
[tool.pylint]~ignored-classes = []|ignored-classes=
[tool.pylint]~additional-builtins = ['_', 'ngettext']|additional-builtins=_,ngettext";

const TEXTS: &str = "= 1|BadToml x.toml
[tool.pylint|BadToml x.toml
a = 1~a = 2|BadToml x.toml
[tool.pylint]~jobs = 65~x =|BadToml x.toml
[tool.pylint]~jobs = 2~[tool.pylint]~|BadToml x.toml
[tool.pylint]~jobs = 9223372036854775808|BadToml x.toml
[tool.pylint]~jobs 2|BadToml x.toml
# only a comment~|";

// The example of docs/COMMAND.md.
const EXAMPLE: &str = r#"
[tool.pylint]
fail-under = "9.5"
disable = ["invalid-name", "C0114"]

[tool.pylint.format]
max_line_length = 100
|disable=invalid-name,C0114;fail-under=9.5;max-line-length=100"#;

const APPLICATION: &str = r#"
[build-system]
requires = ["setuptools>=61"]
build-backend = "setuptools.build_meta"

[project]
name = "shop"
version = "1.0.0"
dependencies = ["requests>=2.31", "click"]

[tool.black]
line-length = 88

[tool.pylint.main]
jobs = 0
ignore = ["migrations", "tests"]
load-plugins = ["pylint_django"]

[tool.pylint."messages control"]
disable = [
    "missing-module-docstring", # modules speak for themselves
    "invalid-name",
]

[tool.pylint.format]
max-line-length = 88

[tool.pylint.design]
max-args = 8
min-public-methods = 1
|disable=missing-module-docstring,invalid-name;ignore=migrations,tests;jobs=0;max-args=8;max-line-length=88;min-public-methods=1"#;

// Tables that are called as the sections of an old ini file.
const SECTIONS: &str = r#"
[tool.pylint.MASTER]
fail-under = 8
recursive = true
persistent = false

[tool.pylint.'MESSAGES CONTROL']
disable = "all"
enable = "E,F,unused-import"

[tool.pylint.BASIC]
good-names = ["i", "j", "_"]

[tool.pylint.TYPECHECK]
ignored-classes = ["optparse.Values", "sqlalchemy.orm.Query"]

[tool.pylint.VARIABLES]
additional-builtins = "_"
|additional-builtins=_;disable=all;enable=E,F,unused-import;fail-under=8;ignored-classes=optparse.Values,sqlalchemy.orm.Query;recursive=yes"#;

// Dotted keys in one table.
const DOTTED: &str = r#"
[project]
name = "tool"

[tool.pylint]
main.jobs = 4
main.fail-on = ["E", "F"]
"messages control".disable = ["C0114", "C0115", "C0116"]
reports.score = false
reports.output-format = "colorized"
format.max-module-lines = 2000
similarities = { min-similarity-lines = 6 }
|disable=C0114,C0115,C0116;fail-on=E,F;jobs=4;max-module-lines=2000;score=no"#;

// The least score as a float, as pylint itself takes it.
const FLOAT: &str = r#"
[tool.poetry]
name = "parser"
version = "0.3.1"

[tool.pylint.main]
py-version = "3.11"
fail-under = 9.5
jobs = 2

[tool.pylint.design]
max_branches = 20
|BadValue fail-under"#;

// A key twice under two spellings, tables of plugins, and unknown tables.
const SPELLINGS: &str = r#"
[tool.isort]
profile = "black"

[tool.pylint]
max-line-length = 100

[tool.pylint.format]
max_line_length = 120
expected-line-ending-format = "LF"

[tool.pylint.spelling]
spelling-dict = ""

[tool.pylint."pylint.extensions.mccabe"]
max-complexity = 10

[tool.pylint.exceptions]
overgeneral-exceptions = ["builtins.Exception"]

[tool.mypy]
strict = true
|max-line-length=100;max-line-length=120"#;

#[test]
fn keys_stand_in_the_table_and_those_below(rt: HostRuntime) -> Result<(), Fail> {
    assert_eq!(rt; first_other(rt.alloc(), PLACES)?, None);
    Ok(())
}

#[test]
fn keys_are_read_in_their_order(rt: HostRuntime) -> Result<(), Fail> {
    assert_eq!(rt; first_other(rt.alloc(), ORDERS)?, None);
    Ok(())
}

#[test]
fn values_are_those_of_their_options(rt: HostRuntime) -> Result<(), Fail> {
    assert_eq!(rt; first_other(rt.alloc(), VALUES)?, None);
    Ok(())
}

#[test]
fn text_is_toml_or_refused(rt: HostRuntime) -> Result<(), Fail> {
    let alloc = rt.alloc();
    assert_eq!(rt; first_other(alloc, TEXTS)?, None);
    assert_eq!(rt; said(alloc, b"x = '\xff'")?.as_str(), "BadToml x.toml");
    let marked = "\u{feff}[tool.pylint]\njobs = 2";
    assert_eq!(rt; said(alloc, marked.as_bytes())?.as_str(), "jobs=2");
    let returns = b"[tool.pylint]\r\njobs = 2\r\n";
    assert_eq!(rt; said(alloc, returns)?.as_str(), "jobs=2");
    Ok(())
}

#[test]
fn whole_files_are_read(rt: HostRuntime) -> Result<(), Fail> {
    for file in [EXAMPLE, APPLICATION, SECTIONS, DOTTED, FLOAT, SPELLINGS] {
        assert!(rt; is_said(rt.alloc(), file)?, "{file}");
    }
    Ok(())
}

#[test]
fn lists_that_hold_all_act_first(rt: HostRuntime) -> Result<(), Fail> {
    let alloc = rt.alloc();
    let text = b"[tool.pylint.a]\nenable = ['C0301']\ndisable = ['all', 'E']";
    let path = Text::from_str(alloc, "x.toml")?;
    let Ok(edits) = read_toml(alloc, &path, text) else {
        assert!(rt; false);
        return Ok(());
    };
    let options = Options::of(alloc, &edits, &Edits::new(alloc))?;
    assert!(rt; options.on(Code::LineTooLong));
    assert!(rt; !options.on(Code::TrailingWhitespace));
    assert!(rt; !options.on(Code::SyntaxError));
    Ok(())
}
