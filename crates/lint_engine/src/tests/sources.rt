// What is reported of one source.
use super::{held, report_rows, runs, spelled};
use lint_base::{MemFiles, Text};
use std::alloc::Global;
use std::process::Abort;
use std::test::Fail;
use std::thread::Threads;

const REPORTS: &str = r#"a.py||||0
a.py|"""Doc."""~X = 1~||10.00|0
a.py|%ef%bb%bf|||0
c.py|"""Doc."""~X = 1  |************* Module c~c.py:2:0: C0304: Final newline missing (missing-final-newline)~c.py:2:5: C0303: Trailing whitespace (trailing-whitespace)~|0.00|16
e.py|X = '%c3%a9'  # ^%0b%0d~Y = 1%0d|************* Module e~e.py:1:0: C0114: Missing module docstring (missing-module-docstring)~e.py:1:10: C0303: Trailing whitespace (trailing-whitespace)~|0.00|16
a.py|X=%ff~|************* Module a~a.py:1:2: E0001: Parsing failed: 'source is not UTF-8 (line 1)' (syntax-error)~||2
a.py|%ef%bb%bfX = 1%0d%c3%a9%ed%a0%80|************* Module a~a.py:2:2: E0001: Parsing failed: 'source is not UTF-8 (line 2)' (syntax-error)~||2
__init__.py|X = 1|************* Module __init__~__init__.py:1:0: C0114: Missing module docstring (missing-module-docstring)~__init__.py:1:0: C0304: Final newline missing (missing-final-newline)~|0.00|16
script|X = 1 ~|************* Module script~script:1:0: C0114: Missing module docstring (missing-module-docstring)~script:1:5: C0303: Trailing whitespace (trailing-whitespace)~|0.00|16
s.py|"""Doc."""~X = 1 ~X = 1 ~X = 1 ~X = 1~X = 1~X = 1~X = 1~X = 1~X = 1~X = 1~X = 1~X = 1~X = 1~X = 1~X = 1~X = 1~|************* Module s~s.py:2:5: C0303: Trailing whitespace (trailing-whitespace)~s.py:3:5: C0303: Trailing whitespace (trailing-whitespace)~s.py:4:5: C0303: Trailing whitespace (trailing-whitespace)~|8.12|16
--disable=W0611 m.py|import os, sys; import re;~class A:~    def f(self):~        pass; pass~~    def _g(self): ...~|************* Module m~m.py:1:0: C0114: Missing module docstring (missing-module-docstring)~m.py:1:0: C0410: Multiple imports on one line (os, sys) (multiple-imports)~m.py:1:0: W0301: Unnecessary semicolon (unnecessary-semicolon)~m.py:1:16: C0321: More than one statement on a single line (multiple-statements)~m.py:2:0: C0115: Missing class docstring (missing-class-docstring)~m.py:3:4: C0116: Missing function or method docstring (missing-function-docstring)~m.py:4:8: W0107: Unnecessary pass statement (unnecessary-pass)~m.py:4:14: C0321: More than one statement on a single line (multiple-statements)~m.py:4:14: W0107: Unnecessary pass statement (unnecessary-pass)~|0.00|20"#;

#[test]
fn a_file_is_reported(rt: HostRuntime) -> Result<(), Fail> {
    report_rows(&rt, rt.alloc(), REPORTS)
}

// A row is a source, the place of its fault and the reason, with a bar between them.
fn fault_rows<R: Abort + Threads + Sync>(rt: &R, alloc: Global, rows: &str) -> Result<(), Fail> {
    for row in rows.split('\n') {
        let (source, rest) = row.split_once('|').unwrap_or((row, ""));
        let (place, reason) = rest.split_once('|').unwrap_or((rest, ""));
        let (line, _) = place.split_once(':').unwrap_or((place, ""));
        let mut files = held(alloc, "t.py", &spelled(alloc, source)?)?;
        let printed = format!(in alloc;
            "************* Module t\nt.py:{place}: E0001: Parsing failed: '{reason} (line {line})' (syntax-error)\n"
        )?;
        runs(rt, alloc, &["t.py"], &mut files, printed.as_str(), "", 2)?;
    }
    Ok(())
}

const TOKEN_FAULTS: &str = r#"if X:~        A = 1~^B = 2~|3:0|inconsistent tabs and spaces
x = "abc~|1:4|string is not closed
)~|1:0|unmatched closing bracket
x = 1_~|1:4|invalid number
x = (~|1:4|bracket is not closed
X = 1 ~Y%00~|2:1|source has a NUL byte
# coding: latin-1~X = '%c3%a9'~|1:0|another encoding is named
X = ?~|1:4|invalid character
X = '%c3%a9' ?~|1:9|invalid character
if X:~    A = 1~  B = 2~|3:0|indentation matches no outer level
X = \ 1~|1:4|nothing may follow a backslash
X = [1)~|1:6|unmatched closing bracket
x = (~y = '~|2:4|string is not closed
X = b'%c3%a9'~|1:6|invalid character"#;

#[test]
fn the_first_fault_of_the_tokens_is_told_alone(rt: HostRuntime) -> Result<(), Fail> {
    fault_rows(&rt, rt.alloc(), TOKEN_FAULTS)
}

const LINE_FAULTS: &str = r"f(a=1, 2)~|1:0|invalid syntax
X = 1 ~~(~1~2)~|3:0|invalid syntax
X = f'{a b}'~|1:0|invalid syntax
X = f'{}'~|1:0|invalid f-string field
X = f'{a!x}'~|1:0|invalid f-string field
else:~    pass~|1:0|clause without its opener
try:~    pass~X = 1~|3:0|clause without its opener
@f~X = 1~|2:0|clause without its opener
if X:~Y = 1~|2:0|expected an indented block
X = 1~if X:~|2:0|expected an indented block
X = 1~    Y = 2~|2:0|unexpected indentation
    X = 1~|1:0|unexpected indentation";

#[test]
fn the_first_line_at_fault_is_told_alone(rt: HostRuntime) -> Result<(), Fail> {
    fault_rows(&rt, rt.alloc(), LINE_FAULTS)
}

#[test]
fn what_is_no_source_is_told(rt: HostRuntime) -> Result<(), Fail> {
    let alloc = rt.alloc();
    let mut files = MemFiles::new(alloc);
    files.put_folder(alloc, &Text::from_str(alloc, "pkg")?)?;
    let missing =
        "************* Module none.py\nnone.py:1:0: F0001: No module named none.py (fatal)\n";
    runs(&rt, alloc, &["none.py"], &mut files, missing, "", 1)?;
    let folder = "************* Module pkg\npkg:1:0: F0001: No module named pkg (fatal)\n";
    runs(&rt, alloc, &["pkg"], &mut files, folder, "", 1)?;
    let large = vec![in alloc; b'\n'; 4_194_305]?;
    let mut files = held(alloc, "l.py", &large)?;
    let told =
        "************* Module l\nl.py:1:0: F0010: error while code parsing: file too large (parse-error)\n";
    runs(&rt, alloc, &["l.py"], &mut files, told, "", 1)
}
