// Lengths and depths at their limits.
use super::{BEST, held, runs, score_lines};
use std::alloc::Global;
use std::test::Fail;

// The line that a syntax error at this place prints, under its module line.
fn syntax_error(alloc: Global, line: u32, col: u32, reason: &str) -> Result<String, Fail> {
    Ok(format!(in alloc;
        "************* Module t\nt.py:{line}:{col}: E0001: Parsing failed: '{reason} (line {line})' (syntax-error)\n"
    )?)
}

// A docstring, and on a line of their own so many brackets, a number between them, and as many closed.
fn nested(alloc: Global, depth: usize) -> Result<Vec<u8>, Fail> {
    let mut source = Vec::from_slice(alloc, b"\"\"\"Doc.\"\"\"\n")?;
    for _ in 0..depth {
        source.push(b'(')?;
    }
    source.push(b'0')?;
    for _ in 0..depth {
        source.push(b')')?;
    }
    source.push(b'\n')?;
    Ok(source)
}

// A report on a line of so many characters, the only statement.
fn too_long(alloc: Global, count: u32) -> Result<String, Fail> {
    let score = score_lines(alloc, "0.00")?;
    Ok(format!(in alloc;
        "************* Module t\nt.py:2:0: C0301: Line too long ({count}/100) (line-too-long)\n{}",
        score.as_str()
    )?)
}

#[test]
fn brackets_may_nest_so_deep(rt: HostRuntime) -> Result<(), Fail> {
    let alloc = rt.alloc();
    for depth in [0, 49] {
        let mut files = held(alloc, "t.py", &nested(alloc, depth)?)?;
        runs(&rt, alloc, &["t.py"], &mut files, BEST, "", 0)?;
    }
    let mut files = held(alloc, "t.py", &nested(alloc, 200)?)?;
    let printed = too_long(alloc, 401)?;
    runs(&rt, alloc, &["t.py"], &mut files, printed.as_str(), "", 16)?;
    let mut files = held(alloc, "t.py", &nested(alloc, 201)?)?;
    let printed = syntax_error(alloc, 2, 200, "too many levels")?;
    runs(&rt, alloc, &["t.py"], &mut files, printed.as_str(), "", 2)
}

// A docstring, and on a line of their own so many `not` and a number.
fn denied(alloc: Global, times: usize) -> Result<Vec<u8>, Fail> {
    let mut source = Vec::from_slice(alloc, b"\"\"\"Doc.\"\"\"\n")?;
    for _ in 0..times {
        source.extend_from_slice(b"not ")?;
    }
    source.extend_from_slice(b"0\n")?;
    Ok(source)
}

#[test]
fn expressions_may_nest_so_deep(rt: HostRuntime) -> Result<(), Fail> {
    let alloc = rt.alloc();
    let mut files = held(alloc, "t.py", &denied(alloc, 199)?)?;
    let printed = too_long(alloc, 797)?;
    runs(&rt, alloc, &["t.py"], &mut files, printed.as_str(), "", 16)?;
    let mut files = held(alloc, "t.py", &denied(alloc, 200)?)?;
    let printed = syntax_error(alloc, 2, 0, "invalid syntax")?;
    runs(&rt, alloc, &["t.py"], &mut files, printed.as_str(), "", 2)
}

// So many lines of one comment sign.
fn comment_lines(alloc: Global, count: usize) -> Result<Vec<u8>, Fail> {
    let mut source = Vec::new(alloc);
    for _ in 0..count {
        source.extend_from_slice(b"#\n")?;
    }
    Ok(source)
}

#[test]
fn a_long_module_is_reported(rt: HostRuntime) -> Result<(), Fail> {
    let alloc = rt.alloc();
    let mut files = held(alloc, "m.py", &comment_lines(alloc, 1000)?)?;
    runs(&rt, alloc, &["m.py"], &mut files, "", "", 0)?;
    let mut files = held(alloc, "m.py", &comment_lines(alloc, 1001)?)?;
    let printed =
        "************* Module m\nm.py:1:0: C0302: Too many lines in module (1001/1000) (too-many-lines)\n";
    runs(&rt, alloc, &["m.py"], &mut files, printed, "", 16)
}

// A line of `#` and this many `x`, behind a docstring.
fn long_line(alloc: Global, length: usize) -> Result<Vec<u8>, Fail> {
    let mut source = Vec::from_slice(alloc, b"\"\"\"Doc.\"\"\"\n#")?;
    for _ in 0..length {
        source.push(b'x')?;
    }
    source.push(b'\n')?;
    Ok(source)
}

#[test]
fn a_long_line_is_reported(rt: HostRuntime) -> Result<(), Fail> {
    let alloc = rt.alloc();
    let mut files = held(alloc, "b.py", &long_line(alloc, 99)?)?;
    runs(&rt, alloc, &["b.py"], &mut files, "", "", 0)?;
    let mut files = held(alloc, "b.py", &long_line(alloc, 100)?)?;
    let printed =
        "************* Module b\nb.py:2:0: C0301: Line too long (101/100) (line-too-long)\n";
    runs(&rt, alloc, &["b.py"], &mut files, printed, "", 16)
}
