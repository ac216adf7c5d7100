// Reads and writes that fail.
use super::words::project;
use super::{ROOM, held, runs, score_lines, spelled, texts};
use crate::{Answer, lint_command};
use lint_base::{Calls, FailingFiles, FailingSink, MemFiles, MemSink, OpenGate, Text};
use std::test::Fail;

#[test]
fn a_failing_read_is_told_in_its_place(rt: HostRuntime) -> Result<(), Fail> {
    let alloc = rt.alloc();
    let worst = score_lines(alloc, "0.00")?;
    for jobs in ["1", "2", "7"] {
        let mut held = MemFiles::new(alloc);
        for path in ["x.py", "y.py", "z.py"] {
            let path = Text::from_str(alloc, path)?;
            held.put_file(alloc, &path, b"\"\"\"Doc.\"\"\"\nX = 1 \n")?;
        }
        let mut fail = Calls::new(alloc);
        fail.add(6)?;
        let mut files = FailingFiles::new(held, fail);
        let printed = format!(in alloc;
            "************* Module x\nx.py:2:5: C0303: Trailing whitespace (trailing-whitespace)\n************* Module y\ny.py:1:0: F0010: error while code parsing: read failed (parse-error)\n************* Module z\nz.py:2:5: C0303: Trailing whitespace (trailing-whitespace)\n{}",
            worst.as_str()
        )?;
        let words = ["-j", jobs, "x.py", "y.py", "z.py"];
        runs(&rt, alloc, &words, &mut files, printed.as_str(), "", 17)?;
    }
    Ok(())
}

// The statuses where the first call of the files fails, where the second does, and so on up to none.
const STATUSES: &str = "32 1 1 1 17 1 17 17 1 16";

#[test]
fn each_failing_call_is_told(rt: HostRuntime) -> Result<(), Fail> {
    let alloc = rt.alloc();
    let words = texts(alloc, &["shop"])?;
    let mut call: u32 = 0;
    for status in STATUSES.split(' ') {
        call = call.saturating_add(1);
        let mut fail = Calls::new(alloc);
        fail.add(call)?;
        let mut files = FailingFiles::new(project(alloc)?, fail);
        let mut out = MemSink::new(alloc, ROOM)?;
        let mut err = MemSink::new(alloc, ROOM)?;
        let outcome = lint_command(
            &rt, alloc, &words, &mut files, &mut out, &mut err, &OpenGate,
        );
        let status = status.parse().unwrap_or(u8::MAX);
        assert_eq!(rt; outcome.answer, Answer::Ran(status), "{call}");
        assert_eq!(rt;
            files.failed().len(),
            if call < 10 { 1 } else { 0 },
            "{call}"
        );
    }
    Ok(())
}

// Which write fails, how many bytes it takes, and what the sink then holds.
const WRITES: &str = "1 0|
1 1|*
2 0|************* Module c~
2 1|************* Module c~c
3 0|************* Module c~c.py:1:0: C0114: Missing module docstring (missing-module-docstring)~";

#[test]
fn a_failing_write_leaves_a_first_part(rt: HostRuntime) -> Result<(), Fail> {
    let alloc = rt.alloc();
    let words = texts(alloc, &["c.py"])?;
    for row in WRITES.split('\n') {
        let (call, printed) = row.split_once('|').unwrap_or((row, ""));
        let (write, taken) = call.split_once(' ').unwrap_or((call, ""));
        let (write, taken) = (write.parse().unwrap_or(0), taken.parse().unwrap_or(0));
        let printed = spelled(alloc, printed)?;
        let mut files = held(alloc, "c.py", b"X = 1 \n")?;
        let mut out = FailingSink::new(MemSink::new(alloc, ROOM)?, write, taken);
        let mut err = MemSink::new(alloc, ROOM)?;
        let outcome = lint_command(
            &rt, alloc, &words, &mut files, &mut out, &mut err, &OpenGate,
        );
        assert_eq!(rt; outcome.answer, Answer::SinkFault);
        assert_eq!(rt; out.bytes(), printed.as_slice());
        assert_eq!(rt; err.bytes(), b"".as_slice());
    }
    let mut files = MemFiles::new(alloc);
    let mut out = MemSink::new(alloc, ROOM)?;
    let mut err = FailingSink::new(MemSink::new(alloc, ROOM)?, 1, 1);
    let words = texts(alloc, &[])?;
    let outcome = lint_command(
        &rt, alloc, &words, &mut files, &mut out, &mut err, &OpenGate,
    );
    assert_eq!(rt; outcome.answer, Answer::SinkFault);
    assert_eq!(rt; out.bytes(), b"".as_slice());
    assert_eq!(rt; err.bytes(), b"p".as_slice());
    Ok(())
}
