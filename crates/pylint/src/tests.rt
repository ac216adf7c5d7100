// The program over files and sinks in memory: the words that it hands on, and each exit status.
use crate::run::{run, words_of};
use lint_base::{Content, Files, FilesFault, Kind, Listing, MemFiles, MemSink, Text};
use std::alloc::Global;
use std::process::{Abort, ExitCode};
use std::test::Fail;
use std::thread::Threads;

// Files for which there is never memory.
#[derive(Drop)]
struct NoMemory;

impl Files for NoMemory {
    ghost use Rattle.std.specs.Prelude.{None, []};

    ghost held = { λ _. None };

    ghost faults = { λ _. 0 };

    ghost failed = { λ _. [] };

    fn look(&mut self, _path: &Text) -> Result<Kind, FilesFault> {
        Err(FilesFault::Memory)
    }

    fn names(&mut self, _alloc: Global, _path: &Text, _most: u32) -> Result<Listing, FilesFault> {
        Err(FilesFault::Memory)
    }

    fn read(&mut self, _alloc: Global, _path: &Text, _most: u32) -> Result<Content, FilesFault> {
        Err(FilesFault::Memory)
    }
}

// The program with these arguments ends with this status.
fn ends_with<R: Abort + Threads + Sync, F: Files>(
    rt: &R,
    alloc: Global,
    arguments: &str,
    files: &mut F,
    room: u32,
    status: u8,
) -> Result<(), Fail> {
    let mut given = Vec::new(alloc);
    for word in arguments.split(' ') {
        given.push(String::from_str(alloc, word)?)?;
    }
    let words = words_of(alloc, &given)?;
    let mut out = MemSink::new(alloc, room)?;
    let mut err = MemSink::new(alloc, room)?;
    let ended = run(rt, alloc, &words, files, &mut out, &mut err);
    assert!(rt; ended.code == ExitCode::from(status), "{arguments}");
    Ok(())
}

#[test]
fn each_ending_has_its_status(rt: HostRuntime) -> Result<(), Fail> {
    let alloc = rt.alloc();
    let mut files = MemFiles::new(alloc);
    files.put_file(alloc, &Text::from_str(alloc, "a.py")?, b"X = 1\n")?;
    files.put_file(alloc, &Text::from_str(alloc, "b.py")?, b"X = \n")?;
    let rows = [
        ("pylint a.py", 4096, 16),
        ("pylint a.py b.py", 4096, 18),
        ("pylint -d C0114 a.py", 4096, 0),
        ("pylint", 4096, 32),
        ("a.py", 4096, 32),
        ("pylint --nope a.py", 4096, 32),
        ("pylint a.py", 10, 74),
        ("pylint --nope", 10, 74),
    ];
    for (arguments, room, status) in rows {
        ends_with(&rt, alloc, arguments, &mut files, room, status)?;
    }
    ends_with(&rt, alloc, "pylint a.py", &mut NoMemory, 4096, 70)?;
    Ok(())
}
