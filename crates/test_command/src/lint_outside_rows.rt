use lint_outside::{
    Calls, Content, FailingFiles, FailingSink, Files, FilesFault, Gate, Kind, Listing, MemFiles,
    MemSink, OpenGate, Question, RealFiles, RealSink, Sink, SinkFault,
};
use lint_values::{FileId, Memory, Text, Texts};
use std::alloc::Global;
use std::io::{ErrorKind, Write};
use std::process::Abort;
use std::test::Fail;
use std::{env, fs, io, process};

// Names, each behind a blank.
fn joined(alloc: Global, names: &Texts) -> Result<String, Memory> {
    let mut text = String::from_str(alloc, "folder")?;
    for name in names.as_slice() {
        text.push(' ')?;
        text.push_str(name.as_str())?;
    }
    Ok(text)
}

fn content(alloc: Global, content: &Content) -> Result<String, Memory> {
    match content {
        Content::TooLarge => Ok(String::from_str(alloc, "too large")?),
        Content::Whole(bytes) => {
            let text = std::str::from_utf8(bytes.as_slice()).unwrap_or("no text");
            Ok(format!(in alloc; "file {text}")?)
        }
    }
}

fn listing(alloc: Global, listing: &Listing) -> Result<String, Memory> {
    match listing {
        Listing::TooMany => Ok(String::from_str(alloc, "too many")?),
        Listing::Names(names) => joined(alloc, names),
    }
}

// What a device answers to a look, and then to the question for what it found.
fn told<F: Files>(
    files: &mut F,
    alloc: Global,
    path: &Text,
    most: u32,
) -> Result<String, FilesFault> {
    match files.look(path)? {
        Kind::File => {
            let found = files.read(alloc, path, most)?;
            Ok(content(alloc, &found)?)
        }
        Kind::Folder => {
            let found = files.names(alloc, path, most)?;
            Ok(listing(alloc, &found)?)
        }
        Kind::Missing => Ok(String::from_str(alloc, "missing").map_err(Memory::from)?),
    }
}

fn answers<R: Abort, F: Files>(
    rt: &R,
    alloc: Global,
    files: &mut F,
    row: (&str, u32, &str),
) -> Result<(), Fail> {
    let (path, most, want) = row;
    let answer = told(files, alloc, &Text::from_str(alloc, path)?, most);
    match answer {
        Ok(answer) => assert_eq!(rt; answer.as_str(), want, "{path}"),
        Err(FilesFault::Failed) => assert_eq!(rt; "failed", want, "{path}"),
        Err(FilesFault::Memory) => assert_eq!(rt; "memory", want, "{path}"),
    }
    Ok(())
}

fn put_files(alloc: Global) -> Result<MemFiles, Memory> {
    let mut files = MemFiles::new(alloc);
    for path in ["p/q", "p", "e"] {
        files.put_folder(alloc, &Text::from_str(alloc, path)?)?;
    }
    for (path, bytes) in [
        ("a.py", "x"),
        ("p/b.py", "first"),
        ("p/__init__.py", ""),
        ("p/q/c.py", "deep"),
        ("pq/d.py", "beside"),
        ("r/x.py", "alone"),
        ("p/b.py", "last"),
    ] {
        files.put_file(alloc, &Text::from_str(alloc, path)?, bytes.as_bytes())?;
    }
    Ok(files)
}

#[test]
fn memory_holds_what_was_put_last(rt: HostRuntime) -> Result<(), Fail> {
    let alloc = rt.alloc();
    let mut files = put_files(alloc)?;
    for row in [
        ("a.py", 1, "file x"),
        ("a.py", 0, "too large"),
        ("p/b.py", 4, "file last"),
        ("p", 3, "folder __init__.py b.py q"),
        ("p", 2, "too many"),
        ("p/q", 1, "folder c.py"),
        ("e", 0, "folder"),
        ("pq/d.py", 6, "file beside"),
        ("pq", 9, "missing"),
        ("r", 9, "missing"),
        ("p/", 9, "missing"),
        ("", 9, "missing"),
    ] {
        answers(&rt, alloc, &mut files, row)?;
    }
    Ok(())
}

fn question(alloc: Global, question: &Question) -> Result<String, Fail> {
    Ok(match question {
        Question::Look(path) => format!(in alloc; "look {}", path.as_str())?,
        Question::Names(path) => format!(in alloc; "names {}", path.as_str())?,
        Question::Read(path) => format!(in alloc; "read {}", path.as_str())?,
    })
}

// The calls are look, read, look, names, look, where none fails.
fn fails_at<R: Abort>(rt: &R, alloc: Global, row: (u32, [&str; 3], &str)) -> Result<(), Fail> {
    let (number, wants, asked) = row;
    let mut fail = Calls::new(alloc);
    fail.add(number)?;
    fail.add(99)?;
    let mut files = FailingFiles::new(put_files(alloc)?, fail);
    answers(rt, alloc, &mut files, ("a.py", 1, wants[0]))?;
    answers(rt, alloc, &mut files, ("p/q", 1, wants[1]))?;
    answers(rt, alloc, &mut files, ("none", 1, wants[2]))?;
    match files.failed() {
        [] => assert_eq!(rt; "", asked, "{number}"),
        [failed] => {
            let failed = question(alloc, failed)?;
            assert_eq!(rt; failed.as_str(), asked, "{number}");
        }
        _ => assert!(rt; false, "{number}"),
    }
    Ok(())
}

#[test]
fn chosen_calls_fail(rt: HostRuntime) -> Result<(), Fail> {
    let alloc = rt.alloc();
    for row in [
        (0, ["file x", "folder c.py", "missing"], ""),
        (1, ["failed", "folder c.py", "missing"], "look a.py"),
        (2, ["failed", "folder c.py", "missing"], "read a.py"),
        (3, ["file x", "failed", "missing"], "look p/q"),
        (4, ["file x", "failed", "missing"], "names p/q"),
        (5, ["file x", "folder c.py", "failed"], "look none"),
        (6, ["file x", "folder c.py", "missing"], ""),
    ] {
        fails_at(&rt, alloc, row)?;
    }
    Ok(())
}

// A plus for each piece that a sink takes, and a minus for each at which it fails.
fn taken<S: Sink>(alloc: Global, sink: &mut S, pieces: &[&str]) -> Result<String, Memory> {
    let mut outcomes = String::new(alloc);
    for piece in pieces {
        match sink.write(piece.as_bytes()) {
            Ok(()) => outcomes.push('+')?,
            Err(SinkFault::Failed) => outcomes.push('-')?,
        }
    }
    Ok(outcomes)
}

#[test]
fn memory_takes_whole_pieces(rt: HostRuntime) -> Result<(), Fail> {
    let alloc = rt.alloc();
    let mut sink = MemSink::new(alloc, 3)?;
    let outcomes = taken(alloc, &mut sink, &["ab", "cd", "", "e", "f"])?;
    assert_eq!(rt; outcomes.as_str(), "+-++-");
    assert_eq!(rt; sink.room(), 0);
    assert_eq!(rt; sink.bytes(), b"abe".as_slice());
    Ok(())
}

// The last piece may be longer than the room that is left.
fn fails_in<R: Abort>(rt: &R, alloc: Global, row: (u32, u32, &str, &str)) -> Result<(), Fail> {
    let (nth, first_part, wants, bytes) = row;
    let mut sink = FailingSink::new(MemSink::new(alloc, 6)?, nth, first_part);
    let outcomes = taken(alloc, &mut sink, &["ab", "", "c", "defg"])?;
    assert_eq!(rt; outcomes.as_str(), wants, "{nth} {first_part}");
    assert_eq!(rt; sink.bytes(), bytes.as_bytes(), "{nth} {first_part}");
    Ok(())
}

#[test]
fn chosen_pieces_fail(rt: HostRuntime) -> Result<(), Fail> {
    let alloc = rt.alloc();
    for row in [
        (0, 0, "+++-", "abc"),
        (1, 0, "-+++", "cdefg"),
        (1, 1, "-+++", "acdefg"),
        (1, 2, "-++-", "abc"),
        (1, 3, "-+++", "acdefg"),
        (2, 0, "+-+-", "abc"),
        (2, 1, "+-+-", "abc"),
        (3, 0, "++-+", "abdefg"),
        (3, 1, "++--", "abc"),
        (4, 1, "+++-", "abcd"),
        (5, 1, "+++-", "abc"),
    ] {
        fails_in(&rt, alloc, row)?;
    }
    Ok(())
}

// A folder of this test's own.
fn make_folder<R: fs::Files + AllocGlobal>(rt: &R, folder: &str) -> Result<(), Fail> {
    let alloc = rt.alloc();
    let deeper = format!(in alloc; "{folder}/deeper")?;
    fs::create_dir_all(rt, deeper.as_str())?;
    let file = format!(in alloc; "{folder}/a.py")?;
    fs::write(rt, file.as_str(), "X = 1")?;
    Ok(())
}

#[test]
fn real_files_answer(rt: HostRuntime) -> Result<(), Fail> {
    let alloc = rt.alloc();
    let base = env::temp_dir(&rt)?;
    let folder = format!(in alloc;
        "{}/lint_outside_{}",
        base.as_path().as_str(),
        process::id(rt.process())
    )?;
    make_folder(&rt, folder.as_str())?;
    let mut files = RealFiles::new(&rt);
    for (name, most, want) in [
        ("/a.py", 5, "file X = 1"),
        ("/a.py", 4, "too large"),
        ("/deeper", 0, "folder"),
        ("", 1, "too many"),
        ("/none", 9, "missing"),
        ("/a.py/none", 9, "missing"),
        ("/\0", 9, "failed"),
    ] {
        let path = format!(in alloc; "{folder}{name}")?;
        answers(&rt, alloc, &mut files, (path.as_str(), most, want))?;
    }
    let path = Text::from_string(folder);
    if let Listing::Names(names) = files.names(alloc, &path, 2)? {
        assert_eq!(rt; names.as_slice().len(), 2);
    }
    fs::remove_dir_all(&rt, path.as_str())?;
    Ok(())
}

// A writer that takes a byte at a time while it has room, and may fail where it is flushed.
#[derive(Drop)]
struct Narrow {
    room: u32,
    flushes: bool,
}

impl Write for Narrow {
    fn write(&mut self, buf: &[u8]) -> io::Result<usize> {
        if self.room == 0 {
            return Err(io::Error::from(ErrorKind::StorageFull));
        }
        self.room -= 1;
        Ok(buf.len().min(1))
    }

    fn flush(&mut self) -> io::Result<()> {
        if self.flushes {
            Ok(())
        } else {
            Err(io::Error::from(ErrorKind::BrokenPipe))
        }
    }
}

#[test]
fn real_sinks_write_or_fail(rt: HostRuntime) -> Result<(), Fail> {
    let alloc = rt.alloc();
    let pieces = ["ab", "", "cd", "ef"];
    for (room, flushes, wants) in [
        (5, true, "+++-"),
        (9, true, "++++"),
        (1, true, "-+--"),
        (9, false, "----"),
    ] {
        let mut sink = RealSink::new(Narrow { room, flushes });
        let outcomes = taken(alloc, &mut sink, &pieces)?;
        assert_eq!(rt; outcomes.as_str(), wants, "{room}");
    }
    let mut bytes = Vec::new(alloc);
    let mut sink = RealSink::new(&mut bytes);
    sink.write(b"ab")?;
    sink.write(b"c")?;
    drop(sink);
    assert_eq!(rt; bytes.as_slice(), b"abc".as_slice());
    OpenGate.pass(FileId(0));
    Ok(())
}
