// What the arguments give: trees of files, words, and the entries.
use super::{found, held, reading, shown};
use file_list::{Entry, Reading};
use lint_outside::MemFiles;
use lint_values::{Bytes, FileId, Text};
use std::alloc::Global;
use std::test::Fail;

// The first row that gives something else. A row is words, what is held, and the entries, with a bar between them.
fn first_other(alloc: Global, rows: &'static str) -> Result<Option<(&'static str, String)>, Fail> {
    for row in rows.split('\n') {
        let (words, rest) = row.split_once('|').unwrap_or((row, ""));
        let (paths, expected) = rest.split_once('|').unwrap_or((rest, "no row"));
        let mut files = held(alloc, paths)?;
        let given = found(alloc, &mut files, words)?;
        if given.as_str().trim() != expected {
            return Ok(Some((row, given)));
        }
    }
    Ok(None)
}

const ARGUMENTS: &str = "a.py|a.py|a.py=a
a|a|a=a
a.txt|a.txt|a.txt=a.txt
a.py|b.py|a.py=a.py?
a.py b.py|b.py a.py|a.py=a b.py=b
b.py a.py|b.py a.py|b.py=b a.py=a
a.py a.py|a.py|a.py=a
n.py n.py|a.py|n.py=n.py?
a.py ./a.py|a.py ./a.py|a.py=a ./a.py=a
a.py/|a.py|a.py=a
a.py// a.py|a.py|a.py=a
p|p/ p/a.py|p=p/
p p|p/ p/a.py|p=p/
p/ p|p/ p/__init__.py p/a.py p/b.py|p/__init__.py=p* p/a.py=p.a p/b.py=p.b
p/b.py p|p/ p/__init__.py p/a.py p/b.py|p/b.py=p.b p/__init__.py=p* p/a.py=p.a
p p/a.py|p/ p/__init__.py p/a.py p/b.py|p/__init__.py=p* p/a.py=p.a p/b.py=p.b
p n.py|p/ p/__init__.py p/a.py p/b.py|p/__init__.py=p* p/a.py=p.a p/b.py=p.b n.py=n.py?
__init__.py|__init__.py|__init__.py=__init__*
./__init__.py|./__init__.py|./__init__.py=__init__*
..|../ ../__init__.py ../a.py|../__init__.py=..* ../a.py=...a
.|./ ./__init__.py ./a.py|./__init__.py=__init__* ./a.py=a
.|./ ./a.py|.=./
/|/a.py|=?
p/n.py|p/ p/__init__.py p/a.py p/b.py|p/n.py=p/n.py?";

const FOLDERS: &str =
    "p|p/ p/b.py p/__init__.py p/B.py p/a.py|p/B.py=p.B p/__init__.py=p* p/a.py=p.a p/b.py=p.b
p|p/ p/__init__.py p/a.txt p/README p/a.pyc|p/__init__.py=p*
p|p/ p/__init__.py p/q/ p/q/a.py|p/__init__.py=p*
p|p/ p/__init__.py p/q/ p/q/__init__.py p/q/a.py|p/__init__.py=p* p/q/__init__.py=p.q* p/q/a.py=p.q.a
p|p/ p/__init__.py p/q/ p/q/__init__.py p/q.py p/r.py|p/__init__.py=p* p/q/__init__.py=p.q* p/q.py=p.q p/r.py=p.r
--recursive=y p|p/ p/a.py|p/a.py=a
--recursive=y p|p/ p/q/ p/q/a.py p/b.py|p/b.py=b p/q/a.py=a
--recursive=y p|p/ p/q/ p/q/__init__.py p/q/a.py|p/q/__init__.py=q* p/q/a.py=q.a
--recursive=y p|p/ p/__init__.py p/q/ p/q/a.py|p/__init__.py=p* p/q/a.py=a
--recursive=n p|p/ p/a.py|p=p/
--recursive=y p|p/|
p|p/ p/__init__.py/ p/a.py|p=p/
--recursive=y p|p/ p/__init__.py/ p/a.py|p/a.py=a
--recursive=y .|./ ./a.py|./a.py=a
--recursive=y /|/ /a.py|/a.py=a
p|p/ p/__init__.py p/CVS/ p/CVS/__init__.py|p/__init__.py=p*
--ignore=a.py p|p/ p/__init__.py p/a.py p/b.py|p/__init__.py=p* p/b.py=p.b
--ignore=a.py p/a.py|p/ p/__init__.py p/a.py p/b.py|p/a.py=p.a
--ignore=p p|p/ p/__init__.py p/a.py p/b.py|p/__init__.py=p* p/a.py=p.a p/b.py=p.b
--ignore=__init__.py p|p/ p/__init__.py p/a.py p/b.py|p/a.py=p.a p/b.py=p.b
--ignore=A.py p|p/ p/__init__.py p/a.py p/b.py|p/__init__.py=p* p/a.py=p.a p/b.py=p.b
--ignore=q --recursive=y p|p/ p/q/ p/q/a.py p/q.py|p/q.py=q";

const NAMES: &str = "p/a.py|p/ p/__init__.py p/a.py p/b.py|p/a.py=p.a
p/a.py|p/a.py|p/a.py=a
./p/a.py|./p/__init__.py ./p/a.py|./p/a.py=p.a
./a.py|./__init__.py ./a.py|./a.py=a
q/p/a.py|q/p/__init__.py q/p/a.py|q/p/a.py=p.a
q/p/a.py|q/__init__.py q/p/__init__.py q/p/a.py|q/p/a.py=q.p.a
q/p/a.py|q/__init__.py q/p/a.py|q/p/a.py=a
r/q/p/a.py|r/__init__.py r/q/p/__init__.py r/q/p/a.py|r/q/p/a.py=p.a
q/p/__init__.py|q/__init__.py q/p/__init__.py|q/p/__init__.py=q.p*
q/p/__init__.py|q/p/__init__.py|q/p/__init__.py=p*
q/__init__.py|q/__init__.py|q/__init__.py=q*
/p/a.py|/p/__init__.py /p/a.py|/p/a.py=p.a
/a.py|/__init__.py /a.py|/a.py=a
p/a|p/__init__.py p/a|p/a=p.a
q//a.py|q/__init__.py q//__init__.py q//a.py|q//a.py=a
p/a.b.py|p/__init__.py p/a.b.py|p/a.b.py=p.a.b";

#[test]
fn arguments_are_taken_in_order(rt: HostRuntime) -> Result<(), Fail> {
    assert!(rt; first_other(rt.alloc(), ARGUMENTS)?.is_none());
    Ok(())
}

#[test]
fn folders_are_walked(rt: HostRuntime) -> Result<(), Fail> {
    assert!(rt; first_other(rt.alloc(), FOLDERS)?.is_none());
    Ok(())
}

#[test]
fn modules_are_named(rt: HostRuntime) -> Result<(), Fail> {
    assert!(rt; first_other(rt.alloc(), NAMES)?.is_none());
    Ok(())
}

// Two files with bytes of their own.
fn two_files(alloc: Global) -> Result<MemFiles, Fail> {
    let mut files = MemFiles::new(alloc);
    files.put_file(alloc, &Text::from_str(alloc, "a.py")?, b"A = 1\n")?;
    files.put_file(alloc, &Text::from_str(alloc, "b.py")?, b"")?;
    Ok(files)
}

fn is_source(entry: &Entry, expected: &[u8]) -> bool {
    match entry {
        Entry::Source(bytes) => bytes.as_slice() == expected,
        _ => false,
    }
}

#[test]
fn sources_are_read(rt: HostRuntime) -> Result<(), Fail> {
    let alloc = rt.alloc();
    let mut files = two_files(alloc)?;
    let reading = reading(alloc, &mut files, "b.py a.py n.py")?;
    assert_eq!(rt; reading.count(), 3);
    assert!(rt; is_source(reading.entry(FileId(0)), b""));
    assert!(rt; is_source(reading.entry(FileId(1)), b"A = 1\n"));
    Ok(())
}

// The entries of these words, added one by one.
fn added(alloc: Global) -> Result<Reading, Fail> {
    let mut made = Reading::new(alloc);
    let name = Text::from_str(alloc, "b")?;
    let source = Entry::Source(Bytes::new(alloc));
    made.add(Text::from_str(alloc, "b.py")?, name, false, source)?;
    let name = Text::from_str(alloc, "n.py")?;
    made.add(Text::from_str(alloc, "n.py")?, name, false, Entry::Missing)?;
    Ok(made)
}

#[test]
fn what_is_gathered_is_what_is_added(rt: HostRuntime) -> Result<(), Fail> {
    let alloc = rt.alloc();
    let mut files = two_files(alloc)?;
    let given = reading(alloc, &mut files, "b.py n.py")?;
    let made = added(alloc)?;
    let expected = shown(alloc, &made)?;
    assert_eq!(rt; shown(alloc, &given)?.as_str(), expected.as_str());
    assert_eq!(rt; given.count(), 2);
    assert_eq!(rt; made.count(), 2);
    assert!(rt; is_source(given.entry(FileId(0)), b""));
    assert!(rt; is_source(made.entry(FileId(0)), b""));
    assert_eq!(rt; given.find("b"), made.find("b"));
    Ok(())
}

#[test]
fn modules_are_looked_up(rt: HostRuntime) -> Result<(), Fail> {
    let alloc = rt.alloc();
    let mut files = held(alloc, "p/ p/__init__.py p/a.py p/b.py q/ q/b.py b.py")?;
    let reading = reading(alloc, &mut files, "--recursive=y p q b.py n.py")?;
    assert_eq!(rt; reading.find("p"), Some(FileId(0)));
    assert_eq!(rt; reading.find("p.b"), Some(FileId(2)));
    assert_eq!(rt; reading.find("b"), None);
    assert_eq!(rt; reading.find("p.c"), None);
    assert_eq!(rt; reading.find(""), None);
    assert_eq!(rt; reading.find("n.py"), Some(FileId(5)));
    Ok(())
}
