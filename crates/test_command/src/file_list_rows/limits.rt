// Each limit at its number.
use super::{found, held};
use lint_outside::MemFiles;
use lint_values::Text;
use std::alloc::Global;
use std::test::Fail;

// Folders in each other, so many, with a file in the last one.
fn nested(alloc: Global, folders: u32) -> Result<MemFiles, Fail> {
    let mut files = MemFiles::new(alloc);
    let mut path = String::from_str(alloc, "d")?;
    for _ in 1..folders {
        files.put_folder(alloc, &Text::from_str(alloc, path.as_str())?)?;
        path.push_str("/d")?;
    }
    files.put_folder(alloc, &Text::from_str(alloc, path.as_str())?)?;
    path.push_str("/a.py")?;
    files.put_file(alloc, &Text::from_str(alloc, path.as_str())?, b"")?;
    Ok(files)
}

#[test]
fn folders_are_walked_so_deep(rt: HostRuntime) -> Result<(), Fail> {
    let alloc = rt.alloc();
    let mut files = nested(alloc, 33)?;
    let given = found(alloc, &mut files, "--recursive=y d")?;
    assert!(rt; given.as_str().trim().ends_with("/a.py=a"));
    let mut files = nested(alloc, 34)?;
    let given = found(alloc, &mut files, "--recursive=y d")?;
    assert!(rt; given.as_str().trim().ends_with("/dv"));
    Ok(())
}

// Packages in each other, so many, with a file in the last one, and that file's path.
fn chained(alloc: Global, packages: u32) -> Result<(MemFiles, String), Fail> {
    let mut files = MemFiles::new(alloc);
    let mut path = String::new(alloc);
    for i in 0..packages {
        path.push_str(format!(in alloc; "p{i}/")?.as_str())?;
        let own = format!(in alloc; "{}__init__.py", path.as_str())?;
        files.put_file(alloc, &Text::from_string(own), b"")?;
    }
    path.push_str("a.py")?;
    files.put_file(alloc, &Text::from_str(alloc, path.as_str())?, b"")?;
    Ok((files, path))
}

#[test]
fn so_many_packages_are_named(rt: HostRuntime) -> Result<(), Fail> {
    let alloc = rt.alloc();
    let (mut files, path) = chained(alloc, 32)?;
    let given = found(alloc, &mut files, path.as_str())?;
    assert!(rt; given.as_str().contains("=p0.p1.p2."));
    let (mut files, path) = chained(alloc, 33)?;
    let given = found(alloc, &mut files, path.as_str())?;
    assert!(rt; given.as_str().contains("=p1.p2."));
    Ok(())
}

// A package with so many files besides its own.
fn wide(alloc: Global, count: u32) -> Result<MemFiles, Fail> {
    let mut files = held(alloc, "p/ p/__init__.py z.py")?;
    for i in 0..count {
        let path = format!(in alloc; "p/f{i}.py")?;
        files.put_file(alloc, &Text::from_string(path), b"")?;
    }
    Ok(files)
}

// So many words that name no file, and one more.
fn numbers(alloc: Global, count: u32) -> Result<String, Fail> {
    let mut words = String::new(alloc);
    for i in 0..count {
        words.push_str(format!(in alloc; "{i} ")?.as_str())?;
    }
    words.push_str("n.py")?;
    Ok(words)
}

#[test]
fn so_many_are_taken(rt: HostRuntime) -> Result<(), Fail> {
    let alloc = rt.alloc();
    let mut files = held(alloc, "n.py")?;
    let words = numbers(alloc, 20_000)?;
    let given = found(alloc, &mut files, words.as_str())?;
    assert!(rt; given.as_str().trim().ends_with("19999=19999? n.py=n+"));
    let words = numbers(alloc, 20_001)?;
    let given = found(alloc, &mut files, words.as_str())?;
    assert!(rt; given.as_str().trim().ends_with("19999=19999? 20000=20000+"));
    Ok(())
}

#[test]
fn so_many_names_are_listed(rt: HostRuntime) -> Result<(), Fail> {
    let alloc = rt.alloc();
    let mut files = wide(alloc, 20_000)?;
    let given = found(alloc, &mut files, "p z.py")?;
    assert_eq!(rt; given.as_str().trim(), "p=p+");
    Ok(())
}

// A file with so many bytes.
fn put_bytes(alloc: Global, files: &mut MemFiles, path: &str, count: usize) -> Result<(), Fail> {
    let bytes = vec![in alloc; b'#'; count]?;
    files.put_file(alloc, &Text::from_str(alloc, path)?, bytes.as_slice())?;
    Ok(())
}

#[test]
fn so_large_files_are_read(rt: HostRuntime) -> Result<(), Fail> {
    let alloc = rt.alloc();
    let mut files = MemFiles::new(alloc);
    put_bytes(alloc, &mut files, "a.py", 4_194_304)?;
    put_bytes(alloc, &mut files, "b.py", 4_194_305)?;
    let given = found(alloc, &mut files, "a.py b.py")?;
    assert_eq!(rt; given.as_str().trim(), "a.py=a b.py=b#");
    Ok(())
}

#[test]
fn so_much_is_read(rt: HostRuntime) -> Result<(), Fail> {
    let alloc = rt.alloc();
    let bytes = vec![in alloc; b'#'; 4_194_304]?;
    let mut files = held(alloc, "p/ p/__init__.py p/d.py")?;
    for i in 0..15 {
        let path = Text::from_string(format!(in alloc; "p/a{i}.py")?);
        files.put_file(alloc, &path, bytes.as_slice())?;
    }
    // With the six bytes of the package's own file the limit is reached, and an empty file is no more.
    put_bytes(alloc, &mut files, "p/b.py", 4_194_298)?;
    files.put_file(alloc, &Text::from_str(alloc, "p/c.py")?, b"")?;
    let given = found(alloc, &mut files, "p")?;
    assert!(rt;
        given
            .as_str()
            .trim()
            .ends_with("p/b.py=p.b p/c.py=p.c p/d.py=p.d%")
    );
    Ok(())
}
