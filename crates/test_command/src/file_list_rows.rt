// What a reading of trees of files in memory has. Words and held paths stand between blanks; a held path that ends with
// `/` is a folder.
mod failing;
mod limits;
mod trees;

use file_list::{Entry, Reading, gather};
use lint_outside::{Files, MemFiles};
use lint_values::Text;
use options::{Edits, Options, read_words};
use std::alloc::Global;
use std::test::Fail;

fn held(alloc: Global, paths: &str) -> Result<MemFiles, Fail> {
    let mut files = MemFiles::new(alloc);
    for path in paths.split(' ') {
        match path.strip_suffix('/') {
            Some(folder) => files.put_folder(alloc, &Text::from_str(alloc, folder)?)?,
            None => files.put_file(alloc, &Text::from_str(alloc, path)?, b"X = 1\n")?,
        }
    }
    Ok(files)
}

fn sign(entry: &Entry) -> &'static str {
    match entry {
        Entry::Source(_) => "",
        Entry::Missing => "?",
        Entry::NoPackage => "/",
        Entry::Failed => "!",
        Entry::TooLarge => "#",
        Entry::TooMany => "+",
        Entry::TooDeep => "v",
        Entry::TooMuch => "%",
    }
}

// The reading that the words of a command give.
fn reading<F: Files>(alloc: Global, files: &mut F, words: &str) -> Result<Reading, Fail> {
    let mut split = Vec::new(alloc);
    for word in words.split(' ') {
        split.push(Text::from_str(alloc, word)?)?;
    }
    match read_words(alloc, &split) {
        Ok(line) => {
            let options = Options::of(alloc, &Edits::new(alloc), &line.edits)?;
            Ok(gather(alloc, files, line.files.as_slice(), &options)?)
        }
        Err(_) => Ok(Reading::new(alloc)),
    }
}

// Each entry as its path, its module name, a star for a package, and its sign.
fn shown(alloc: Global, reading: &Reading) -> Result<String, Fail> {
    let mut out = String::new(alloc);
    for l in reading.entries() {
        let name = l.module_name.as_str();
        let star = if l.is_package { "*" } else { "" };
        let end = sign(&l.entry);
        out.push_str(format!(in alloc; "{}={name}{star}{end} ", l.path.as_str())?.as_str())?;
    }
    Ok(out)
}

fn found<F: Files>(alloc: Global, files: &mut F, words: &str) -> Result<String, Fail> {
    let reading = reading(alloc, files, words)?;
    Ok(shown(alloc, &reading)?)
}
