// The parts of a path.
ghost use Rattle.std.specs.Prelude.{◌≡◌, IfOk, codes};
ghost use Rattle.std.specs.Str.{bytes_eq};
ghost use Rattle.file_list.specs.Paths.{without_slashes, folder_of, last_part, joined, stem, is_module_file, is_init_file};

use lint_values::{Memory, Text};
use std::alloc::Global;

/// A path without the slashes at its end.
pub(crate) fn without_slashes(path: &str) -> &str
    ensures { result.now ≡ without_slashes path.now }
{
    path.trim_end_matches('/')
}

/// The folder that a path writes out, empty where there is none.
pub(crate) fn folder_of(path: &str) -> &str
    ensures { result.now ≡ folder_of path.now }
{
    match path.rsplit_once('/') {
        Some((folder, _)) => folder,
        None => "",
    }
}

/// What stands behind the last slash of a path, or all of it.
pub(crate) fn last_part(path: &str) -> &str
    ensures { result.now ≡ last_part path.now }
{
    match path.rsplit_once('/') {
        Some((_, name)) => name,
        None => path,
    }
}

/// The path of a name in a folder.
pub(crate) fn joined(alloc: Global, folder: &str, name: &str) -> Result<Text, Memory>
    ensures { IfOk result (λ path. path ≡ joined folder.now name.now) }
{
    Ok(Text::from_string(format!(in alloc; "{folder}/{name}")?))
}

/// A file's name without `.py`.
pub(crate) fn stem(name: &str) -> &str
    ensures { result.now ≡ stem name.now }
{
    match name.strip_suffix(".py") {
        Some(front) => front,
        None => name,
    }
}

pub(crate) fn is_module_file(path: &str) -> bool
    ensures { result ≡ is_module_file path.now }
{
    path.ends_with(".py")
}

pub(crate) fn is_init_file(path: &str) -> bool
    ensures { result ≡ is_init_file path.now }
{
    last_part(path) == "__init__.py"
}
