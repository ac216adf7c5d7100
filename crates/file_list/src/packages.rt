// The module name of a file, by the packages above it.
ghost use Rattle.std.specs.Prelude.{◌≡◌, ◌≤◌, ◌++◌, IfOk};
ghost use Rattle.file_list.specs.Answers.{is_file};
ghost use Rattle.file_list.specs.Asked.{Asks};
ghost use Rattle.file_list.specs.ModuleNames.{holds_init, is_written_out, is_package_folder, is_package_file, packages, module_name};

use crate::known::{Known, look};
use crate::paths::{folder_of, is_init_file, joined, last_part, stem};
use lint_outside::{Files, Kind};
use lint_values::{Memory, Text};
use std::alloc::Global;

/// The most folders that are looked at upwards for a module name.
pub const MAX_PACKAGES: u32 = 32;

fn is_file(found: Option<Kind>) -> bool
    ensures { result ≡ is_file found }
{
    match found {
        Some(Kind::File) => true,
        Some(Kind::Folder) => false,
        Some(Kind::Missing) => false,
        None => false,
    }
}

/// Whether a folder holds `__init__.py`: a look that fails counts as no.
pub(crate) fn holds_init<F: Files>(
    known: &mut Known,
    alloc: Global,
    files: &mut F,
    folder: &str,
) -> Result<bool, Memory>
    ensures asks { IfOk result (Asks (F.held files.old) (F.faults files.old) (F.faults files.new) (F.failed files.old) (F.failed files.new) known.old known.new (λ answers. holds_init answers folder.now)) }
    ensures held { F.held files.new ≡ F.held files.old }
    ensures later { F.faults files.old ≤ F.faults files.new }
{
    let path = joined(alloc, folder, "__init__.py")?;
    let found = look(known, alloc, files, &path)?;
    Ok(is_file(found))
}

fn is_written_out(folder: &str) -> bool
    ensures { result ≡ is_written_out folder.now }
{
    let name = last_part(folder);
    name != "" && name != "."
}

fn is_package_folder<F: Files>(
    known: &mut Known,
    alloc: Global,
    files: &mut F,
    folder: &str,
) -> Result<bool, Memory>
    ensures asks { IfOk result (Asks (F.held files.old) (F.faults files.old) (F.faults files.new) (F.failed files.old) (F.failed files.new) known.old known.new (λ answers. is_package_folder answers folder.now)) }
    ensures held { F.held files.new ≡ F.held files.old }
    ensures later { F.faults files.old ≤ F.faults files.new }
{
    if !is_written_out(folder) {
        return Ok(false);
    }
    Ok(holds_init(known, alloc, files, folder)?)
}

// The names of the packages of the chain that ends with a folder, a dot behind each.
fn packages<F: Files>(
    known: &mut Known,
    alloc: Global,
    files: &mut F,
    most: u32,
    folder: &str,
) -> Result<Text, Memory>
    ensures asks { IfOk result (Asks (F.held files.old) (F.faults files.old) (F.faults files.new) (F.failed files.old) (F.failed files.new) known.old known.new (λ answers. packages answers most folder.now)) }
    ensures held { F.held files.new ≡ F.held files.old }
    ensures later { F.faults files.old ≤ F.faults files.new }
{
    if most == 0 {
        return Ok(Text::from_str(alloc, "")?);
    }
    if !is_package_folder(known, alloc, files, folder)? {
        return Ok(Text::from_str(alloc, "")?);
    }
    let above = packages(known, alloc, files, most - 1, folder_of(folder))?;
    let name = behind(alloc, last_part(folder), ".")?;
    Ok(behind(alloc, above.as_str(), name.as_str())?)
}

fn behind(alloc: Global, front: &str, back: &str) -> Result<Text, Memory>
    ensures { IfOk result (λ text. text ≡ front.now ++ back.now) }
{
    Ok(Text::from_string(format!(in alloc; "{front}{back}")?))
}

fn is_package_file<F: Files>(
    known: &mut Known,
    alloc: Global,
    files: &mut F,
    path: &str,
) -> Result<bool, Memory>
    ensures asks { IfOk result (Asks (F.held files.old) (F.faults files.old) (F.faults files.new) (F.failed files.old) (F.failed files.new) known.old known.new (λ answers. is_package_file answers path.now)) }
    ensures held { F.held files.new ≡ F.held files.old }
    ensures later { F.faults files.old ≤ F.faults files.new }
{
    if !is_init_file(path) {
        return Ok(false);
    }
    Ok(is_package_folder(known, alloc, files, folder_of(path))?)
}

/// The dotted module name of a file.
pub(crate) fn module_name<F: Files>(
    known: &mut Known,
    alloc: Global,
    files: &mut F,
    path: &str,
) -> Result<Text, Memory>
    ensures asks { IfOk result (Asks (F.held files.old) (F.faults files.old) (F.faults files.new) (F.failed files.old) (F.failed files.new) known.old known.new (λ answers. module_name answers path.now)) }
    ensures held { F.held files.new ≡ F.held files.old }
    ensures later { F.faults files.old ≤ F.faults files.new }
{
    let folder = folder_of(path);
    if is_package_file(known, alloc, files, path)? {
        let above = packages(known, alloc, files, MAX_PACKAGES - 1, folder_of(folder))?;
        return Ok(behind(alloc, above.as_str(), last_part(folder))?);
    }
    let above = packages(known, alloc, files, MAX_PACKAGES, folder)?;
    Ok(behind(alloc, above.as_str(), stem(last_part(path)))?)
}
