// The walk through arguments and folders.
ghost use Rattle.std.specs.Prelude.{◌≡◌, ◌≤◌, IfOk, OnOk, map, filter, not, true};
ghost use Rattle.std.specs.List.{list_any};
ghost use Rattle.std.specs.Option.{ForSome};
ghost use Rattle.std.specs.Str.{bytes_eq};
ghost use Rattle.std.specs.FinMap as finite;
ghost use Rattle.lint_outside.specs.Held.{kind_of};
ghost use Rattle.lint_messages.specs.Order.{text_cmp};
ghost use Rattle.lint_messages.specs.Sorting.{sorted_by};
ghost use Rattle.file_list.specs.Asked.{Asks, IsRightSoFar};
ghost use Rattle.file_list.specs.Paths.{joined};
ghost use Rattle.file_list.specs.Walked.{paths_in, listed_in, with_file, is_walked, at_name, at_argument, walked, with_argument};

use crate::Finding;
use crate::findings::Findings;
use crate::known::{Known, look, names};
use crate::packages::{holds_init, module_name};
use crate::paths::{is_init_file, is_module_file, joined, without_slashes};
use lint_outside::{Files, Kind, Listing};
use lint_values::{Memory, Text, Texts};
use std::alloc::Global;

/// How many folders are walked below each other: an argument's, and 32 below it.
pub const MAX_LEVELS: u32 = 33;

fn is_ignored(ignore: &[Text], name: &Text) -> bool
    ensures { result ≡ list_any (bytes_eq name.now) ignore.now }
{
    ignore.iter().any(|i| name.as_str() == i.as_str())
}

fn sorted(names: Texts) -> Vec<Text>
    ensures { result.items ≡ sorted_by text_cmp names }
{
    let mut names = names.into_vec();
    names.sort_unstable();
    names
}

fn kept_paths(
    alloc: Global,
    ignore: &[Text],
    folder: &Text,
    names: &[Text],
) -> Result<Texts, Memory>
    ensures { IfOk result (λ paths. paths ≡ map (joined folder.now) (filter (λ name. not (list_any (bytes_eq name) ignore.now)) names.now)) }
{
    let mut paths = Vec::new(alloc);
    for name in names {
        if !is_ignored(ignore, name) {
            paths.push(joined(alloc, folder.as_str(), name.as_str())?)?;
        }
    }
    Ok(Texts::from_vec(paths))
}

// The paths of a folder's names that are looked at, in their order.
fn paths_in(alloc: Global, ignore: &[Text], folder: &Text, names: Texts) -> Result<Texts, Memory>
    ensures { IfOk result (λ paths. paths ≡ paths_in ignore.now folder.now names) }
{
    let names = sorted(names);
    Ok(kept_paths(alloc, ignore, folder, names.as_slice())?)
}

fn listed_in(
    alloc: Global,
    ignore: &[Text],
    folder: &Text,
    listing: Option<Listing>,
) -> Result<Option<Listing>, Memory>
    ensures { IfOk result (λ paths. paths ≡ listed_in ignore.now folder.now listing) }
{
    match listing {
        None => Ok(None),
        Some(Listing::TooMany) => Ok(Some(Listing::TooMany)),
        Some(Listing::Names(names)) => Ok(Some(Listing::Names(paths_in(
            alloc, ignore, folder, names,
        )?))),
    }
}

fn add_file<F: Files>(
    known: &mut Known,
    findings: &mut Findings,
    alloc: Global,
    files: &mut F,
    path: &Text,
) -> Result<(), Memory>
    ensures asks { OnOk result (Asks (F.held files.old) (F.faults files.old) (F.faults files.new) (F.failed files.old) (F.failed files.new) known.old known.new (λ answers. with_file answers findings.old path.now) findings.new) }
    ensures held { F.held files.new ≡ F.held files.old }
    ensures later { F.faults files.old ≤ F.faults files.new }
{
    let name = module_name(known, alloc, files, path.as_str())?;
    let is_package = is_init_file(path.as_str());
    findings.add(alloc, path, name, is_package, Finding::File)?;
    Ok(())
}

fn is_walked<F: Files>(
    known: &mut Known,
    alloc: Global,
    files: &mut F,
    recursive: bool,
    folder: &Text,
) -> Result<bool, Memory>
    ensures asks { IfOk result (Asks (F.held files.old) (F.faults files.old) (F.faults files.new) (F.failed files.old) (F.failed files.new) known.old known.new (λ answers. is_walked answers recursive folder.now)) }
    ensures held { F.held files.new ≡ F.held files.old }
    ensures later { F.faults files.old ≤ F.faults files.new }
{
    if recursive {
        return Ok(true);
    }
    Ok(holds_init(known, alloc, files, folder.as_str())?)
}

// Takes what stands at a name in a walked folder, and says whether it is a folder that is to be walked.
fn at_name<F: Files>(
    known: &mut Known,
    findings: &mut Findings,
    alloc: Global,
    files: &mut F,
    recursive: bool,
    path: &Text,
) -> Result<bool, Memory>
    requires { ForSome (F.held files.old) (λ tree. IsRightSoFar tree (F.failed files.old) known.old) }
    ensures asks { IfOk result (λ goes_on. Asks (F.held files.old) (F.faults files.old) (F.faults files.new) (F.failed files.old) (F.failed files.new) known.old known.new (λ answers. at_name answers recursive findings.old path.now) (findings.new, goes_on)) }
    ensures folder { ForSome (F.held files.old) (λ tree. IfOk result (λ goes_on. goes_on ≡ true → kind_of (finite.get tree path.now) ≡ Kind.Folder)) }
    ensures held { F.held files.new ≡ F.held files.old }
    ensures later { F.faults files.old ≤ F.faults files.new }
{
    if findings.is_closed(path) {
        return Ok(false);
    }
    match look(known, alloc, files, path)? {
        None => {
            findings.add_unread(alloc, path, Finding::Failed)?;
            Ok(false)
        }
        Some(Kind::Missing) => Ok(false),
        Some(Kind::File) => {
            if is_module_file(path.as_str()) {
                add_file(known, findings, alloc, files, path)?;
                return Ok(false);
            }
            Ok(false)
        }
        Some(Kind::Folder) => Ok(is_walked(known, alloc, files, recursive, path)?),
    }
}

// Takes what stands at an argument, and says whether it is a folder that is to be walked.
fn at_argument<F: Files>(
    known: &mut Known,
    findings: &mut Findings,
    alloc: Global,
    files: &mut F,
    recursive: bool,
    path: &Text,
) -> Result<bool, Memory>
    requires { ForSome (F.held files.old) (λ tree. IsRightSoFar tree (F.failed files.old) known.old) }
    ensures asks { IfOk result (λ goes_on. Asks (F.held files.old) (F.faults files.old) (F.faults files.new) (F.failed files.old) (F.failed files.new) known.old known.new (λ answers. at_argument answers recursive findings.old path.now) (findings.new, goes_on)) }
    ensures folder { ForSome (F.held files.old) (λ tree. IfOk result (λ goes_on. goes_on ≡ true → kind_of (finite.get tree path.now) ≡ Kind.Folder)) }
    ensures held { F.held files.new ≡ F.held files.old }
    ensures later { F.faults files.old ≤ F.faults files.new }
{
    if findings.is_closed(path) {
        return Ok(false);
    }
    match look(known, alloc, files, path)? {
        None => {
            findings.add_unread(alloc, path, Finding::Failed)?;
            Ok(false)
        }
        Some(Kind::Missing) => {
            findings.add_unread(alloc, path, Finding::Missing)?;
            Ok(false)
        }
        Some(Kind::File) => {
            add_file(known, findings, alloc, files, path)?;
            Ok(false)
        }
        Some(Kind::Folder) => {
            if is_walked(known, alloc, files, recursive, path)? {
                return Ok(true);
            }
            findings.add_unread(alloc, path, Finding::NoPackage)?;
            Ok(false)
        }
    }
}

// Walks a folder, and those in it down to so many levels.
fn walk<F: Files>(
    known: &mut Known,
    findings: &mut Findings,
    alloc: Global,
    files: &mut F,
    ignore: &[Text],
    recursive: bool,
    levels: u32,
    folder: &Text,
) -> Result<(), Memory>
    requires right { ForSome (F.held files.old) (λ tree. IsRightSoFar tree (F.failed files.old) known.old) }
    requires folder { ForSome (F.held files.old) (λ tree. kind_of (finite.get tree folder.now) ≡ Kind.Folder) }
    ensures asks { OnOk result (Asks (F.held files.old) (F.faults files.old) (F.faults files.new) (F.failed files.old) (F.failed files.new) known.old known.new (λ answers. walked answers ignore.now recursive levels folder.now findings.old) findings.new) }
    ensures held { F.held files.new ≡ F.held files.old }
    ensures later { F.faults files.old ≤ F.faults files.new }
{
    if levels == 0 {
        findings.add_unread(alloc, folder, Finding::TooDeep)?;
        return Ok(());
    }
    let listing = names(known, alloc, files, folder)?;
    match listed_in(alloc, ignore, folder, listing)? {
        None => {
            findings.add_unread(alloc, folder, Finding::Failed)?;
            Ok(())
        }
        Some(Listing::TooMany) => {
            findings.add_unread(alloc, folder, Finding::TooMany)?;
            Ok(())
        }
        Some(Listing::Names(paths)) => {
            for path in paths.as_slice() {
                if at_name(known, findings, alloc, files, recursive, path)? {
                    walk(
                        known,
                        findings,
                        alloc,
                        files,
                        ignore,
                        recursive,
                        levels - 1,
                        path,
                    )?;
                }
            }
            Ok(())
        }
    }
}

/// Takes an argument, and what is below it where it is a folder that is walked.
pub(crate) fn with_argument<F: Files>(
    known: &mut Known,
    findings: &mut Findings,
    alloc: Global,
    files: &mut F,
    ignore: &[Text],
    recursive: bool,
    argument: &Text,
) -> Result<(), Memory>
    requires { ForSome (F.held files.old) (λ tree. IsRightSoFar tree (F.failed files.old) known.old) }
    ensures asks { OnOk result (Asks (F.held files.old) (F.faults files.old) (F.faults files.new) (F.failed files.old) (F.failed files.new) known.old known.new (λ answers. with_argument answers ignore.now recursive findings.old argument.now) findings.new) }
    ensures held { F.held files.new ≡ F.held files.old }
    ensures later { F.faults files.old ≤ F.faults files.new }
{
    let path = Text::from_str(alloc, without_slashes(argument.as_str()))?;
    if at_argument(known, findings, alloc, files, recursive, &path)? {
        walk(
            known, findings, alloc, files, ignore, recursive, MAX_LEVELS, &path,
        )?;
        return Ok(());
    }
    Ok(())
}
