// The messages on names of a file.
ghost use Rattle.std.specs.Prelude.{◌≡◌, IfOk, option_copied, slice_get};
ghost use Rattle.scope_bind.specs.Scoped.{AreScopesOf};
ghost use Rattle.check_names.specs.NameRules.{is_package, is_package_file, name_messages};

use crate::rules::check_rules;
use file_list::{Listed, Reading};
use lint_messages::Messages;
use lint_values::{FileId, Memory};
use options::Options;
use scope_bind::Scopes;
use std::alloc::Global;
use tree_nodes::Tree;
use unused_names::check_unused;

// An entry, if there is one of this number.
fn entry_at(entries: &[Listed], number: usize) -> Option<&Listed>
    ensures { option_copied result ≡ slice_get entries.now number }
{
    entries.get(number)
}

// Whether an entry is a package's own file.
fn is_package(listed: Option<&Listed>) -> bool
    ensures { result ≡ is_package (option_copied listed.entry) }
{
    match listed {
        Some(listed) => listed.is_package,
        None => false,
    }
}

// Whether a file of a reading is a package's own.
fn is_package_file(reading: &Reading, file: FileId) -> bool
    ensures { result ≡ is_package_file reading.now file }
{
    is_package(entry_at(reading.entries(), file.0 as usize))
}

// The messages on names of a file, a package's own or not, in their order.
fn check_names(
    alloc: Global,
    file: FileId,
    is_package: bool,
    tree: &Tree,
    scopes: &Scopes,
    options: &Options,
) -> Result<Messages, Memory>
    requires { AreScopesOf tree.now scopes.now }
    ensures { IfOk result (λ messages. messages ≡ name_messages options.now file is_package tree.now) }
{
    let additional = options.additional_builtins.as_slice();
    let mut found = check_rules(
        alloc,
        file,
        is_package,
        additional,
        options.max_locals,
        tree,
        scopes,
    )?;
    found.append(check_unused(alloc, file, is_package, tree, scopes)?)?;
    Ok(found.into_order(alloc)?)
}

/// The messages on names of a file of a reading, in the order of messages. A file that the reading does not have is no
/// package's own.
pub fn check(
    alloc: Global,
    file: FileId,
    reading: &Reading,
    tree: &Tree,
    scopes: &Scopes,
    options: &Options,
) -> Result<Messages, Memory>
    requires { AreScopesOf tree.now scopes.now }
    ensures { IfOk result (λ messages. messages ≡ name_messages options.now file (is_package_file reading.now file) tree.now) }
{
    let is_package = is_package_file(reading, file);
    let messages = check_names(alloc, file, is_package, tree, scopes, options)?;
    Ok(messages)
}
