// Edits of the options, in the order in which they were given.
ghost use Rattle.std.specs.Prelude.{◌≡◌, ◌++◌, [], ◌∷◌, true, OnOk, OnErr};
ghost use Rattle.std.specs.Option.{option_copied};
ghost use Rattle.option_words.specs.OptionNames.{kind};
ghost use Rattle.options.specs.Edits.{allows, are_allowed, edit_of, given, is_edit_of, is_flag_value, last_value};

use crate::form::is_flag;
use lint_values::{Memory, Text};
use option_words::{OptionName, fits};
use std::alloc::Global;
use std::marker::Model;

/// An option's long name without its dashes, and its value as it would stand in a word. A flag has none among the
/// words, and yes or no in the options file.
#[derive(Debug, Drop)]
pub struct Edit {
    pub name: Text,
    pub value: Text,
}

/// Edits in their order, each of an option that there is and with a value that it may have.
#[derive(Debug, Drop)]
pub struct Edits {
    edits: Vec<Edit>,
}

impl Model for Edits {
    ghost use Rattle.std.specs.Prelude.{◌≡◌, true, List};
    ghost use Rattle.options.specs.declared.edits.Edit.{Edit};
    ghost use Rattle.options.specs.Edits.{are_allowed};

    ghost Value = { List Edit };

    ghost view = { λ e. e.edits.items };

    ghost invariant = { λ e. are_allowed e.edits.items ≡ true };
}

impl Edits {
    pub fn new(alloc: Global) -> Edits
        ensures { result ≡ [] }
    {
        Edits {
            edits: Vec::new(alloc),
        }
    }

    /// Adds the edit that gives an option a value.
    pub fn push(&mut self, alloc: Global, option: OptionName, value: &str) -> Result<(), Memory>
        requires { allows (kind option) value.now ≡ true }
        ensures ok { OnOk result (self.new ≡ self.old ++ edit_of option value.now ∷ []) }
        ensures err { OnErr result (self.new ≡ self.old) }
    {
        let edit = Edit {
            name: Text::from_str(alloc, option.long_name())?,
            value: Text::from_str(alloc, value)?,
        };
        self.edits.push(edit)?;
        Ok(())
    }

    pub fn as_slice(&self) -> &[Edit]
        ensures value { result.now ≡ self.now }
        ensures allowed { are_allowed result.now ≡ true }
    {
        self.edits.as_slice()
    }
}

fn is_flag_value(value: &str) -> bool
    ensures { result ≡ is_flag_value value.now }
{
    value.is_empty() || value == "yes" || value == "no"
}

/// Whether an edit may give an option a value: a flag none, or yes or no as in the options file.
pub(crate) fn allows(option: OptionName, value: &str) -> bool
    ensures { result ≡ allows (kind option) value.now }
{
    fits(option, value) || (is_flag(option.kind()) && is_flag_value(value))
}

pub(crate) fn is_edit_of(option: OptionName, edit: &Edit) -> bool
    ensures { result ≡ is_edit_of option edit.now }
{
    edit.name.as_str() == option.long_name()
}

// The value of the last edit of an option.
pub(crate) fn last_value(option: OptionName, edits: &[Edit]) -> Option<&str>
    ensures { option_copied result ≡ last_value option edits.now }
{
    let last = edits.iter().rev().find(|edit| is_edit_of(option, edit));
    match last {
        Some(edit) => Some(edit.value.as_str()),
        None => None,
    }
}

// The value that the line gives, else the one that the file gives.
pub(crate) fn given<'e>(option: OptionName, file: &'e [Edit], line: &'e [Edit]) -> Option<&'e str>
    ensures { option_copied result ≡ given option file.now line.now }
{
    match last_value(option, line) {
        Some(value) => Some(value),
        None => last_value(option, file),
    }
}
