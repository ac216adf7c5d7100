// Which messages are on.
ghost use Rattle.std.specs.Prelude.{◌≡◌, ◌++◌, [], ◌∷◌, codes, filter, if◌then◌else◌, IfOk, OnOk};
ghost use Rattle.std.specs.List.{flat_map};
ghost use Rattle.std.specs.Str.{bytes_eq};
ghost use Rattle.options.specs.Switches.{agrees, holds_all, is_on, selects, switches_by, switches_in, switches_of};

use crate::Edit;
use crate::edits::is_edit_of;
use lint_messages::{Code, Selection};
use lint_values::{Memory, Text};
use option_words::{OptionName, parts};
use std::alloc::Global;

// Messages that are switched on or off.
#[derive(Clone, Copy, Debug)]
pub(crate) struct Switch {
    pub(crate) selection: Selection,
    pub(crate) is_on: bool,
}

// Whether a name is the code's, its category's or `all`.
fn selects(selection: Selection, code: Code) -> bool
    ensures { result ≡ selects selection code }
{
    match selection {
        Selection::One(named) => named.letters() == code.letters(),
        Selection::Category(letter) => letter == code.category(),
        Selection::All => true,
        Selection::Unknown | Selection::BadName => false,
    }
}

fn switched(on: bool, switch: Switch, code: Code) -> bool
    ensures { result ≡ (if selects switch.selection code then switch.is_on else on) }
{
    if selects(switch.selection, code) {
        switch.is_on
    } else {
        on
    }
}

// Whether a code is on after these switches: the last one that names it decides.
pub(crate) fn is_on(switches: &[Switch], code: Code) -> bool
    ensures { result ≡ is_on switches.now code }
{
    switches
        .iter()
        .fold(true, |on, switch| switched(on, *switch, code))
}

fn is_all(name: &Text) -> bool
    ensures { result ≡ bytes_eq name.now (codes "all") }
{
    name.as_str() == "all"
}

// Whether an edit's list holds `all`.
fn holds_all(alloc: Global, edit: &Edit) -> Result<bool, Memory>
    ensures { IfOk result (λ holds. holds ≡ holds_all edit.now) }
{
    let names = parts(alloc, edit.value.as_str())?;
    Ok(names.as_slice().iter().any(|name| is_all(name)))
}

// Adds what a list of message names switches on or off.
fn push_names(
    alloc: Global,
    is_on: bool,
    value: &str,
    switches: &mut Vec<Switch>,
) -> Result<(), Memory>
    ensures { OnOk result (switches.new.items ≡ switches.old.items ++ switches_of is_on value.now) }
{
    let names = parts(alloc, value)?;
    for name in names.as_slice() {
        let selection = Code::names(name.as_str());
        switches.push(Switch { selection, is_on })?;
    }
    Ok(())
}

// Adds what an edit switches.
fn push_switches(alloc: Global, edit: &Edit, switches: &mut Vec<Switch>) -> Result<(), Memory>
    ensures { OnOk result (switches.new.items ≡ switches.old.items ++ switches_by edit.now) }
{
    let value = edit.value.as_str();
    if is_edit_of(OptionName::Disable, edit) {
        push_names(alloc, false, value, switches)
    } else if is_edit_of(OptionName::Enable, edit) {
        push_names(alloc, true, value, switches)
    } else {
        Ok(())
    }
}

fn agrees(expected: bool, found: bool) -> bool
    ensures { result ≡ agrees expected found }
{
    expected == found
}

// Adds what an edit switches, where it holds `all` as is wanted.
fn push_where(
    alloc: Global,
    with_all: bool,
    edit: &Edit,
    switches: &mut Vec<Switch>,
) -> Result<(), Memory>
    ensures { OnOk result (switches.new.items ≡ switches.old.items ++ flat_map switches_by (filter (λ e. agrees with_all (holds_all e)) (edit.now ∷ []))) }
{
    if agrees(with_all, holds_all(alloc, edit)?) {
        push_switches(alloc, edit, switches)
    } else {
        Ok(())
    }
}

fn push_those(
    alloc: Global,
    with_all: bool,
    edits: &[Edit],
    switches: &mut Vec<Switch>,
) -> Result<(), Memory>
    ensures { OnOk result (switches.new.items ≡ switches.old.items ++ flat_map switches_by (filter (λ e. agrees with_all (holds_all e)) edits.now)) }
{
    for edit in edits {
        push_where(alloc, with_all, edit, switches)?;
    }
    Ok(())
}

// Adds what edits switch, in the order in which they act.
fn push_acting(alloc: Global, edits: &[Edit], switches: &mut Vec<Switch>) -> Result<(), Memory>
    ensures { OnOk result (switches.new.items ≡ switches.old.items ++ switches_in edits.now) }
{
    push_those(alloc, true, edits, switches)?;
    push_those(alloc, false, edits, switches)
}

// What the file's edits and then the line's switch.
pub(crate) fn switches_of(
    alloc: Global,
    file: &[Edit],
    line: &[Edit],
) -> Result<Vec<Switch>, Memory>
    ensures { IfOk result (λ made. made.items ≡ switches_in file.now ++ switches_in line.now) }
{
    let mut made = Vec::new(alloc);
    push_acting(alloc, file, &mut made)?;
    push_acting(alloc, line, &mut made)?;
    Ok(made)
}
