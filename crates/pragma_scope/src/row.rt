// What the names of an action's list switch on and off, and the names that no message can have.
ghost use Rattle.std.specs.Prelude.{◌≡◌, ◌++◌, ◌∷◌, [], filter, map, not, IfOk, OnOk};
ghost use Rattle.std.specs.List.{flat_map};
ghost use Rattle.option_words.specs.Values.{is_message_name};
ghost use Rattle.pragma_scope.specs.Cursors.{IsAt};
ghost use Rattle.pragma_scope.specs.Pragmas.{bad_name, bad_names_of, bad_names_of_action, is_on, rows_by, rows_of, rows_of_action};

use crate::action::{Action, Verb};
use crate::cursor::Cursor;
use crate::nesting::Nesting;
use crate::region::{Region, region_of};
use lint_messages::{Code, Selection};
use lint_values::{Memory, Text};
use option_words::parts;
use py_token::Tokens;
use std::alloc::Global;

/// What a name of an action's list switches on or off, and on which lines.
#[derive(Clone, Copy)]
pub(crate) struct Row {
    pub(crate) region: Region,
    pub(crate) is_on: bool,
    pub(crate) selection: Selection,
}

/// A name in an action's list that no message can have: the comment's line, what the action does, and the name.
#[derive(Debug, Drop)]
pub struct BadName {
    pub line: u32,
    pub action: Text,
    pub word: Text,
}

fn is_on(verb: Verb) -> bool
    ensures { result ≡ is_on verb }
{
    match verb {
        Verb::Disable | Verb::DisableNext => false,
        Verb::Enable => true,
    }
}

// Adds a row for each name of a list.
fn push_rows(
    alloc: Global,
    region: Region,
    is_on: bool,
    list: &str,
    rows: &mut Vec<Row>,
) -> Result<(), Memory>
    ensures { OnOk result (rows.new.items ≡ rows.old.items ++ rows_by region is_on list.now) }
{
    let names = parts(alloc, list)?;
    for name in names.as_slice() {
        let selection = Code::names(name.as_str());
        rows.push(Row {
            region,
            is_on,
            selection,
        })?;
    }
    Ok(())
}

fn push_rows_of_action(
    alloc: Global,
    tokens: &Tokens,
    blocks: &Nesting,
    cursor: Cursor,
    action: &Action,
    rows: &mut Vec<Row>,
) -> Result<(), Memory>
    requires { IsAt tokens.now action.now.comment.start cursor }
    ensures { OnOk result (rows.new.items ≡ rows.old.items ++ rows_of_action tokens.now blocks.now action.now) }
{
    let region = region_of(tokens, blocks, action.comment, action.verb, cursor);
    let is_on = is_on(action.verb);
    push_rows(alloc, region, is_on, action.list.as_str(), rows)
}

/// The rows of actions, in their order.
pub(crate) fn rows_of(
    alloc: Global,
    tokens: &Tokens,
    blocks: &Nesting,
    actions: &[Action],
) -> Result<Vec<Row>, Memory>
    ensures { IfOk result (λ rows. rows.items ≡ rows_of tokens.now blocks.now actions.now) }
{
    let mut rows = Vec::new(alloc);
    let mut cursor = Cursor::new();
    for action in actions {
        cursor = cursor.moved(tokens, action.comment.start);
        push_rows_of_action(alloc, tokens, blocks, cursor, action, &mut rows)?;
    }
    Ok(rows)
}

fn is_message_name(name: &Text) -> bool
    ensures { result ≡ is_message_name name.now }
{
    Code::names(name.as_str()) != Selection::BadName
}

// Adds a name, where no message can have it.
fn push_bad_name(
    alloc: Global,
    action: &Action,
    word: &Text,
    bad_names: &mut Vec<BadName>,
) -> Result<(), Memory>
    ensures { OnOk result (bad_names.new.items ≡ bad_names.old.items ++ map (bad_name action.now) (filter (λ name. not (is_message_name name)) (word.now ∷ []))) }
{
    if is_message_name(word) {
        return Ok(());
    }
    let line = action.comment.pos.line;
    let action = Text::from_str(alloc, action.verb.name())?;
    let word = Text::from_str(alloc, word.as_str())?;
    bad_names.push(BadName { line, action, word })?;
    Ok(())
}

// Adds the names of an action's list that no message can have.
fn push_bad_names(
    alloc: Global,
    action: &Action,
    bad_names: &mut Vec<BadName>,
) -> Result<(), Memory>
    ensures { OnOk result (bad_names.new.items ≡ bad_names.old.items ++ bad_names_of_action action.now) }
{
    let names = parts(alloc, action.list.as_str())?;
    for name in names.as_slice() {
        push_bad_name(alloc, action, name, bad_names)?;
    }
    Ok(())
}

/// The names in the lists of actions that no message can have, in their order.
pub(crate) fn bad_names_of(alloc: Global, actions: &[Action]) -> Result<Vec<BadName>, Memory>
    ensures { IfOk result (λ names. names.items ≡ bad_names_of actions.now) }
{
    let mut bad_names = Vec::new(alloc);
    for action in actions {
        push_bad_names(alloc, action, &mut bad_names)?;
    }
    Ok(bad_names)
}
