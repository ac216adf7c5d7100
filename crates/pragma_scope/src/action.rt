// The actions of pragmas that have a list of message names.
ghost use Rattle.std.specs.Prelude.{◌≡◌, ◌++◌, IfOk, OnOk};
ghost use Rattle.std.specs.List.{flat_map};
ghost use Rattle.pragma_scope.specs.Actions.{action_by, action_in, actions_by, actions_in, actions_of, all_actions, parts_at_hashes, verb_front, verb_name};

use crate::comment::{action_in, behind, comment_text};
use lint_values::{Memory, Text};
use py_token::Comment;
use std::alloc::Global;

/// What an action does with the messages that its list names.
#[derive(Clone, Copy)]
pub(crate) enum Verb {
    Disable,
    Enable,
    DisableNext,
}

/// An action with its list, and the comment that it stands in.
#[derive(Drop)]
pub(crate) struct Action {
    pub(crate) comment: Comment,
    pub(crate) verb: Verb,
    pub(crate) list: Text,
}

impl Verb {
    pub(crate) fn name(self) -> &'static str
        ensures { result.now ≡ verb_name self }
    {
        match self {
            Verb::Disable => "disable",
            Verb::Enable => "enable",
            Verb::DisableNext => "disable-next",
        }
    }

    fn front(self) -> &'static str
        ensures { result.now ≡ verb_front self }
    {
        match self {
            Verb::Disable => "disable=",
            Verb::Enable => "enable=",
            Verb::DisableNext => "disable-next=",
        }
    }
}

// Adds an action, where it has this verb.
fn push_by(
    alloc: Global,
    comment: Comment,
    action: &str,
    verb: Verb,
    actions: &mut Vec<Action>,
) -> Result<(), Memory>
    ensures { OnOk result (actions.new.items ≡ actions.old.items ++ action_by comment action.now verb) }
{
    match behind(action, verb.front()) {
        Some(list) => {
            let list = Text::from_str(alloc, list)?;
            actions.push(Action {
                comment,
                verb,
                list,
            })?;
            Ok(())
        }
        None => Ok(()),
    }
}

// Adds an action, where it has one of the verbs.
fn push_action(
    alloc: Global,
    comment: Comment,
    action: &str,
    actions: &mut Vec<Action>,
) -> Result<(), Memory>
    ensures { OnOk result (actions.new.items ≡ actions.old.items ++ actions_by comment action.now) }
{
    push_by(alloc, comment, action, Verb::Disable, actions)?;
    push_by(alloc, comment, action, Verb::Enable, actions)?;
    push_by(alloc, comment, action, Verb::DisableNext, actions)
}

// Adds the action of what stands behind a `#`, where there is one.
fn push_part(
    alloc: Global,
    comment: Comment,
    part: &str,
    actions: &mut Vec<Action>,
) -> Result<(), Memory>
    ensures { OnOk result (actions.new.items ≡ actions.old.items ++ actions_in comment part.now) }
{
    match action_in(part) {
        Some(action) => push_action(alloc, comment, action, actions),
        None => Ok(()),
    }
}

// Adds the actions of a comment with this text.
fn push_parts(
    alloc: Global,
    comment: Comment,
    text: &str,
    actions: &mut Vec<Action>,
) -> Result<(), Memory>
    ensures { OnOk result (actions.new.items ≡ actions.old.items ++ flat_map (actions_in comment) (parts_at_hashes text.now)) }
{
    for part in text.split('#') {
        push_part(alloc, comment, part, actions)?;
    }
    Ok(())
}

// Adds the actions of a comment.
fn push_actions(
    alloc: Global,
    text: &str,
    comment: Comment,
    actions: &mut Vec<Action>,
) -> Result<(), Memory>
    ensures { OnOk result (actions.new.items ≡ actions.old.items ++ actions_of text.now comment) }
{
    push_parts(alloc, comment, comment_text(text, comment), actions)
}

/// The actions of comments, by position.
pub(crate) fn all_actions(
    alloc: Global,
    text: &str,
    comments: &[Comment],
) -> Result<Vec<Action>, Memory>
    ensures { IfOk result (λ actions. actions.items ≡ all_actions text.now comments.now) }
{
    let mut actions = Vec::new(alloc);
    for comment in comments {
        push_actions(alloc, text, *comment, &mut actions)?;
    }
    Ok(actions)
}
