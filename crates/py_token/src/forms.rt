// The normal forms of names, made once.
ghost use Rattle.std.specs.Prelude.{◌≡◌, ◌<◌, length, OnOk, IfOk};
ghost use Rattle.py_token.specs.Forms.{AddsForm, HasForms};
ghost use Rattle.py_token.specs.Spans.{AreParts};

use crate::token::{Token, TokenKind};
use lint_values::{Memory, Text};
use py_normal_form::normal_form;
use py_source::{Span, slice};
use std::alloc::Global;
use std::collections::BTreeMap;

/// From the number of a token to its normal form, for the names that are not ASCII.
pub(crate) type Forms = BTreeMap<usize, Text>;

/// Keeps the form of a token, where it is a name that is not ASCII.
fn add_form(
    alloc: Global,
    forms: &mut Forms,
    i: usize,
    kind: TokenKind,
    text: &str,
) -> Result<(), Memory>
    ensures { OnOk result (AddsForm forms.old forms.new i kind text.now) }
{
    match kind {
        TokenKind::Name => match normal_form(alloc, text)? {
            None => Ok(()),
            Some(form) => {
                forms.insert(i, form)?;
                Ok(())
            }
        },
        _ => Ok(()),
    }
}

/// The forms of the names among the tokens of a text.
pub(crate) fn forms_of(alloc: Global, text: &str, tokens: &[Token]) -> Result<Forms, Memory>
    requires { AreParts text.now tokens.now }
    ensures { IfOk result (HasForms text.now tokens.now) }
{
    let mut forms = BTreeMap::new(alloc);
    for (i, token) in tokens.iter().enumerate() {
        let span = Span {
            start: token.start,
            end: token.end,
        };
        add_form(alloc, &mut forms, i, token.kind, slice(text, span))?;
    }
    Ok(forms)
}
