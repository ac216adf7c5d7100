// What pragmas and options show of what is found.
ghost use Rattle.std.specs.Prelude.{◌≡◌, [], filter};
ghost use Rattle.lint_engine.specs.Shown.{first_said, is_error, is_on_there, is_shown, shown_by, shown_of};

use lint_base::{Code, Message, Messages};
use lint_report::Findings;
use options::Options;
use pragma_scope::Pragmas;

// An error, or a fatal message.
fn is_error(code: Code) -> bool
    ensures { result ≡ is_error code }
{
    let category = code.category();
    category == 'E' || category == 'F'
}

fn is_shown(options: &Options, message: &Message) -> bool
    ensures { result ≡ is_shown options.now [] message.now }
{
    options.on(message.code) && (!options.errors_only || is_error(message.code))
}

// Whether a message is on, by the pragmas at its line and then by the options.
fn is_on_there(options: &Options, pragmas: &Pragmas, message: &Message) -> bool
    ensures { result ≡ is_on_there options.now pragmas.now.rows message.now }
{
    match pragmas.state(message.code, message.pos.line) {
        Some(is_on) => is_on,
        None => options.on(message.code),
    }
}

fn is_shown_there(options: &Options, pragmas: &Pragmas, message: &Message) -> bool
    ensures { result ≡ is_shown options.now pragmas.now.rows message.now }
{
    is_on_there(options, pragmas, message) && (!options.errors_only || is_error(message.code))
}

// Drops the messages that the options do not show.
fn keep_shown(options: &Options, messages: &mut Vec<Message>)
    ensures { messages.new.items ≡ filter (is_shown options.now []) messages.old.items }
{
    messages.retain(|message| is_shown(options, message));
}

// Drops the messages that pragmas and options do not show.
fn keep_shown_there(options: &Options, pragmas: &Pragmas, messages: &mut Vec<Message>)
    ensures { messages.new.items ≡ filter (is_shown options.now pragmas.now.rows) messages.old.items }
{
    messages.retain(|message| is_shown_there(options, pragmas, message));
}

// What the options alone show of what is found.
pub(crate) fn shown_of(options: &Options, found: Findings) -> Findings
    ensures { result ≡ shown_of options.now found }
{
    let Findings {
        messages,
        statements,
    } = found;
    let mut messages = messages.into_vec();
    keep_shown(options, &mut messages);
    Findings {
        messages: Messages::from_vec(messages),
        statements,
    }
}

// What pragmas and options show of what is found.
pub(crate) fn shown_by(options: &Options, pragmas: &Pragmas, found: Findings) -> Findings
    ensures { result ≡ shown_by options.now pragmas.now.rows found }
{
    let Findings {
        messages,
        statements,
    } = found;
    let mut messages = messages.into_vec();
    keep_shown_there(options, pragmas, &mut messages);
    Findings {
        messages: Messages::from_vec(messages),
        statements,
    }
}
