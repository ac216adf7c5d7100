// The exit status by the options.
ghost use Rattle.std.specs.Prelude.{◌≡◌, ◌<◌, ◌^◌, IfSome};
ghost use Rattle.std.specs.List.{list_any};
ghost use Rattle.lint_messages.specs.Selections.{selection_of};
ghost use Rattle.options.specs.Switches.{selects};
ghost use Rattle.lint_report.specs.Report.{bits};
ghost use Rattle.lint_report.specs.Score.{is_named_in, has_failing, bits_or_one, reaches, status_by_score, status_of};

use crate::{Findings, Quotient, exact_score};
use lint_messages::{Code, Message, Selection};
use lint_values::Text;
use options::Options;

fn selects(selection: Selection, code: Code) -> bool
    ensures { result ≡ selects selection code }
{
    match selection {
        Selection::One(named) => named.letters() == code.letters(),
        Selection::Category(letter) => letter == code.category(),
        Selection::All => true,
        Selection::Unknown | Selection::BadName => false,
    }
}

fn names_code(name: &Text, code: Code) -> bool
    ensures { result ≡ selects (selection_of name.now) code }
{
    selects(Code::names(name.as_str()), code)
}

fn is_named_in(names: &[Text], m: &Message) -> bool
    ensures { result ≡ is_named_in names.now m.now }
{
    names.iter().any(|name| names_code(name, m.code))
}

// Whether a message makes the status fail, whatever the score is.
fn has_failing(names: &[Text], messages: &[Message]) -> bool
    ensures { result ≡ has_failing names.now messages.now }
{
    messages.iter().any(|m| is_named_in(names, m))
}

fn bits(messages: &[Message]) -> u8
    ensures { result ≡ bits messages.now }
{
    messages.iter().fold(0, |all, m| all | m.code.bit())
}

// The bits, or 1 where there are none.
fn bits_or_one(messages: &[Message]) -> u8
    ensures { result ≡ bits_or_one messages.now }
{
    let bits = bits(messages);
    if bits == 0 { 1 } else { bits }
}

// Whether the score is so many hundredths at least.
fn reaches(least: u32, score: Quotient) -> bool
    requires { score.below < 2 ^ 64 }
    ensures { result ≡ reaches least score }
{
    u128::from(least) * score.below <= score.above
}

fn status_by_score(least: u32, messages: &[Message], score: Option<Quotient>) -> u8
    requires { IfSome score (λ q. q.below < 2 ^ 64) }
    ensures { result ≡ status_by_score least messages.now score }
{
    match score {
        None => bits(messages),
        Some(score) if reaches(least, score) => 0,
        Some(_) => bits_or_one(messages),
    }
}

/// The exit status: 0 with `--exit-zero`; else the shown messages' bits, or 1 where there are none, where a message is
/// named in `--fail-on` or the score is below `--fail-under`; else 0 where there is a score, and the bits where there is
/// none.
pub fn status(found: &Findings, options: &Options) -> u8
    ensures { result ≡ status_of found.now options.now }
{
    let messages = found.messages.as_slice();
    if options.exit_zero {
        return 0;
    }
    if has_failing(options.fail_on.as_slice(), messages) {
        return bits_or_one(messages);
    }
    let score = exact_score(messages, found.statements);
    status_by_score(options.fail_under, messages, score)
}
