// The score.
ghost use Rattle.std.specs.Prelude.{◌≡◌, ◌≤◌, IfSome, length};
ghost use Rattle.lint_report.specs.Score.{IsScore, count_in, penalty, is_worst, quotient_of, exact_score, is_rounded_up, rounded, score_of};

use crate::Findings;
use lint_messages::Message;

/// A quotient of two whole numbers.
#[derive(Clone, Copy, Debug)]
pub struct Quotient {
    pub above: u128,
    pub below: u128,
}

// How many messages are of a category.
fn count_in(letter: char, messages: &[Message]) -> usize
    ensures count { result ≡ count_in letter messages.now }
    ensures within { result ≤ length messages.now }
{
    messages
        .iter()
        .filter(|m| m.code.category() == letter)
        .count()
}

// What messages take off: an error 5, a warning, a refactoring and a convention 1 each.
fn penalty(messages: &[Message]) -> u128
    ensures { result ≡ penalty messages.now }
{
    let errors = count_in('E', messages) as u128;
    let warnings = count_in('W', messages) as u128;
    let refactorings = count_in('R', messages) as u128;
    let conventions = count_in('C', messages) as u128;
    5 * errors + (warnings + (refactorings + conventions))
}

// Whether a message is fatal, or more is taken off than there are statements.
fn is_worst(messages: &[Message], statements: u64) -> bool
    ensures { result ≡ is_worst messages.now statements }
{
    count_in('F', messages) > 0 || penalty(messages) > u128::from(statements)
}

fn quotient_of(messages: &[Message], statements: u64) -> Quotient
    ensures { result ≡ quotient_of messages.now statements }
{
    let below = u128::from(statements);
    if is_worst(messages, statements) {
        return Quotient { above: 0, below };
    }
    let above = 1000 * below.saturating_sub(penalty(messages));
    Quotient { above, below }
}

/// The score in hundredths before it is rounded, where there are statements.
pub fn exact_score(messages: &[Message], statements: u64) -> Option<Quotient>
    ensures score { result ≡ exact_score messages.now statements }
    ensures range { IfSome result IsScore }
{
    if statements == 0 {
        return None;
    }
    Some(quotient_of(messages, statements))
}

fn is_rounded_up(score: Quotient) -> bool
    requires { IsScore score }
    ensures { result ≡ is_rounded_up score }
{
    let whole = score.above / score.below;
    let twice = 2 * (score.above % score.below);
    score.below < twice || (twice == score.below && whole % 2 == 1)
}

// To the nearest whole number, from a half to the even one.
fn rounded(score: Quotient) -> u32
    requires { IsScore score }
    ensures { result ≡ rounded score }
{
    let whole = (score.above / score.below) as u32;
    if is_rounded_up(score) {
        whole + 1
    } else {
        whole
    }
}

/// The score in hundredths, rounded from a half to the even number. Without statements there is none.
pub fn score(found: &Findings) -> Option<u32>
    ensures { result ≡ score_of found.now }
{
    match exact_score(found.messages.as_slice(), found.statements) {
        None => None,
        Some(exact) => Some(rounded(exact)),
    }
}
