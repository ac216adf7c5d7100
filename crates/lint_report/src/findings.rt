// What was found.
use lint_messages::Messages;

/// The messages that are shown, in their order, and how many statements the linted files have.
#[derive(Debug, Drop)]
pub struct Findings {
    pub messages: Messages,
    pub statements: u64,
}
