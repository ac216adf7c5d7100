// The state of a code on a line.
ghost use Rattle.std.specs.Prelude.{◌≡◌, if◌then◌else◌, All, Option, Some};
ghost use Rattle.std.specs.Str.{bytes_eq};
ghost use Rattle.lint_messages.specs.Codes.{letters};
ghost use Rattle.pragma_scope.specs.Pragmas.{decides, state_of};
ghost use Rattle.pragma_scope.specs.Timelines.{IsTimeline};

use crate::row::Row;
use crate::step::state_at;
use crate::timeline::{Timeline, selects};
use lint_messages::Code;

// Whether a row acts on a line and names a code.
fn decides(code: Code, line: u32, row: Row) -> bool
    ensures { result ≡ decides code line row }
{
    row.region.first <= line && line <= row.region.last && selects(row.selection, code)
}

fn state_behind(state: Option<bool>, code: Code, line: u32, row: Row) -> Option<bool>
    ensures { result ≡ (if decides code line row then Some row.is_on else state) }
{
    if decides(code, line, row) {
        Some(row.is_on)
    } else {
        state
    }
}

// What the last of these rows says that acts on a line and names a code.
fn state_by_rows(rows: &[Row], code: Code, line: u32) -> Option<bool>
    ensures { result ≡ state_of rows.now code line }
{
    rows.iter()
        .fold(None, |state, row| state_behind(state, code, line, *row))
}

fn is_same(a: Code, b: Code) -> bool
    ensures { result ≡ bytes_eq (letters a) (letters b) }
{
    a.letters() == b.letters()
}

/// What rows say of a code on a line: by the code's timeline, or by each row where it has none.
#[tactic(auto, using(crate::proofs::StateLaws::told_by))]
pub(crate) fn state_of(timelines: &[Timeline], rows: &[Row], code: Code, line: u32) -> Option<bool>
    requires { All (λ t. IsTimeline rows.now t.code t.steps.items) timelines.now }
    ensures { result ≡ state_of rows.now code line }
{
    for timeline in timelines {
        if is_same(timeline.code, code) {
            return state_at(timeline.steps.as_slice(), u64::from(line));
        }
    }
    state_by_rows(rows, code, line)
}
