// What is shown of a whole reading.
ghost use Rattle.std.specs.Prelude.{◌≡◌, IfOk};
ghost use Rattle.lint_engine.specs.Shown.{IsShown};

use crate::entries::show_entry;
use file_list::Reading;
use lint_base::{FileId, Gate, Memory, Messages};
use lint_report::Findings;
use options::Options;
use std::alloc::Global;
use std::thread::Threads;

/// Lints the files of a reading, one after another. The gate is passed before each file.
pub fn lint_list<R: Threads + Sync, G: Gate>(
    _rt: &R,
    alloc: Global,
    reading: &Reading,
    options: &Options,
    gate: &G,
) -> Result<Findings, Memory>
    ensures { IfOk result (λ found. IsShown options.now reading.now found) }
{
    let mut messages = Messages::new(alloc);
    let mut statements = 0;
    for (i, listed) in reading.entries().iter().enumerate() {
        let file = FileId(i as u32);
        gate.pass(file);
        let found = show_entry(alloc, file, reading, listed, options)?;
        messages.append(found.messages)?;
        statements += found.statements;
    }
    Ok(Findings {
        messages,
        statements,
    })
}
