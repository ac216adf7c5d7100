// Linting a made text.
ghost use Rattle.std.specs.Prelude.{◌≡◌, ◌≤◌, Some, [], IfOk};
ghost use Rattle.lint_outside.specs.Causes.{Rose};
ghost use Rattle.options.specs.Settings.{options_of};
ghost use Rattle.lint_engine.specs.Answers.{OnRan, OnSinkFault, OnMemory};
ghost use Rattle.lint_engine.specs.Command.{IsReport, IsPrinted, IsPartPrinted};

use crate::command::{Report, no_files, write_report};
use crate::list::lint_list;
use lint_base::{Gate, Memory, Sink, Texts};
use lint_report::{Answer, OptionsRead, Outcome, status, summary_text};
use made_text::made_reading;
use options::{Edits, Line, Options};
use std::alloc::Global;
use std::thread::Threads;

// Lints a made text by the options of a line, and makes the line that counts what is shown.
fn report_made<R: Threads + Sync, G: Gate>(
    rt: &R,
    alloc: Global,
    line: &Line,
    classes: u32,
    gate: &G,
) -> Result<Report, Memory>
    requires { classes ≤ 20000 }
    ensures { IfOk result (λ made. IsReport (Some classes) (options_of [] line.now.edits) [] made.lines made.status) }
{
    let options = Options::of(alloc, &Edits::new(alloc), &line.edits)?;
    let reading = made_reading(alloc, classes)?;
    let found = lint_list(rt, alloc, &reading, &options, gate)?;
    let status = status(&found, &options);
    let mut lines = Texts::new(alloc);
    lines.push(summary_text(alloc, &found, status)?)?;
    Ok(Report { lines, status })
}

// Lints a made text, and prints the line that counts what is shown. Nothing is read.
pub(crate) fn lint_made<R: Threads + Sync, O: Sink, G: Gate>(
    rt: &R,
    alloc: Global,
    line: &Line,
    classes: u32,
    out: &mut O,
    gate: &G,
) -> Outcome
    requires { classes ≤ 20000 }
    ensures printed { OnRan result.answer (IsPrinted (Some classes) (options_of [] line.now.edits) [] (O.written out.old) (O.written out.new)) }
    ensures cause { OnSinkFault result.answer (Rose (O.faults out.old) (O.faults out.new)) }
    ensures part { OnSinkFault result.answer (IsPartPrinted (Some classes) (options_of [] line.now.edits) [] (O.written out.old) (O.written out.new)) }
    ensures nothing { OnMemory result.answer (O.written out.new ≡ O.written out.old) }
    ensures list { result.read.list ≡ [] }
    ensures options { result.read.options ≡ OptionsRead.NotLooked }
{
    let answer = match report_made(rt, alloc, line, classes, gate) {
        Ok(report) => write_report(out, &report),
        Err(Memory) => Answer::Memory,
    };
    Outcome {
        answer,
        read: no_files(alloc, OptionsRead::NotLooked),
    }
}
