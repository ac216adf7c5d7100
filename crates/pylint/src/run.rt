// From the words of the command line to the exit status.
ghost use Rattle.std.specs.Prelude.{◌≡◌, IfOk, map, string_bytes};
ghost use Rattle.std.specs.Process.{exit_status};
ghost use Rattle.options.specs.Lines.{line_of};
ghost use Rattle.lint_engine.specs.Answers.{OnRan, OnSinkFault, OnMemory};
ghost use Rattle.lint_engine.specs.Command.{IsRun, IsRefused, IsStopped, IsUnwritten};
ghost use Rattle.pylint.specs.Status.{status_of, words_of};

use lint_base::{Files, Memory, OpenGate, Sink, Text};
use lint_engine::{Answer, Outcome, lint_command};
use std::alloc::Global;
use std::process::ExitCode;
use std::thread::Threads;

pub const WANT_OF_MEMORY: u8 = 70;

pub const WRITE_FAULT: u8 = 74;

/// How the command ended, and the exit status that says so.
#[derive(Drop)]
pub struct Ended {
    pub outcome: Outcome,
    pub code: ExitCode,
}

// The same words as texts.
fn texts_of(alloc: Global, words: &[String]) -> Result<Vec<Text>, Memory>
    ensures { IfOk result (λ texts. texts.items ≡ map string_bytes words.now) }
{
    let mut texts = Vec::new(alloc);
    for word in words {
        texts.push(Text::from_str(alloc, word.as_str())?)?;
    }
    Ok(texts)
}

// The words of these arguments: the first one is the program's name.
pub fn words_of(alloc: Global, arguments: &[String]) -> Result<Vec<Text>, Memory>
    ensures { IfOk result (λ words. words.items ≡ words_of (map string_bytes arguments.now)) }
{
    match arguments {
        [] => Ok(Vec::new(alloc)),
        [_, given @ ..] => texts_of(alloc, given),
    }
}

// The exit status by how the command ended.
fn status_of(answer: Answer) -> u8
    ensures { result ≡ status_of answer }
{
    match answer {
        Answer::Ran(status) => status,
        Answer::Memory => WANT_OF_MEMORY,
        Answer::SinkFault => WRITE_FAULT,
    }
}

/// Does what the words ask, over any files and sinks.
pub fn run<R: Threads + Sync, F: Files, O: Sink, E: Sink>(
    rt: &R,
    alloc: Global,
    words: &[Text],
    files: &mut F,
    out: &mut O,
    err: &mut E,
) -> Ended
    ensures status { exit_status result.code ≡ status_of result.outcome.answer }
    ensures ran { OnRan result.outcome.answer (IsRun (line_of words.now) result.outcome.read (O.written out.old) (O.written out.new) (E.written err.old) (E.written err.new)) }
    ensures refused { OnRan result.outcome.answer (IsRefused (line_of words.now) result.outcome.read) }
    ensures stopped { OnSinkFault result.outcome.answer (IsStopped (line_of words.now) result.outcome.read (O.written out.old) (O.written out.new) (E.written err.old) (E.written err.new)) }
    ensures unwritten { OnMemory result.outcome.answer (IsUnwritten (O.written out.old) (O.written out.new) (E.written err.old) (E.written err.new)) }
{
    let outcome = lint_command(rt, alloc, words, files, out, err, &OpenGate);
    let code = ExitCode::from(status_of(outcome.answer));
    Ended { outcome, code }
}
