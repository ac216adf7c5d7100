// The whole of a run: from the words to what is printed and the status.
ghost use Rattle.std.specs.Prelude.{◌≡◌, ◌⊎◌, Ok, None, false, [], IfOk, OnOk, OnErr, count_by};
ghost use Rattle.std.specs.List.{concat};
ghost use Rattle.std.specs.Option.{ForSome};
ghost use Rattle.lint_outside.specs.Causes.{Rose, RoseBy};
ghost use Rattle.lint_outside.specs.Sinks.{Appends, AppendsPrefix};
ghost use Rattle.lint_report.specs.Usage.{usage_line};
ghost use Rattle.options.specs.Lines.{line_of};
ghost use Rattle.options.specs.Usage.{is_memory};
ghost use Rattle.file_list.specs.Entries.{is_failed};
ghost use Rattle.file_list.specs.Gathered.{IsReadingOf, reading_of};
ghost use Rattle.lint_engine.specs.Answers.{OnRan, OnSinkFault, OnMemory, OnWritten};
ghost use Rattle.lint_engine.specs.Command.{IsRun, IsDetermined, IsStopped, IsUnwritten, IsReadFrom, IsInOrder, HasReadCauses, IsRefused, IsReport, IsPrinted, IsPartPrinted, IsPartOf, IsPartRead, failures};

use crate::list::lint_list;
use crate::made::lint_made;
use crate::writing::write_lines;
use file_list::{Reading, gather};
use lint_base::{Files, Gate, Memory, Sink, SinkFault, Text, Texts};
use lint_report::{Answer, OptionsRead, Outcome, Whole, status, text, usage_text};
use options::{Line, Options, UsageFault, read_words};
use options_file::{read_options, read_settings};
use std::alloc::Global;
use std::thread::Threads;

// A report that is ready to be written.
#[derive(Drop)]
pub(crate) struct Report {
    pub(crate) lines: Texts,
    pub(crate) status: u8,
}

// Lints a reading, and makes its report.
fn report_of<R: Threads + Sync, G: Gate>(
    rt: &R,
    alloc: Global,
    options: &Options,
    reading: &Reading,
    gate: &G,
) -> Result<Report, Memory>
    ensures { IfOk result (λ made. IsReport None options.now reading.now made.lines made.status) }
{
    let found = lint_list(rt, alloc, reading, options, gate)?;
    let lines = text(alloc, reading, &found, options)?;
    Ok(Report {
        lines,
        status: status(&found, options),
    })
}

pub(crate) fn write_report<O: Sink>(out: &mut O, made: &Report) -> Answer
    ensures status { OnRan result (λ status. status ≡ made.now.status) }
    ensures text { OnRan result (λ _. Appends (O.written out.old) (O.written out.new) (concat made.now.lines)) }
    ensures cause { OnSinkFault result (Rose (O.faults out.old) (O.faults out.new)) }
    ensures prefix { OnSinkFault result (AppendsPrefix (O.written out.old) (O.written out.new) (concat made.now.lines)) }
    ensures nothing { OnMemory result (O.written out.new ≡ O.written out.old) }
{
    match write_lines(out, made.lines.as_slice()) {
        Ok(()) => Answer::Ran(made.status),
        Err(SinkFault::Failed) => Answer::SinkFault,
    }
}

// Says on standard error why words or options file are refused.
fn refuse<E: Sink>(alloc: Global, fault: &UsageFault, err: &mut E) -> Answer
    ensures told { OnWritten result (is_memory fault.now ≡ false) }
    ensures status { OnRan result (λ status. status ≡ 32) }
    ensures text { OnRan result (λ _. Appends (E.written err.old) (E.written err.new) (usage_line fault.now)) }
    ensures cause { OnSinkFault result (Rose (E.faults err.old) (E.faults err.new)) }
    ensures prefix { OnSinkFault result (AppendsPrefix (E.written err.old) (E.written err.new) (usage_line fault.now)) }
    ensures nothing { OnMemory result (E.written err.new ≡ E.written err.old) }
{
    if fault.is_memory() {
        return Answer::Memory;
    }
    let Ok(line) = usage_text(alloc, fault) else {
        return Answer::Memory;
    };
    match err.write(line.as_str().as_bytes()) {
        Ok(()) => Answer::Ran(32),
        Err(SinkFault::Failed) => Answer::SinkFault,
    }
}

// The options file alone was read, or not even that, and no files.
pub(crate) fn no_files(alloc: Global, options: OptionsRead) -> Whole
    ensures list { result.list ≡ [] }
    ensures options { result.options ≡ options }
{
    Whole {
        options,
        list: Reading::new(alloc),
    }
}

// Lints files, behind an options file that was read so.
fn lint_files<R: Threads + Sync, F: Files, O: Sink, G: Gate>(
    rt: &R,
    alloc: Global,
    args: &[Text],
    options: &Options,
    read: OptionsRead,
    files: &mut F,
    out: &mut O,
    gate: &G,
) -> Outcome
    ensures printed { OnRan result.answer (IsPrinted None options.now result.read.list (O.written out.old) (O.written out.new)) }
    ensures cause { OnSinkFault result.answer (Rose (O.faults out.old) (O.faults out.new)) }
    ensures part { OnSinkFault result.answer (IsPartPrinted None options.now result.read.list (O.written out.old) (O.written out.new)) }
    ensures nothing { OnMemory result.answer (O.written out.new ≡ O.written out.old) }
    ensures read { ForSome (F.held files.old) (λ tree. OnWritten result.answer (IsReadingOf tree (F.failed files.old) (F.failed files.new) (F.faults files.old) (F.faults files.new) options.now args.now result.read.list)) }
    ensures part_read { ForSome (F.held files.old) (λ tree. IsPartOf [] (λ fails. reading_of tree fails options.now args.now) result.read.list) }
    ensures failed { RoseBy (count_by is_failed result.read.list) (F.faults files.old) (F.faults files.new) }
    ensures options { result.read.options ≡ read }
{
    let Ok(list) = gather(alloc, files, args, options) else {
        return Outcome {
            answer: Answer::Memory,
            read: no_files(alloc, read),
        };
    };
    let read = Whole {
        options: read,
        list,
    };
    let Ok(made) = report_of(rt, alloc, options, &read.list, gate) else {
        return Outcome {
            answer: Answer::Memory,
            read,
        };
    };
    let answer = write_report(out, &made);
    Outcome { answer, read }
}

// Reads the options file of a line, and lints its files.
fn lint_line<R: Threads + Sync, F: Files, O: Sink, E: Sink, G: Gate>(
    rt: &R,
    alloc: Global,
    line: &Line,
    files: &mut F,
    out: &mut O,
    err: &mut E,
    gate: &G,
) -> Outcome
    requires { line.now.generate ≡ None }
    ensures ran { OnRan result.answer (IsRun (Ok line.now) result.read (O.written out.old) (O.written out.new) (E.written err.old) (E.written err.new)) }
    ensures refused { OnRan result.answer (IsRefused (Ok line.now) result.read) }
    ensures stopped { OnSinkFault result.answer (IsStopped (Ok line.now) result.read (O.written out.old) (O.written out.new) (E.written err.old) (E.written err.new)) }
    ensures cause { OnSinkFault result.answer (Rose (O.faults out.old) (O.faults out.new) ⊎ Rose (E.faults err.old) (E.faults err.new)) }
    ensures unwritten { OnMemory result.answer (IsUnwritten (O.written out.old) (O.written out.new) (E.written err.old) (E.written err.new)) }
    ensures read { ForSome (F.held files.old) (λ tree. OnWritten result.answer (IsReadFrom (Ok line.now) tree (F.failed files.old) (F.failed files.new) (F.faults files.old) (F.faults files.new) result.read)) }
    ensures part_read { ForSome (F.held files.old) (λ tree. IsPartRead (Ok line.now) tree result.read) }
    ensures order { OnWritten result.answer (IsInOrder (Ok line.now) result.read) }
    ensures failed { HasReadCauses (F.faults files.old) (F.faults files.new) result.read }
{
    let Ok(read) = read_options(alloc, files, line) else {
        return Outcome {
            answer: Answer::Memory,
            read: no_files(alloc, OptionsRead::NotLooked),
        };
    };
    let fault = match read_settings(alloc, line, &read) {
        Ok(options) => {
            let args = line.files.as_slice();
            return lint_files(rt, alloc, args, &options, read, files, out, gate);
        }
        Err(fault) => fault,
    };
    let answer = refuse(alloc, &fault, err);
    Outcome {
        answer,
        read: no_files(alloc, read),
    }
}

/// Does all that the program does: reads the words, the options file and the files, lints, and prints the report, or
/// lints a made text and prints the line that counts what is shown. All of it is made before the first write, and each
/// line is one write.
pub fn lint_command<R: Threads + Sync, F: Files, O: Sink, E: Sink, G: Gate>(
    rt: &R,
    alloc: Global,
    words: &[Text],
    files: &mut F,
    out: &mut O,
    err: &mut E,
    gate: &G,
) -> Outcome
    // What is printed and the status are the stated ones of the words, of what was read, and of what is shown of it.
    ensures ran { OnRan result.answer (IsRun (line_of words.now) result.read (O.written out.old) (O.written out.new) (E.written err.old) (E.written err.new)) }

    // Nothing else is shown of it, so what is printed and the status are a function of the words and of what was read.
    ensures determined { IsDetermined (line_of words.now) result.read }

    // The status 32 says that the words or the options file are refused, and no other status does.
    ensures refused { OnRan result.answer (IsRefused (line_of words.now) result.read) }

    // A sink's fault has its cause, and leaves a first part of what was to be printed.
    ensures stopped { OnSinkFault result.answer (IsStopped (line_of words.now) result.read (O.written out.old) (O.written out.new) (E.written err.old) (E.written err.new)) }
    ensures cause { OnSinkFault result.answer (Rose (O.faults out.old) (O.faults out.new) ⊎ Rose (E.faults err.old) (E.faults err.new)) }

    // So where no sink's count rises, the command ran, or memory ran out.
    ensures complete { OnSinkFault result.answer (¬ (Rose (O.faults out.old) (O.faults out.new)) → ¬ (Rose (E.faults err.old) (E.faults err.new)) → ⊥) }

    // Without memory nothing was printed.
    ensures unwritten { OnMemory result.answer (IsUnwritten (O.written out.old) (O.written out.new) (E.written err.old) (E.written err.new)) }

    // What was read is what the files hold, but for the questions that failed in this call.
    ensures read { ForSome (F.held files.old) (λ tree. OnWritten result.answer (IsReadFrom (line_of words.now) tree (F.failed files.old) (F.failed files.new) (F.faults files.old) (F.faults files.new) result.read)) }

    // Also where memory ran out, what is handed back as read is nothing, or what the files hold.
    ensures part_read { ForSome (F.held files.old) (λ tree. IsPartRead (line_of words.now) tree result.read) }

    // On every device the options file comes behind good words, and the files behind a good options file. For a made text
    // nothing is asked.
    ensures order { OnWritten result.answer (IsInOrder (line_of words.now) result.read) }
    ensures failed { HasReadCauses (F.faults files.old) (F.faults files.new) result.read }

    // So where the files' count does not rise, nothing that was read has failed.
    ensures none_failed { ¬ (Rose (F.faults files.old) (F.faults files.new)) → failures result.read ≡ 0 }
{
    let fault = match read_words(alloc, words) {
        Ok(line) => match line.generate {
            Some(classes) => return lint_made(rt, alloc, &line, classes, out, gate),
            None => return lint_line(rt, alloc, &line, files, out, err, gate),
        },
        Err(fault) => fault,
    };
    let answer = refuse(alloc, &fault, err);
    Outcome {
        answer,
        read: no_files(alloc, OptionsRead::NotLooked),
    }
}
