// What all arguments give.
ghost use Rattle.std.specs.Prelude.{◌≡◌, ◌≤◌, ◌+◌, IfOk, length, count_by};
ghost use Rattle.std.specs.Option.{ForSome};
ghost use Rattle.lint_outside.specs.Causes.{RoseBy};
ghost use Rattle.file_list.specs.Answers.{most_entries};
ghost use Rattle.file_list.specs.Asked.{Asks, IsRightSoFar};
ghost use Rattle.file_list.specs.Contents.{Finds};
ghost use Rattle.file_list.specs.Entries.{is_failed};
ghost use Rattle.file_list.specs.Walked.{found_of};
ghost use Rattle.file_list.specs.Gathered.{IsReadingOf, bytes_in_all, most_bytes_in_all};

use crate::contents::read_all;
use crate::findings::Findings;
use crate::known::Known;
use crate::walking::with_argument;
use crate::{Found, Reading};
use lint_outside::Files;
use lint_values::{Memory, Text};
use options::Options;
use std::alloc::Global;

fn found_of<F: Files>(
    known: &mut Known,
    alloc: Global,
    files: &mut F,
    args: &[Text],
    ignore: &[Text],
    recursive: bool,
) -> Result<Findings, Memory>
    requires { ForSome (F.held files.old) (λ tree. IsRightSoFar tree (F.failed files.old) known.old) }
    ensures asks { IfOk result (Asks (F.held files.old) (F.faults files.old) (F.faults files.new) (F.failed files.old) (F.failed files.new) known.old known.new (λ answers. found_of answers ignore.now recursive args.now)) }
    ensures held { F.held files.new ≡ F.held files.old }
    ensures later { F.faults files.old ≤ F.faults files.new }
{
    let mut findings = Findings::new(alloc);
    for argument in args {
        with_argument(
            known,
            &mut findings,
            alloc,
            files,
            ignore,
            recursive,
            argument,
        )?;
    }
    Ok(findings)
}

// Finds what stands at the arguments and in the folders that are walked, in the order of a reading. What can't be
// looked at or listed is a finding.
fn find_paths<F: Files>(
    alloc: Global,
    files: &mut F,
    args: &[Text],
    options: &Options,
) -> Result<Vec<Found>, Memory>
    ensures finds { IfOk result (λ found. Finds (F.held files.old) (F.faults files.old) (F.faults files.new) (F.failed files.old) (F.failed files.new) options.now args.now found.items) }
    ensures held { F.held files.new ≡ F.held files.old }
    ensures later { F.faults files.old ≤ F.faults files.new }
{
    let mut known = Known::new(alloc);
    let ignore = options.ignore.as_slice();
    let findings = found_of(&mut known, alloc, files, args, ignore, options.recursive)?;
    Ok(findings.into_vec())
}

/// Reads what stands at the arguments and in the folders that are walked. It has no fault of its own: what can't be
/// looked at, listed or read is an entry.
pub fn gather<F: Files>(
    alloc: Global,
    files: &mut F,
    args: &[Text],
    options: &Options,
) -> Result<Reading, Memory>
    // What is read is what the files hold, but for the questions that failed meanwhile.
    ensures read { ForSome (F.held files.old) (λ tree. IfOk result (IsReadingOf tree (F.failed files.old) (F.failed files.new) (F.faults files.old) (F.faults files.new) options.now args.now)) }
    ensures failed { IfOk result (λ reading. RoseBy (count_by is_failed reading) (F.faults files.old) (F.faults files.new)) }
    ensures held { F.held files.new ≡ F.held files.old }
    ensures later { F.faults files.old ≤ F.faults files.new }

    // On every device there are at most 20,001 entries, and 67,108,864 bytes of sources.
    ensures few { IfOk result (λ reading. length reading ≤ most_entries + 1) }
    ensures within { IfOk result (λ reading. bytes_in_all reading ≤ most_bytes_in_all) }
{
    let found = find_paths(alloc, files, args, options)?;
    Ok(read_all(alloc, files, found.as_slice())?)
}
