// The options that an options file and a line give.
ghost use Rattle.std.specs.Prelude.{◌≡◌, false, Ok, Err, IfOk, IfErr};
ghost use Rattle.options.specs.Usage.{is_memory};
ghost use Rattle.options_file.specs.Settings.{absent, edits_read, settings_by};

use crate::reading::options_path;
use lint_report::OptionsRead;
use lint_values::Text;
use options::{Edits, Line, Options, UsageFault, read_toml};
use std::alloc::Global;

// No options file is there: a fault where the line names one.
fn absent(alloc: Global, line: &Line) -> Result<Edits, UsageFault>
    ensures edits { IfOk result (λ edits. absent line.now.rcfile ≡ Ok edits) }
    ensures refused { IfErr result (λ fault. is_memory fault ≡ false → absent line.now.rcfile ≡ Err fault) }
{
    match &line.rcfile {
        None => Ok(Edits::new(alloc)),
        Some(path) => Err(UsageFault::NoRcFile(Text::from_str(alloc, path.as_str())?)),
    }
}

// What the options file of a line says.
fn edits_read(alloc: Global, line: &Line, read: &OptionsRead) -> Result<Edits, UsageFault>
    ensures edits { IfOk result (λ edits. edits_read line.now.rcfile read.now ≡ Ok edits) }
    ensures refused { IfErr result (λ fault. is_memory fault ≡ false → edits_read line.now.rcfile read.now ≡ Err fault) }
{
    match read {
        OptionsRead::NotLooked => Ok(Edits::new(alloc)),
        OptionsRead::Absent => absent(alloc, line),
        OptionsRead::Failed => Err(UsageFault::ReadFault(options_path(alloc, line)?)),
        OptionsRead::TooLarge => Err(UsageFault::TooLarge(options_path(alloc, line)?)),
        OptionsRead::Source(bytes) => {
            let path = options_path(alloc, line)?;
            read_toml(alloc, &path, bytes.as_slice())
        }
    }
}

/// The options of a line and of what became of its options file, or the file's fault.
pub fn read_settings(alloc: Global, line: &Line, read: &OptionsRead) -> Result<Options, UsageFault>
    ensures options { IfOk result (λ options. settings_by line.now read.now ≡ Ok options) }
    ensures refused { IfErr result (λ fault. is_memory fault ≡ false → settings_by line.now read.now ≡ Err fault) }
{
    let edits = edits_read(alloc, line, read)?;
    Ok(Options::of(alloc, &edits, &line.edits)?)
}
