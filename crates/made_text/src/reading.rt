// A made text as the one file of a reading.
ghost use Rattle.std.specs.Prelude.{◌≡◌, ◌≤◌, IfOk};
ghost use Rattle.made_text.specs.MadeText.{made_reading};

use crate::made_text;
use file_list::{Entry, Reading};
use lint_values::{Memory, Text};
use std::alloc::Global;

/// The reading that has the text of so many classes as its one file, `made.py`. Nothing is read for it.
pub fn made_reading(alloc: Global, classes: u32) -> Result<Reading, Memory>
    requires { classes ≤ 20_000 }
    ensures { IfOk result (λ reading. reading ≡ made_reading classes) }
{
    let text = made_text(alloc, classes)?;
    let path = Text::from_str(alloc, "made.py")?;
    let module_name = Text::from_str(alloc, "made")?;
    let mut reading = Reading::new(alloc);
    reading.add(path, module_name, false, Entry::Source(text))?;
    Ok(reading)
}
