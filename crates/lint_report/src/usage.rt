// The line of a usage fault.
ghost use Rattle.std.specs.Prelude.{◌≡◌, ◌++◌, false, IfOk};
ghost use Rattle.options.specs.Usage.{is_memory};
ghost use Rattle.lint_report.specs.Usage.{usage_line};

use lint_values::{Memory, Text};
use options::UsageFault;
use std::alloc::Global;

// A word between two texts.
fn around(alloc: Global, front: &str, word: &Text, back: &str) -> Result<Text, Memory>
    ensures { IfOk result (λ text. text ≡ front.now ++ (word.now ++ back.now)) }
{
    let word = word.as_str();
    Ok(Text::from_string(format!(in alloc; "{front}{word}{back}")?))
}

/// The line that a usage fault prints, with its newline.
pub fn usage_text(alloc: Global, fault: &UsageFault) -> Result<Text, Memory>
    requires { is_memory fault.now ≡ false }
    ensures { IfOk result (λ text. text ≡ usage_line fault.now) }
{
    match fault {
        UsageFault::UnknownOption(word) => {
            Ok(around(alloc, "pylint: error: unknown option '", word, "'\n")?)
        }
        UsageFault::NeedsValue(word) => Ok(around(
            alloc,
            "pylint: error: option '",
            word,
            "' needs a value\n",
        )?),
        UsageFault::BadValue(word) => {
            Ok(around(alloc, "pylint: error: bad value '", word, "'\n")?)
        }
        UsageFault::NoFile => Ok(Text::from_str(alloc, "pylint: error: no file given\n")?),
        UsageFault::BadToml(path) => {
            Ok(around(alloc, "pylint: error: '", path, "' is not TOML\n")?)
        }
        UsageFault::NoRcFile(path) => Ok(around(
            alloc,
            "pylint: error: options file '",
            path,
            "' not found\n",
        )?),
        UsageFault::TooLarge(path) => Ok(around(
            alloc,
            "pylint: error: options file '",
            path,
            "' too large\n",
        )?),
        UsageFault::ReadFault(path) => {
            Ok(around(alloc, "pylint: error: reading '", path, "' failed\n")?)
        }
        UsageFault::Memory => Ok(Text::from_str(alloc, "")?),
    }
}
