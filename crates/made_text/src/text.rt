// The text of a made module.
ghost use Rattle.std.specs.Prelude.{◌≡◌, ◌<◌, ◌≤◌, ◌+◌, ◌^◌, ◌++◌, IfOk, OnOk, length, string_bytes};
ghost use Rattle.made_text.specs.MadeText.{class_text, made_text};

use lint_values::{Bytes, Memory};
use std::alloc::Global;

// Adds the class of a number behind a text.
fn push_class(alloc: Global, text: &mut String, i: u32) -> Result<(), Memory>
    requires { i < 20_000 }
    ensures text { OnOk result (string_bytes text.new ≡ string_bytes text.old ++ class_text i) }
    ensures short { OnOk result (length (string_bytes text.new) ≤ length (string_bytes text.old) + 128) }
{
    let field = i % 7;
    let class = format!(in alloc;
        "\n\nclass C{i}:\n    \"\"\"Class.\"\"\"\n\n    def get(self):\n        \"\"\"Get.\"\"\"\n        return self.v{field}\n"
    )?;
    text.push_str(class.as_str())?;
    Ok(())
}

/// The text of so many classes: eight lines each, behind a docstring.
pub fn made_text(alloc: Global, classes: u32) -> Result<Bytes, Memory>
    requires { classes ≤ 20_000 }
    ensures text { IfOk result (λ text. text ≡ made_text classes) }
    ensures short { IfOk result (λ text. length text < 2 ^ 32) }
{
    let mut text = String::from_str(alloc, "\"\"\"Made.\"\"\"\n")?;
    for i in 0..classes {
        push_class(alloc, &mut text, i)?;
    }
    Ok(Bytes::from_vec(text.into_bytes()))
}
