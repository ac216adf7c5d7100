//! The normal forms of names.
#![tactic(auto)]

ghost use Rattle.std.specs.Prelude.{MatchOption, IfOk};
ghost use Rattle.py_normal_form.specs.NormalForm.{IsItsOwn, IsNormalForm};

use lint_values::{Memory, Text};
use std::alloc::Global;
use unicode_normalization::to_nfkc;

/// The NFKC form of a name, or nothing where the name is ASCII and so is its own form.
pub fn normal_form(alloc: Global, name: &str) -> Result<Option<Text>, Memory>
    ensures { IfOk result (λ answer. MatchOption answer (IsItsOwn name.now) (IsNormalForm name.now)) }
{
    if name.is_ascii() {
        return Ok(None);
    }
    Ok(Some(Text::from_string(to_nfkc(alloc, name)?)))
}
