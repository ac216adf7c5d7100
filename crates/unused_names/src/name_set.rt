// Sets of names, in which each is found at once.
ghost use Rattle.std.specs.Prelude.{◌≡◌, ◌++◌, ◌∷◌, [], List, OnOk};
ghost use Rattle.scope_rules.specs.Nodes.{Name};
ghost use Rattle.unused_names.specs.Reads.{has_name};
ghost use Rattle.unused_names.specs.Sets.{HasNames};

use lint_values::Memory;
use std::alloc::Global;
use std::collections::BTreeSet;

/// A set of names.
pub(crate) type NameSet = BTreeSet<Vec<u8>>;

/// No names.
pub(crate) fn no_names(alloc: Global) -> NameSet
    ensures { HasNames result [] }
{
    BTreeSet::new(alloc)
}

/// Adds a name.
pub(crate) fn add_name(alloc: Global, names: &mut NameSet, name: &[u8]) -> Result<(), Memory>
    ensures { (ns : List Name) → HasNames names.old ns → OnOk result (HasNames names.new (ns ++ name.now ∷ [])) }
{
    let name = Vec::from_slice(alloc, name)?;
    names.insert(name)?;
    Ok(())
}

/// Whether a name is among these.
pub(crate) fn has_name(names: &NameSet, name: &str) -> bool
    ensures { (ns : List Name) → HasNames names.now ns → result ≡ has_name ns name.now }
{
    names.contains(name.as_bytes())
}
