// What a node counts.
ghost use Rattle.std.specs.Prelude.{◌≡◌};
ghost use Rattle.flow_rules.specs.Sizes.{one_if, branches_of, part_of};

use crate::kinds::{is_branch, is_finally, is_return};
use crate::size::Size;
use rule_nodes::is_counted;
use tree_nodes::Kind;

// 1 where it is so.
fn one_if(is_so: bool) -> u64
    ensures { result ≡ one_if is_so }
{
    if is_so { 1 } else { 0 }
}

// How many branches a node makes: `finally` makes two.
fn branches_of(kind: Kind) -> u64
    ensures { result ≡ branches_of kind }
{
    if is_finally(kind) {
        2
    } else {
        one_if(is_branch(kind))
    }
}

/// What a node adds to a size of the function that it belongs to.
pub(crate) fn part_of(size: Size, kind: Kind) -> u64
    ensures { result ≡ part_of size kind }
{
    match size {
        Size::Returns => one_if(is_return(kind)),
        Size::Branches => branches_of(kind),
        Size::Statements => one_if(is_counted(kind)),
    }
}
