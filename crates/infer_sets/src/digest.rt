// The digest of a set.
ghost use Rattle.std.specs.Prelude.{◌≡◌};
ghost use Rattle.infer_sets.specs.Digest.{IsDigest, hash, mixed, value_code, class_code, receiver_code, node_code};

use crate::abs_set::AbsSet;
use crate::abs_val::{AbsVal, ClassRef, Recv};
use lint_values::NodeRef;

// A number that equal sets share.
pub(crate) fn digest(set: &AbsSet) -> u64
    ensures { IsDigest set.now result }
{
    match set.values() {
        None => 0,
        Some(values) => hash(values),
    }
}

fn hash(values: &[AbsVal]) -> u64
    ensures { result ≡ hash values.now }
{
    let mut hash = 7;
    for value in values {
        hash = mixed(hash, value_code(*value));
    }
    hash
}

#[tactic(auto, unfolding(crate::specs::Digest::mixed))]
fn mixed(hash: u64, code: u64) -> u64
    ensures { result ≡ mixed hash code }
{
    hash.wrapping_mul(6364136223846793005).wrapping_add(code)
}

fn value_code(value: AbsVal) -> u64
    ensures { result ≡ value_code value }
{
    match value {
        AbsVal::Inst(class) => mixed(1, class_code(class)),
        AbsVal::Class(class) => mixed(2, class_code(class)),
        AbsVal::Func(function) => mixed(3, node_code(function)),
        AbsVal::Bound(function, receiver) => mixed(node_code(function), receiver_code(receiver)),
        AbsVal::Module(file) => mixed(4, file.0 as u64),
    }
}

fn receiver_code(receiver: Recv) -> u64
    ensures { result ≡ receiver_code receiver }
{
    match receiver {
        Recv::Inst(class) => mixed(5, class_code(class)),
        Recv::Class(class) => mixed(6, class_code(class)),
    }
}

fn class_code(class: ClassRef) -> u64
    ensures { result ≡ class_code class }
{
    match class {
        ClassRef::Seen(node) => node_code(node),
        ClassRef::Builtin(kind) => kind as u64,
    }
}

fn node_code(node: NodeRef) -> u64
    ensures { result ≡ node_code node }
{
    mixed(node.file.0 as u64, node.node.0 as u64)
}
