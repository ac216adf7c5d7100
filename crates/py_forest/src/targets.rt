// Expressions as targets.
ghost use Rattle.std.specs.Prelude.{◌≡◌, ℕ, ◌<◌, ◌≤◌, ◌+◌, Some, None, length, map, take, drop, slice_set, slice_index_or, ◌++◌, All, OnOk, IfOk, IfErr, if◌then◌else◌};
ghost use Rattle.tree_nodes.specs.Trees.{Tree, pack};
ghost use Rattle.tree_nodes.specs.Back.{no_tree};
ghost use Rattle.tree_nodes.specs.Rows.{tree_of};
ghost use Rattle.py_grammar.specs.Tests.{target_kind as target_kind_spec, is_group as is_group_spec, is_bindable as is_bindable_spec, are_targets as are_targets_spec, is_target as is_target_spec, as_target as as_target_spec, as_targets};
ghost use Rattle.py_forest.specs.Tops.{Grows};
ghost use Rattle.py_forest.specs.declared.fault.Fault.TheVariants.{Memory};

use crate::fault::Fault;
use std::alloc::Global;
use tree_nodes::{Kind, TreeBuilder};

/// The kind of what an expression of this kind binds as a target.
fn target_kind(kind: Kind) -> Option<Kind>
    ensures { result ≡ target_kind_spec kind }
{
    match kind {
        Kind::Name => Some(Kind::NameTarget),
        Kind::Attribute => Some(Kind::AttributeTarget),
        Kind::Subscript => Some(Kind::SubscriptTarget),
        Kind::Tuple => Some(Kind::TupleTarget),
        Kind::List => Some(Kind::ListTarget),
        Kind::Starred => Some(Kind::StarredTarget),
        _ => None,
    }
}

/// What a target of this kind binds is again made of targets.
fn is_group(kind: Kind) -> bool
    ensures { result ≡ is_group_spec kind }
{
    matches!(kind, Kind::Tuple | Kind::List | Kind::Starred)
}

/// An expression of this kind may be a target.
fn is_bindable(kind: Kind) -> bool
    ensures { result ≡ is_bindable_spec kind }
{
    target_kind(kind).is_some()
}

/// Whether a row can be bound.
pub fn is_target(builder: &TreeBuilder, row: u32) -> bool
    requires { row < length builder.now }
    ensures { result ≡ is_target_spec (tree_of builder.now row) }
{
    let kind = builder.kind(row);
    if !is_bindable(kind) {
        return false;
    }
    if !is_group(kind) {
        return true;
    }
    let kids = builder.kids(row);
    for kid in kids {
        if !is_target(builder, *kid) {
            return false;
        }
    }
    true
}

/// A row for an expression as a target. Its kids stand for targets too where it is a group.
pub fn as_target(builder: &mut TreeBuilder, alloc: Global, row: u32) -> Result<u32, Fault>
    requires { row < length builder.old }
    ensures made { IfOk result (λ n. n < length builder.new) }
    ensures tree { IfOk result (λ n. tree_of builder.new n ≡ as_target_spec (tree_of builder.old row)) }
    ensures grows { Grows builder.old builder.new }
    ensures err { IfErr result (λ e. e ≡ Memory) }
{
    let kind = builder.kind(row);
    let target = target_kind(kind).unwrap_or(kind);
    if !is_group(kind) {
        return Ok(builder.retag(row, target)?);
    }
    let ids = Vec::from_slice(alloc, builder.kids(row))?;
    let mut kids = Vec::new(alloc);
    for id in &ids {
        let new = as_target(builder, alloc, *id)?;
        kids.push(new)?;
    }
    Ok(builder.rebuild(row, target, kids.as_slice())?)
}
