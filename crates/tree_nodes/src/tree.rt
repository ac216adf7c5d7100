// The finished tree.
ghost use Rattle.std.specs.Prelude.{◌≡◌, ◌<◌, ◌↔◌, Some, map, option_map, option_copied, IsNone, IfSome, Contains, All};
ghost use Rattle.std.specs.List.Sorted.{IsStrictlyIncreasing};

use crate::label::{Label, Span, kids_within, text_within};
use crate::{Kind, Walk};
use lint_values::{NodeId, Pos};
use std::marker::Model;

/// A node: its label, the span of its kids, and one more than its parent's number, or 0.
#[derive(Clone, Copy, Debug)]
pub struct TreeRow {
    pub label: Label,
    pub kids: Span,
    pub above: u32,
}

/// A syntax tree, whose nodes are numbered from 0 in preorder. Contracts see it as a node with the trees below it.
#[derive(Debug, Drop)]
pub struct Tree {
    pub(crate) rows: Vec<TreeRow>,
    pub(crate) kids: Vec<NodeId>,
    pub(crate) names: String,
}

impl Model for Tree {
    ghost use Rattle.std.specs.Prelude.{string_bytes};
    ghost use Rattle.tree_nodes.specs.Trees.{Tree as Syntax};
    ghost use Rattle.tree_nodes.specs.Code.{tree_code};

    ghost Value = { Syntax };

    ghost coded = { tree_code };

    ghost use Rattle.tree_nodes.specs.Back.{tree_from};
    ghost use Rattle.tree_nodes.specs.Finished.{entries_in, IsFinished};

    ghost view = { λ t. tree_from (entries_in (string_bytes t.names) t.kids.items t.rows.items) };

    ghost invariant = { λ t. IsFinished (string_bytes t.names) t.kids.items t.rows.items };
}

impl Tree {
    ghost use Rattle.tree_nodes.specs.Trees.{count_of, node_at, kids_at, parent_at};
    ghost use Rattle.tree_nodes.specs.Kept.{number_of};
    ghost use Rattle.tree_nodes.specs.Finished.{IsRowOf};
    ghost use Rattle.tree_nodes.specs.Shaped.{IsShaped, HasShape};
    ghost use Rattle.tree_nodes.specs.Walked.{ids_from};

    /// How many nodes the tree has.
    pub fn count(&self) -> u32
        ensures { result ≡ count_of self.now }
    {
        self.rows.len() as u32
    }

    /// The node's kind.
    pub fn kind(&self, n: NodeId) -> Kind
        requires { n.0 < count_of self.now }
        ensures { result ≡ (node_at self.now n.0).kind }
    {
        self.row(n).label.kind
    }

    /// The node's kids, in the order in which they stand.
    pub fn kids(&self, n: NodeId) -> &[NodeId]
        requires { n.0 < count_of self.now }
        ensures value { map number_of result.now ≡ kids_at self.now n.0 }
        ensures behind { All (λ k. n.0 < k.0) result.now }
        ensures made { All (λ k. k.0 < count_of self.now) result.now }
        ensures parent { All (λ k. parent_at self.now k.0 ≡ Some n.0) result.now }
        ensures ascending { IsStrictlyIncreasing (kids_at self.now n.0) }
        ensures shaped { IsShaped self.now → HasShape (node_at self.now n.0) (map (λ k. (node_at self.now k).kind) (kids_at self.now n.0)) }
    {
        let span = self.rows[n.0 as usize].kids;
        kids_within(self.kids.as_slice(), span)
    }

    /// The node that this one is a kid of. The root has none.
    pub fn parent(&self, n: NodeId) -> Option<NodeId>
        requires { n.0 < count_of self.now }
        ensures value { option_map number_of result ≡ parent_at self.now n.0 }
        ensures root { IsNone result ↔ (n.0 ≡ 0) }
        ensures before { IfSome result (λ p. p.0 < n.0) }
        ensures kid { IfSome result (λ p. Contains (kids_at self.now p.0) n.0) }
    {
        let above = self.row(n).above;
        if above == 0 {
            None
        } else {
            Some(NodeId(above - 1))
        }
    }

    /// Where the node begins.
    pub fn pos(&self, n: NodeId) -> Pos
        requires { n.0 < count_of self.now }
        ensures { result ≡ (node_at self.now n.0).pos }
    {
        self.row(n).label.pos
    }

    /// The last line of the node.
    pub fn end_line(&self, n: NodeId) -> u32
        requires { n.0 < count_of self.now }
        ensures { result ≡ (node_at self.now n.0).end_line }
    {
        self.row(n).label.end_line
    }

    /// The node's name, where its kind has one: a name in its normal form, a dotted name, or a number or a string as
    /// written.
    pub fn name(&self, n: NodeId) -> Option<&str>
        requires { n.0 < count_of self.now }
        ensures { option_copied result ≡ (node_at self.now n.0).name }
    {
        let label = self.rows[n.0 as usize].label;
        let text = text_within(self.names.as_str(), label.name);
        if label.is_named { Some(text) } else { None }
    }

    /// The numbers of all nodes, ascending: each node before its kids, and a kid's whole tree before the next kid.
    pub fn walk(&self) -> Walk
        ensures { result ≡ ids_from 0 (count_of self.now) }
    {
        Walk::below(self.count())
    }

    fn row(&self, n: NodeId) -> TreeRow
        requires { n.0 < count_of self.now }
        ensures { IsRowOf self.now n.0 result }
    {
        self.rows[n.0 as usize]
    }
}
