// All numbers of a tree's nodes, ascending.
ghost use Rattle.std.specs.Iterator.{YieldsFirst, item_count};

use lint_values::NodeId;
use std::marker::Model;

/// The numbers of a tree's nodes that are still to come, ascending. Contracts see it as their list.
#[derive(Debug, Drop)]
pub struct Walk {
    next: u32,
    end: u32,
}

impl Model for Walk {
    ghost use Rattle.std.specs.Prelude.{List, ◌-◌};
    ghost use Rattle.lint_values.specs.declared.place.NodeId.{NodeId as Number};

    ghost Value = { List Number };

    ghost use Rattle.tree_nodes.specs.Walked.{ids_from};

    ghost view = { λ w. ids_from w.next (w.end - w.next) };
}

impl Walk {
    ghost use Rattle.std.specs.Prelude.{◌≡◌};
    ghost use Rattle.tree_nodes.specs.Walked.{ids_from};

    /// The numbers below `count`.
    pub fn below(count: u32) -> Walk
        ensures { result ≡ ids_from 0 count }
    {
        Walk {
            next: 0,
            end: count,
        }
    }
}

impl Iterator for Walk {
    type Item = NodeId;

    ghost next_gives = { YieldsFirst (λ w. w) };

    ghost remaining = { item_count (λ w. w) };

    fn next(&mut self) -> Option<NodeId> {
        if self.next < self.end {
            let id = NodeId(self.next);
            self.next += 1;
            Some(id)
        } else {
            None
        }
    }
}
