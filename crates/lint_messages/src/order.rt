// The order of messages.
ghost use Rattle.std.specs.Prelude.{◌≡◌, ◌∷◌, [], map, IfOk};
ghost use Rattle.lint_messages.specs.Order.{node_rank, text_cmp, place_cmp, content_cmp, message_cmp, in_order};
ghost use Rattle.lint_messages.specs.Templates.{text_of};

use crate::{Message, message_text};
use lint_values::{Memory, NodeId, Text};
use std::alloc::Global;
use std::cmp::Ordering;

// A message with its text, which is made once.
#[derive(Debug, Drop)]
pub(crate) struct Ranked {
    message: Message,
    text: Text,
    ghost told: { text ≡ text_of message },
}

fn node_rank(node: Option<NodeId>) -> u64
    ensures { result ≡ node_rank node }
{
    match node {
        None => 0,
        Some(node) => u64::from(node.0) + 1,
    }
}

fn place_cmp(a: &Message, b: &Message) -> Ordering
    ensures { result ≡ place_cmp a.now b.now }
{
    let lines = a.pos.line.cmp(&b.pos.line);
    let columns = a.pos.col.cmp(&b.pos.col);
    a.file.0.cmp(&b.file.0).then(lines.then(columns))
}

impl PartialEq for Ranked {
    ghost use Rattle.std.proofs.Common.{rules};
    ghost use Rattle.std.specs.Cmp.Rules.{comparing};
    ghost use Rattle.std.specs.Ordering.{eq_by_cmp, on};
    ghost use Rattle.lint_messages.specs.Order.{message_cmp};

    ghost eq = { on (λ r. r.message) (eq_by_cmp message_cmp) };

    ghost laws = { Prim.search (comparing, rules) depth 12 };

    fn eq(&self, other: &Self) -> bool {
        self.cmp(other) == Ordering::Equal
    }
}

impl Eq for Ranked {
    ghost use Rattle.std.proofs.Common.{rules};
    ghost use Rattle.std.specs.Cmp.Rules.{comparing};

    ghost laws = { Prim.search (comparing, rules) depth 12 };
}

impl PartialOrd for Ranked {
    ghost use Rattle.std.proofs.Common.{rules};
    ghost use Rattle.std.specs.Cmp.{partial_order_from_own_ties};
    ghost use Rattle.std.specs.Cmp.Rules.{comparing};
    ghost use Rattle.std.specs.Ordering.{as_partial_cmp, on};
    ghost use Rattle.lint_messages.specs.Order.{message_cmp};

    ghost partial_cmp = { as_partial_cmp (on (λ r. r.message) message_cmp) };

    ghost laws = { partial_order_from_own_ties (Prim.search (comparing, rules) depth 12) (Prim.search (comparing, rules) depth 12) };

    fn partial_cmp(&self, other: &Self) -> Option<Ordering> {
        Some(self.cmp(other))
    }
}

impl Ord for Ranked {
    ghost use Rattle.std.proofs.Common.{rules};
    ghost use Rattle.std.specs.Cmp.Rules.{comparing};
    ghost use Rattle.std.specs.Ordering.{on};
    ghost use Rattle.lint_messages.specs.Order.{message_cmp};

    ghost cmp = { on (λ r. r.message) message_cmp };

    ghost total = { Prim.search (comparing, rules) depth 12 };

    ghost matches_partial_cmp = { Prim.search (comparing, rules) depth 12 };

    ghost matches_eq = { Prim.search (comparing, rules) depth 12 };

    fn cmp(&self, other: &Ranked) -> Ordering {
        let (a, b) = (&self.message, &other.message);
        let codes = a.code.letters().cmp(b.code.letters());
        let texts = self.text.cmp(&other.text);
        let nodes = node_rank(a.node).cmp(&node_rank(b.node));
        let args = a.args.as_slice().cmp(b.args.as_slice());
        place_cmp(a, b).then(codes.then(texts.then(nodes.then(args))))
    }
}

// Takes each message with its text.
pub(crate) fn with_texts(alloc: Global, messages: Vec<Message>) -> Result<Vec<Ranked>, Memory>
    ensures { IfOk result (λ ranked. map (λ r. r.message) ranked.items ≡ messages.items) }
{
    let mut ranked = Vec::with_capacity(alloc, messages.len())?;
    for message in messages {
        let text = message_text(alloc, &message)?;
        ranked.push(Ranked { message, text })?;
    }
    Ok(ranked)
}

// The messages alone.
pub(crate) fn without_texts(alloc: Global, ranked: Vec<Ranked>) -> Result<Vec<Message>, Memory>
    ensures { IfOk result (λ messages. messages.items ≡ map (λ r. r.message) ranked.items) }
{
    let mut messages = Vec::with_capacity(alloc, ranked.len())?;
    for Ranked { message, text: _ } in ranked {
        messages.push(message)?;
    }
    Ok(messages)
}
