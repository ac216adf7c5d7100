// Lists of messages.
ghost use Rattle.std.specs.Prelude.{◌≡◌, ◌++◌, [], ◌∷◌, IfOk, OnOk, OnErr};
ghost use Rattle.std.specs.List.Sorted.{IsPermutation, IsSorted};
ghost use Rattle.lint_messages.specs.Order.{message_cmp, in_order};

use crate::Message;
use crate::order::{with_texts, without_texts};
use lint_values::Memory;
use std::alloc::Global;
use std::marker::Model;

/// A list of messages.
#[derive(Debug, Drop)]
pub struct Messages {
    messages: Vec<Message>,
}

impl Model for Messages {
    ghost use Rattle.std.specs.Prelude.{List};
    ghost use Rattle.lint_messages.specs.declared.message.Message.{Message};

    ghost Value = { List Message };

    ghost view = { λ m. m.messages.items };
}

impl Messages {
    pub fn new(alloc: Global) -> Messages
        ensures { result ≡ [] }
    {
        Messages {
            messages: Vec::new(alloc),
        }
    }

    /// Takes messages over, with their memory.
    pub fn from_vec(messages: Vec<Message>) -> Messages
        ensures { result ≡ messages.items }
    {
        Messages { messages }
    }

    /// The messages themselves, with their memory.
    pub fn into_vec(self) -> Vec<Message>
        ensures { result.items ≡ self }
    {
        let Messages { messages } = self;
        messages
    }

    /// Adds a message behind the others. A refusal gives the message up.
    pub fn push(&mut self, message: Message) -> Result<(), Memory>
        ensures ok { OnOk result (self.new ≡ self.old ++ message ∷ []) }
        ensures err { OnErr result (self.new ≡ self.old) }
    {
        self.messages.push(message)?;
        Ok(())
    }

    /// Adds other messages behind these. A refusal gives the others up.
    pub fn append(&mut self, mut others: Messages) -> Result<(), Memory>
        ensures ok { OnOk result (self.new ≡ self.old ++ others) }
        ensures err { OnErr result (self.new ≡ self.old) }
    {
        self.messages.append(&mut others.messages)?;
        Ok(())
    }

    /// The messages in their order: by file, line, column, code and text, then by node, none first, and last by
    /// arguments. Each text is made once.
    #[tactic(auto, using(crate::proofs::MessageOrder::moved_messages))]
    pub fn into_order(self, alloc: Global) -> Result<Messages, Memory>
        ensures value { IfOk result (λ ordered. ordered ≡ in_order self) }
        ensures permutation { IfOk result (IsPermutation self) }
        ensures sorted { IfOk result (IsSorted message_cmp) }
    {
        let Messages { messages } = self;
        let mut ranked = with_texts(alloc, messages)?;
        ranked.sort_unstable();
        let messages = without_texts(alloc, ranked)?;
        Ok(Messages { messages })
    }

    pub fn as_slice(&self) -> &[Message]
        ensures { result.now ≡ self.now }
    {
        self.messages.as_slice()
    }
}
