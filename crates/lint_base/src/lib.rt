//! What every layer of the linter stands on, under one name: values, messages and the outside.
#![tactic(auto)]

pub use lint_messages::{ALL_CODES, Code, Message, Messages, Selection, message_text};
pub use lint_outside::{
    Calls, Content, FailingFiles, FailingSink, Files, FilesFault, Gate, Kind, Listing, MemFiles,
    MemSink, OpenGate, Question, RealFiles, RealSink, Sink, SinkFault,
};
pub use lint_values::{Bytes, FileId, Memory, NodeId, NodeRef, Pos, Text, Texts};
