//! The outside: devices of files, sinks for output and gates, by traits, in memory and in earnest.
#![tactic(auto)]

mod calls;
mod failing_files;
mod failing_sink;
mod files;
mod gate;
mod mem_files;
mod mem_sink;
mod outside;
mod real_files;
mod real_sink;
mod sink;

pub use calls::Calls;
pub use failing_files::FailingFiles;
pub use failing_sink::FailingSink;
pub use files::Files;
pub use gate::{Gate, OpenGate};
pub use mem_files::MemFiles;
pub use mem_sink::MemSink;
pub use outside::{Content, FilesFault, Kind, Listing, Question, SinkFault};
pub use real_files::RealFiles;
pub use real_sink::RealSink;
pub use sink::Sink;
