// How a command ends, and what it read.
use file_list::Reading;
use lint_values::Bytes;

/// What became of the options file.
#[derive(Debug, Drop)]
pub enum OptionsRead {
    NotLooked,
    Absent,
    Failed,
    TooLarge,
    Source(Bytes),
}

/// All that a command read.
#[derive(Debug, Drop)]
pub struct Whole {
    pub options: OptionsRead,
    pub list: Reading,
}

/// How a command ended: it ran and has this exit status, memory ran out before anything was written, or a sink failed.
#[derive(Clone, Copy, Debug, PartialEq, Eq)]
pub enum Answer {
    Ran(u8),
    Memory,
    SinkFault,
}

/// How a command ended, and what it read.
#[derive(Debug, Drop)]
pub struct Outcome {
    pub answer: Answer,
    pub read: Whole,
}
