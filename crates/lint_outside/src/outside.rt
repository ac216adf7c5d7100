// What the outside is asked, and what it answers.
ghost use Rattle.std.specs.Prelude.{◌≡◌};
ghost use Rattle.lint_outside.specs.declared.outside.FilesFault.TheVariants.{Memory};

use lint_values::{Bytes, Memory as OutOfMemory, Text, Texts};
use thiserror::Error;

/// What stands at a path. What is neither a file nor a folder is missing.
#[derive(Clone, Copy, Debug, PartialEq, Eq)]
pub enum Kind {
    File,
    Folder,
    Missing,
}

/// What a read gives: the file's bytes, or that they are more than was asked for.
#[derive(Debug, Drop)]
pub enum Content {
    Whole(Bytes),
    TooLarge,
}

/// What a listing gives: the names in a folder in the device's own order, or that they are more than was asked for.
#[derive(Debug, Drop)]
pub enum Listing {
    Names(Texts),
    TooMany,
}

/// A question to a device of files, about a path.
#[derive(Debug, Drop)]
pub enum Question {
    Look(Text),
    Names(Text),
    Read(Text),
}

#[derive(Clone, Copy, Debug, PartialEq, Eq, Error)]
pub enum FilesFault {
    #[error("the files failed")]
    Failed,
    #[error("out of memory")]
    Memory,
}

impl From<OutOfMemory> for FilesFault {
    ghost from_gives = { λ _ e. e ≡ Memory };

    fn from(_: OutOfMemory) -> Self {
        FilesFault::Memory
    }
}

#[derive(Clone, Copy, Debug, PartialEq, Eq, Error)]
pub enum SinkFault {
    #[error("the sink failed")]
    Failed,
}
