// Faults of usage: of the words, and of the options file.
ghost use Rattle.std.specs.Prelude.{◌≡◌};
ghost use Rattle.options.specs.declared.usage.UsageFault.TheVariants.{Memory};

use lint_values::{Memory as OutOfMemory, Text};

/// What is wrong with the words or the options file. A text is the word, its value, the key or the path.
#[derive(Debug, Drop)]
pub enum UsageFault {
    UnknownOption(Text),
    NeedsValue(Text),
    BadValue(Text),
    NoFile,
    BadToml(Text),
    NoRcFile(Text),
    TooLarge(Text),
    ReadFault(Text),
    Memory,
}

impl UsageFault {
    ghost use Rattle.options.specs.Usage.{is_memory};

    /// Whether it says that memory ran out, and nothing of the words.
    pub fn is_memory(&self) -> bool
        ensures { result ≡ is_memory self.now }
    {
        matches!(self, UsageFault::Memory)
    }
}

impl From<OutOfMemory> for UsageFault {
    ghost from_gives = { λ _ e. e ≡ Memory };

    fn from(_: OutOfMemory) -> Self {
        UsageFault::Memory
    }
}
