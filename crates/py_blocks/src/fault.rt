// Faults against the rules of blocks.
ghost use Rattle.std.specs.Prelude.{◌≡◌};

use lint_values::Memory;

/// Why a line stands against the rules of blocks. At one line the earlier cause counts.
#[derive(Clone, Copy, Debug, PartialEq, Eq)]
pub enum BlockCause {
    /// A line that is deeper than the line before, which opens no block.
    Unexpected,
    /// A header without its block, or a line in the block of a `match` that is no `case`.
    NeedsBlock,
    /// A clause without its opener, or what must be followed by something else: a lone `try`, a decorator.
    Follows,
}

/// A fault: the number of its line among the lines, from 0, and its cause.
#[derive(Clone, Copy, Debug, PartialEq, Eq)]
pub struct BlockFault {
    pub place: usize,
    pub cause: BlockCause,
}

/// Why rows make no tree.
#[derive(Clone, Copy, Debug, PartialEq, Eq)]
pub enum BlockError {
    /// The line of the first row that stands against a rule of blocks, and its first cause.
    At { line: u32, cause: BlockCause },
    /// Memory ran out.
    Memory,
}

impl From<Memory> for BlockError {
    ghost use Rattle.py_blocks.specs.declared.fault.BlockError.TheVariants as variant;

    ghost from_gives = { λ _ fault. fault ≡ variant.Memory };

    fn from(_: Memory) -> Self {
        BlockError::Memory
    }
}
