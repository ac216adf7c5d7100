// Where output goes.
ghost use Rattle.std.specs.Prelude.{◌≡◌, ℕ, ◌≤◌, List, Option, OnOk, OnErr};
ghost use Rattle.lint_outside.specs.Causes.{Rose};
ghost use Rattle.lint_outside.specs.Sinks.{Appends, AppendsPrefix};

use crate::SinkFault;

/// Where output goes.
pub trait Sink {
    /// What was written, where it tells that.
    ghost written: { Self → Option (List ℕ) };

    /// How often it has failed. The count never falls, and stands still at 2 ^ 64 - 1.
    ghost faults: { Self → ℕ };

    /// Writes the whole piece, or fails with a first part of it written.
    fn write(&mut self, bytes: &[u8]) -> Result<(), SinkFault>
        ensures later { faults self.old ≤ faults self.new }
        ensures ok { OnOk result (Appends (written self.old) (written self.new) bytes.now) }
        ensures cause { OnErr result (Rose (faults self.old) (faults self.new)) }
        ensures prefix { OnErr result (AppendsPrefix (written self.old) (written self.new) bytes.now) };
}
