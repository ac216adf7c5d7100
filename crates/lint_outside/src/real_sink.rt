// A writer of the system as a sink.
ghost use Rattle.std.specs.Prelude.{◌≡◌, ◌≤◌, None, OnOk, OnErr};
ghost use Rattle.std.specs.Io.KnownBytes.{Appends as AppendsKnown};
ghost use Rattle.lint_outside.specs.Causes.{Rose};
ghost use Rattle.lint_outside.specs.Counts.{one_more};

use crate::{Sink, SinkFault};
use std::io;
use std::io::Write;

/// A writer of the system. It flushes behind each piece, counts its faults, and tells nothing of what was written.
#[derive(Drop)]
pub struct RealSink<W> {
    writer: W,
    faults: u64,
}

// `write_all` tries again where a signal interrupts a write, and fails where the writer takes nothing.
fn write_through<W: Write>(writer: &mut W, bytes: &[u8]) -> io::Result<()>
    ensures { OnOk result (AppendsKnown (W.contents writer.old) (W.contents writer.new) bytes.now) }
{
    writer.write_all(bytes)?;
    writer.flush()?;
    Ok(())
}

impl<W: Write + Drop> RealSink<W> {
    ghost use Rattle.lint_outside.specs.RealSink.{real_writer, writer_faults};

    /// A sink over a writer, with no fault counted.
    pub fn new(w: W) -> RealSink<W>
        ensures writer { real_writer result ≡ w }
        ensures faults { writer_faults result ≡ 0 }
    {
        RealSink {
            writer: w,
            faults: 0,
        }
    }
}

impl<W: Write + Drop> Sink for RealSink<W> {
    ghost use Rattle.lint_outside.specs.RealSink.{real_writer, writer_faults};

    ghost written = { λ _. None };

    ghost faults = { λ sink. writer_faults sink };

    fn write(&mut self, bytes: &[u8]) -> Result<(), SinkFault>
        ensures later { writer_faults self.old ≤ writer_faults self.new }
        ensures cause { OnErr result (Rose (writer_faults self.old) (writer_faults self.new)) }

        // Where the writer tells its bytes, the piece stands behind them.
        ensures passed_on { OnOk result (AppendsKnown (W.contents (real_writer self.old)) (W.contents (real_writer self.new)) bytes.now) }
        ensures same { OnOk result (writer_faults self.new ≡ writer_faults self.old) }
        ensures counted { OnErr result (writer_faults self.new ≡ one_more (writer_faults self.old)) }
    {
        if write_through(&mut self.writer, bytes).is_ok() {
            return Ok(());
        }
        self.faults = self.faults.saturating_add(1);
        Err(SinkFault::Failed)
    }
}
