// A sink in memory that fails at a chosen piece.
ghost use Rattle.std.specs.Prelude.{◌≡◌, ◌≢◌, ◌+◌, ◌≤◌, ◌↔◌, ◌++◌, length, IsOk, OnOk, OnErr, Some};
ghost use Rattle.lint_outside.specs.Causes.{Rose};
ghost use Rattle.lint_outside.specs.Counts.{one_more};
ghost use Rattle.lint_outside.specs.FirstPart.{first_part};
ghost use Rattle.lint_outside.specs.Sinks.{Appends, AppendsPrefix};

use crate::{MemSink, Sink, SinkFault};

/// Gives its pieces, counted from 1, to a sink in memory. Of its nth piece it gives only some bytes, and fails there.
#[derive(Debug, Drop)]
pub struct FailingSink {
    inner: MemSink,
    nth: u32,
    taken: u32,
    pieces: u64,
    faults: u64,
}

impl FailingSink {
    ghost use Rattle.lint_outside.specs.MemSink.{sink_bytes, sink_room};
    ghost use Rattle.lint_outside.specs.FailingSink.{failing_bytes, failing_room, failing_piece, failing_taken, pieces_made, failing_faults};

    /// A sink that fails at its `nth` piece and takes `taken` bytes of it, or all but the last byte of a shorter one.
    pub fn new(inner: MemSink, nth: u32, taken: u32) -> FailingSink
        ensures bytes { failing_bytes result ≡ sink_bytes inner }
        ensures room { failing_room result ≡ sink_room inner }
        ensures piece { failing_piece result ≡ nth }
        ensures taken { failing_taken result ≡ taken }
        ensures made { pieces_made result ≡ 0 }
        ensures faults { failing_faults result ≡ 0 }
    {
        FailingSink {
            inner,
            nth,
            taken,
            pieces: 0,
            faults: 0,
        }
    }

    /// What was written.
    pub fn bytes(&self) -> &[u8]
        ensures { result.now ≡ failing_bytes self.now }
    {
        self.inner.bytes()
    }
}

fn first_part(piece: &[u8], taken: u32) -> &[u8]
    ensures { result.now ≡ first_part taken piece.now }
{
    if piece.len() < taken as usize {
        &piece[..piece.len().saturating_sub(1)]
    } else {
        &piece[..taken as usize]
    }
}

impl Sink for FailingSink {
    ghost use Rattle.lint_outside.specs.MemSink.{taken_of};
    ghost use Rattle.lint_outside.specs.FailingSink.{failing_bytes, failing_room, failing_piece, pieces_made, failing_faults, given_of, CountsPiece};

    ghost written = { λ sink. Some (failing_bytes sink) };

    ghost faults = { failing_faults };

    fn write(&mut self, bytes: &[u8]) -> Result<(), SinkFault>
        ensures later { failing_faults self.old ≤ failing_faults self.new }
        ensures ok { OnOk result (Appends (Some (failing_bytes self.old)) (Some (failing_bytes self.new)) bytes.now) }
        ensures cause { OnErr result (Rose (failing_faults self.old) (failing_faults self.new)) }
        ensures prefix { OnErr result (AppendsPrefix (Some (failing_bytes self.old)) (Some (failing_bytes self.new)) bytes.now) }

        // It fails at the chosen piece, and else just where the sink within does.
        ensures fits { IsOk result ↔ ((one_more (pieces_made self.old) ≢ failing_piece self.old) × (length bytes.now ≤ failing_room self.old)) }
        ensures taken { failing_bytes self.new ≡ failing_bytes self.old ++ taken_of (failing_room self.old) (given_of self.old bytes.now) }
        ensures room { failing_room self.new + length (taken_of (failing_room self.old) (given_of self.old bytes.now)) ≡ failing_room self.old }
        ensures piece { CountsPiece self.old self.new }
        ensures same { OnOk result (failing_faults self.new ≡ failing_faults self.old) }
        ensures counted { OnErr result (failing_faults self.new ≡ one_more (failing_faults self.old)) }
    {
        self.pieces = self.pieces.saturating_add(1);
        let fails = self.pieces == u64::from(self.nth);
        let given = if fails {
            first_part(bytes, self.taken)
        } else {
            bytes
        };
        let written = self.inner.write(given);
        if fails || written.is_err() {
            self.faults = self.faults.saturating_add(1);
            return Err(SinkFault::Failed);
        }
        Ok(())
    }
}
