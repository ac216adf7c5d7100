// A sink in memory, of a fixed room.
ghost use Rattle.std.specs.Prelude.{◌≡◌, ◌+◌, ◌≤◌, ◌↔◌, ◌++◌, [], length, IsOk, OnOk, OnErr, IfOk, Some, vec_len, vec_capacity};
ghost use Rattle.lint_outside.specs.Causes.{Rose};
ghost use Rattle.lint_outside.specs.Counts.{one_more};
ghost use Rattle.lint_outside.specs.Sinks.{Appends, AppendsPrefix};

use crate::{Sink, SinkFault};
use lint_values::Memory;
use std::alloc::Global;

/// A sink in memory. It fails at a piece that is longer than the room that is left, and takes nothing of it.
#[derive(Debug, Drop)]
pub struct MemSink {
    bytes: Vec<u8>,
    room: u32,
    faults: u64,
    ghost reserved: { vec_len bytes + room ≤ vec_capacity bytes },
}

impl MemSink {
    ghost use Rattle.lint_outside.specs.MemSink.{sink_bytes, sink_room, sink_faults};

    /// An empty sink for `room` bytes. It takes its memory here, and none later.
    pub fn new(alloc: Global, room: u32) -> Result<MemSink, Memory>
        ensures bytes { IfOk result (λ sink. sink_bytes sink ≡ []) }
        ensures room { IfOk result (λ sink. sink_room sink ≡ room) }
        ensures faults { IfOk result (λ sink. sink_faults sink ≡ 0) }
    {
        Ok(MemSink {
            bytes: Vec::with_capacity(alloc, room as usize)?,
            room,
            faults: 0,
        })
    }

    /// How many bytes it still takes.
    pub fn room(&self) -> u32
        ensures { result ≡ sink_room self.now }
    {
        self.room
    }

    /// What was written.
    pub fn bytes(&self) -> &[u8]
        ensures { result.now ≡ sink_bytes self.now }
    {
        self.bytes.as_slice()
    }
}

impl Sink for MemSink {
    ghost use Rattle.lint_outside.specs.MemSink.{sink_bytes, sink_room, sink_faults, taken_of};

    ghost written = { λ sink. Some (sink_bytes sink) };

    ghost faults = { sink_faults };

    fn write(&mut self, bytes: &[u8]) -> Result<(), SinkFault>
        ensures later { sink_faults self.old ≤ sink_faults self.new }
        ensures ok { OnOk result (Appends (Some (sink_bytes self.old)) (Some (sink_bytes self.new)) bytes.now) }
        ensures cause { OnErr result (Rose (sink_faults self.old) (sink_faults self.new)) }
        ensures prefix { OnErr result (AppendsPrefix (Some (sink_bytes self.old)) (Some (sink_bytes self.new)) bytes.now) }

        // It takes the whole piece, or fails and takes nothing.
        ensures fits { IsOk result ↔ (length bytes.now ≤ sink_room self.old) }
        ensures taken { sink_bytes self.new ≡ sink_bytes self.old ++ taken_of (sink_room self.old) bytes.now }
        ensures room { sink_room self.new + length (taken_of (sink_room self.old) bytes.now) ≡ sink_room self.old }
        ensures same { OnOk result (sink_faults self.new ≡ sink_faults self.old) }
        ensures counted { OnErr result (sink_faults self.new ≡ one_more (sink_faults self.old)) }
    {
        if bytes.len() <= self.room as usize && self.bytes.extend_from_slice(bytes).is_ok() {
            self.room -= bytes.len() as u32;
            return Ok(());
        }
        self.faults = self.faults.saturating_add(1);
        Err(SinkFault::Failed)
    }
}
