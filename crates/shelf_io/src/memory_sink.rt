//! A sink in memory, with room for so many bytes.

ghost use Rattle.std.specs.Prelude.{◌≡◌, ◌≤◌, [], true, IfOk, is_err, nat_lt, length};
ghost use Rattle.shelf_io.specs.Sinks.{room_left, after_put};

use crate::shelf::Failed;
use crate::sink::Sink;
use std::alloc::Global;
use std::marker::Model;
use ucd_points::Memory;

/// A sink in memory that tells what was written. It has room for so many bytes; a put that does not fit
/// appends what fits, and is a fault.
#[derive(Drop)]
pub struct MemorySink {
    bytes: Vec<u8>,
    room: usize,
    faults: u64,
}

impl Model for MemorySink {
    ghost use Rattle.std.specs.Prelude.{◌≤◌, vec_len, vec_capacity};
    ghost use Rattle.shelf_io.specs.Sinks.{SinkView};

    ghost Value = { SinkView };

    ghost view = { λ a. record { written = a.bytes.items; room = a.room; faults = a.faults } };

    ghost invariant = { λ a. (vec_len a.bytes ≤ a.room) × (a.room ≤ vec_capacity a.bytes) };
}

impl MemorySink {
    /// A sink with room for so many bytes, to which nothing was written.
    ///
    /// - `Memory`: memory ran out.
    pub fn new(alloc: Global, room: usize) -> Result<MemorySink, Memory>
        ensures { IfOk result (λ sink. sink ≡ record { written = []; room = room; faults = 0 }) }
    {
        Ok(MemorySink {
            bytes: Vec::with_capacity(alloc, room)?,
            room,
            faults: 0,
        })
    }

    /// What was written.
    pub fn written(&self) -> &[u8]
        ensures { result.now ≡ self.now.written }
    {
        self.bytes.as_slice()
    }
}

impl Sink for MemorySink {
    ghost tells = { true };

    ghost written = { λ sink. sink.written };

    ghost faults = { λ sink. sink.faults };

    fn put(&mut self, bytes: &[u8]) -> Result<(), Failed>
        ensures fails_exactly { is_err result ≡ nat_lt (room_left self.old) (length bytes.now) }
        ensures after { self.new ≡ after_put bytes.now self.old }
        ensures faults_never_fall { self.old.faults ≤ self.new.faults }
    {
        let left = self.room - self.bytes.len();
        let fitting = left.min(bytes.len());
        let Ok(()) = self.bytes.extend_from_slice(&bytes[..fitting]) else {
            unreachable!();
        };
        if fitting < bytes.len() {
            self.faults = self.faults.saturating_add(1);
            return Err(Failed);
        }
        Ok(())
    }
}
