// A sink in memory, of which chosen calls fail.
ghost use Rattle.std.specs.Prelude.{◌≡◌, ◌⊎◌, ◌↔◌, ◌<◌, [], length, take, Some, IfOk, OnErr, IsErr};
ghost use Rattle.osc_outside.specs.Faults.{HasCause};
ghost use Rattle.osc_outside.specs.Calls.{WritesAtMost, TakesSome, WriteAppends};
ghost use Rattle.osc_outside.specs.Memory.{WriteFails, write_count, after_write, after_failed_write};

use super::outside::{Failed, Sink};
use std::alloc::{AllocError, Global};
use std::marker::Model;

/// A sink in memory, with room for a chosen number of bytes.
#[derive(Drop)]
pub struct MemorySink {
    bytes: Vec<u8>,
    room: u32,
    most: u32,
    failing: Vec<u64>,
    calls: u64,
    faults: u64,
}

impl Model for MemorySink {
    ghost use Rattle.std.specs.Prelude.{◌<◌, ◌≤◌, vec_len, vec_capacity};
    ghost use Rattle.osc_outside.specs.Memory.{MemoryOutput};

    ghost Value = { MemoryOutput };

    ghost view = { λ sink. record {
      holds = sink.bytes.items;
      room = sink.room;
      most = sink.most;
      failing = sink.failing.items;
      calls = sink.calls;
      faults = sink.faults;
    } };

    ghost invariant = { λ sink. (vec_len sink.bytes ≤ sink.room)
        × (sink.room ≤ vec_capacity sink.bytes) × (0 < sink.most) };
}

impl MemorySink {
    /// An empty sink with room for `room` bytes, which takes at most `most` bytes a call. The calls
    /// whose numbers are in `failing` fail; they are numbered from 1. The room is taken here, so
    /// that no write takes memory.
    pub fn new(
        alloc: Global,
        room: u32,
        most: u32,
        failing: Vec<u64>,
    ) -> Result<MemorySink, AllocError>
        requires { 0 < most }
        ensures { IfOk result (λ sink. sink ≡
            record { holds = []; room = room; most = most; failing = failing.items; calls = 0; faults = 0 }) }
    {
        Ok(MemorySink {
            bytes: Vec::with_capacity(alloc, room as usize)?,
            room,
            most,
            failing,
            calls: 0,
            faults: 0,
        })
    }

    /// What the sink holds.
    pub fn bytes(&self) -> &[u8]
        ensures { result.now ≡ self.now.holds }
    {
        self.bytes.as_slice()
    }
}

impl Sink for MemorySink {
    ghost holds = { λ sink. Some sink.holds };

    ghost faults = { λ sink. sink.faults };

    /// Takes as many bytes as the least of `most`, the piece's length and the room left. A piece
    /// that is not empty fails where no room is left.
    fn write(&mut self, piece: &[u8]) -> Result<usize, Failed>
        ensures bound { WritesAtMost result piece.now }
        ensures some { TakesSome result piece.now }
        ensures bytes { WriteAppends (Some self.old.holds) (Some self.new.holds) result piece.now }
        ensures cause { HasCause self.old.faults self.new.faults result }

        ensures fails { IsErr result ↔ WriteFails self.old piece.now }
        ensures count { IfOk result (λ count. count ≡ write_count self.old (length piece.now)) }
        ensures after { IfOk result (λ count. self.new ≡ after_write self.old (take count piece.now)) }
        ensures failed { OnErr result (self.new ≡ after_failed_write self.old) }
        ensures quiet { self.old.failing ≡ [] → (length piece.now ≡ 0) ⊎ (length self.old.holds < self.old.room)
            → self.new.faults ≡ self.old.faults }
    {
        self.calls = self.calls.saturating_add(1);
        let left = self.room as usize - self.bytes.len();
        let is_full = left == 0 && !piece.is_empty();
        if is_full || self.failing.contains(&self.calls) {
            self.faults = self.faults.saturating_add(1);
            return Err(Failed);
        }
        let count = piece.len().min(left).min(self.most as usize);
        self.bytes.extend_from_slice(&piece[..count]).unwrap();
        Ok(count)
    }
}
