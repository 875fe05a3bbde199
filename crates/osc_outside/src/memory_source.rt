// A source in memory, of which chosen calls fail.
ghost use Rattle.std.specs.Prelude.{◌≡◌, ◌↔◌, ◌<◌, ◌++◌, [], length, take, drop, Some, IfOk, OnErr, IsErr};
ghost use Rattle.osc_outside.specs.Faults.{HasCause};
ghost use Rattle.osc_outside.specs.Calls.{ReadsAtMost, ReadConsumes};
ghost use Rattle.osc_outside.specs.Memory.{ReadFails, read_count, after_read, after_failed_read};

use super::outside::{Failed, Source};
use std::marker::Model;

/// A source over bytes in memory.
#[derive(Drop)]
pub struct MemorySource {
    bytes: Vec<u8>,
    given: usize,
    most: u32,
    failing: Vec<u64>,
    calls: u64,
    faults: u64,
}

impl Model for MemorySource {
    ghost use Rattle.std.specs.Prelude.{◌<◌, ◌≤◌, drop, vec_len};
    ghost use Rattle.osc_outside.specs.Memory.{MemoryInput};

    ghost Value = { MemoryInput };

    ghost view = { λ source. record {
      left = drop source.given source.bytes.items;
      most = source.most;
      failing = source.failing.items;
      calls = source.calls;
      faults = source.faults;
    } };

    ghost invariant = { λ source. (source.given ≤ vec_len source.bytes) × (0 < source.most) };
}

impl MemorySource {
    /// A source of the bytes, which gives at most `most` bytes a call. The calls whose numbers are
    /// in `failing` fail; they are numbered from 1.
    pub fn new(bytes: Vec<u8>, most: u32, failing: Vec<u64>) -> MemorySource
        requires { 0 < most }
        ensures { result ≡
            record { left = bytes.items; most = most; failing = failing.items; calls = 0; faults = 0 } }
    {
        MemorySource {
            bytes,
            given: 0,
            most,
            failing,
            calls: 0,
            faults: 0,
        }
    }
}

impl Source for MemorySource {
    ghost left = { λ source. Some source.left };

    ghost faults = { λ source. source.faults };

    /// Gives as many bytes as the least of `most`, the buffer's length and what is left. The
    /// buffer's other bytes stay.
    fn read(&mut self, into: &mut [u8]) -> Result<usize, Failed>
        ensures bound { ReadsAtMost result into.new }
        ensures bytes { ReadConsumes (Some self.old.left) (Some self.new.left) result into.new }
        ensures cause { HasCause self.old.faults self.new.faults result }

        ensures fails { IsErr result ↔ ReadFails self.old }
        ensures count { IfOk result (λ count. count ≡ read_count self.old (length into.old)) }
        ensures given { IfOk result (λ count. into.new ≡ take count self.old.left ++ drop count into.old) }
        ensures after { IfOk result (λ count. self.new ≡ after_read self.old count) }
        ensures failed { OnErr result (self.new ≡ after_failed_read self.old) }
        ensures failed_gives_none { OnErr result (into.new ≡ into.old) }
        ensures quiet { self.old.failing ≡ [] → self.new.faults ≡ self.old.faults }
    {
        self.calls = self.calls.saturating_add(1);
        if self.failing.contains(&self.calls) {
            self.faults = self.faults.saturating_add(1);
            return Err(Failed);
        }
        let left = &self.bytes[self.given..];
        let count = into.len().min(left.len()).min(self.most as usize);
        into[..count].copy_from_slice(&left[..count]);
        self.given += count;
        Ok(count)
    }
}
