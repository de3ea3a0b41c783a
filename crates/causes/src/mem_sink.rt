ghost use Rattle.causes.specs.Faults.{Rose, next_count};
ghost use Rattle.std.specs.Io.KnownBytes.{WriteAppends};
ghost use Rattle.std.specs.Prelude.{◌≡◌, ◌-◌, ◌<◌, ◌≤◌, ◌↔◌, ◌⊎◌, min, [], length, Contains, IfOk, IsErr, OnErr, OnOk, Some};

use crate::error::Failed;
use crate::failing_calls::FailingCalls;
use crate::sink::Sink;
use cell_core::Memory;
use std::alloc::Global;
use std::marker::Model;

/// A sink in memory that fails at chosen calls, and where it is full.
///
/// The calls of `write` are numbered from 1. A call takes at most `per_call` bytes, and all calls
/// together at most `room`. Only making it takes memory.
#[derive(Drop)]
pub struct MemSink {
    held: Vec<u8>,
    per_call: usize,
    room: usize,
    calls: FailingCalls,
}

impl Model for MemSink {
    ghost use Rattle.causes.specs.InMemory.{FailingStore};
    ghost use Rattle.std.specs.Prelude.{◌≤◌, length, vec_capacity};

    ghost Value = { FailingStore };

    ghost view = { λ s. record {
      contents = s.held.items;
      per_call = s.per_call;
      room = s.room;
      failing = s.calls.listed.items;
      calls = s.calls.calls;
      faults = s.calls.faults;
    } };

    ghost invariant = { λ s.
        (1 ≤ s.per_call) × (length s.held.items ≤ s.room) × (s.room ≤ vec_capacity s.held) };
}

impl MemSink {
    /// An empty sink, with `room` bytes reserved, which fails at the calls with these numbers.
    pub fn new(
        alloc: Global,
        per_call: usize,
        room: usize,
        failing: Vec<u64>,
    ) -> Result<MemSink, Memory>
        requires { 1 ≤ per_call }
        ensures { IfOk result (λ sink. sink ≡ record {
          contents = [];
          per_call = per_call;
          room = room;
          failing = failing.items;
          calls = 0;
          faults = 0;
        }) }
    {
        Ok(MemSink {
            held: Vec::with_capacity(alloc, room)?,
            per_call,
            room,
            calls: FailingCalls::new(failing),
        })
    }

    /// How many calls of `write` there were, which is the number of the last one, as the failing
    /// calls are numbered; 2^64 - 1 stands for that many or more.
    pub fn calls(&self) -> u64
        ensures { result ≡ self.now.calls }
    {
        self.calls.calls
    }

    /// The bytes that the sink holds.
    pub fn held(&self) -> &[u8]
        ensures { result.now ≡ self.now.contents }
    {
        &self.held
    }
}

impl Sink for MemSink {
    ghost contents = { λ s. Some s.contents };

    ghost faults = { λ s. s.faults };

    fn write(&mut self, piece: &[u8]) -> Result<usize, Failed>
        requires { 0 < length piece.now }
        ensures some { IfOk result (λ count. 1 ≤ count) }
        ensures bound { IfOk result (λ count. count ≤ length piece.now) }
        ensures bytes { WriteAppends (Some self.old.contents) (Some self.new.contents) result piece.now }
        ensures later { self.old.faults ≤ self.new.faults }
        ensures failed { OnErr result (Rose self.old.faults self.new.faults) }

        ensures numbered { self.new.calls ≡ next_count self.old.calls }
        ensures exactly { IsErr result ↔ (Contains self.old.failing self.new.calls
            ⊎ (length self.old.contents ≡ self.old.room)) }
        ensures uncounted { OnOk result (self.new.faults ≡ self.old.faults) }
        ensures count { let free = self.old.room - length self.old.contents in
            IfOk result (λ count. count ≡ min (length piece.now) (min self.old.per_call free)) }
        ensures failing { self.new.failing ≡ self.old.failing }
        ensures per_call { self.new.per_call ≡ self.old.per_call }
        ensures room { self.new.room ≡ self.old.room }
    {
        let free = self.room - self.held.len();
        if self.calls.begins_failing() || free == 0 {
            self.calls.fail();
            return Err(Failed);
        }
        let count = piece.len().min(self.per_call.min(free));
        self.held.extend_from_slice(&piece[..count]).unwrap();
        Ok(count)
    }

    fn faults(&self) -> u64 {
        self.calls.faults
    }
}
