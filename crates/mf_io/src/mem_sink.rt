// A sink in memory that fails at chosen calls, and where it is full.
ghost use Rattle.std.specs.Prelude.{◌≡◌, ◌≤◌, ◌-◌, ◌++◌, ◌⊎◌, ◌↔◌, [], length, take, min, Some, IfOk, OnOk, OnErr, IsErr, Contains, vec_len, vec_capacity};
ghost use Rattle.mf_io.specs.Faults.{next_count};

use crate::{Failed, Memory, Sink};
use std::alloc::Global;

/// A sink in memory. It fails at the calls whose numbers, from 1, stand in `failing`, and at a full room.
#[derive(Drop)]
pub struct MemSink {
    pub taken: Vec<u8>,
    /// The most bytes that it holds.
    pub room: usize,
    /// The most bytes of one call.
    pub most: usize,
    pub failing: Vec<u64>,
    /// How many calls there were. The count stands still at `u64::MAX`.
    pub calls: u64,
    pub faults: u64,
    ghost within: { vec_len taken ≤ room },
    ghost reserved: { room ≤ vec_capacity taken },
    ghost takes_some: { 1 ≤ most },
    ghost faults_fit: { faults ≤ 18446744073709551615 },
}

impl MemSink {
    /// Reserves the room.
    pub fn new(
        alloc: Global,
        room: usize,
        most: usize,
        failing: Vec<u64>,
    ) -> Result<MemSink, Memory>
        requires { 1 ≤ most }
        ensures taken { IfOk result (λ sink. sink.taken.items ≡ []) }
        ensures room { IfOk result (λ sink. sink.room ≡ room) }
        ensures most { IfOk result (λ sink. sink.most ≡ most) }
        ensures failing { IfOk result (λ sink. sink.failing.items ≡ failing.items) }
        ensures calls { IfOk result (λ sink. sink.calls ≡ 0) }
        ensures faults { IfOk result (λ sink. sink.faults ≡ 0) }
    {
        Ok(MemSink {
            taken: Vec::with_capacity(alloc, room)?,
            room,
            most,
            failing,
            calls: 0,
            faults: 0,
        })
    }

    /// The bytes taken so far.
    pub fn bytes(&self) -> &[u8]
        ensures { result.now ≡ self.now.taken.items }
    {
        self.taken.as_slice()
    }
}

impl Sink for MemSink {
    ghost taken = { λ sink. Some sink.taken.items };

    ghost faults = { λ sink. sink.faults };

    ghost faults_fit = { λ sink. sink.faults_fit };

    /// Each call counts, one with an empty piece too, and at a full room each fails.
    fn write(&mut self, piece: &[u8]) -> Result<usize, Failed>
        ensures calls { self.new.calls ≡ next_count self.old.calls }
        ensures failing { IsErr result
            ↔ (Contains self.old.failing.items self.new.calls ⊎ (vec_len self.old.taken ≡ self.old.room)) }

        ensures count { IfOk result (λ count. count
            ≡ min (length piece.now) (min self.old.most (self.old.room - vec_len self.old.taken))) }
        ensures takes { IfOk result (λ count. self.new.taken.items ≡ self.old.taken.items ++ take count piece.now) }
        ensures no_fault { OnOk result (self.new.faults ≡ self.old.faults) }

        ensures taken { OnErr result (self.new.taken.items ≡ self.old.taken.items) }
        ensures fault { OnErr result (self.new.faults ≡ next_count self.old.faults) }

        ensures same_room { self.new.room ≡ self.old.room }
        ensures same_most { self.new.most ≡ self.old.most }
        ensures same_failing { self.new.failing.items ≡ self.old.failing.items }
    {
        self.calls = self.calls.saturating_add(1);
        let free = self.room - self.taken.len();
        if free == 0 || self.failing.contains(&self.calls) {
            self.faults = self.faults.saturating_add(1);
            return Err(Failed);
        }
        let count = piece.len().min(self.most.min(free));
        self.taken.extend_from_slice(&piece[..count]).unwrap();
        Ok(count)
    }
}
