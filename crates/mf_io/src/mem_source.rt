// A source in memory that fails at chosen calls.
ghost use Rattle.std.specs.Prelude.{◌≡◌, ◌≤◌, ◌++◌, ◌↔◌, length, take, min, Some, IfOk, OnOk, OnErr, IsErr, Contains};
ghost use Rattle.mf_io.specs.Faults.{next_count};

use crate::{Failed, Source, Unread};

/// A source in memory. It fails at the calls whose numbers, from 1, stand in `failing`.
#[derive(Drop)]
pub struct MemSource {
    pub left: Unread,
    /// The most bytes of one call.
    pub most: usize,
    pub failing: Vec<u64>,
    /// How many calls there were. The count stands still at `u64::MAX`.
    pub calls: u64,
    pub faults: u64,
    ghost gives_some: { 1 ≤ most },
    ghost faults_fit: { faults ≤ 18446744073709551615 },
}

impl MemSource {
    pub fn new(bytes: Vec<u8>, most: usize, failing: Vec<u64>) -> MemSource
        requires { 1 ≤ most }
        ensures left { result.left ≡ bytes.items }
        ensures most { result.most ≡ most }
        ensures failing { result.failing.items ≡ failing.items }
        ensures calls { result.calls ≡ 0 }
        ensures faults { result.faults ≡ 0 }
    {
        MemSource {
            left: Unread::new(bytes),
            most,
            failing,
            calls: 0,
            faults: 0,
        }
    }

    /// The bytes not yet given.
    pub fn left(&self) -> &[u8]
        ensures { result.now ≡ self.now.left }
    {
        self.left.as_slice()
    }
}

impl Source for MemSource {
    ghost left = { λ source. Some source.left };

    ghost faults = { λ source. source.faults };

    ghost faults_fit = { λ source. source.faults_fit };

    /// Each call counts, one with no room too.
    fn read(&mut self, room: &mut [u8]) -> Result<usize, Failed>
        ensures calls { self.new.calls ≡ next_count self.old.calls }
        ensures failing { IsErr result ↔ Contains self.old.failing.items self.new.calls }

        ensures count { IfOk result (λ count. count ≡ min (length room.new) (min self.old.most (length self.old.left))) }
        ensures gives { IfOk result (λ count. self.old.left ≡ take count room.new ++ self.new.left) }
        ensures no_fault { OnOk result (self.new.faults ≡ self.old.faults) }

        ensures left { OnErr result (self.new.left ≡ self.old.left) }
        ensures fault { OnErr result (self.new.faults ≡ next_count self.old.faults) }

        ensures same_most { self.new.most ≡ self.old.most }
        ensures same_failing { self.new.failing.items ≡ self.old.failing.items }
    {
        self.calls = self.calls.saturating_add(1);
        if self.failing.contains(&self.calls) {
            self.faults = self.faults.saturating_add(1);
            return Err(Failed);
        }
        Ok(self.left.give(room, self.most))
    }
}
