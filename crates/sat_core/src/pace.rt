//! When the search starts over, and when it drops learned clauses.

/// The search starts over once the learned clauses of late have more levels than those before by this factor, but not
/// before it has gone on for so many conflicts.
const WORSE: f64 = 1.25;

const SHORTEST_RUN: u64 = 50;

/// Over how many learned clauses the two averages go.
const LATE: u32 = 32;

const LONG: u32 = 4_096;

/// After how many conflicts learned clauses are dropped first, and how many more each later time takes.
const FIRST_DROP: u64 = 1_000;

const LATER_DROP: u64 = 300;

/// The mean of the first numbers, and from `span` numbers on an average in which older ones fade.
#[derive(Clone, Copy, Debug)]
struct Average {
    value: f64,
    seen: u32,
    span: u32,
}

impl Average {
    fn new(span: u32) -> Average {
        Average {
            value: 0.0,
            seen: 0,
            span,
        }
    }

    fn add(&mut self, number: u32) {
        self.seen = self.seen.saturating_add(1).min(self.span);
        self.value = self.value + (f64::from(number) - self.value) / f64::from(self.seen);
    }
}

#[derive(Clone, Copy, Debug)]
pub struct Pace {
    conflicts: u64,
    started_at: u64,
    late: Average,
    long: Average,
    drop_at: u64,
    drop_after: u64,
}

impl Pace {
    pub fn new() -> Pace {
        Pace {
            conflicts: 0,
            started_at: 0,
            late: Average::new(LATE),
            long: Average::new(LONG),
            drop_at: FIRST_DROP,
            drop_after: FIRST_DROP,
        }
    }

    /// Counts a conflict, of which a clause with so many levels was learned.
    pub fn count_conflict(&mut self, levels: u32) {
        self.conflicts = self.conflicts.wrapping_add(1);
        self.late.add(levels);
        self.long.add(levels);
    }

    pub fn is_restart_due(&self) -> bool {
        self.conflicts.wrapping_sub(self.started_at) >= SHORTEST_RUN
            && self.late.value > self.long.value * WORSE
    }

    pub fn count_restart(&mut self) {
        self.started_at = self.conflicts;
    }

    pub fn is_drop_due(&self) -> bool {
        self.conflicts >= self.drop_at
    }

    pub fn count_drop(&mut self) {
        self.drop_after = self.drop_after.wrapping_add(LATER_DROP);
        self.drop_at = self.conflicts.wrapping_add(self.drop_after);
    }
}
