// What is counted, and refused where a count passes its limit.
ghost use Rattle.std.specs.Prelude.{◌≡◌};

use mf_list::Memory;

/// What the analysis counts, each with a greatest number.
#[derive(Clone, Copy, Debug, PartialEq, Eq)]
pub enum Limit {
    Contexts,
    Nodes,
    Variables,
    Expressions,
    Sites,
    Frees,
    States,
    Clauses,
}

/// Why an answer about a program is not given: a count passes its limit, or want of memory.
#[derive(Clone, Copy, Debug, PartialEq, Eq)]
pub enum Refusal {
    Limit(Limit),
    Memory,
}

impl From<Memory> for Refusal {
    ghost use Rattle.c_tree.specs.declared.limits.Refusal.TheVariants.{Memory};

    ghost from_gives = { λ _ e. e ≡ Memory };

    fn from(_: Memory) -> Refusal {
        Refusal::Memory
    }
}
