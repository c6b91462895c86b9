//! Why a text is refused.

use c_lexer::LexRefusal;
use c_parser::ParseRefusal;
use c_tree::Limit;
use c_types::TypeRefusal;
use std::alloc::AllocError;
use thiserror::Error;

/// Why no program is read from a text. What the variants hold is never `Memory`.
#[derive(Clone, Copy, Debug, PartialEq, Eq, Error)]
pub enum SourceRefusal {
    #[error("not read as tokens")]
    Lex(LexRefusal),
    #[error("not in the grammar")]
    Parse(ParseRefusal),
    #[error("against the rules of names and types")]
    Resolve(TypeRefusal),
    #[error("out of memory")]
    Memory,
}

/// Why a text is not repaired. What `Source` holds is never `Memory`.
#[derive(Clone, Copy, Debug, PartialEq, Eq, Error)]
pub enum RepairRefusal {
    #[error("too long")]
    TooLong,
    #[error("{0}")]
    Source(SourceRefusal),
    /// A count passes its limit.
    #[error("a limit is passed")]
    Limit(Limit),
    /// The object of the `malloc` at the first offset can't be freed on the way to the `return` or the closing brace at the second.
    #[error("no free fits the object of byte {0} on the way to byte {1}")]
    Alone(usize, usize),
    /// Each object by itself could be freed, but no choice frees all.
    #[error("no choice of frees fits")]
    Together,
    #[error("out of memory")]
    Memory,
}

/// Why a text is not replayed. What `Source` holds is not `Memory`.
#[derive(Clone, Copy, Debug, PartialEq, Eq, Error)]
pub enum ReplayRefusal {
    #[error("too long")]
    TooLong,
    #[error("{0}")]
    Source(SourceRefusal),
    #[error("out of memory")]
    Memory,
}

impl From<AllocError> for SourceRefusal {
    ghost use Rattle.std.specs.Prelude.{◌≡◌};
    ghost use Rattle.memfix_engine.specs.declared.refusal.SourceRefusal.TheVariants.{Memory};

    ghost from_gives = { λ _ refusal. refusal ≡ Memory };

    fn from(_: AllocError) -> SourceRefusal {
        SourceRefusal::Memory
    }
}

impl From<AllocError> for RepairRefusal {
    ghost use Rattle.std.specs.Prelude.{◌≡◌};
    ghost use Rattle.memfix_engine.specs.declared.refusal.RepairRefusal.TheVariants.{Memory};

    ghost from_gives = { λ _ refusal. refusal ≡ Memory };

    fn from(_: AllocError) -> RepairRefusal {
        RepairRefusal::Memory
    }
}

impl From<AllocError> for ReplayRefusal {
    ghost use Rattle.std.specs.Prelude.{◌≡◌};
    ghost use Rattle.memfix_engine.specs.declared.refusal.ReplayRefusal.TheVariants.{Memory};

    ghost from_gives = { λ _ refusal. refusal ≡ Memory };

    fn from(_: AllocError) -> ReplayRefusal {
        ReplayRefusal::Memory
    }
}
