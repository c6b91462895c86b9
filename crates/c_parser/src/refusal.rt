// Why tokens are not read as a tree.
ghost use Rattle.std.specs.Prelude.{◌≡◌};

use mf_list::Memory;

/// Why tokens have no tree.
#[derive(Clone, Copy, Debug, PartialEq, Eq)]
pub enum ParseRefusal {
    /// The offset of the first token that can't come next, or the size of the text where its end can't.
    Syntax(usize),
    Memory,
}

impl From<Memory> for ParseRefusal {
    ghost use Rattle.c_parser.specs.declared.refusal.ParseRefusal.TheVariants.{Memory};

    ghost from_gives = { λ _ e. e ≡ Memory };

    fn from(_: Memory) -> ParseRefusal {
        ParseRefusal::Memory
    }
}
