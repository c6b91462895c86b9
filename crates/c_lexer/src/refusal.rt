// Why a text has no tokens that can be used.
ghost use Rattle.std.specs.Prelude.{◌≡◌};

use mf_list::Memory;

/// Why a text has no tokens that can be used, each with the offset of its place.
#[derive(Clone, Copy, Debug, PartialEq, Eq)]
pub enum LexRefusal {
    BadByte(usize),
    OpenComment(usize),
    OpenText(usize),
    BadEscape(usize),
    WideNumber(usize),
    /// A row of the table of refused words and punctuators, and where its token starts.
    Construct(u16, usize),
    /// The first token at which the nest is above 256.
    Depth(usize),
    Memory,
}

impl From<Memory> for LexRefusal {
    ghost use Rattle.c_lexer.specs.declared.refusal.LexRefusal.TheVariants.{Memory};

    ghost from_gives = { λ _ e. e ≡ Memory };

    fn from(_: Memory) -> LexRefusal {
        LexRefusal::Memory
    }
}
