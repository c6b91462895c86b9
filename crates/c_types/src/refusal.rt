// Why a tree is no program.
ghost use Rattle.std.specs.Prelude.{◌≡◌};

use mf_list::Memory;

/// Why a tree is no program. The numbers are offsets in the text; `Wrong` has its rule's number
/// before the offset.
#[derive(Clone, Copy, Debug, PartialEq, Eq)]
pub enum TypeRefusal {
    Unknown(usize),
    Twice(usize),
    Hidden(usize),
    Wrong(u16, usize),
    Recursion(usize),
    NoMain,
    NoValue(usize),
    Jump(usize),
    Memory,
}

impl From<Memory> for TypeRefusal {
    ghost use Rattle.c_types.specs.declared.refusal.TypeRefusal.TheVariants.{Memory};

    ghost from_gives = { λ _ e. e ≡ Memory };

    fn from(_: Memory) -> TypeRefusal {
        TypeRefusal::Memory
    }
}
