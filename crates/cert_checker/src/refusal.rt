// Why a check doesn't end well.
ghost use Rattle.std.specs.Prelude.{◌≡◌};

use mf_list::Memory;

/// Why a certificate doesn't show that a program is safe: the least node at which it isn't closed, and the number of the first
/// condition that is broken there; or want of memory.
#[derive(Clone, Copy, Debug, PartialEq, Eq)]
pub enum CheckRefusal {
    NotClosed(usize, u16),
    Memory,
}

impl From<Memory> for CheckRefusal {
    ghost use Rattle.cert_checker.specs.declared.refusal.CheckRefusal.TheVariants.{Memory};

    ghost from_gives = { λ _ e. e ≡ Memory };

    fn from(_: Memory) -> CheckRefusal {
        CheckRefusal::Memory
    }
}
