//! Literals in 32 bits, as the search keeps them.

use sat_log::Lit;

/// A literal: twice its variable, and one more where it is positive.
#[derive(Clone, Copy, Debug, PartialEq, Eq)]
pub struct Code(u32);

/// Problems with more variables than this have literals without a code.
pub const MAX_VARS: usize = 0x7fff_ffff;

impl Code {
    pub fn new(var: u32, yes: bool) -> Code {
        Code(var.wrapping_mul(2) | u32::from(yes))
    }

    pub fn of(lit: Lit) -> Code {
        Code::new((lit.var & MAX_VARS) as u32, lit.yes)
    }

    pub fn lit(self) -> Lit {
        Lit {
            var: self.var(),
            yes: self.is_positive(),
        }
    }

    pub fn var(self) -> usize {
        (self.0 >> 1) as usize
    }

    pub fn is_positive(self) -> bool {
        self.0 & 1 == 1
    }

    pub fn opposite(self) -> Code {
        Code(self.0 ^ 1)
    }

    /// The literal as a word of a clause's memory.
    pub fn word(self) -> u32 {
        self.0
    }

    pub fn from_word(word: u32) -> Code {
        Code(word)
    }

    /// The place of the literal in a list that has one element a literal.
    pub fn index(self) -> usize {
        self.0 as usize
    }
}
