//! Literals in 32 bits, as propagation keeps them.
use crate::Lit;

/// Variables above this share their codes with others.
const MAX_VAR: usize = 0x7fff_ffff;

/// A literal: twice its variable, and one more where it is positive.
#[derive(Clone, Copy, Debug, PartialEq, Eq)]
pub struct Code(u32);

impl Code {
    pub fn of(lit: Lit) -> Code {
        let var = (lit.var & MAX_VAR) as u32;
        Code(var.wrapping_mul(2) | u32::from(lit.yes))
    }

    pub fn lit(self) -> Lit {
        Lit {
            var: (self.0 >> 1) as usize,
            yes: self.0 & 1 == 1,
        }
    }

    pub fn from_word(word: u32) -> Code {
        Code(word)
    }

    pub fn word(self) -> u32 {
        self.0
    }

    /// The place of the literal in a list that has one element a literal.
    pub fn place(self) -> usize {
        self.0 as usize
    }
}
