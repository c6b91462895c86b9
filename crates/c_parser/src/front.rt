// The symbols of a row, few enough to stand in a value of their own.
ghost use Rattle.std.specs.Prelude.{◌≡◌, [], ◌∷◌, ◌++◌, IfOk, OnOk, MatchOption};

use crate::symbol::Symbol;
use mf_list::Memory;
use smallvec::SmallVec;
use std::alloc::Global;
use std::marker::Model;

/// Symbols that contracts see as their list. Up to eight, as many as a row has, need no allocation.
#[derive(Debug, Drop)]
pub struct Front {
    symbols: SmallVec<Symbol, 8>,
}

impl Model for Front {
    ghost use Rattle.std.specs.Prelude.{List};
    ghost use Rattle.c_parser.specs.declared.symbol.Symbol.{Symbol};

    ghost Value = { List Symbol };

    ghost view = { λ f. f.symbols.items };
}

impl Front {
    pub fn from_slice(alloc: Global, symbols: &[Symbol]) -> Result<Front, Memory>
        ensures { IfOk result (λ front. front ≡ symbols.now) }
    {
        let symbols = SmallVec::from_slice(alloc, symbols)?;
        Ok(Front { symbols })
    }

    /// Puts more symbols behind.
    pub fn extend(&mut self, behind: &[Symbol]) -> Result<(), Memory>
        ensures { OnOk result (self.new ≡ self.old ++ behind.now) }
    {
        self.symbols.extend_from_slice(behind)
    }

    pub fn pop(&mut self) -> Option<Symbol>
        ensures { MatchOption result ((self.old ≡ []) × (self.new ≡ [])) (λ last. self.old ≡ self.new ++ last ∷ []) }
    {
        self.symbols.pop()
    }
}
