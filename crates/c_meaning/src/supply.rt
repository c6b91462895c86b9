// A list that is taken from its front, as input and failures are.
ghost use Rattle.std.specs.Prelude.{◌≡◌, [], ◌∷◌, length, IfOk, IsTrue, ◌↔◌, MatchOption};

use std::alloc::{AllocError, Global};
use std::marker::Model;

/// A list that is taken from its front, seen as what is left of it. To take one costs the same
/// however many are left.
#[derive(Debug, Drop)]
pub struct Supply<T> {
    items: Vec<T>,
    taken: usize,
}

impl<T> Model for Supply<T> {
    ghost use Rattle.std.specs.Prelude.{List, drop};

    ghost Value = { List T };

    ghost view = { λ s. drop s.taken s.items.items };
}

impl<T: Copy> Supply<T> {
    pub fn from_slice(alloc: Global, items: &[T]) -> Result<Supply<T>, AllocError>
        ensures { IfOk result (λ s. s ≡ items.now) }
    {
        let items = Vec::from_slice(alloc, items)?;
        Ok(Supply { items, taken: 0 })
    }

    /// The next one, which is taken away.
    pub fn next(&mut self) -> Option<T>
        ensures { MatchOption result ((self.old ≡ []) × (self.new ≡ [])) (λ first. self.old ≡ first ∷ self.new) }
    {
        if self.taken >= self.items.len() {
            return None;
        }
        let first = self.items[self.taken];
        self.taken += 1;
        Some(first)
    }

    pub fn as_slice(&self) -> &[T]
        ensures { result.now ≡ self.now }
    {
        if self.taken >= self.items.len() {
            return &[];
        }
        &self.items[self.taken..]
    }
}
