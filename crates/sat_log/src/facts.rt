//! The variables whose bit is known.
ghost use Rattle.std.specs.Prelude.{◌≡◌, ◌≢◌, ◌<◌, ◌++◌, ◌∷◌, [], length, replicate, slice_set, None, Some, IsTrue, ◌↔◌, IfOk, OnOk, Contains};

use crate::Lit;
use mf_list::Memory;
use std::alloc::Global;

/// The bit of each variable that is known, and in their order the literals that became true since it was last forgotten.
#[derive(Debug, Drop)]
pub struct Facts {
    pub bits: Vec<Option<bool>>,
    pub trail: Vec<Lit>,
}

impl Facts {
    ghost use Rattle.sat_log.specs.Propagation.{IsKnown, IsOut};
    ghost use Rattle.sat_log.specs.declared.problem.Lit.{Lit};

    pub fn new(alloc: Global, vars: usize) -> Result<Facts, Memory>
        ensures { IfOk result (λ f. (f.bits.items ≡ replicate vars None) × (f.trail.items ≡ [])) }
    {
        Ok(Facts {
            bits: vec![in alloc; None; vars]?,
            trail: Vec::new(alloc),
        })
    }

    pub fn is_true(&self, lit: Lit) -> bool
        ensures { IsTrue result ↔ IsKnown self.now.bits.items lit }
    {
        match self.bits.get(lit.var) {
            Some(Some(bit)) => *bit == lit.yes,
            _ => false,
        }
    }

    pub fn is_false(&self, lit: Lit) -> bool
        ensures { IsTrue result ↔ IsOut self.now.bits.items lit }
    {
        match self.bits.get(lit.var) {
            Some(Some(bit)) => *bit != lit.yes,
            _ => false,
        }
    }

    /// Makes a literal true.
    pub fn learn(&mut self, lit: Lit) -> Result<(), Memory>
        ensures bits { OnOk result (self.new.bits.items ≡ slice_set self.old.bits.items lit.var (Some lit.yes)) }
        ensures trail { OnOk result (self.new.trail.items ≡ self.old.trail.items ++ lit ∷ []) }
    {
        if let Some(bit) = self.bits.get_mut(lit.var) {
            *bit = Some(lit.yes);
        }
        self.trail.push(lit)?;
        Ok(())
    }

    /// Forgets the literals of the trail.
    pub fn forget(&mut self)
        ensures bits { (l : Lit) → IsKnown self.new.bits.items l → IsKnown self.old.bits.items l × ¬ Contains self.old.trail.items l }
        ensures trail { self.new.trail.items ≡ [] }
        ensures length { length self.new.bits.items ≡ length self.old.bits.items }
    {
        while let Some(lit) = self.trail.pop() {
            if let Some(bit) = self.bits.get_mut(lit.var) {
                *bit = None;
            }
        }
    }
}
