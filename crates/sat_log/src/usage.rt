//! Which clauses were of use lately.
use crate::Lit;
use crate::claim::Claim;
use mf_list::Memory;
use std::alloc::Global;

/// How many claims ago a clause may have been used last to count as recent.
const WINDOW: usize = 4_000;

/// The claims are counted from 1. For each clause there is the claim that used it last, and for each variable
/// the last claim in which it followed, with the clause that it followed from, and the last one in which it was of use.
#[derive(Debug, Drop)]
pub struct Usage {
    claim: usize,
    last: Vec<usize>,
    reasons: Vec<(usize, usize)>,
    seen: Vec<usize>,
    alloc: Global,
}

impl Usage {
    pub fn new(alloc: Global, vars: usize) -> Result<Usage, Memory> {
        Ok(Usage {
            claim: 1,
            last: Vec::new(alloc),
            reasons: vec![in alloc; (0, 0); vars]?,
            seen: vec![in alloc; 0; vars]?,
            alloc,
        })
    }

    pub fn claim(&self) -> usize {
        self.claim
    }

    pub fn next_claim(&mut self) {
        self.claim = self.claim.wrapping_add(1);
    }

    pub fn add_clause(&mut self) -> Result<(), Memory> {
        self.last.push(self.claim)?;
        Ok(())
    }

    pub fn is_recent(&self, clause: usize) -> bool {
        match self.last.get(clause) {
            Some(last) => self.claim.wrapping_sub(*last) <= WINDOW,
            None => false,
        }
    }

    /// Notes the clause that a literal followed from.
    pub fn note(&mut self, lit: Lit, clause: usize) {
        if let Some(reason) = self.reasons.get_mut(lit.var) {
            *reason = (self.claim, clause);
        }
    }

    /// The clause that a literal followed from, where it was not of use before.
    fn reason(&mut self, lit: Lit) -> Option<usize> {
        let seen = self.seen.get_mut(lit.var)?;
        if *seen == self.claim {
            return None;
        }
        *seen = self.claim;
        match self.reasons.get(lit.var) {
            Some((claim, clause)) if *claim == self.claim => Some(*clause),
            _ => None,
        }
    }

    /// Marks a clause as used, and hands on the clauses that its literals followed from.
    fn mark_one(
        &mut self,
        claim: &Claim,
        clause: usize,
        todo: &mut Vec<usize>,
    ) -> Result<(), Memory> {
        if let Some(last) = self.last.get_mut(clause) {
            *last = self.claim;
        }
        let Some(lits) = claim.clause(clause) else {
            return Ok(());
        };
        for lit in lits {
            if let Some(reason) = self.reason(*lit) {
                todo.push(reason)?;
            }
        }
        Ok(())
    }

    /// Marks a clause of false literals as used, and all from which they followed.
    pub fn mark(&mut self, claim: &Claim, clause: usize) -> Result<(), Memory> {
        let mut todo = Vec::new(self.alloc);
        todo.push(clause)?;
        for _ in 0..u64::MAX {
            let Some(clause) = todo.pop() else {
                return Ok(());
            };
            self.mark_one(claim, clause, &mut todo)?;
        }
        Ok(())
    }
}
