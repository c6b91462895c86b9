//! A visit of one clause, of which a watched literal became false.
ghost use Rattle.std.specs.Prelude.{◌≡◌, IfOk};
ghost use Rattle.sat_log.specs.Propagation.{Sound, Grows, Finds};

use crate::Lit;
use crate::claim::Claim;
use crate::facts::Facts;
use crate::infer::conclude;
use crate::look::{free_besides, has};
use mf_list::Memory;

/// All literals are false; or the literals watched stay; or one of them moves to this literal.
#[derive(Clone, Copy, Debug)]
pub enum Visit {
    Clash,
    Stays,
    Moves(Lit),
}

/// Seeks a literal besides the other one that is watched, and where all are false notes that the other is true.
pub fn visit_at(facts: &mut Facts, claim: &Claim, at: usize, other: Lit) -> Result<Visit, Memory>
    requires { Sound claim.now facts.old }
    ensures sound { IfOk result (λ _. Sound claim.now facts.new) }
    ensures grows { IfOk result (λ _. Grows facts.old facts.new) }
    ensures finds { IfOk result (λ v. Finds claim.now v) }
{
    let Some(clause) = claim.clause(at) else {
        return Ok(Visit::Stays);
    };
    if let Some(lit) = free_besides(facts, clause, Some(other)) {
        return Ok(Visit::Moves(lit));
    }
    if facts.is_false(other) {
        return Ok(Visit::Clash);
    }
    if facts.is_true(other) || !has(clause, other) {
        return Ok(Visit::Stays);
    }
    conclude(facts, claim, other)?;
    Ok(Visit::Stays)
}
