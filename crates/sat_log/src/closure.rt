//! Unit propagation to its end, by looking at all clauses: exact, and slow where much follows.
ghost use Rattle.std.specs.Prelude.{◌≡◌, true, false, IfOk};
ghost use Rattle.sat_log.specs.Refutation.{Clashes};
ghost use Rattle.sat_log.specs.Propagation.{Sound, SaysAll, base_of, Grows, HasRoom};

use crate::claim::Claim;
use crate::facts::Facts;
use crate::infer::{assume_all, conclude};
use crate::look::{Look, look_at_all};
use mf_list::Memory;

/// The first clause of a claim of which something follows.
fn look_at_base(facts: &Facts, claim: &Claim) -> Look
    ensures { SaysAll facts.now.bits.items (base_of claim.now) result }
{
    match look_at_all(facts, claim.given) {
        Look::Rests => look_at_all(facts, claim.earlier),
        Look::Clash => Look::Clash,
        Look::Unit(lit) => Look::Unit(lit),
    }
}

/// Whether the claim holds.
pub fn holds(facts: &mut Facts, claim: &Claim) -> Result<bool, Memory>
    requires sound { Sound claim.now facts.old }
    requires room { HasRoom claim.now facts.old }
    ensures sound { IfOk result (λ _. Sound claim.now facts.new) }
    ensures grows { IfOk result (λ _. Grows facts.old facts.new) }
    ensures clash { IfOk result (λ b. b ≡ true → Clashes (base_of claim.now) claim.now.aim.now) }
    ensures no_clash { IfOk result (λ b. b ≡ false → ¬ Clashes (base_of claim.now) claim.now.aim.now) }
{
    let clash = assume_all(facts, claim)?;
    if clash {
        return Ok(true);
    }
    loop {
        match look_at_base(facts, claim) {
            Look::Clash => return Ok(true),
            Look::Rests => return Ok(false),
            Look::Unit(lit) => conclude(facts, claim, lit)?,
        }
    }
}
