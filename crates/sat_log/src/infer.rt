//! What follows of a claim is noted.
ghost use Rattle.std.specs.Prelude.{◌≡◌, ◌<◌, length, true, false, IfOk, Contains};
ghost use Rattle.sat_log.specs.declared.problem.Lit.{Lit};
ghost use Rattle.sat_log.specs.Clauses.{opposite};
ghost use Rattle.sat_log.specs.Refutation.{Falls, Clashes};
ghost use Rattle.sat_log.specs.Propagation.{IsKnown, IsOut, Sound, base_of, open_count, Grows, IsAimed, HasRoom};

use crate::Lit;
use crate::claim::Claim;
use crate::facts::Facts;
use mf_list::Memory;

/// Makes an open literal true that follows.
pub fn conclude(facts: &mut Facts, claim: &Claim, lit: Lit) -> Result<(), Memory>
    requires sound { Sound claim.now facts.old }
    requires follows { Falls (base_of claim.now) claim.now.aim.now (opposite lit) }
    requires not_true { ¬ IsKnown facts.old.bits.items lit }
    requires not_false { ¬ IsOut facts.old.bits.items lit }
    ensures sound { IfOk result (λ _. Sound claim.now facts.new) }
    ensures grows { IfOk result (λ _. Grows facts.old facts.new) }
    ensures known { IfOk result (λ _. lit.var < length facts.old.bits.items → IsKnown facts.new.bits.items lit × (open_count facts.new.bits.items < open_count facts.old.bits.items)) }
{
    let _claim = claim;
    facts.learn(lit)?;
    Ok(())
}

/// Makes a literal of the aim false. True where it is true already, and so the claim holds.
fn assume(facts: &mut Facts, claim: &Claim, lit: Lit) -> Result<bool, Memory>
    requires sound { Sound claim.now facts.old }
    requires room { lit.var < length facts.old.bits.items }
    requires aim { Contains claim.now.aim.now lit }
    ensures sound { IfOk result (λ _. Sound claim.now facts.new) }
    ensures grows { IfOk result (λ _. Grows facts.old facts.new) }
    ensures clash { IfOk result (λ b. b ≡ true → Clashes (base_of claim.now) claim.now.aim.now) }
    ensures out { IfOk result (λ b. b ≡ false → IsOut facts.new.bits.items lit) }
{
    if facts.is_true(lit) {
        return Ok(true);
    }
    if facts.is_false(lit) {
        return Ok(false);
    }
    conclude(facts, claim, lit.opposite())?;
    Ok(false)
}

/// Makes the literals of the aim false. True where that contradicts what is known, and so the claim holds.
pub fn assume_all(facts: &mut Facts, claim: &Claim) -> Result<bool, Memory>
    requires sound { Sound claim.now facts.old }
    requires room { HasRoom claim.now facts.old }
    ensures sound { IfOk result (λ _. Sound claim.now facts.new) }
    ensures grows { IfOk result (λ _. Grows facts.old facts.new) }
    ensures clash { IfOk result (λ b. b ≡ true → Clashes (base_of claim.now) claim.now.aim.now) }
    ensures aimed { IfOk result (λ b. b ≡ false → IsAimed claim.now facts.new) }
{
    for lit in claim.aim {
        let clash = assume(facts, claim, *lit)?;
        if clash {
            return Ok(true);
        }
    }
    Ok(false)
}
