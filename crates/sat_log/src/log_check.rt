//! The check of a log, clause by clause.
ghost use Rattle.std.specs.Prelude.{◌≡◌, ◌<◌, ◌++◌, ◌∷◌, [], ◌↔◌, List, Bool, length, true, false, IsTrue, IfOk};
ghost use Rattle.sat_log.specs.declared.problem.Lit.{Lit};
ghost use Rattle.sat_log.specs.Clauses.{AreBelow, Satisfies};
ghost use Rattle.sat_log.specs.Refutation.{Clashes, Follows, IsLog};
ghost use Rattle.sat_log.specs.Propagation.{Settled, Sound, Grows, base_of, HasRoom};

use crate::claim::Claim;
use crate::closure::holds;
use crate::facts::Facts;
use crate::front::Front;
use crate::problem::are_below;
use crate::{Clauses, Lit, Log};
use mf_list::{Memory, Seq};
use std::alloc::Global;

fn ends_empty(list: &[Seq<Lit>]) -> bool
    ensures { IsTrue result ↔ ((before : List (List Lit)) × (list.now ≡ before ++ [] ∷ [])) }
{
    match list.split_last() {
        Some((last, _)) => last.is_empty(),
        None => false,
    }
}

/// Takes up the clauses of a claim without an aim. True where they clash at once.
fn settle(facts: &mut Facts, front: &mut Front, claim: &Claim) -> Result<bool, Memory>
    requires settled { Settled (base_of claim.now) facts.old }
    requires aimless { claim.now.aim.now ≡ [] }
    ensures settled { IfOk result (λ _. Settled (base_of claim.now) facts.new) }
    ensures places { IfOk result (λ _. length facts.new.bits.items ≡ length facts.old.bits.items) }
    ensures clash { IfOk result (λ b. b ≡ true → Clashes (base_of claim.now) []) }
{
    let clash = front.take_up(facts, claim)?;
    facts.trail.clear();
    Ok(clash)
}

/// Whether a claim holds.
fn clashes(facts: &mut Facts, front: &mut Front, claim: &Claim) -> Result<bool, Memory>
    requires sound { Sound claim.now facts.old }
    requires room { HasRoom claim.now facts.old }
    ensures sound { IfOk result (λ _. Sound claim.now facts.new) }
    ensures grows { IfOk result (λ _. Grows facts.old facts.new) }
    ensures clash { IfOk result (λ b. b ≡ true → Clashes (base_of claim.now) claim.now.aim.now) }
    ensures no_clash { IfOk result (λ b. b ≡ false → ¬ Clashes (base_of claim.now) claim.now.aim.now) }
{
    let shown = front.shows(facts, claim)?;
    if shown {
        return Ok(true);
    }
    let clash = holds(facts, claim)?;
    Ok(clash)
}

/// Whether a claim holds. What is known without its aim stays.
fn decide(facts: &mut Facts, front: &mut Front, claim: &Claim) -> Result<bool, Memory>
    requires settled { Settled (base_of claim.now) facts.old }
    requires room { HasRoom claim.now facts.old }
    ensures settled { IfOk result (λ _. Settled (base_of claim.now) facts.new) }
    ensures places { IfOk result (λ _. length facts.new.bits.items ≡ length facts.old.bits.items) }
    ensures clash { IfOk result (λ b. b ≡ true → Clashes (base_of claim.now) claim.now.aim.now) }
    ensures no_clash { IfOk result (λ b. b ≡ false → ¬ Clashes (base_of claim.now) claim.now.aim.now) }
{
    let clash = clashes(facts, front, claim)?;
    facts.forget();
    Ok(clash)
}

/// Whether each clause of a list clashes over the given ones and those before it.
fn follows(
    facts: &mut Facts,
    front: &mut Front,
    given: &[Seq<Lit>],
    list: &[Seq<Lit>],
) -> Result<bool, Memory>
    requires settled { Settled given.now facts.old }
    requires given_below { AreBelow (length facts.old.bits.items) given.now }
    requires list_below { AreBelow (length facts.old.bits.items) list.now }
    ensures { IfOk result (λ b. IsTrue b ↔ Follows given.now list.now) }
{
    for at in 0..list.len() {
        let earlier = &list[..at];
        let clash = settle(
            facts,
            front,
            &Claim {
                given,
                earlier,
                aim: &[],
            },
        )?;
        if clash {
            return Ok(true);
        }
        let aim = list[at].as_slice();
        let clash = decide(
            facts,
            front,
            &Claim {
                given,
                earlier,
                aim,
            },
        )?;
        if !clash {
            return Ok(false);
        }
    }
    Ok(true)
}

/// Whether a log refutes clauses: each of its clauses follows by unit propagation from them and the log's earlier
/// ones, and the last is empty. No variable of the log may be `vars` or above.
pub fn refutes(alloc: Global, clauses: &Clauses, log: &Log) -> Result<bool, Memory>
    requires { AreBelow clauses.now.vars clauses.now.list }
    ensures exact { IfOk result (λ b. IsTrue b ↔ IsLog clauses.now log.now) }
    ensures refuted { IfOk result (λ b. IsTrue b → (bits : List Bool) → ¬ Satisfies bits clauses.now.list) }
{
    let list = log.list.as_slice();
    if !are_below(clauses.vars, list) {
        return Ok(false);
    }
    if !ends_empty(list) {
        return Ok(false);
    }
    let mut facts = Facts::new(alloc, clauses.vars)?;
    let mut front = Front::new(alloc, clauses.vars)?;
    let follows = follows(&mut facts, &mut front, clauses.list.as_slice(), list)?;
    Ok(follows)
}
