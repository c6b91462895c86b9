//! The plain search: it decides one variable after the other, and stands behind the learning one.
ghost use Rattle.std.specs.Prelude.{◌≡◌, ◌<◌, ◌≤◌, ◌++◌, ◌∷◌, [], ◌↔◌, length, List, Contains, All, IfOk, IsTrue, OnOk, OnErr, false};
ghost use Rattle.sat_log.specs.Clauses.{opposite, MakesTrue, AreBelow};
ghost use Rattle.sat_log.specs.Refutation.{Clashes};
ghost use Rattle.sat_log.specs.declared.problem.Lit.{Lit};
ghost use Rattle.sat_core.specs.Learning.{IsPart};
ghost use Rattle.sat_core.specs.Bits.{against, IsFalse, HasFalse, IsLast, IsModel, Keeps};

use crate::Memory;
use mf_list::Seq;
use sat_log::{Clauses, Lit, Log};
use std::alloc::Global;

/// Whether the literal's variable has a bit, and that makes the literal false.
fn is_false_literal(lit: Lit, bits: &[bool]) -> bool
    ensures { IsTrue result ↔ MakesTrue bits.now (opposite lit) }
{
    match bits.get(lit.var) {
        Some(bit) => *bit == !lit.yes,
        None => false,
    }
}

fn is_false(clause: &[Lit], bits: &[bool]) -> bool
    ensures { IsTrue result ↔ IsFalse bits.now clause.now }
{
    clause.iter().all(|lit| is_false_literal(*lit, bits))
}

/// Whether the bits of the first variables make all literals of a clause false.
pub fn has_false(clauses: &Clauses, bits: &[bool]) -> bool
    ensures { IsTrue result ↔ HasFalse bits.now clauses.now.list }
{
    for clause in clauses.list.as_slice() {
        if is_false(clause.as_slice(), bits) {
            return true;
        }
    }
    false
}

/// The clause that the first variables don't all have these bits.
fn clause_against(alloc: Global, bits: &[bool]) -> Result<Seq<Lit>, Memory>
    ensures { IfOk result (λ c. c ≡ against bits.now) }
{
    let mut clause = Seq::new(alloc);
    for (var, bit) in bits.iter().enumerate() {
        clause.push(Lit { var, yes: !*bit })?;
    }
    Ok(clause)
}

/// Logs that clause.
fn deny(alloc: Global, clauses: &Clauses, log: &mut Log, bits: &[bool]) -> Result<(), Memory>
    requires part { IsPart clauses.now log.old }
    requires room { length bits.now ≤ clauses.now.vars }
    requires clash { Clashes (clauses.now.list ++ log.old.list) (against bits.now) }
    ensures part { IsPart clauses.now log.new }
    ensures denied { OnOk result (log.new.list ≡ log.old.list ++ against bits.now ∷ []) }
{
    let clause = clause_against(alloc, bits)?;
    log.list.push(clause)?;
    Ok(())
}

/// Gives the variables behind those that have a bit theirs, so that all clauses are satisfied, or logs that the bits
/// lead to nothing.
#[cycle(cases)]
pub fn decide(
    alloc: Global,
    clauses: &Clauses,
    log: &mut Log,
    bits: &mut Vec<bool>,
) -> Result<bool, Memory>
    requires below { AreBelow clauses.now.vars clauses.now.list }
    requires part { IsPart clauses.now log.old }
    requires room { length bits.old.items ≤ clauses.now.vars }
    ensures part { IsPart clauses.now log.new }
    ensures kept { OnOk result (Keeps log.old.list log.new.list) }
    ensures found { IfOk result (λ b. IsTrue b → IsModel clauses.now bits.new.items) }
    ensures denied { IfOk result (λ b. b ≡ false → (bits.new.items ≡ bits.old.items) × IsLast log.new.list (against bits.old.items)) }
{
    if has_false(clauses, bits) {
        deny(alloc, clauses, log, bits)?;
        return Ok(false);
    }
    if bits.len() >= clauses.vars {
        return Ok(true);
    }
    if decide_with(alloc, clauses, log, bits, false)? {
        return Ok(true);
    }
    if decide_with(alloc, clauses, log, bits, true)? {
        return Ok(true);
    }
    deny(alloc, clauses, log, bits)?;
    Ok(false)
}

/// The same with a bit for the next variable.
#[cycle(cases)]
fn decide_with(
    alloc: Global,
    clauses: &Clauses,
    log: &mut Log,
    bits: &mut Vec<bool>,
    bit: bool,
) -> Result<bool, Memory>
    requires below { AreBelow clauses.now.vars clauses.now.list }
    requires part { IsPart clauses.now log.old }
    requires room { length bits.old.items < clauses.now.vars }
    ensures part { IsPart clauses.now log.new }
    ensures kept { OnOk result (Keeps log.old.list log.new.list) }
    ensures found { IfOk result (λ b. IsTrue b → IsModel clauses.now bits.new.items) }
    ensures denied { IfOk result (λ b. b ≡ false → (bits.new.items ≡ bits.old.items) × Contains log.new.list (against (bits.old.items ++ bit ∷ []))) }
{
    let count = bits.len();
    bits.push(bit)?;
    if decide(alloc, clauses, log, bits)? {
        return Ok(true);
    }
    bits.truncate(count);
    Ok(false)
}
