//! What the known bits say of clauses.
ghost use Rattle.std.specs.Prelude.{◌≡◌, ◌≢◌, ◌⊎◌, true, false, Some, IfSome, IfNone, Contains};
ghost use Rattle.sat_log.specs.declared.problem.Lit.{Lit};
ghost use Rattle.sat_log.specs.Propagation.{IsOut, Says, SaysAll};

use crate::Lit;
use crate::facts::Facts;
use mf_list::Seq;

/// All literals of a clause are false, or no more follows from it, or all are false but one, which is open.
#[derive(Clone, Copy, Debug, PartialEq, Eq)]
pub enum Look {
    Clash,
    Rests,
    Unit(Lit),
}

/// The first literal besides one that is not false.
pub fn free_besides(facts: &Facts, clause: &[Lit], besides: Option<Lit>) -> Option<Lit>
    ensures found { IfSome result (λ l. Contains clause.now l × ¬ IsOut facts.now.bits.items l × (besides ≢ Some l)) }
    ensures none { IfNone result ((o : Lit) → Contains clause.now o → (besides ≡ Some o) ⊎ IsOut facts.now.bits.items o) }
{
    for lit in clause {
        if besides != Some(*lit) && !facts.is_false(*lit) {
            return Some(*lit);
        }
    }
    None
}

/// Whether the clause has the literal.
pub fn has(clause: &[Lit], lit: Lit) -> bool
    ensures found { result ≡ true → Contains clause.now lit }
    ensures none { result ≡ false → (o : Lit) → Contains clause.now o → o ≢ lit }
{
    for one in clause {
        if *one == lit {
            return true;
        }
    }
    false
}

pub fn look_at(facts: &Facts, clause: &[Lit]) -> Look
    ensures { Says facts.now.bits.items clause.now result }
{
    let Some(first) = free_besides(facts, clause, None) else {
        return Look::Clash;
    };
    if facts.is_true(first) {
        return Look::Rests;
    }
    match free_besides(facts, clause, Some(first)) {
        Some(_) => Look::Rests,
        None => Look::Unit(first),
    }
}

/// The first clause of which something follows.
pub fn look_at_all(facts: &Facts, clauses: &[Seq<Lit>]) -> Look
    ensures { SaysAll facts.now.bits.items clauses.now result }
{
    for clause in clauses {
        match look_at(facts, clause.as_slice()) {
            Look::Rests => continue,
            Look::Clash => return Look::Clash,
            Look::Unit(lit) => return Look::Unit(lit),
        }
    }
    Look::Rests
}
