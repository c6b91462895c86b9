//! The clauses of the problem with those learned so far.

ghost use Rattle.std.specs.Prelude.{◌≡◌, ◌++◌, ◌∷◌, [], Contains, IfSome, IfOk, IsTrue, All, ◌<◌};
ghost use Rattle.sat_core.specs.Learning.{clauses_of, IsPart, Refutable};

use crate::Memory;
use crate::marks::Marks;
use mf_list::Seq;
use sat_log::{Clauses, Lit, Log};
use std::alloc::Global;

/// What learned clauses follow from. The clauses have the first numbers, and those of the log go on from there.
#[derive(Clone, Copy)]
pub struct Known<'a> {
    pub clauses: &'a Clauses,
    pub log: &'a Log,
}

impl<'a> Known<'a> {
    pub fn clause(self, number: usize) -> Option<&'a [Lit]>
        ensures { IfSome result (λ c. Contains (clauses_of self.entry) c.now) }
    {
        let given = self.clauses.list.len();
        if number < given {
            return Some(self.clauses.list.at(number).as_slice());
        }
        match self.log.list.get(number - given) {
            Some(clause) => Some(clause.as_slice()),
            None => None,
        }
    }

    /// How many clauses there are.
    pub fn count(self) -> usize {
        self.clauses.list.len().wrapping_add(self.log.list.len())
    }
}

/// Whether the variables of the clause are below the number.
fn is_below(clause: &[Lit], vars: usize) -> bool
    ensures { IsTrue result → All (λ l. l.var < vars) clause.now }
{
    clause.iter().all(|lit| lit.var < vars)
}

/// Adds the marked literals to the log, as a clause. It answers false, and adds nothing, where one of them has a
/// variable that the problem has not.
pub fn learn(alloc: Global, clauses: &Clauses, log: &mut Log, marks: &Marks) -> Result<bool, Memory>
    requires part { IsPart clauses.now log.old }
    requires refutable { Refutable (clauses.now.list ++ log.old.list) marks.now.list.items }
    ensures part { IsPart clauses.now log.new }
    ensures added { IfOk result (λ b. IsTrue b → log.new.list ≡ log.old.list ++ marks.now.list.items ∷ []) }
{
    if !is_below(marks.list.as_slice(), clauses.vars) {
        return Ok(false);
    }
    let clause = Seq::from_slice(alloc, marks.list.as_slice())?;
    log.list.push(clause)?;
    Ok(true)
}
