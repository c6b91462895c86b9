//! The answer, right whatever the search did: its bits are checked, and where it found nothing the plain search decides.
ghost use Rattle.std.specs.Prelude.{◌≡◌, ◌↔◌, length, List, Bool, IfOk, IsTrue};
ghost use Rattle.sat_log.specs.Clauses.{AreBelow, Satisfies};
ghost use Rattle.sat_core.specs.Learning.{IsPart};
ghost use Rattle.sat_core.specs.Bits.{IsModel};
ghost use Rattle.sat_core.specs.Answer.{IsFoundRight, IsRight, IsUnsat};

use crate::code::MAX_VARS;
use crate::learning::End;
use crate::marks::Marks;
use crate::search::Search;
use crate::{Memory, learning, plain};
use mf_list::Seq;
use sat_log::{Clauses, Log};
use std::alloc::Global;

/// Bits that satisfy the clauses, one for each variable, or a log that refutes them.
#[derive(Debug, Drop)]
pub enum Answer {
    Sat(Vec<bool>),
    Unsat(Log),
}

/// What the learning search comes to.
#[derive(Drop)]
enum Found {
    Model(Vec<bool>),
    /// The log ends in the empty clause.
    Refuted,
    Nothing,
}

/// Bits that satisfy all clauses, or a log that shows that no bits do.
///
/// `hint` has a bit for each variable, which is tried first where the variable is decided. It takes as long as it needs.
pub fn solve(alloc: Global, clauses: &Clauses, hint: &[bool]) -> Result<Answer, Memory>
    requires below { AreBelow clauses.now.vars clauses.now.list }
    requires hints { length hint.now ≡ clauses.now.vars }
    ensures right { IfOk result (IsRight clauses.now) }

    ensures unsat { IfOk result (λ a. IsUnsat a ↔ ((bits : List Bool) → Satisfies bits clauses.now.list → ⊥)) }
{
    let answer = decide(alloc, clauses, hint)?;
    Ok(answer)
}

fn decide(alloc: Global, clauses: &Clauses, hint: &[bool]) -> Result<Answer, Memory>
    requires { AreBelow clauses.now.vars clauses.now.list }
    ensures { IfOk result (IsRight clauses.now) }
{
    let mut log = Log {
        list: Seq::new(alloc),
    };
    match search(alloc, clauses, hint, &mut log)? {
        Found::Model(bits) => Ok(Answer::Sat(bits)),
        Found::Refuted => Ok(Answer::Unsat(log)),
        Found::Nothing => {
            let answer = search_plainly(alloc, clauses, log)?;
            Ok(answer)
        }
    }
}

fn search(alloc: Global, clauses: &Clauses, hint: &[bool], log: &mut Log) -> Result<Found, Memory>
    requires below { AreBelow clauses.now.vars clauses.now.list }
    requires part { IsPart clauses.now log.old }
    ensures part { IsPart clauses.now log.new }
    ensures right { IfOk result (IsFoundRight clauses.now log.new) }
{
    if clauses.vars > MAX_VARS {
        return Ok(Found::Nothing);
    }
    let mut state = Search::new(alloc, clauses.vars, hint)?;
    let mut marks = Marks::new(alloc, clauses.vars)?;
    match learning::search(alloc, &mut state, clauses, log, &mut marks)? {
        End::Refuted => Ok(Found::Refuted),
        End::Stuck => Ok(Found::Nothing),
        End::Model => {
            let bits = state.bits(clauses.vars)?;
            if is_model(clauses, &bits) {
                return Ok(Found::Model(bits));
            }
            Ok(Found::Nothing)
        }
    }
}

fn is_model(clauses: &Clauses, bits: &[bool]) -> bool
    requires { AreBelow clauses.now.vars clauses.now.list }
    ensures { IsTrue result ↔ IsModel clauses.now bits.now }
{
    if bits.len() != clauses.vars || plain::has_false(clauses, bits) {
        return false;
    }
    true
}

/// Goes on from the log by the plain search.
fn search_plainly(alloc: Global, clauses: &Clauses, log: Log) -> Result<Answer, Memory>
    requires below { AreBelow clauses.now.vars clauses.now.list }
    requires part { IsPart clauses.now log }
    ensures { IfOk result (IsRight clauses.now) }
{
    let mut log = log;
    let mut bits = Vec::new(alloc);
    if plain::decide(alloc, clauses, &mut log, &mut bits)? {
        return Ok(Answer::Sat(bits));
    }
    Ok(Answer::Unsat(log))
}
