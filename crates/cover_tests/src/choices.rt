//! What the solver finds for a cover problem.
ghost use Rattle.std.specs.Prelude.{◌≡◌, length};
ghost use Rattle.cover_clauses.specs.Clauses.{variables};
ghost use Rattle.cover_problem.specs.Problem.{HasRooms};
ghost use Rattle.sat_log.specs.Clauses.{AreBelow};

use c_tree::{Choice, Refusal};
use cover_clauses::{choice_of, clauses};
use cover_problem::Problem;
use mf_list::Memory;
use sat_core::{Answer, solve};
use sat_log::{Clauses, Log};
use std::alloc::Global;

/// A choice of puts, or the clauses with a log that no bits satisfy them.
#[derive(Drop)]
pub enum Found {
    Puts(Choice),
    Nothing(Clauses, Log),
}

fn searched(
    alloc: Global,
    problem: &Problem,
    clauses: Clauses,
    hints: &[bool],
) -> Result<Found, Memory>
    requires rooms { HasRooms problem.now }
    requires counted { clauses.vars ≡ variables problem.now }
    requires below { AreBelow clauses.vars clauses.list }
    requires hints { length hints.now ≡ clauses.vars }
{
    match solve(alloc, &clauses, hints)? {
        Answer::Sat(bits) => {
            let choice = choice_of(alloc, problem, bits.as_slice())?;
            Ok(Found::Puts(choice))
        }
        Answer::Unsat(log) => Ok(Found::Nothing(clauses, log)),
    }
}

/// What the solver finds, where the hint has this bit for each variable.
pub fn solved(alloc: Global, problem: &Problem, hint: bool) -> Result<Found, Refusal>
    requires { HasRooms problem.now }
{
    let clauses = clauses(alloc, problem)?;
    let hints = vec![in alloc; hint; clauses.vars]?;
    let found = searched(alloc, problem, clauses, hints.as_slice())?;
    Ok(found)
}

/// The choice of all puts that have a variable.
pub fn all_puts(alloc: Global, problem: &Problem, clauses: &Clauses) -> Result<Choice, Memory>
    requires rooms { HasRooms problem.now }
    requires counted { clauses.now.vars ≡ variables problem.now }
{
    let bits = vec![in alloc; true; clauses.vars]?;
    choice_of(alloc, problem, bits.as_slice())
}
