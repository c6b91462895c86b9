// The clauses of a problem.
ghost use Rattle.std.specs.Prelude.{◌≡◌, ◌≤◌, length, Err, IfOk};
ghost use Rattle.c_tree.specs.declared.choice.Choice.{Choice as Chosen};
ghost use Rattle.sat_log.specs.Clauses.{AreBelow, Satisfies};
ghost use Rattle.cover_problem.specs.Problem.{HasRooms, IsCoverOf};
ghost use Rattle.cover_clauses.specs.Clauses.{bits_of, AreClauses, HasMore};

use crate::candidates::exit_sets;
use crate::conflicts::conflicts;
use crate::listing::{has_more, list, variables_of};
use crate::usable::usable;
use c_tree::{Limit, Refusal};
use cover_problem::Problem;
use sat_log::Clauses;
use std::alloc::Global;

/// The greatest number of clauses.
const MOST_CLAUSES: usize = 2_000_000;

/// The clauses of a problem, each once: bits that satisfy them and covers correspond.
///
/// # Errors
/// `Limit::Clauses` where there are more than 2,000,000.
pub fn clauses(alloc: Global, problem: &Problem) -> Result<Clauses, Refusal>
    requires rooms { HasRooms problem.now }
    ensures ok { IfOk result (AreClauses problem.now) }
    ensures below { IfOk result (λ c. AreBelow c.vars c.list) }
    ensures within { IfOk result (λ c. length c.list ≤ 2000000) }
    ensures only { (l : Limit) → result ≡ Err (Refusal.Limit l) → l ≡ Limit.Clauses }
    ensures few { IfOk result (λ c. HasMore problem.now 2000000 → ⊥) }
    ensures limit { result ≡ Err (Refusal.Limit Limit.Clauses) → HasMore problem.now 2000000 }

    // The bits of each cover satisfy them.
    ensures covers { IfOk result (λ c. (s : Chosen) → IsCoverOf problem.now s → Satisfies (bits_of problem.now s) c.list) }
{
    let usable = usable(alloc, problem)?;
    let sets = exit_sets(alloc, &usable, problem.exits.as_slice())?;
    let rows = conflicts(alloc, problem, &usable)?;
    if has_more(MOST_CLAUSES, sets.len(), rows.as_slice()) {
        return Err(Refusal::Limit(Limit::Clauses));
    }
    let variables = variables_of(alloc, problem, &usable)?;
    let list = list(alloc, &variables, sets.as_slice(), rows.as_slice())?;
    Ok(Clauses {
        vars: variables.count,
        list,
    })
}
