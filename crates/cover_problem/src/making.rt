// The problem of what was derived.
ghost use Rattle.std.specs.Prelude.{◌≡◌, IfOk};
ghost use Rattle.cover_problem.specs.Problem.{IsProblem};

use crate::allowed::allowed;
use crate::copies::{derived_copy, names_copy};
use crate::exits::exits_of;
use crate::types::Problem;
use c_graph::Graph;
use mf_list::Memory;
use std::alloc::Global;
use ts_domain::{Derived, Facts, Names};

/// What a choice of puts has to meet, of what was derived from a graph, its names and its facts.
pub fn problem(
    alloc: Global,
    graph: &Graph,
    derived: &Derived,
    names: &Names,
    facts: &Facts,
) -> Result<Problem, Memory>
    ensures { IfOk result (IsProblem graph.now names.now facts.now.path derived.now) }
{
    let allowed = allowed(alloc, graph, names, &facts.path)?;
    let exits = exits_of(alloc, graph, derived.triples.as_slice())?;
    let names = names_copy(alloc, names)?;
    let derived = derived_copy(alloc, derived)?;
    Ok(Problem {
        names,
        derived,
        allowed,
        exits,
    })
}
